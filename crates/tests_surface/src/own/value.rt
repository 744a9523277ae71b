//! A css value of one's own.

ghost use Rattle.std.specs.Prelude.{chars, ◌++◌, []};

use html_values::{CssWriter, ToCss, WarningSink};
use std::alloc::AllocError;

/// A number, which is given as it is written, and its unit.
#[derive(Clone, Copy)]
struct Dimension<'a> {
    number: &'a str,
    unit: &'a str,
}

impl ToCss for Dimension<'_> {
    ghost text = { λ d. chars d.number.now ++ chars d.unit.now };

    ghost warnings = { λ _. [] };

    fn emit<S: WarningSink>(&self, out: &mut CssWriter<S>) -> Result<(), AllocError> {
        out.write(self.number)?;
        out.write(self.unit)
    }
}

#[test]
fn a_value_has_its_text(rt: HostRuntime) -> tests_asserts::TestResult {
    let (number, unit) = ("1", "s");
    let mut out = CssWriter::new(rt.alloc(), ());
    out.write("left ")?;
    out.emit(&Dimension { number, unit })?;
    tests_asserts::assert_text(out.text(), "left 1s")
}
