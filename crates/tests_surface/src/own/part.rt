//! A part of sums of one's own.

ghost use Rattle.std.specs.Prelude.{neg_ℤ, refl, []};
ghost use Rattle.html_values.specs.Quantities.{abs_text};

use html_values::{Abs, CalcPart, CssWriter, ToCss, WarningSink};
use std::alloc::AllocError;

/// The space between two columns.
#[derive(Clone, Copy)]
struct Gap {
    width: Abs,
}

impl ToCss for Gap {
    ghost text = { λ gap. abs_text gap.width };

    ghost warnings = { λ _. [] };

    fn emit<S: WarningSink>(&self, out: &mut CssWriter<S>) -> Result<(), AllocError> {
        self.width.emit(out)
    }
}

impl CalcPart for Gap {
    ghost number = { λ gap. gap.width };

    ghost opposite = { λ gap. record { width = neg_ℤ gap.width } };

    ghost negates = { λ _. refl };

    fn is_zero(&self) -> bool {
        self.width.is_zero()
    }

    fn is_negative(&self) -> bool {
        self.width.is_negative()
    }

    fn negated(&self) -> Gap {
        Gap {
            width: self.width.negated(),
        }
    }
}

#[test]
fn a_part_is_added(rt: HostRuntime) -> tests_asserts::TestResult {
    use html_values::{Calc, Ratio};
    let width = Abs::from_millionths(-2_000_000);
    let mut out = CssWriter::new(rt.alloc(), ());
    let mut sum: Calc<'_, ()> = out.calc();
    sum.sum(&Ratio::from_millionths(500_000))?;
    sum.sum(&Gap { width })?;
    sum.finish()?;
    tests_asserts::assert_text(out.text(), "calc(50% - 2pt)")
}
