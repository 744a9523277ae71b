//! A css value of one's own that has no text.

ghost use Rattle.std.specs.Prelude.{◌∷◌, []};
ghost use Rattle.html_values.specs.Warning.TheVariants.{Gradient};

use html_values::{CssWriter, ToCss, Warning, WarningSink};
use std::alloc::AllocError;

/// A colour that changes from left to right.
#[derive(Clone, Copy)]
struct Fading;

impl ToCss for Fading {
    ghost text = { λ _. [] };

    ghost warnings = { λ _. Gradient ∷ [] };

    fn emit<S: WarningSink>(&self, out: &mut CssWriter<S>) -> Result<(), AllocError> {
        out.fail(Warning::Gradient)
    }
}

#[test]
fn a_value_may_warn(rt: HostRuntime) -> tests_asserts::TestResult {
    let mut warnings = Vec::new(rt.alloc());
    tests_asserts::assert_text(&Fading.to_css(rt.alloc(), &mut warnings)?, "")?;
    assert!(rt; warnings.as_slice() == [Warning::Gradient].as_slice());
    Ok(())
}
