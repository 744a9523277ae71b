//! A sink of one's own.

ghost use Rattle.std.specs.Prelude.{None};
ghost use Rattle.html_values.specs.Sink.{KeepsWarning};

use html_values::{Warning, WarningSink};
use std::alloc::AllocError;

/// Keeps the warnings of one document.
#[derive(Drop)]
struct Kept {
    document: u32,
    warnings: Vec<Warning>,
}

impl WarningSink for Kept {
    ghost warnings = { λ kept. kept.warnings.items };

    ghost emit_gives = { λ old warning result new.
        KeepsWarning old.warnings.items warning result new.warnings.items };

    ghost borrow = { λ _. None };

    fn emit(&mut self, warning: Warning) -> Result<(), AllocError> {
        self.warnings.push(warning)?;
        Ok(())
    }
}

#[test]
fn a_sink_keeps_what_it_takes(rt: HostRuntime) -> tests_asserts::TestResult {
    use html_values::{Paint, ToCss};
    let (document, warnings) = (3, Vec::new(rt.alloc()));
    let mut kept = Kept { document, warnings };
    let _ = Paint::Tiling.to_css(rt.alloc(), &mut kept)?;
    let _ = Paint::Gradient.to_css(rt.alloc(), &mut kept)?;
    let wanted = [Warning::Tiling, Warning::Gradient];
    assert!(rt; kept.document == 3 && kept.warnings.as_slice() == wanted.as_slice());
    Ok(())
}
