//! Warnings of values that have no css, and the sinks that receive them.

ghost use Rattle.std.specs.Prelude.{◌≡◌, List, [], ◌∷◌, Ok, Option, Result, Some, None};
ghost use base.Fml.{GName};
ghost use Rattle.html_values_css.specs.{Sink.{AddsAtMost, KeepsWarning, TakesWarning, Hands}, declared.sink.Warning.{Warning}};
ghost use Rattle.std.specs.declared.alloc.AllocError.{AllocError};

use std::alloc::AllocError;
use thiserror::Error;

/// Something that export ignored.
#[derive(Clone, Copy, Debug, PartialEq, Eq, Error)]
pub enum Warning {
    /// A gradient as a colour.
    #[error("gradient was ignored during HTML export")]
    Gradient,
    /// A tiling as a colour.
    #[error("tiling was ignored during HTML export")]
    Tiling,
}

/// A receiver of warnings.
///
/// Its law: `emit` appends at most that warning to the list of warnings. `emit_gives` says what
/// else a sink does.
///
/// A complete implementation, which stores the warnings that it receives:
///
/// ```
/// ghost use Rattle.std.specs.Prelude.{None};
/// ghost use Rattle.html_values.specs.Sink.{KeepsWarning};
///
/// use html_values::{Warning, WarningSink};
/// use std::alloc::AllocError;
///
/// /// Keeps the warnings of one document.
/// #[derive(Drop)]
/// struct Kept {
///     document: u32,
///     warnings: Vec<Warning>,
/// }
///
/// impl WarningSink for Kept {
///     ghost warnings = { λ kept. kept.warnings.items };
///
///     ghost emit_gives = { λ old warning result new.
///         KeepsWarning old.warnings.items warning result new.warnings.items };
///
///     ghost borrow = { λ _. None };
///
///     fn emit(&mut self, warning: Warning) -> Result<(), AllocError> {
///         self.warnings.push(warning)?;
///         Ok(())
///     }
/// }
/// ```
pub trait WarningSink {
    /// The warnings so far, if the sink stores them.
    ghost warnings: { Self → List Warning };

    /// What `emit` does to a sink: the sink before, the warning, the outcome, the sink after.
    ghost emit_gives: { Self → Warning → Result (Unit {0}) AllocError → Self → Type 0 };

    /// The borrow that the sink is, if it is one.
    ghost borrow: { Self → Option GName };

    /// Receives a warning.
    fn emit(&mut self, warning: Warning) -> Result<(), AllocError>
        ensures adds { AddsAtMost (warnings self.old) (warnings self.new) warning }
        ensures gives { emit_gives self.old warning result self.new }
        ensures same_borrow { borrow self.new ≡ borrow self.old };
}

/// Appends the warning, unless an allocation fails.
impl WarningSink for Vec<Warning> {
    ghost warnings = { λ v. v.items };

    ghost emit_gives = { λ v warning result w. KeepsWarning v.items warning result w.items };

    ghost borrow = { λ _. None };

    fn emit(&mut self, warning: Warning) -> Result<(), AllocError> {
        self.push(warning)?;
        Ok(())
    }
}

/// Drops the warning.
impl WarningSink for () {
    ghost warnings = { λ _. [] };

    ghost emit_gives = { λ _ _ result _. result ≡ Ok tt };

    ghost borrow = { λ _. None };

    fn emit(&mut self, _warning: Warning) -> Result<(), AllocError> {
        Ok(())
    }
}

/// Does what the referenced sink does.
impl<S: WarningSink> WarningSink for &mut S {
    ghost warnings = { λ s. S.warnings s.now };

    ghost emit_gives = { λ s warning result t. S.emit_gives s.now warning result t.now };

    ghost borrow = { λ s. Some s.ghost_name };

    fn emit(&mut self, warning: Warning) -> Result<(), AllocError> {
        (**self).emit(warning)
    }
}

pub(crate) fn pass_on<S: WarningSink>(warnings: &[Warning], sink: &mut S) -> Result<(), AllocError>
    ensures { Hands (TakesWarning S.warnings S.borrow S.emit_gives) result sink.old warnings.now sink.new }
{
    for warning in warnings {
        sink.emit(*warning)?;
    }
    Ok(())
}
