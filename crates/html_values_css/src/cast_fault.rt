//! The faults of casting a value to the text of an attribute.

ghost use Rattle.std.specs.Prelude.{◌≡◌};

use html_names_core::Refused;
use std::alloc::{AllocError, AllocFailed};
use thiserror::Error;

/// Why a value has no text as an attribute of a type.
#[derive(Clone, Copy, Debug, PartialEq, Eq, Error)]
pub enum CastFault {
    /// An allocation failed.
    #[error("out of memory")]
    OutOfMemory,
    /// The type does not accept values of this kind.
    #[error("the value has the wrong kind")]
    WrongKind,
    /// The text is none of those that the type lists.
    #[error("the text is not one of the allowed ones")]
    NotInStrings,
    /// The number is below the type's least.
    #[error("the number is out of range")]
    NumberRange,
    /// The text does not have exactly one character, as required.
    #[error("expected exactly one character")]
    NotOneChar,
    /// The direction is from top to bottom, or from bottom to top.
    #[error("direction must be horizontal")]
    VerticalDir,
    /// An image's source is empty, or begins or ends with a comma.
    #[error("src must not be empty or start or end with a comma")]
    BadImageSource,
    /// The text of a list's item contains the list's separator.
    #[error("array item may not contain the separator")]
    SeparatorInItem,
    /// The year is outside 1 to 9999.
    #[error("the year is out of range")]
    YearRange,
}

impl CastFault {
    ghost use Rattle.html_values_css.specs.CastFaults.{number_of};

    /// Returns the number: 0 for out of memory, and from 16 on in the order of the variants.
    pub fn number(&self) -> u8
        ensures { result ≡ number_of self.now }
    {
        match self {
            CastFault::OutOfMemory => 0,
            CastFault::WrongKind => 16,
            CastFault::NotInStrings => 17,
            CastFault::NumberRange => 18,
            CastFault::NotOneChar => 19,
            CastFault::VerticalDir => 20,
            CastFault::BadImageSource => 21,
            CastFault::SeparatorInItem => 22,
            CastFault::YearRange => 23,
        }
    }
}

impl From<AllocError> for CastFault {
    ghost use Rattle.html_values_css.specs.declared.cast_fault.CastFault.TheVariants.{OutOfMemory};

    ghost from_gives = { λ _ e. e ≡ OutOfMemory };

    fn from(_refused: AllocError) -> CastFault {
        CastFault::OutOfMemory
    }
}

impl<T: Drop> From<AllocFailed<T>> for CastFault {
    ghost use Rattle.html_values_css.specs.declared.cast_fault.CastFault.TheVariants.{OutOfMemory};

    ghost from_gives = { λ _ e. e ≡ OutOfMemory };

    fn from(_refused: AllocFailed<T>) -> CastFault {
        CastFault::OutOfMemory
    }
}

impl<T: Drop> From<Refused<T>> for CastFault {
    ghost use Rattle.html_values_css.specs.declared.cast_fault.CastFault.TheVariants.{OutOfMemory};

    ghost from_gives = { λ _ e. e ≡ OutOfMemory };

    fn from(_refused: Refused<T>) -> CastFault {
        CastFault::OutOfMemory
    }
}
