//! The error of a failed allocation that gives back the values which the call consumed.

ghost use Rattle.std.specs.Prelude.{◌≡◌};

use crate::fault::NameFault;
use std::alloc::AllocError;
use std::error::Error;
use std::fmt;

/// The error of a failed allocation in a call that consumes values. It holds them unchanged.
///
/// It implements `Error` for every type of value, so that `?` passes it on as any other error.
///
/// ```
/// use html_names::Refused;
/// use html_values::Properties;
///
/// let mut properties = Properties::new(rt.alloc());
/// let color = String::from_str(rt.alloc(), "red")?;
/// match properties.push("color", color) {
///     Ok(()) => assert_eq!(rt; properties.as_slice().len(), 1),
///     Err(Refused { back }) => assert_eq!(rt; back.as_str(), "red"), // to be stored later
/// }
/// ```
#[derive(Drop, PartialEq, Eq)]
pub struct Refused<T> {
    /// The value that the call consumed.
    pub back: T,
}

impl<T> Refused<T> {
    /// Returns 0, the number of "out of memory" among the faults.
    pub fn number(&self) -> u8
        ensures { result ≡ 0 }
    {
        0
    }
}

/// Writes `out of memory`.
impl<T> fmt::Display for Refused<T> {
    ghost use Rattle.std.specs.Prelude.{codes, Some};

    ghost output = { λ _. Some (codes "out of memory") };

    fn fmt<W: fmt::Write>(&self, f: &mut fmt::Formatter<W>) -> fmt::Result {
        write!(f, "out of memory")
    }
}

/// Writes `Refused(..)`.
impl<T> fmt::Debug for Refused<T> {
    ghost use Rattle.std.specs.Prelude.{codes, Some};

    ghost debug_output = { λ _. Some (codes "Refused(..)") };

    fn fmt<W: fmt::Write>(&self, f: &mut fmt::Formatter<W>) -> fmt::Result {
        write!(f, "Refused(..)")
    }
}

impl<T: Drop> Error for Refused<T> {}

impl<T: Drop> From<Refused<T>> for AllocError {
    fn from(_refused: Refused<T>) -> AllocError {
        AllocError
    }
}

impl<T: Drop> From<Refused<T>> for NameFault {
    ghost use Rattle.html_names_core.specs.declared.fault.NameFault.TheVariants.{OutOfMemory};

    ghost from_gives = { λ _ fault. fault ≡ OutOfMemory };

    fn from(_refused: Refused<T>) -> NameFault {
        NameFault::OutOfMemory
    }
}
