//! What may be wrong with the text of a tag name, a custom element's name or an attribute name.

ghost use Rattle.std.specs.Prelude.{◌≡◌};

use std::alloc::{AllocError, AllocFailed};
use thiserror::Error;

/// The reason why a text is not the name of a tag or an attribute.
#[derive(Debug, Drop, PartialEq, Eq, Error)]
pub enum NameFault {
    /// An allocation failed.
    #[error("out of memory")]
    OutOfMemory,
    /// The tag name is empty.
    #[error("tag name must not be empty")]
    EmptyTag,
    /// A character is not valid in a tag name. The first such character is reported.
    #[error("a character is not valid in a tag name")]
    BadTagChar(char),
    /// A name with a hyphen does not begin with a lowercase ASCII letter.
    #[error("custom element name must start with a lowercase letter")]
    CustomStart,
    /// A name with a hyphen contains an uppercase ASCII letter.
    #[error("custom element name must not contain uppercase letters")]
    CustomCapital,
    /// The name has a hyphen, and HTML reserves it for SVG and MathML.
    #[error("name is reserved and not valid for a custom element")]
    Reserved,
    /// The attribute name is empty.
    #[error("attribute name must not be empty")]
    EmptyAttr,
    /// A character is not valid in an attribute name. The first such character is reported.
    #[error("a character is not valid in an attribute name")]
    BadAttrChar(char),
}

impl NameFault {
    ghost use Rattle.html_names_core.specs.NameFaults.{number_of};

    /// Returns the fault's number, from 0 to 7 in the order of the variants.
    pub fn number(&self) -> u8
        ensures { result ≡ number_of self.now }
    {
        match self {
            NameFault::OutOfMemory => 0,
            NameFault::EmptyTag => 1,
            NameFault::BadTagChar(_) => 2,
            NameFault::CustomStart => 3,
            NameFault::CustomCapital => 4,
            NameFault::Reserved => 5,
            NameFault::EmptyAttr => 6,
            NameFault::BadAttrChar(_) => 7,
        }
    }
}

impl From<AllocError> for NameFault {
    ghost use Rattle.html_names_core.specs.declared.fault.NameFault.TheVariants.{OutOfMemory};

    ghost from_gives = { λ _ e. e ≡ OutOfMemory };

    fn from(_refused: AllocError) -> NameFault {
        NameFault::OutOfMemory
    }
}

impl<T: Drop> From<AllocFailed<T>> for NameFault {
    ghost use Rattle.html_names_core.specs.declared.fault.NameFault.TheVariants.{OutOfMemory};

    ghost from_gives = { λ _ e. e ≡ OutOfMemory };

    fn from(_failed: AllocFailed<T>) -> NameFault {
        NameFault::OutOfMemory
    }
}
