//! Why a text is not read as a written page: its depth, its syntax, or no memory.

ghost use Rattle.std.specs.Prelude.{◌≡◌};
ghost use Rattle.typst_html_read.specs.ReadFaults.{number_of};

use html_names_core::Refused;
use html_text::Place;
use std::alloc::{AllocError, AllocFailed};
use thiserror::Error;

/// The reason why a text was not read.
#[derive(Clone, Copy, Debug, PartialEq, Eq, Error)]
pub enum ReadFault {
    /// An allocation failed.
    #[error("out of memory")]
    OutOfMemory,
    /// An element is deeper than the limit.
    #[error("elements are nested too deeply at {place}")]
    TooDeep {
        /// The place of the `<` of the element's start tag.
        place: Place,
    },
    /// The text has a syntax that is not read, or ends too early.
    #[error("other syntax than that of written pages at {place}")]
    Syntax {
        /// The place of the first character with which no readable text goes on, or the end of the
        /// text.
        place: Place,
    },
}

impl ReadFault {
    /// Returns the fault's number: 0 for out of memory, 8 for an element that is too deep, 25 for
    /// another syntax.
    pub fn number(&self) -> u8
        ensures { result ≡ number_of self.now }
    {
        match self {
            ReadFault::OutOfMemory => 0,
            ReadFault::TooDeep { .. } => 8,
            ReadFault::Syntax { .. } => 25,
        }
    }
}

impl From<AllocError> for ReadFault {
    ghost use Rattle.typst_html_read.specs.declared.fault.ReadFault.TheVariants.{OutOfMemory};

    ghost from_gives = { λ _ e. e ≡ OutOfMemory };

    fn from(_refused: AllocError) -> ReadFault {
        ReadFault::OutOfMemory
    }
}

impl<T: Drop> From<AllocFailed<T>> for ReadFault {
    ghost use Rattle.typst_html_read.specs.declared.fault.ReadFault.TheVariants.{OutOfMemory};

    ghost from_gives = { λ _ e. e ≡ OutOfMemory };

    fn from(_refused: AllocFailed<T>) -> ReadFault {
        ReadFault::OutOfMemory
    }
}

impl<T: Drop> From<Refused<T>> for ReadFault {
    ghost use Rattle.typst_html_read.specs.declared.fault.ReadFault.TheVariants.{OutOfMemory};

    ghost from_gives = { λ _ e. e ≡ OutOfMemory };

    fn from(_refused: Refused<T>) -> ReadFault {
        ReadFault::OutOfMemory
    }
}
