//! The reasons for which a page has no text.

ghost use Rattle.std.specs.Prelude.{◌≡◌};

use std::alloc::{AllocError, AllocFailed};
use thiserror::Error;

/// The reason why a page has no text. Places are offsets in bytes of the page.
#[derive(Debug, Drop, PartialEq, Eq, Error)]
pub enum EncodingFault {
    /// An allocation failed.
    #[error("out of memory")]
    OutOfMemory,
    /// The page declares its encoding by a label that is none of those of UTF-8, UTF-16,
    /// windows-1252 and x-user-defined. Browsers know more encodings, and pass over a label that
    /// they do not know; this reader refuses the page.
    #[error("unknown encoding `{label}` at byte {place}")]
    UnknownLabel {
        /// The label as it stands in the page, without white space around it. Each of its bytes is
        /// the character with its number.
        label: String,
        /// The offset of its first byte.
        place: usize,
    },
    /// A byte of UTF-8 that is no part of a character, or a unit of UTF-16 that is none: a
    /// surrogate without its partner, or a last byte alone.
    #[error("a byte that is no text at byte {place}")]
    NotText {
        /// The offset of the byte, or of the first byte of the unit.
        place: usize,
    },
}

impl From<AllocError> for EncodingFault {
    ghost use Rattle.html_page_encoding.specs.declared.fault.EncodingFault.TheVariants.{OutOfMemory};

    ghost from_gives = { λ _ e. e ≡ OutOfMemory };

    fn from(_refused: AllocError) -> EncodingFault {
        EncodingFault::OutOfMemory
    }
}

impl<T: Drop> From<AllocFailed<T>> for EncodingFault {
    ghost use Rattle.html_page_encoding.specs.declared.fault.EncodingFault.TheVariants.{OutOfMemory};

    ghost from_gives = { λ _ e. e ≡ OutOfMemory };

    fn from(_failed: AllocFailed<T>) -> EncodingFault {
        EncodingFault::OutOfMemory
    }
}
