//! The reasons for which a page is not read, and the errors from which the reader recovers.

ghost use Rattle.std.specs.Prelude.{◌≡◌};
ghost use Rattle.html_page_read.specs.PageFaults.{number_of};

use html_names_core::Refused;
use html_page_encoding::Encoding;
use html_page_stack::{PageError, PageRefusal};
use html_text::Place;
use std::alloc::{AllocError, AllocFailed};
use thiserror::Error;

/// The reason why a page was not read. Offsets of places are in bytes of the text of the page, in
/// UTF-8, or of the page itself if it has no text; a line ends with a line feed, a carriage return
/// or both in that order, and a byte order mark at the beginning is no character of the first.
#[derive(Debug, Drop, PartialEq, Eq, Error)]
pub enum PageFault {
    /// An allocation failed.
    #[error("out of memory")]
    OutOfMemory,
    /// A page of bytes that declares an encoding by a label that is not known
    /// ([`EncodingFault::UnknownLabel`](html_page_encoding::EncodingFault::UnknownLabel)).
    #[error("unknown encoding `{label}` at {place}")]
    UnknownLabel {
        /// The label as it stands in the page, without white space around it. Each of its bytes is
        /// the character with its number.
        label: String,
        /// The place of its first byte. Each byte before it counts as a character.
        place: Place,
    },
    /// A page of bytes that are no text in its encoding.
    #[error("a byte that is no text at {place}")]
    NotText {
        /// The place of the first byte that is no UTF-8, or of the first unit that is no UTF-16.
        place: Place,
    },
    /// A page that is refused.
    #[error("{refusal} at {place}")]
    Refused {
        /// The content that is refused.
        refusal: PageRefusal,
        /// The beginning of the token: the `<` of a tag, or a character.
        place: Place,
    },
}

/// An error of a page from which the reader recovered, and its place, with the units of
/// [`PageFault`].
#[derive(Clone, Copy, Debug, PartialEq, Eq)]
pub struct PageNote {
    /// The error.
    pub error: PageError,
    /// Its place.
    pub place: Place,
}

/// The errors of a page from which the reader recovered.
#[derive(Debug, Drop)]
pub struct PageNotes {
    /// The number of errors, at most that of 32 bits.
    pub count: u32,
    /// The first ten.
    pub first: Vec<PageNote>,
    /// The encoding of the page, which is UTF-8 for a text.
    pub encoding: Encoding,
}

impl PageFault {
    /// Returns the fault's number: 0 if an allocation failed, 25 for an unknown label and for bytes
    /// that are no text, like a text with another syntax, and otherwise that of the refusal.
    pub fn number(&self) -> u8
        ensures { result ≡ number_of self.now }
    {
        match self {
            PageFault::OutOfMemory => 0,
            PageFault::UnknownLabel { .. } | PageFault::NotText { .. } => 25,
            PageFault::Refused { refusal, .. } => refusal.number(),
        }
    }
}

impl From<AllocError> for PageFault {
    ghost use Rattle.html_page_read.specs.declared.fault.PageFault.TheVariants.{OutOfMemory};

    ghost from_gives = { λ _ e. e ≡ OutOfMemory };

    fn from(_refused: AllocError) -> PageFault {
        PageFault::OutOfMemory
    }
}

impl<T: Drop> From<AllocFailed<T>> for PageFault {
    ghost use Rattle.html_page_read.specs.declared.fault.PageFault.TheVariants.{OutOfMemory};

    ghost from_gives = { λ _ e. e ≡ OutOfMemory };

    fn from(_refused: AllocFailed<T>) -> PageFault {
        PageFault::OutOfMemory
    }
}

impl<T: Drop> From<Refused<T>> for PageFault {
    ghost use Rattle.html_page_read.specs.declared.fault.PageFault.TheVariants.{OutOfMemory};

    ghost from_gives = { λ _ e. e ≡ OutOfMemory };

    fn from(_refused: Refused<T>) -> PageFault {
        PageFault::OutOfMemory
    }
}
