//! The trait of writers that give a laid-out frame its text, and the fault of a refused frame.

ghost use Rattle.std.specs.Prelude.{◌≡◌, ℕ, List, Bool, Option};
ghost use Rattle.html_dom_tree.specs.{FrameViews.{html_frame_view}, Frames.{HtmlFrameView}};
ghost use Rattle.typst_html_encode.specs.FrameWriters.{Draws};

use html_dom_tree::HtmlFrame;
use html_names_core::Refused;
use std::alloc::{AllocError, AllocFailed, Global};
use thiserror::Error;

/// The reason why a frame has no text.
#[derive(Debug, Drop, PartialEq, Eq, Error)]
pub enum FrameFault {
    /// An allocation failed.
    #[error("out of memory")]
    OutOfMemory,
    /// The writer has no text for this frame.
    #[error("a frame was refused by its writer")]
    Refused,
}

impl FrameFault {
    ghost use Rattle.typst_html_encode.specs.FrameWriters.{frame_fault_number};

    /// Returns the fault's number: 0 for out of memory, and 15 for a refusal, as in `ExportFault`.
    pub fn number(&self) -> u8
        ensures { result ≡ frame_fault_number self.now }
    {
        match self {
            FrameFault::OutOfMemory => 0,
            FrameFault::Refused => 15,
        }
    }
}

/// A writer of frames. `()` refuses every frame.
///
/// Its law: the writer, the frame and the mode decide whether `write` returns a text or a refusal,
/// and which text, unless memory runs out. `drawing` states this for the view of a frame.
///
/// A complete implementation, which writes the same text for each frame:
///
/// ```
/// ghost use Rattle.std.specs.Prelude.{Some};
/// ghost use Rattle.html_names.specs.Texts.{text_view};
///
/// use std::alloc::Global;
/// use typst_html::{FrameFault, FrameWriter, HtmlFrame};
///
/// /// Writes one text for every frame.
/// #[derive(Drop)]
/// struct OneText {
///     text: String,
/// }
///
/// impl FrameWriter for OneText {
///     ghost drawing = { λ writer frame pretty. Some (text_view writer.text) };
///
///     fn write(
///         &self,
///         _alloc: Global,
///         _frame: &HtmlFrame,
///         _pretty: bool,
///     ) -> Result<String, FrameFault> {
///         Ok(self.text.clone()?)
///     }
/// }
/// ```
pub trait FrameWriter {
    /// The text of a frame with pretty writing on or off, or nothing if the frame is refused.
    ghost drawing: { Self → HtmlFrameView → Bool → Option (List ℕ) };

    /// Returns the text of a frame, or refuses the frame. `pretty` is whether pretty writing is on
    /// at the frame.
    fn write(&self, alloc: Global, frame: &HtmlFrame, pretty: bool) -> Result<String, FrameFault>
        ensures draws { Draws (drawing self.now (html_frame_view frame.now) pretty) result };
}

/// Refuses every frame.
impl FrameWriter for () {
    ghost use Rattle.typst_html_encode.specs.FrameWriters.{no_frames};

    ghost drawing = { λ _. no_frames };

    fn write(
        &self,
        _alloc: Global,
        _frame: &HtmlFrame,
        _pretty: bool,
    ) -> Result<String, FrameFault> {
        Err(FrameFault::Refused)
    }
}

impl From<AllocError> for FrameFault {
    ghost use Rattle.typst_html_encode.specs.declared.frame.FrameFault.TheVariants.{OutOfMemory};

    ghost from_gives = { λ _ e. e ≡ OutOfMemory };

    fn from(_refused: AllocError) -> FrameFault {
        FrameFault::OutOfMemory
    }
}

impl<T: Drop> From<AllocFailed<T>> for FrameFault {
    ghost use Rattle.typst_html_encode.specs.declared.frame.FrameFault.TheVariants.{OutOfMemory};

    ghost from_gives = { λ _ e. e ≡ OutOfMemory };

    fn from(_failed: AllocFailed<T>) -> FrameFault {
        FrameFault::OutOfMemory
    }
}

impl<T: Drop> From<Refused<T>> for FrameFault {
    ghost use Rattle.typst_html_encode.specs.declared.frame.FrameFault.TheVariants.{OutOfMemory};

    ghost from_gives = { λ _ e. e ≡ OutOfMemory };

    fn from(_refused: Refused<T>) -> FrameFault {
        FrameFault::OutOfMemory
    }
}
