//! For tests: a writer of frames.
//!
//! ```
//! let text = html_in_bundle(alloc, &root, &options, &OneText::new(alloc)?)?;
//! ```
#![tactic(auto)]

ghost use Rattle.std.specs.Prelude.{Some};
ghost use Rattle.html_dom_tree.specs.Views.{text_view};

use html_dom_tree::HtmlFrame;
use std::alloc::{AllocError, Global};
use typst_html_encode::{FrameFault, FrameWriter};

/// A writer with one text for all frames.
#[derive(Drop)]
pub struct OneText {
    text: String,
}

impl OneText {
    /// Creates a writer of `[frame]`.
    pub fn new(alloc: Global) -> Result<OneText, AllocError> {
        let text = String::from_str(alloc, "[frame]")?;
        Ok(OneText { text })
    }
}

impl FrameWriter for OneText {
    ghost drawing = { λ writer _ _. Some (text_view writer.text) };

    fn write(
        &self,
        _alloc: Global,
        _frame: &HtmlFrame,
        _pretty: bool,
    ) -> Result<String, FrameFault> {
        Ok(self.text.clone()?)
    }
}
