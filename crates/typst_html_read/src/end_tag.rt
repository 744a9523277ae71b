//! Reading whole end tags at once.

ghost use Rattle.std.specs.Prelude.{◌≡◌, ◌<◌, chars, IfOk, length, MatchOption, OnOk};
ghost use Rattle.html_dom_tree.specs.Views.{text_view};
ghost use Rattle.typst_html_read.specs.{EndTags.{Leaves}, OpenViews.{stack_of}, ReaderViews.{reader_state}, Stretches.{ReadsOn}};

use crate::reader::{Mode, Reader};
use std::alloc::AllocError;

impl Reader {
    /// Reads the end tag of the innermost element if the text begins with it, and returns the rest
    /// of the text.
    pub(crate) fn read_end_tag<'a>(&mut self, text: &'a str) -> Result<Option<&'a str>, AllocError>
        ensures { IfOk result (λ found. MatchOption found (reader_state self.new ≡ reader_state self.old)
            (λ rest. ReadsOn (reader_state self.old) (reader_state self.new) (chars text.now)
            (chars rest.now) × (length (chars rest.now) < length (chars text.now)))) }
    {
        let Mode::Content = self.mode else {
            return Ok(None);
        };
        let Some(rest) = self.stack.past_end_tag(text) else {
            return Ok(None);
        };
        self.leave()?;
        Ok(Some(rest))
    }

    /// Ends the innermost element.
    fn leave(&mut self) -> Result<(), AllocError>
        ensures { OnOk result (Leaves (text_view self.old.text) (stack_of self.old.stack)
            (reader_state self.new)) }
    {
        self.end_text()?;
        match self.stack.pop() {
            Some(element) => self.complete(element),
            None => Ok(()),
        }
    }
}
