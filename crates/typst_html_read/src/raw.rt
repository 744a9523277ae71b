//! Reading raw text.

ghost use Rattle.std.specs.Prelude.{◌≡◌, OnOk};
ghost use Rattle.typst_html_read.specs.{LimitedReading.{next_state}, ReaderViews.{reader_state}};
ghost use Rattle.typst_html_read.specs.declared.reader.Mode.TheVariants as mode;

use crate::reader::{Mode, Reader};
use html_dom_tree::text::{add, take};
use html_text::end_of;
use std::alloc::AllocError;

impl Reader {
    pub(crate) fn raw(&mut self, c: char) -> Result<(), AllocError>
        requires { self.old.mode ≡ mode.Raw }
        ensures { OnOk result (reader_state self.new ≡ next_state (reader_state self.old) c) }
    {
        let end = end_of(self.tag.resolve(), self.text.as_str(), c);
        let Some((length, is_exact)) = end else {
            add(&mut self.text, c)?;
            return Ok(());
        };
        if c != '>' || !is_exact {
            self.mode = Mode::Stop;
            return Ok(());
        }
        let mut text = take(self.alloc, &mut self.text);
        text.truncate(length);
        let mut element = self.take_tag();
        element.add_text(text)?;
        self.complete(element)
    }
}
