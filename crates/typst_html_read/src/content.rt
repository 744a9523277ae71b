//! Reading outside of tags.

ghost use Rattle.std.specs.Prelude.{◌≡◌, OnOk};
ghost use Rattle.html_dom_tree.specs.Views.{text_view};
ghost use Rattle.typst_html_encode.specs.Reader as reader;
ghost use Rattle.typst_html_read.specs.{LimitedReading.{next_state}, OpenViews.{open_of, stack_of}, ReaderViews.{reader_state}};
ghost use Rattle.typst_html_read.specs.declared.reader.Mode.TheVariants as mode;

use crate::open::OpenElement;
use crate::reader::{Mode, Reader};
use crate::reference::{extend, reference};
use html_dom_tree::text::{add, empty, take};
use html_names_core::charsets::is_valid_in_tag_name;
use std::alloc::AllocError;

impl Reader {
    pub(crate) fn outside(&mut self, c: char) -> Result<(), AllocError>
        requires { self.old.mode ≡ mode.Outside }
        ensures { OnOk result (reader_state self.new ≡ next_state (reader_state self.old) c) }
    {
        if matches!(c, '\t' | '\n' | '\r' | ' ') {
            return Ok(());
        }
        self.mode = if c == '<' && self.root.is_none() {
            Mode::Less
        } else {
            Mode::Stop
        };
        self.stack.clear();
        Ok(())
    }

    pub(crate) fn content(&mut self, c: char) -> Result<(), AllocError>
        requires { self.old.mode ≡ mode.Content }
        ensures { OnOk result (reader_state self.new
            ≡ reader.in_content (text_view self.old.text) (stack_of self.old.stack) c) }
    {
        match c {
            '<' => {
                self.end_text()?;
                self.mode = Mode::Less;
            }
            '&' => {
                empty(&mut self.word);
                self.mode = Mode::Reference;
            }
            _ => add(&mut self.text, c)?,
        }
        Ok(())
    }

    /// Adds the text so far to the innermost element, unless the text is empty.
    pub(crate) fn end_text(&mut self) -> Result<(), AllocError>
        ensures { OnOk result (stack_of self.new.stack
            ≡ reader.add_text (text_view self.old.text) (stack_of self.old.stack)) }
    {
        if self.text.is_empty() {
            return Ok(());
        }
        let text = take(self.alloc, &mut self.text);
        self.stack.add_text(text)
    }

    /// Reads the character after a start tag, and drops it if it is a line feed.
    pub(crate) fn fresh(&mut self, c: char) -> Result<(), AllocError>
        requires { self.old.mode ≡ mode.Fresh }
        ensures { OnOk result (reader_state self.new ≡ next_state (reader_state self.old) c) }
    {
        empty(&mut self.text);
        self.mode = Mode::Content;
        if c == '\n' {
            return Ok(());
        }
        self.content(c)
    }

    pub(crate) fn reference(&mut self, c: char) -> Result<(), AllocError>
        requires { self.old.mode ≡ mode.Reference }
        ensures { OnOk result (reader_state self.new ≡ next_state (reader_state self.old) c) }
    {
        if c != ';' {
            let begins = extend(&mut self.word, c)?;
            self.mode = if begins { Mode::Reference } else { Mode::Stop };
            return Ok(());
        }
        match reference(self.alloc, self.word.as_str())? {
            None => self.mode = Mode::Stop,
            Some(d) => {
                add(&mut self.text, d)?;
                self.mode = Mode::Content;
            }
        }
        Ok(())
    }

    pub(crate) fn complete(&mut self, element: OpenElement) -> Result<(), AllocError>
        ensures { OnOk result (reader_state self.new
            ≡ reader.complete (open_of element).name (open_of element).attrs
            (open_of element).children (stack_of self.old.stack)) }
    {
        if self.stack.is_empty() {
            self.root = Some(element);
            self.mode = Mode::Outside;
            return Ok(());
        }
        self.stack.add_child(element)?;
        empty(&mut self.text);
        self.mode = Mode::Content;
        Ok(())
    }

    pub(crate) fn end_name(&mut self, c: char) -> Result<(), AllocError>
        requires { self.old.mode ≡ mode.EndName }
        ensures { OnOk result (reader_state self.new ≡ next_state (reader_state self.old) c) }
    {
        if !self.stack.ends_at(self.word.as_str().len(), c) {
            self.mode = Mode::Stop;
            return Ok(());
        }
        if is_valid_in_tag_name(c) {
            add(&mut self.word, c)?;
            return Ok(());
        }
        if c != '>' {
            self.mode = Mode::Stop;
            return Ok(());
        }
        self.close()
    }

    fn close(&mut self) -> Result<(), AllocError>
        ensures { OnOk result (reader_state self.new
            ≡ reader.close (text_view self.old.word) (stack_of self.old.stack)) }
    {
        match self.stack.pop() {
            Some(element) if element.is_named(self.word.as_str()) => self.complete(element),
            _ => {
                self.mode = Mode::Stop;
                Ok(())
            }
        }
    }
}
