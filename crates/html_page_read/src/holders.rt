//! References in a text or a value, and what is left at the end of the text.

ghost use Rattle.std.specs.Prelude.{◌≡◌, OnOk, chars};
ghost use Rattle.html_dom_tree.specs.Views.{text_view};
ghost use Rattle.html_page_read.specs.PageTokens as tokens;
ghost use Rattle.html_page_read.specs.PageReaderViews.{holder_at, reader_of, reading_of, resolved_of, state_at};

use crate::reader::{Depth, Holder, Reader, State};
use crate::reference::{Resolved, continues, resolve};
use html_dom_tree::text::add_text;
use html_page_stack::PageError;
use std::alloc::AllocError;

impl Reader {
    /// Appends the characters of a reference where it stands.
    fn add_reference(&mut self, text: &str) -> Result<(), AllocError>
        ensures { OnOk result (reader_of self.new
            ≡ tokens.reference_read (chars text.now) (holder_at self.old.holder self.old)
            (reading_of self.old.reading)) }
    {
        match self.holder {
            Holder::Value => {
                add_text(&mut self.draft.value, text)?;
                self.state = State::Value;
            }
            Holder::Raw => {
                self.reading.emit_text(text)?;
                self.run = 0;
                self.state = State::Raw;
            }
            Holder::Data => {
                self.reading.emit_text(text)?;
                self.state = State::Data;
            }
        }
        Ok(())
    }

    /// Reads a character after a reference.
    fn behind_reference(&mut self, c: char) -> Result<(), AllocError>
        ensures { OnOk result (reader_of self.new ≡ tokens.text_read c (reader_of self.old)) }
    {
        match self.state {
            State::Value => self.value(c),
            State::Raw => self.raw(c),
            _ => self.data(c),
        }
    }

    fn take_reference(&mut self, found: Resolved, c: char) -> Result<(), AllocError>
        ensures { OnOk result (reader_of self.new
            ≡ tokens.resolved_read (resolved_of found) (holder_at self.old.holder self.old) c
            (reading_of self.old.reading)) }
    {
        self.reading.note_some(found.missing)?;
        self.reading.note_some(found.error)?;
        self.add_reference(found.text.as_str())?;
        if found.takes_end {
            return Ok(());
        }
        self.behind_reference(c)
    }

    pub(crate) fn reference(&mut self, c: char) -> Result<(), AllocError>
        ensures { OnOk result (reader_of self.new
            ≡ tokens.reference_state_read (text_view self.old.since.text) (holder_at
            self.old.holder self.old) c (reading_of self.old.reading)) }
    {
        if continues(self.since.as_str(), c) {
            self.since.push(c)?;
            self.state = State::Reference;
            return Ok(());
        }
        let in_value = matches!(self.holder, Holder::Value);
        let found = resolve(self.alloc, in_value, self.since.as_str(), Some(c))?;
        self.take_reference(found, c)
    }

    fn leave_reference(&mut self) -> Result<(), AllocError>
        ensures { OnOk result (reading_of self.new.reading
            ≡ tokens.left_over_reference (text_view self.old.since.text) (holder_at
            self.old.holder self.old) (reading_of self.old.reading)) }
    {
        if matches!(self.holder, Holder::Value) {
            self.reading.note(PageError::EofInTag)?;
            return Ok(());
        }
        let found = resolve(self.alloc, false, self.since.as_str(), None)?;
        self.reading.note_some(found.missing)?;
        self.reading.note_some(found.error)?;
        self.reading.emit_text(found.text.as_str())
    }

    /// Handles what is left at the end of the text.
    pub(crate) fn leave(&mut self) -> Result<(), AllocError>
        ensures { OnOk result (reading_of self.new.reading
            ≡ tokens.left_over (state_at self.old.state self.old) (reading_of self.old.reading)) }
    {
        let reading = &mut self.reading;
        match self.state {
            State::Data | State::Plaintext => reading.page.start = reading.place,
            State::TagOpen => {
                reading.note(PageError::EofBeforeTagName)?;
                reading.emit_char('<')?;
            }
            State::EndTagOpen => {
                reading.note(PageError::EofBeforeTagName)?;
                reading.emit_char('<')?;
                reading.emit_char('/')?;
            }
            State::Markup => reading.note(PageError::IncorrectlyOpenedComment)?,
            State::BogusComment => {}
            State::Comment => reading.note(PageError::EofInComment)?,
            State::Doctype => {
                reading.note(PageError::EofInDoctype)?;
                self.take_doctype()?;
            }
            State::Cdata => {
                reading.note(PageError::EofInCdata)?;
                reading.emit_brackets(self.brackets)?;
            }
            State::Raw => {
                let is_error = !matches!(self.depth, Depth::Outside);
                reading.note_if(is_error, PageError::EofInScriptHtmlCommentLikeText)?;
            }
            State::Reference => self.leave_reference()?,
            State::TagName
            | State::BeforeAttr
            | State::AttrName
            | State::AfterAttrName
            | State::BeforeValue
            | State::Value
            | State::AfterValue
            | State::SelfClosing => reading.note(PageError::EofInTag)?,
        }
        Ok(())
    }
}
