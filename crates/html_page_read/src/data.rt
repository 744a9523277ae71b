//! Text, and the beginnings of tags (HTML Standard 13.2.5.1, 13.2.5.5, 13.2.5.6, 13.2.5.7, 13.2.5.41).

ghost use Rattle.std.specs.Prelude.{◌≡◌, OnOk, []};
ghost use Rattle.html_page_read.specs.PageTokens as tokens;
ghost use Rattle.html_page_read.specs.PageReaderViews.{holder_at, reader_of, reading_of};

use crate::reader::{Holder, Reader, State};
use crate::reference::is_letter;
use html_dom_tree::text;
use html_page_stack::PageError;
use std::alloc::AllocError;

impl Reader {
    pub(crate) fn begin_reference(&mut self, holder: Holder)
        ensures { reader_of self.new ≡ record {
          state = tokens.Reference [] (holder_at holder self.old);
          reading = reading_of self.old.reading;
        } }
    {
        self.since.clear();
        self.holder = holder;
        self.state = State::Reference;
    }

    #[inline(always)]
    pub(crate) fn data(&mut self, c: char) -> Result<(), AllocError>
        ensures { OnOk result (reader_of self.new ≡ tokens.data_read c (reading_of self.old.reading)) }
    {
        self.reading.page.start = self.reading.place;
        match c {
            '<' => self.state = State::TagOpen,
            '&' => self.begin_reference(Holder::Data),
            _ => {
                self.reading.emit_char(c)?;
                self.state = State::Data;
            }
        }
        Ok(())
    }

    /// Reads a character after `<plaintext>` (HTML Standard 13.2.5.5).
    pub(crate) fn plaintext(&mut self, c: char) -> Result<(), AllocError>
        ensures { OnOk result (reader_of self.new
            ≡ tokens.plaintext_read c (reading_of self.old.reading)) }
    {
        self.reading.page.start = self.reading.place;
        self.reading.emit_char(c)?;
        self.state = State::Plaintext;
        Ok(())
    }

    pub(crate) fn bogus_comment(&mut self, c: char) -> Result<(), AllocError>
        ensures { OnOk result (reader_of self.new ≡ tokens.bogus_read c (reading_of self.old.reading)) }
    {
        if c == '>' {
            self.reading.pass_comment()?;
            self.state = State::Data;
        } else {
            self.state = State::BogusComment;
        }
        Ok(())
    }

    pub(crate) fn tag_open(&mut self, c: char) -> Result<(), AllocError>
        ensures { OnOk result (reader_of self.new
            ≡ tokens.tag_open_read c (reading_of self.old.reading)) }
    {
        if is_letter(c) {
            self.draft.begin(self.alloc, false, c)?;
            self.state = State::TagName;
            return Ok(());
        }
        match c {
            '/' => self.state = State::EndTagOpen,
            '!' => {
                text::empty(&mut self.inner);
                self.state = State::Markup;
            }
            '?' => {
                self.reading
                    .note(PageError::UnexpectedQuestionMarkInsteadOfTagName)?;
                return self.bogus_comment(c);
            }
            _ => {
                self.reading
                    .note(PageError::InvalidFirstCharacterOfTagName)?;
                self.reading.emit_char('<')?;
                return self.data(c);
            }
        }
        Ok(())
    }

    pub(crate) fn end_tag_open(&mut self, c: char) -> Result<(), AllocError>
        ensures { OnOk result (reader_of self.new
            ≡ tokens.end_tag_open_read c (reading_of self.old.reading)) }
    {
        if is_letter(c) {
            self.draft.begin(self.alloc, true, c)?;
            self.state = State::TagName;
            return Ok(());
        }
        if c == '>' {
            self.reading.note(PageError::MissingEndTagName)?;
            self.state = State::Data;
            return Ok(());
        }
        self.reading
            .note(PageError::InvalidFirstCharacterOfTagName)?;
        self.bogus_comment(c)
    }
}
