//! The values of attributes (HTML Standard 13.2.5.35 to 13.2.5.39).

ghost use Rattle.std.specs.Prelude.{◌≡◌, OnOk};
ghost use Rattle.html_dom_tree.specs.Views.{text_view};
ghost use Rattle.html_page_read.specs.PageTokens as tokens;
ghost use Rattle.html_page_read.specs.PageReaderViews.{draft_of, reader_of, reading_of};

use crate::reader::{Holder, Reader, State};
use html_dom_tree::text;
use html_page_stack::PageError;
use html_page_tree::is_space;
use std::alloc::AllocError;

/// Returns whether the character makes a value without quotes look as if quotes were missing.
fn looks_quoted(c: char) -> bool
    ensures { result ≡ tokens.looks_quoted c }
{
    matches!(c, '"' | '\'' | '<' | '=' | '`')
}

impl Reader {
    pub(crate) fn before_value(&mut self, c: char) -> Result<(), AllocError>
        ensures { OnOk result (reader_of self.new
            ≡ tokens.before_value_read (draft_of self.old.draft) (text_view self.old.draft.attr)
            c (reading_of self.old.reading)) }
    {
        if is_space(c) {
            self.state = State::BeforeValue;
            return Ok(());
        }
        text::empty(&mut self.draft.value);
        match c {
            '"' | '\'' => {
                self.draft.quote = c;
                self.state = State::Value;
                Ok(())
            }
            '>' => {
                self.reading.note(PageError::MissingAttributeValue)?;
                self.draft.end_attr(self.alloc, &mut self.reading)?;
                self.end_tag(false)
            }
            _ => self.unquoted(c),
        }
    }

    /// Reads a character of a value without quotes.
    fn unquoted(&mut self, c: char) -> Result<(), AllocError>
        ensures { OnOk result (reader_of self.new
            ≡ tokens.unquoted_read (draft_of self.old.draft) (text_view self.old.draft.attr)
            (text_view self.old.draft.value) c (reading_of self.old.reading)) }
    {
        self.draft.quote = '\0';
        if is_space(c) {
            self.draft.end_attr(self.alloc, &mut self.reading)?;
            self.state = State::BeforeAttr;
            return Ok(());
        }
        match c {
            '>' => {
                self.draft.end_attr(self.alloc, &mut self.reading)?;
                return self.end_tag(false);
            }
            '&' => self.begin_reference(Holder::Value),
            _ => {
                let error = PageError::UnexpectedCharacterInUnquotedAttributeValue;
                self.reading.note_if(looks_quoted(c), error)?;
                text::add(&mut self.draft.value, c)?;
                self.state = State::Value;
            }
        }
        Ok(())
    }

    pub(crate) fn value(&mut self, c: char) -> Result<(), AllocError>
        ensures { OnOk result (reader_of self.new
            ≡ tokens.value_read (draft_of self.old.draft) (text_view self.old.draft.attr)
            (text_view self.old.draft.value) self.old.draft.quote c (reading_of
            self.old.reading)) }
    {
        if self.draft.quote == '\0' {
            return self.unquoted(c);
        }
        if c == self.draft.quote {
            self.draft.end_attr(self.alloc, &mut self.reading)?;
            self.state = State::AfterValue;
            return Ok(());
        }
        if c == '&' {
            self.begin_reference(Holder::Value);
            return Ok(());
        }
        text::add(&mut self.draft.value, c)?;
        self.state = State::Value;
        Ok(())
    }

    pub(crate) fn after_value(&mut self, c: char) -> Result<(), AllocError>
        ensures { OnOk result (reader_of self.new
            ≡ tokens.after_value_read (draft_of self.old.draft) c (reading_of self.old.reading)) }
    {
        let is_error = !(is_space(c) || c == '/' || c == '>');
        self.reading
            .note_if(is_error, PageError::MissingWhitespaceBetweenAttributes)?;
        self.before_attr(c)
    }
}
