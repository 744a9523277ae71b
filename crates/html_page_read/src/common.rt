//! Stretches of common characters, which make up most texts, read at once.

ghost use Rattle.std.specs.Prelude.{◌≡◌, ◌+◌, ◌++◌, ◌<◌, ◌^◌, false, true, IfOk, OnOk, chars, length};
ghost use Rattle.html_dom_tree.specs.Views.{text_view};
ghost use Rattle.html_names_core.specs.Characters.{all};
ghost use Rattle.html_text.specs.Fronts.{is_common};
ghost use Rattle.html_page_read.specs.PageReaderViews.{draft_of, reader_of, reading_of};
ghost use Rattle.html_page_read.specs.PageStretches.{behind_chars, behind_stretch, in_quotes, IsInQuotes, ReadsFront, TakesCommon};

use crate::reader::{Reader, State};
use crate::reading::Reading;
use html_dom_tree::text;
use html_page_tree::takes_text;
use html_text::cut_common;
use std::alloc::AllocError;

impl Reading {
    /// Skips so many bytes, none of them a carriage return.
    pub(crate) fn pass(&mut self, count: usize)
        requires { self.old.place + count < 2 ^ 64 }
        ensures { reading_of self.new ≡ record (reading_of self.old) {
          place = self.old.place + count;
          after_return = false;
        } }
    {
        self.place += count;
        self.after_return = false;
    }

    /// Appends a stretch of common characters to the current node.
    fn add_stretch(&mut self, front: &str) -> Result<(), AllocError>
        requires common { all is_common front.now ≡ true }
        requires room { self.old.place + length front.now < 2 ^ 64 }
        ensures { OnOk result
            (reading_of self.new ≡ behind_stretch front.now (reading_of self.old)) }
    {
        if front.is_empty() {
            return Ok(());
        }
        self.page.add_text(front)?;
        self.page.start = self.place + (front.len() - 1);
        self.place += front.len();
        self.fresh = false;
        self.after_return = false;
        Ok(())
    }
}

impl Reader {
    /// Returns whether each common character is only appended to the current node. (At a tag, which
    /// has none, it does not ask further.)
    fn takes_common(&self, text: &str) -> bool
        ensures { result ≡ true → TakesCommon (reader_of self.now) }
    {
        matches!(self.state, State::Data)
            && !text.starts_with('<')
            && !self.reading.fresh
            && takes_text(&self.reading.page)
    }

    /// Returns whether the reader is in a value in double quotes.
    fn is_in_quotes(&self) -> bool
        ensures { result ≡ true → IsInQuotes self.now }
    {
        matches!(self.state, State::Value) && self.draft.quote == '"'
    }

    /// Appends a stretch of common characters to the value.
    fn add_value(&mut self, front: &str) -> Result<(), AllocError>
        requires quoted { IsInQuotes self.old }
        requires common { all is_common front.now ≡ true }
        requires room { self.old.reading.place + length front.now < 2 ^ 64 }
        ensures { OnOk result (reader_of self.new ≡ in_quotes (draft_of self.old.draft)
            (text_view self.old.draft.attr) (text_view self.old.draft.value ++ front.now)
            (behind_chars front.now (reading_of self.old.reading))) }
    {
        if front.is_empty() {
            return Ok(());
        }
        text::add_text(&mut self.draft.value, front)?;
        self.reading.pass(front.len());
        Ok(())
    }

    /// Reads the leading common characters of a text, each of which is only appended to the current
    /// node, and returns the rest.
    fn read_stretch<'a>(&mut self, text: &'a str) -> Result<&'a str, AllocError>
        requires taken { TakesCommon (reader_of self.old) }
        requires room { self.old.reading.place + length text.now < 2 ^ 64 }
        ensures { IfOk result (λ rest.
            ReadsFront (reader_of self.old) (reader_of self.new) text.now rest.now) }
    {
        let (front, rest) = cut_common(text);
        self.reading.add_stretch(front)?;
        Ok(rest)
    }

    /// Reads the leading common characters of a text in a value in double quotes, and returns the
    /// rest.
    fn read_value<'a>(&mut self, text: &'a str) -> Result<&'a str, AllocError>
        requires quoted { IsInQuotes self.old }
        requires room { self.old.reading.place + length text.now < 2 ^ 64 }
        ensures { IfOk result (λ rest.
            ReadsFront (reader_of self.old) (reader_of self.new) text.now rest.now) }
    {
        let (front, rest) = cut_common(text);
        self.add_value(front)?;
        Ok(rest)
    }

    /// Reads the leading common characters of a text all at once, if each is only appended to the
    /// current node or to a value, and returns the rest.
    pub(crate) fn read_common<'a>(&mut self, text: &'a str) -> Result<&'a str, AllocError>
        requires { self.old.reading.place + length text.now < 2 ^ 64 }
        ensures { IfOk result (λ rest.
            ReadsFront (reader_of self.old) (reader_of self.new) text.now rest.now) }
    {
        if self.takes_common(text) {
            self.read_stretch(text)
        } else if self.is_in_quotes() {
            self.read_value(text)
        } else {
            Ok(text)
        }
    }
}
