//! Names of tags and of attributes, and end tags, read at once.

ghost use Rattle.std.specs.Prelude.{◌≡◌, ◌+◌, ◌<◌, ◌^◌, [], false, true, IfOk, IfSome, OnOk, chars, length};
ghost use Rattle.html_names_core.specs.Characters.{all};
ghost use Rattle.html_text.specs.Fronts.{is_name_char};
ghost use Rattle.html_page_read.specs.{Fronts.{begins_small}, PageReaderViews.{draft_of, reader_of, reading_of}};
ghost use Rattle.html_page_read.specs.{PageStretches.{in_quotes, ReadsFront}, TagFronts.{EndsOwn, behind_own_end, in_name, tag_open}};
ghost use Rattle.html_page_read.specs.declared.reader.State.TheVariants as state;

use crate::front::{begins_small, strip};
use crate::reader::{Reader, State};
use html_dom_tree::text;
use html_page_tree::takes_own_end;
use html_text::cut_name;
use std::alloc::AllocError;

impl Reader {
    fn begin_tag(&mut self, is_end: bool, name: &str) -> Result<(), AllocError>
        requires small { begins_small name.now ≡ true }
        requires names { all is_name_char name.now ≡ true }
        requires room { self.old.reading.place + length name.now < 2 ^ 64 }
        ensures { OnOk result
            (reader_of self.new ≡ in_name is_end name.now (reading_of self.old.reading)) }
    {
        self.draft.begin_named(self.alloc, is_end, name)?;
        self.reading.pass(name.len());
        self.state = State::TagName;
        Ok(())
    }

    /// Reads the lowercase name of a tag at the front of a text, if any, and returns the rest.
    fn read_name<'a>(&mut self, text: &'a str, is_end: bool) -> Result<&'a str, AllocError>
        requires open { (reader_of self.old).state ≡ tag_open is_end }
        requires room { self.old.reading.place + length text.now < 2 ^ 64 }
        ensures { IfOk result (λ rest.
            ReadsFront (reader_of self.old) (reader_of self.new) text.now rest.now) }
    {
        let (name, rest) = cut_name(text);
        if !begins_small(name) {
            return Ok(text);
        }
        self.begin_tag(is_end, name)?;
        Ok(rest)
    }

    /// Returns the rest of a text after the name and the `>` of the current node's end tag, if the
    /// text begins with them and the tag only closes the node.
    fn past_own_end<'a>(&self, text: &'a str) -> Option<&'a str>
        ensures { IfSome result (λ rest.
            EndsOwn (reading_of self.now.reading) text.now rest.now) }
    {
        let page = &self.reading.page;
        if !takes_own_end(page) {
            return None;
        }
        let tag = page.stack.current_tag()?;
        let (name, rest) = cut_name(text);
        if !begins_small(name) || name != tag.resolve() {
            return None;
        }
        strip(rest, ">")
    }

    /// Closes the current node after so many more bytes, with which its own end tag ends.
    fn close_own(&mut self, length: usize) -> Result<(), AllocError>
        requires { self.old.reading.place + length < 2 ^ 64 }
        ensures { OnOk result (reader_of self.new
            ≡ behind_own_end length (reading_of self.old.reading)) }
    {
        self.reading.page.close(true)?;
        self.reading.place += length;
        self.reading.fresh = false;
        self.reading.after_return = false;
        self.state = State::Data;
        Ok(())
    }

    /// Reads an end tag after `</` that only closes the current node, or the name of another, and
    /// returns the rest.
    fn read_end<'a>(&mut self, text: &'a str) -> Result<&'a str, AllocError>
        requires open { (reader_of self.old).state ≡ tag_open true }
        requires room { self.old.reading.place + length text.now < 2 ^ 64 }
        ensures { IfOk result (λ rest.
            ReadsFront (reader_of self.old) (reader_of self.new) text.now rest.now) }
    {
        match self.past_own_end(text) {
            Some(rest) => {
                self.close_own(text.len() - rest.len())?;
                Ok(rest)
            }
            None => self.read_name(text, true),
        }
    }

    /// Begins a value in double quotes, after the name of an attribute and `="`.
    fn begin_value(&mut self, attr: &str) -> Result<(), AllocError>
        requires { self.old.reading.place + (length attr.now + 2) < 2 ^ 64 }
        ensures { OnOk result (reader_of self.new
            ≡ in_quotes (draft_of self.old.draft) (chars attr.now) []
            (record (reading_of self.old.reading) {
              place = self.old.reading.place + (length attr.now + 2);
              after_return = false;
            })) }
    {
        self.draft.attr.clear();
        self.draft.attr.push_str(attr)?;
        text::empty(&mut self.draft.value);
        self.draft.quote = '"';
        self.reading.pass(attr.len() + 2);
        self.state = State::Value;
        Ok(())
    }

    /// Reads the name of an attribute and the `="` after it at the beginning of a text, if its
    /// letters are lowercase, and returns the rest.
    fn read_attr<'a>(&mut self, text: &'a str) -> Result<&'a str, AllocError>
        requires before { self.old.state ≡ state.BeforeAttr }
        requires room { self.old.reading.place + length text.now < 2 ^ 64 }
        ensures { IfOk result (λ rest.
            ReadsFront (reader_of self.old) (reader_of self.new) text.now rest.now) }
    {
        let (attr, behind) = cut_name(text);
        if attr.is_empty() {
            return Ok(text);
        }
        let Some(rest) = strip(behind, "=\"") else {
            return Ok(text);
        };
        self.begin_value(attr)?;
        Ok(rest)
    }

    /// Reads a part of a tag at the front of a text, if it is read at once, and returns the rest.
    fn read_tag_front<'a>(&mut self, text: &'a str) -> Result<&'a str, AllocError>
        requires { self.old.reading.place + length text.now < 2 ^ 64 }
        ensures { IfOk result (λ rest.
            ReadsFront (reader_of self.old) (reader_of self.new) text.now rest.now) }
    {
        match self.state {
            State::TagOpen => self.read_name(text, false),
            State::EndTagOpen => self.read_end(text),
            State::BeforeAttr => self.read_attr(text),
            _ => Ok(text),
        }
    }

    /// Reads the beginning of a text, if it can be read at once, and returns the rest.
    pub(crate) fn read_front<'a>(&mut self, text: &'a str) -> Result<&'a str, AllocError>
        requires { self.old.reading.place + length text.now < 2 ^ 64 }
        ensures { IfOk result (λ rest.
            ReadsFront (reader_of self.old) (reader_of self.new) text.now rest.now) }
    {
        let rest = self.read_tag_front(text)?;
        self.read_common(rest)
    }
}
