//! Tags and the names of their attributes (HTML Standard 13.2.5.8, 13.2.5.32 to 13.2.5.34, 13.2.5.40).

ghost use Rattle.std.specs.Prelude.{◌≡◌, OnOk};
ghost use Rattle.html_dom_tree.specs.Views.{attrs_view, text_view};
ghost use Rattle.html_page_read.specs.PageTokens as tokens;
ghost use Rattle.html_page_read.specs.PageReaderViews.{draft_of, reader_of, reading_of};

use crate::draft::coded_tag;
use crate::reader::{Depth, Reader, State};
use html_dom_tree::{HtmlAttrs, text};
use html_page_names::Kind;
use html_page_stack::{PageError, StartTag, TagName, Token};
use html_page_tree::is_space;
use std::alloc::AllocError;
use std::mem;

impl Reader {
    /// Sets the state for the content after a start tag, which depends on whether it is text
    /// alone.
    fn enter(&mut self, drops_feed: bool)
        ensures { reader_of self.new ≡ tokens.behind_start_tag drops_feed
            (reading_of self.old.reading) }
    {
        let stack = &self.reading.page.stack;
        self.reading.fresh = drops_feed && stack.is_at(Kind::DropsFeed);
        if stack.is_at(Kind::Raw) {
            self.depth = Depth::Outside;
            self.run = 0;
            self.state = State::Raw;
        } else if stack.is_at(Kind::Plaintext) {
            self.state = State::Plaintext;
        } else {
            self.state = State::Data;
        }
    }

    fn emit_start(&mut self, name: TagName, closed: bool) -> Result<(), AllocError>
        ensures { OnOk result (reader_of self.new
            ≡ tokens.start_emitted (record {
              name = name.tag;
              attrs = attrs_view
                  self.old.draft.attrs;
              closed = closed;
            }) (reading_of self.old.reading)) }
    {
        let drops_feed = name.is(Kind::DropsFeed);
        let attrs = mem::replace(&mut self.draft.attrs, HtmlAttrs::new(self.alloc));
        self.reading.emit(Token::Start(StartTag {
            name,
            attrs,
            closed,
        }))?;
        self.enter(drops_feed);
        Ok(())
    }

    fn emit_end(&mut self, name: TagName, closed: bool) -> Result<(), AllocError>
        ensures { OnOk result (reader_of self.new
            ≡ tokens.end_emitted (record (draft_of self.old.draft) { name = name.tag }) closed
            (reading_of self.old.reading)) }
    {
        let is_error = !self.draft.attrs.0.is_empty();
        self.reading
            .note_if(is_error, PageError::EndTagWithAttributes)?;
        self.reading
            .note_if(closed, PageError::EndTagWithTrailingSolidus)?;
        self.reading.emit(Token::End(name))?;
        self.state = State::Data;
        Ok(())
    }

    fn emit_named(&mut self, name: TagName, closed: bool) -> Result<(), AllocError>
        ensures { OnOk result (reader_of self.new ≡ tokens.named_emitted closed
            (record (draft_of self.old.draft) { name = name.tag })
            (reading_of self.old.reading)) }
    {
        if self.draft.is_end {
            self.emit_end(name, closed)
        } else {
            self.emit_start(name, closed)
        }
    }

    /// Emits a complete tag. The element of a name that no element can have gives place to its
    /// children.
    pub(crate) fn end_tag(&mut self, closed: bool) -> Result<(), AllocError>
        ensures { OnOk result (reader_of self.new
            ≡ tokens.tag_emitted closed (draft_of self.old.draft) (reading_of self.old.reading)) }
    {
        if let Some(name) = self.names.named(self.alloc, self.draft.name.as_str())? {
            return self.emit_named(name, closed);
        }
        let tag = coded_tag(self.alloc, self.draft.name.as_str())?;
        let is_error = !self.draft.is_end;
        self.reading.page.note_if(is_error, PageError::UnknownTag)?;
        self.emit_named(TagName::new(tag), closed)
    }

    pub(crate) fn tag_name(&mut self, c: char) -> Result<(), AllocError>
        ensures { OnOk result (reader_of self.new
            ≡ tokens.tag_name_read (draft_of self.old.draft) c (reading_of self.old.reading)) }
    {
        if is_space(c) {
            self.state = State::BeforeAttr;
            return Ok(());
        }
        match c {
            '/' => self.state = State::SelfClosing,
            '>' => return self.end_tag(false),
            _ => {
                text::add(&mut self.draft.name, c.to_ascii_lowercase())?;
                self.state = State::TagName;
            }
        }
        Ok(())
    }

    pub(crate) fn before_attr(&mut self, c: char) -> Result<(), AllocError>
        ensures { OnOk result (reader_of self.new
            ≡ tokens.before_attr_read (draft_of self.old.draft) c (reading_of self.old.reading)) }
    {
        if is_space(c) {
            self.state = State::BeforeAttr;
            return Ok(());
        }
        match c {
            '/' => self.state = State::SelfClosing,
            '>' => return self.end_tag(false),
            _ => {
                self.draft.begin_attr(c)?;
                self.state = State::AttrName;
            }
        }
        Ok(())
    }

    pub(crate) fn attr_name(&mut self, c: char) -> Result<(), AllocError>
        ensures { OnOk result (reader_of self.new
            ≡ tokens.attr_name_read (draft_of self.old.draft) (text_view self.old.draft.attr) c
            (reading_of self.old.reading)) }
    {
        if is_space(c) {
            self.state = State::AfterAttrName;
            return Ok(());
        }
        match c {
            '=' => self.state = State::BeforeValue,
            '/' => {
                self.draft.end_bare_attr(self.alloc, &mut self.reading)?;
                self.state = State::SelfClosing;
            }
            '>' => {
                self.draft.end_bare_attr(self.alloc, &mut self.reading)?;
                return self.end_tag(false);
            }
            _ => {
                text::add(&mut self.draft.attr, c.to_ascii_lowercase())?;
                self.state = State::AttrName;
            }
        }
        Ok(())
    }

    pub(crate) fn after_attr_name(&mut self, c: char) -> Result<(), AllocError>
        ensures { OnOk result (reader_of self.new
            ≡ tokens.after_attr_name_read (draft_of self.old.draft) (text_view
            self.old.draft.attr) c (reading_of self.old.reading)) }
    {
        if is_space(c) {
            self.state = State::AfterAttrName;
            return Ok(());
        }
        if c == '=' {
            self.state = State::BeforeValue;
            return Ok(());
        }
        self.draft.end_bare_attr(self.alloc, &mut self.reading)?;
        self.before_attr(c)
    }

    pub(crate) fn self_closing(&mut self, c: char) -> Result<(), AllocError>
        ensures { OnOk result (reader_of self.new
            ≡ tokens.self_closing_read (draft_of self.old.draft) c (reading_of self.old.reading)) }
    {
        if c == '>' {
            return self.end_tag(true);
        }
        self.reading.note(PageError::UnexpectedSolidusInTag)?;
        self.before_attr(c)
    }
}
