//! Elements of text alone (HTML Standard 13.2.5.2 to 13.2.5.31).

ghost use Rattle.std.specs.Prelude.{◌≡◌, OnOk, MatchOption, None, chars, length};
ghost use Rattle.html_dom_tree.specs.Views.{text_view};
ghost use Rattle.html_names_core.specs.Characters.{IsOf, is_tag_char};
ghost use Rattle.html_text.specs.ClosingTags.{closing};
ghost use Rattle.html_page_read.specs.PageTokens as tokens;
ghost use Rattle.html_page_read.specs.{PageRawEnds.{IsRawEnd}, PageReaderViews.{depth_of, reader_of, reading_of}};
ghost use Rattle.html_page_stack.specs.PageViews.{page_of, stack_of};

use crate::reader::{Depth, Holder, Reader, State};
use html_names_core::HtmlTag;
use html_page_names::Kind;
use html_page_stack::Page;
use html_text::{end_of, ends_in, is_tag_end};
use std::alloc::AllocError;

/// Returns the number of characters of a closing tag with that name, without its last.
fn closing_length(name: &str) -> usize
    requires { IsOf is_tag_char (chars name.now) }
    ensures { result ≡ length (closing (chars name.now)) }
{
    name.len() + 2
}

impl Depth {
    /// Returns the depth after a text and one more character.
    fn behind(self, text: &str, c: char) -> Depth
        ensures { depth_of result ≡ tokens.script_depth (depth_of self) (chars text.now) c }
    {
        match self {
            Depth::Outside if c == '-' && ends_in("<!-", text) => Depth::Comment,
            Depth::Outside => Depth::Outside,
            _ if c == '>' && ends_in("--", text) => Depth::Outside,
            Depth::Comment if is_tag_end(c) && ends_in("<script", text) => Depth::Script,
            Depth::Script if is_tag_end(c) && ends_in("</script", text) => Depth::Comment,
            depth => depth,
        }
    }

    /// Returns whether the closing tag with that name may end after so many characters.
    fn may_end(self, run: u8, name: &str) -> bool
        requires { IsOf is_tag_char (chars name.now) }
        ensures { result ≡ tokens.may_end (chars name.now) (depth_of self) run }
    {
        match self {
            Depth::Outside | Depth::Comment => closing_length(name) <= usize::from(run),
            Depth::Script => false,
        }
    }

    fn behind_page(self, page: &Page, c: char) -> Depth
        ensures { depth_of result ≡ tokens.depth_behind (depth_of self) (page_of page.now) c }
    {
        if page.stack.is_at(Kind::Script) {
            self.behind(page.text.as_str(), c)
        } else {
            Depth::Outside
        }
    }
}

/// Returns the current node's name and the index where its closing tag begins, if `c` ends it.
fn raw_end(page: &Page, depth: Depth, run: u8, c: char) -> Option<(&HtmlTag, usize)>
    ensures { MatchOption result
        (tokens.ended_name (stack_of page.now.stack) (depth_of depth) run (text_view page.now.text) c
        ≡ None)
        (IsRawEnd page.now (depth_of depth) run c) }
{
    let tag = page.stack.current_tag()?;
    let name = tag.resolve();
    if !depth.may_end(run, name) {
        return None;
    }
    let (length, _) = end_of(name, page.text.as_str(), c)?;
    Some((tag, length))
}

impl Reader {
    /// Reads a character of such an element's text.
    fn raw_char(&mut self, c: char) -> Result<(), AllocError>
        ensures { OnOk result (reader_of self.new
            ≡ tokens.raw_char_read (depth_of self.old.depth) self.old.run c (reading_of
            self.old.reading)) }
    {
        let depth = self.depth.behind_page(&self.reading.page, c);
        self.reading.emit_char(c)?;
        self.depth = depth;
        self.run = self.run.saturating_add(1);
        self.state = State::Raw;
        Ok(())
    }

    fn raw_text(&mut self, c: char) -> Result<(), AllocError>
        ensures { OnOk result (reader_of self.new
            ≡ tokens.raw_text_read (depth_of self.old.depth) self.old.run c (reading_of
            self.old.reading)) }
    {
        if c == '&' && self.reading.page.stack.is_at(Kind::EscapableRaw) {
            self.begin_reference(Holder::Raw);
            return Ok(());
        }
        self.raw_char(c)
    }

    pub(crate) fn raw(&mut self, c: char) -> Result<(), AllocError>
        ensures { OnOk result (reader_of self.new
            ≡ tokens.raw_read (depth_of self.old.depth) self.old.run c (reading_of
            self.old.reading)) }
    {
        match raw_end(&self.reading.page, self.depth, self.run, c) {
            None => self.raw_text(c),
            Some((tag, length)) => {
                self.draft.begin_end(self.alloc, tag)?;
                self.reading.page.text.truncate(length);
                self.tag_name(c)
            }
        }
    }
}
