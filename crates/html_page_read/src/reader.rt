//! A reader of pages that takes one character after the other (HTML Standard 13.2.5).

ghost use Rattle.std.specs.{Char.{len_utf8}, Prelude.{◌≡◌, ◌+◌, ◌<◌, ◌^◌, OnOk}};
ghost use Rattle.html_page_stack.specs.PageViews.{page_of};
ghost use Rattle.html_page_read.specs.PageReading.{first_reader, reader_at};
ghost use Rattle.html_page_read.specs.PageTokens as tokens;
ghost use Rattle.html_page_read.specs.PageReaderViews.{reader_of, reading_of, state_at};

use crate::comment::CommentPart;
use crate::draft::Draft;
use crate::names::Names;
use crate::reading::Reading;
use crate::since::Since;
use html_page_stack::{Page, PageError, Token};
use std::alloc::{AllocError, Global};

/// The state of a reader.
#[derive(Clone, Copy)]
pub(crate) enum State {
    /// In text.
    Data,
    /// After `<`.
    TagOpen,
    /// After `</`.
    EndTagOpen,
    /// In the name of a tag.
    TagName,
    /// Before an attribute.
    BeforeAttr,
    /// In the name of an attribute.
    AttrName,
    /// After the name of an attribute.
    AfterAttrName,
    /// After `=`.
    BeforeValue,
    /// In a value.
    Value,
    /// After a value in quotes.
    AfterValue,
    /// After the `/` of a tag.
    SelfClosing,
    /// After `<!`.
    Markup,
    /// In markup that is read as a comment.
    BogusComment,
    /// In a comment.
    Comment,
    /// After `<!DOCTYPE`.
    Doctype,
    /// Within `<![CDATA[`.
    Cdata,
    /// In an element of text alone.
    Raw,
    /// After `<plaintext>`, where all is text.
    Plaintext,
    /// After `&`.
    Reference,
}

/// The context of a reference.
#[derive(Clone, Copy)]
pub(crate) enum Holder {
    /// Text.
    Data,
    /// A value.
    Value,
    /// An element of text alone.
    Raw,
}

/// The number of `]` before the character, at most two.
#[derive(Clone, Copy)]
pub(crate) enum Brackets {
    None,
    One,
    Two,
}

/// The depth of a script in comments.
#[derive(Clone, Copy)]
pub(crate) enum Depth {
    /// In none.
    Outside,
    /// After `<!--`.
    Comment,
    /// After `<script` in a comment.
    Script,
}

/// A reader, with the parts of the text that it still needs.
#[derive(Drop)]
pub(crate) struct Reader {
    pub(crate) alloc: Global,
    pub(crate) state: State,
    pub(crate) reading: Reading,
    /// The current tag.
    pub(crate) draft: Draft,
    pub(crate) names: Names,
    /// The text since `<!` or `<!DOCTYPE`.
    pub(crate) inner: String,
    /// The text since `&`.
    pub(crate) since: Since,
    pub(crate) holder: Holder,
    pub(crate) part: CommentPart,
    pub(crate) brackets: Brackets,
    pub(crate) depth: Depth,
    /// The number of characters since the last reference, at most 255.
    pub(crate) run: u8,
}

impl Reader {
    /// Creates a reader for a text that starts at that offset in bytes.
    pub(crate) fn new(alloc: Global, limit: usize, place: usize) -> Reader
        ensures { reader_of result ≡ first_reader limit place }
    {
        Reader::of(Page::new(alloc, limit), place)
    }

    /// Creates a reader that goes on with a page, for a text that starts at that offset in bytes.
    pub(crate) fn of(page: Page, place: usize) -> Reader
        ensures { reader_of result ≡ reader_at (page_of page) place }
    {
        let alloc = page.alloc;
        let reading = Reading {
            page,
            place,
            fresh: false,
            after_return: false,
        };
        Reader {
            alloc,
            state: State::Data,
            reading,
            draft: Draft::new(alloc),
            names: Names::new(alloc),
            inner: String::new(alloc),
            since: Since::new(alloc),
            holder: Holder::Data,
            part: CommentPart::Start,
            brackets: Brackets::None,
            depth: Depth::Outside,
            run: 0,
        }
    }

    fn move_by(&mut self, c: char) -> Result<(), AllocError>
        ensures { OnOk result (reader_of self.new
            ≡ tokens.moved (state_at self.old.state self.old) c (reading_of self.old.reading)) }
    {
        match self.state {
            State::Data => self.data(c),
            State::TagOpen => self.tag_open(c),
            State::EndTagOpen => self.end_tag_open(c),
            State::TagName => self.tag_name(c),
            State::BeforeAttr => self.before_attr(c),
            State::AttrName => self.attr_name(c),
            State::AfterAttrName => self.after_attr_name(c),
            State::BeforeValue => self.before_value(c),
            State::Value => self.value(c),
            State::AfterValue => self.after_value(c),
            State::SelfClosing => self.self_closing(c),
            State::Markup => self.markup(c),
            State::BogusComment => self.bogus_comment(c),
            State::Comment => self.comment(c),
            State::Doctype => self.doctype(c),
            State::Cdata => self.cdata(c),
            State::Raw => self.raw(c),
            State::Plaintext => self.plaintext(c),
            State::Reference => self.reference(c),
        }
    }

    /// Returns whether U+0000 is kept in the state, for the rules of the tree.
    fn keeps_null(&self) -> bool
        ensures { result ≡ tokens.keeps_null (state_at self.now.state self.now) }
    {
        match self.state {
            State::Data | State::TagOpen | State::Cdata => true,
            State::Reference => matches!(self.holder, Holder::Data),
            _ => false,
        }
    }

    /// Returns the character that is read for one: a line feed for a carriage return, and U+FFFD
    /// for U+0000 where it is not kept.
    fn read_as(&self, c: char) -> char
        ensures { result ≡ tokens.read_as (state_at self.now.state self.now) c }
    {
        match c {
            '\r' => '\n',
            '\0' if !self.keeps_null() => '\u{fffd}',
            _ => c,
        }
    }

    /// Reads a character. A line feed after a carriage return is part of it (HTML Standard
    /// 13.2.3.5).
    pub(crate) fn step(&mut self, c: char) -> Result<(), AllocError>
        requires { self.old.reading.place + len_utf8 c < 2 ^ 64 }
        ensures moves { OnOk result (reader_of self.new ≡ tokens.step (reader_of self.old) c) }
        ensures place { OnOk result (self.new.reading.place ≡ self.old.reading.place + len_utf8 c) }
    {
        let place = self.reading.place;
        if c == '\n' && self.reading.after_return {
            self.reading.place = place + 1;
            self.reading.after_return = false;
            return Ok(());
        }
        let c_read = self.read_as(c);
        self.reading
            .note_if(c == '\0', PageError::UnexpectedNullCharacter)?;
        self.move_by(c_read)?;
        self.reading.place = place + c.len_utf8();
        self.reading.after_return = c == '\r';
        Ok(())
    }

    pub(crate) fn finish(&mut self) -> Result<(), AllocError>
        ensures { OnOk result (reading_of self.new.reading ≡ tokens.finished (reader_of self.old)) }
    {
        self.leave()?;
        self.reading.emit(Token::Finish)
    }
}
