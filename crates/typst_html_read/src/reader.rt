//! A reader, which reads one character after the other.

ghost use Rattle.std.specs.Prelude.{◌≡◌, ◌↔◌, OnOk, IsTrue, None, option_map};
ghost use Rattle.typst_html_read.specs.{LimitedReading.{next_state, begins_deep}, OpenViews.{open_of}, PlainViews.{completed}};
ghost use Rattle.typst_html_read.specs.ReaderViews.{reader_state};
ghost use Rattle.typst_html_encode.specs.Reader.{Outside, Stop, final_root};

use crate::open::OpenElement;
use crate::stack::Stack;
use html_dom_tree::HtmlAttrs;
use html_names_core::charsets::is_valid_in_tag_name;
use html_names_core::{HtmlAttr, HtmlTag, attr, tag};
use std::alloc::{AllocError, Global};

/// The position of a reader in the syntax.
#[derive(Clone, Copy)]
pub(crate) enum Mode {
    /// Outside the root.
    Outside,
    /// Within an element.
    Content,
    /// Right after a start tag after which a line feed is dropped.
    Fresh,
    /// After `&` in a text.
    Reference,
    /// Within a raw element.
    Raw,
    /// After `<`.
    Less,
    /// In the name of a start tag.
    StartName,
    /// After the space before an attribute.
    Space,
    /// In the name of an attribute.
    AttrName,
    /// After `=`.
    Equals,
    /// In a value.
    Value,
    /// After `&` in a value.
    ValueReference,
    /// After a value.
    Quoted,
    /// After the `/` of a start tag.
    Slash,
    /// In the name of an end tag.
    EndName,
    /// Stopped: no text that begins so has a tree.
    Stop,
}

/// A reader, with the parts of the text read so far that it keeps.
#[derive(Drop)]
pub(crate) struct Reader {
    pub(crate) alloc: Global,
    pub(crate) mode: Mode,
    /// The root, once it is complete.
    pub(crate) root: Option<OpenElement>,
    /// The elements that are open.
    pub(crate) stack: Stack,
    /// The text since the last child, the whole text since the start tag of a raw element, or a
    /// value.
    pub(crate) text: String,
    /// The name that is being read, or the text since `&`.
    pub(crate) word: String,
    /// The name of the start tag.
    pub(crate) tag: HtmlTag,
    /// Its attributes so far.
    pub(crate) attrs: HtmlAttrs,
    /// The name of the attribute whose value is being read.
    pub(crate) attr: HtmlAttr,
}

impl Reader {
    /// Creates a reader that has read the document type.
    pub(crate) fn new(alloc: Global) -> Reader
        ensures { reader_state result ≡ Outside None }
    {
        Reader {
            alloc,
            mode: Mode::Outside,
            root: None,
            stack: Stack::new(alloc),
            text: String::new(alloc),
            word: String::new(alloc),
            tag: tag::html,
            attrs: HtmlAttrs::new(alloc),
            attr: attr::class,
        }
    }

    pub(crate) fn step(&mut self, c: char) -> Result<(), AllocError>
        ensures { OnOk result (reader_state self.new ≡ next_state (reader_state self.old) c) }
    {
        match self.mode {
            Mode::Outside => self.outside(c),
            Mode::Content => self.content(c),
            Mode::Fresh => self.fresh(c),
            Mode::Reference => self.reference(c),
            Mode::Raw => self.raw(c),
            Mode::Less => self.less(c),
            Mode::StartName => self.start_name(c),
            Mode::Space => self.space(c),
            Mode::AttrName => self.attr_name(c),
            Mode::Equals => self.equals(c),
            Mode::Value => self.value(c),
            Mode::ValueReference => self.value_reference(c),
            Mode::Quoted => self.quoted(c),
            Mode::Slash => self.slash(c),
            Mode::EndName => self.end_name(c),
            Mode::Stop => Ok(()),
        }
    }

    /// Returns whether the character begins the start tag of an element that would be deeper than
    /// the limit.
    pub(crate) fn begins_deep(&self, limit: usize, c: char) -> bool
        ensures { result ≡ begins_deep limit (reader_state self.now) c }
    {
        matches!(self.mode, Mode::Less)
            && is_valid_in_tag_name(c)
            && !self.stack.holds_text_alone()
            && limit <= self.stack.len()
    }

    /// Returns whether no text that begins with the text read so far has a tree.
    pub(crate) fn is_stopped(&self) -> bool
        ensures { IsTrue result ↔ (reader_state self.now ≡ Stop) }
    {
        matches!(self.mode, Mode::Stop)
    }

    /// Consumes the reader and returns the root, if all of it has been read.
    pub(crate) fn into_root(self) -> Option<OpenElement>
        ensures { option_map (λ o. completed (open_of o)) result ≡ final_root (reader_state self) }
    {
        match self.mode {
            Mode::Outside => self.root,
            _ => None,
        }
    }
}
