//! Reading start tags.

ghost use Rattle.std.specs.Prelude.{◌≡◌, OnOk, IfOk, MatchOption, chars, true, is_some, None};
ghost use Rattle.html_names_core.specs.Names.{tag_fault, attr_fault};
ghost use Rattle.html_dom_tree.specs.{PlainTree.{no_plains}, Views.{attrs_view, text_view}};
ghost use Rattle.typst_html_encode.specs.Reader as reader;
ghost use Rattle.typst_html_read.specs.{LimitedReading.{next_state}, OpenViews.{open_of, stack_of}, ReaderViews.{reader_state}};
ghost use Rattle.typst_html_read.specs.declared.reader.Mode.TheVariants as mode;

use crate::open::OpenElement;
use crate::reader::{Mode, Reader};
use crate::reference::{extend, reference};
use html_dom_tree::HtmlAttrs;
use html_dom_tree::text::{add, begin, empty, take};
use html_names_core::charsets::{is_valid_in_attribute_name, is_valid_in_tag_name};
use html_names_core::{HtmlAttr, HtmlTag, NameFault, attr, tag};
use std::alloc::{AllocError, Global};
use std::mem;

fn tag_named(alloc: Global, text: &str) -> Result<Option<HtmlTag>, AllocError>
    ensures { IfOk result (λ found. MatchOption found (is_some (tag_fault (chars text.now)) ≡ true)
        (λ tag. (tag ≡ chars text.now) × (tag_fault (chars text.now) ≡ None))) }
{
    match HtmlTag::intern(alloc, text) {
        Ok(tag) => Ok(Some(tag)),
        Err(NameFault::OutOfMemory) => Err(AllocError),
        Err(_) => Ok(None),
    }
}

fn attr_named(alloc: Global, text: &str) -> Result<Option<HtmlAttr>, AllocError>
    ensures { IfOk result (λ found. MatchOption found (is_some (attr_fault (chars text.now)) ≡ true)
        (λ attr. (attr ≡ chars text.now) × (attr_fault (chars text.now) ≡ None))) }
{
    match HtmlAttr::intern(alloc, text) {
        Ok(attr) => Ok(Some(attr)),
        Err(NameFault::OutOfMemory) => Err(AllocError),
        Err(_) => Ok(None),
    }
}

/// Returns whether a line feed is dropped after the start tag.
#[tactic(auto, unfolding(html_names_core::specs::Tables::known_tags, typst_html_encode::specs::Reader::drops_feed))]
fn drops_feed(tag: &HtmlTag) -> bool
    ensures { result ≡ reader.drops_feed tag.now }
{
    *tag == tag::pre || *tag == tag::textarea
}

impl Reader {
    pub(crate) fn less(&mut self, c: char) -> Result<(), AllocError>
        requires { self.old.mode ≡ mode.Less }
        ensures { OnOk result (reader_state self.new ≡ next_state (reader_state self.old) c) }
    {
        if c == '/' {
            empty(&mut self.word);
            self.mode = if self.stack.is_empty() {
                Mode::Stop
            } else {
                Mode::EndName
            };
        } else if is_valid_in_tag_name(c) && !self.stack.holds_text_alone() {
            begin(&mut self.word, c)?;
            self.mode = Mode::StartName;
        } else {
            self.mode = Mode::Stop;
        }
        Ok(())
    }

    pub(crate) fn start_name(&mut self, c: char) -> Result<(), AllocError>
        requires { self.old.mode ≡ mode.StartName }
        ensures { OnOk result (reader_state self.new ≡ next_state (reader_state self.old) c) }
    {
        if is_valid_in_tag_name(c) {
            add(&mut self.word, c)?;
            return Ok(());
        }
        match tag_named(self.alloc, self.word.as_str())? {
            None => {
                self.mode = Mode::Stop;
                Ok(())
            }
            Some(tag) => {
                self.tag = tag;
                self.attrs = HtmlAttrs::new(self.alloc);
                self.after(c)
            }
        }
    }

    pub(crate) fn space(&mut self, c: char) -> Result<(), AllocError>
        requires { self.old.mode ≡ mode.Space }
        ensures { OnOk result (reader_state self.new ≡ next_state (reader_state self.old) c) }
    {
        self.mode = Mode::Stop;
        if is_valid_in_attribute_name(c) {
            begin(&mut self.word, c)?;
            self.mode = Mode::AttrName;
        }
        Ok(())
    }

    pub(crate) fn attr_name(&mut self, c: char) -> Result<(), AllocError>
        requires { self.old.mode ≡ mode.AttrName }
        ensures { OnOk result (reader_state self.new ≡ next_state (reader_state self.old) c) }
    {
        if is_valid_in_attribute_name(c) {
            add(&mut self.word, c)?;
            return Ok(());
        }
        match attr_named(self.alloc, self.word.as_str())? {
            None => {
                self.mode = Mode::Stop;
                Ok(())
            }
            Some(attr) if c == '=' => {
                self.attr = attr;
                self.mode = Mode::Equals;
                Ok(())
            }
            Some(attr) => {
                self.attrs.push(attr, String::new(self.alloc))?;
                self.after(c)
            }
        }
    }

    pub(crate) fn equals(&mut self, c: char) -> Result<(), AllocError>
        requires { self.old.mode ≡ mode.Equals }
        ensures { OnOk result (reader_state self.new ≡ next_state (reader_state self.old) c) }
    {
        empty(&mut self.text);
        self.mode = if c == '"' { Mode::Value } else { Mode::Stop };
        Ok(())
    }

    pub(crate) fn value(&mut self, c: char) -> Result<(), AllocError>
        requires { self.old.mode ≡ mode.Value }
        ensures { OnOk result (reader_state self.new ≡ next_state (reader_state self.old) c) }
    {
        match c {
            '"' => {
                let attr = mem::replace(&mut self.attr, attr::class);
                let value = take(self.alloc, &mut self.text);
                self.attrs.push(attr, value)?;
                self.mode = Mode::Quoted;
            }
            '&' => {
                empty(&mut self.word);
                self.mode = Mode::ValueReference;
            }
            _ => add(&mut self.text, c)?,
        }
        Ok(())
    }

    pub(crate) fn value_reference(&mut self, c: char) -> Result<(), AllocError>
        requires { self.old.mode ≡ mode.ValueReference }
        ensures { OnOk result (reader_state self.new ≡ next_state (reader_state self.old) c) }
    {
        if c != ';' {
            let begins = extend(&mut self.word, c)?;
            self.mode = if begins {
                Mode::ValueReference
            } else {
                Mode::Stop
            };
            return Ok(());
        }
        match reference(self.alloc, self.word.as_str())? {
            None => self.mode = Mode::Stop,
            Some(d) => {
                add(&mut self.text, d)?;
                self.mode = Mode::Value;
            }
        }
        Ok(())
    }

    pub(crate) fn quoted(&mut self, c: char) -> Result<(), AllocError>
        requires { self.old.mode ≡ mode.Quoted }
        ensures { OnOk result (reader_state self.new ≡ next_state (reader_state self.old) c) }
    {
        self.after(c)
    }

    pub(crate) fn slash(&mut self, c: char) -> Result<(), AllocError>
        requires { self.old.mode ≡ mode.Slash }
        ensures { OnOk result (reader_state self.new ≡ next_state (reader_state self.old) c) }
    {
        if c != '>' {
            self.mode = Mode::Stop;
            return Ok(());
        }
        let element = self.take_tag();
        self.complete(element)
    }

    /// Reads the character after the name or an attribute of a start tag.
    fn after(&mut self, c: char) -> Result<(), AllocError>
        ensures { OnOk result (reader_state self.new
            ≡ reader.after self.old.tag (attrs_view self.old.attrs) (stack_of self.old.stack) c) }
    {
        if c == ' ' {
            self.mode = Mode::Space;
            return Ok(());
        }
        if tag::is_foreign_self_closing(&self.tag) {
            self.mode = if c == '/' { Mode::Slash } else { Mode::Stop };
            return Ok(());
        }
        if c != '>' {
            self.mode = Mode::Stop;
            return Ok(());
        }
        self.open()
    }

    /// Ends a start tag without `/`: completes a void element, and opens any other.
    fn open(&mut self) -> Result<(), AllocError>
        ensures { OnOk result (reader_state self.new
            ≡ reader.after_start_tag self.old.tag (attrs_view self.old.attrs)
            (stack_of self.old.stack)) }
    {
        if tag::is_void(&self.tag) {
            let element = self.take_tag();
            return self.complete(element);
        }
        empty(&mut self.text);
        if tag::is_raw(&self.tag) {
            self.mode = Mode::Raw;
            return Ok(());
        }
        self.mode = if drops_feed(&self.tag) {
            Mode::Fresh
        } else {
            Mode::Content
        };
        let element = self.take_tag();
        self.stack.push(element)
    }

    pub(crate) fn take_tag(&mut self) -> OpenElement
        ensures element { open_of result ≡ record {
          name = self.old.tag;
          attrs = attrs_view self.old.attrs;
          children = no_plains;
        } }
        ensures stack { self.new.stack ≡ self.old.stack }
        ensures mode { self.new.mode ≡ self.old.mode }
        ensures text { self.new.text ≡ self.old.text }
    {
        let tag = mem::replace(&mut self.tag, tag::html);
        let attrs = mem::replace(&mut self.attrs, HtmlAttrs::new(self.alloc));
        OpenElement::new(self.alloc, tag, attrs)
    }
}
