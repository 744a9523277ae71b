//! A tag under construction.

ghost use Rattle.std.specs.{Char.{to_ascii_lowercase}, Fmt.{digits}, List.{list_all}};
ghost use Rattle.std.specs.Prelude.{◌≡◌, ◌++◌, ◌∷◌, [], IfOk, MatchOption, OnOk, bytes_eq, chars, false, true, is_some, None};
ghost use Rattle.html_dom_tree.specs.{Attributes.{has_name}, Views.{attrs_view, text_view}};
ghost use Rattle.html_names_core.specs.{Characters.{is_tag_char}, Names.{attr_fault}};
ghost use Rattle.html_page_read.specs.PageTokens as tokens;
ghost use Rattle.html_page_read.specs.{PageReaderViews.{draft_of, reading_of}, PageTokens.{is_name}};

use crate::reading::Reading;
use html_dom_tree::{HtmlAttrs, text};
use html_names_core::charsets::is_valid_in_tag_name;
use html_names_core::text_writer::TextWriter;
use html_names_core::{HtmlAttr, HtmlTag, NameFault};
use html_page_stack::{PageError, PageRefusal};
use std::alloc::{AllocError, Global};

/// The greatest number of attributes of a tag.
const MOST_ATTRS: usize = 256;

/// The part of a tag that is read so far, and its current attribute.
#[derive(Drop)]
pub(crate) struct Draft {
    pub(crate) is_end: bool,
    pub(crate) name: String,
    pub(crate) attrs: HtmlAttrs,
    pub(crate) attr: String,
    pub(crate) value: String,
    /// The quote around the value, or U+0000 for none.
    pub(crate) quote: char,
}

fn are_tag_chars(name: &str) -> bool
    ensures { result ≡ list_all is_tag_char (chars name.now) }
{
    name.chars().all(|c| is_valid_in_tag_name(c))
}

/// Returns whether it is a name of an element: one or more letters, digits and `-`.
fn is_tag_name(name: &str) -> bool
    ensures { result ≡ is_name (chars name.now) }
{
    !name.is_empty() && are_tag_chars(name)
}

/// Returns the tag with that name, if it is a name.
#[tactic(auto, using(crate::proofs::TagNames::tag_bytes, html_names_core::proofs::Faults::constants))]
pub(crate) fn tag_named(alloc: Global, name: &str) -> Result<Option<HtmlTag>, AllocError>
    ensures { IfOk result (λ found. MatchOption found (is_name (chars name.now) ≡ false)
        (λ tag. (tag ≡ chars name.now) × (is_name (chars name.now) ≡ true))) }
{
    if !is_tag_name(name) {
        return Ok(None);
    }
    Ok(Some(HtmlTag::constant(alloc, name)?))
}

/// Appends a character in hexadecimal digits, and a hyphen.
#[tactic(auto, using(crate::proofs::CodedNames::coded_on, std::proofs::Common::append_assoc))]
fn push_coded(text: &mut TextWriter, c: char) -> Result<(), AllocError>
    ensures added { OnOk result (text.new ≡ text.old ++ (digits 16 false c ++ 45 ∷ [])) }
    ensures valid { OnOk result (list_all is_tag_char text.old ≡ true →
        list_all is_tag_char text.new ≡ true) }
{
    text.push_hex(u32::from(c))?;
    text.push('-')?;
    Ok(())
}

/// Returns a name that no element can have in characters of names. It begins with `-`, as the name
/// of no tag does.
fn coded_text(alloc: Global, name: &str) -> Result<String, AllocError>
    ensures coded { IfOk result (λ text. text_view text ≡ tokens.coded_name (chars name.now)) }
    ensures valid { IfOk result (λ text. is_name (text_view text) ≡ true) }
{
    let mut text = TextWriter::new(alloc);
    text.push('-')?;
    for c in name.chars() {
        push_coded(&mut text, c)?;
    }
    Ok(text.into_string())
}

/// Returns the tag that stands for a name that no element can have.
pub(crate) fn coded_tag(alloc: Global, name: &str) -> Result<HtmlTag, AllocError>
    ensures { IfOk result (λ tag. tag ≡ tokens.coded_name (chars name.now)) }
{
    let text = coded_text(alloc, name)?;
    match tag_named(alloc, text.as_str())? {
        Some(tag) => Ok(tag),
        None => unreachable!(),
    }
}

/// Returns the attribute with that name, if it is a name.
fn attr_named(alloc: Global, name: &str) -> Result<Option<HtmlAttr>, AllocError>
    ensures { IfOk result (λ found. MatchOption found (is_some (attr_fault (chars name.now)) ≡ true)
        (λ attr. (attr ≡ chars name.now) × (attr_fault (chars name.now) ≡ None))) }
{
    match HtmlAttr::intern(alloc, name) {
        Ok(attr) => Ok(Some(attr)),
        Err(NameFault::OutOfMemory) => Err(AllocError),
        Err(_) => Ok(None),
    }
}

impl Draft {
    pub(crate) fn new(alloc: Global) -> Draft {
        Draft {
            is_end: false,
            name: String::new(alloc),
            attrs: HtmlAttrs::new(alloc),
            attr: String::new(alloc),
            value: String::new(alloc),
            quote: '\0',
        }
    }

    /// Begins a tag with the first letter of its name.
    pub(crate) fn begin(&mut self, alloc: Global, is_end: bool, c: char) -> Result<(), AllocError>
        ensures { OnOk result (draft_of self.new ≡ record {
          is_end = is_end;
          name = to_ascii_lowercase c ∷ [];
          attrs = [];
        }) }
    {
        self.is_end = is_end;
        text::begin(&mut self.name, c.to_ascii_lowercase())?;
        self.attrs = HtmlAttrs::new(alloc);
        Ok(())
    }

    pub(crate) fn begin_named(
        &mut self,
        alloc: Global,
        is_end: bool,
        name: &str,
    ) -> Result<(), AllocError>
        ensures { OnOk result (draft_of self.new ≡ record {
          is_end = is_end;
          name = chars name.now;
          attrs = [];
        }) }
    {
        self.is_end = is_end;
        self.name.clear();
        self.name.push_str(name)?;
        self.attrs = HtmlAttrs::new(alloc);
        Ok(())
    }

    /// Begins an end tag whose name is known.
    pub(crate) fn begin_end(&mut self, alloc: Global, tag: &HtmlTag) -> Result<(), AllocError>
        ensures { OnOk result (draft_of self.new ≡ record {
          is_end = true;
          name = tag.now;
          attrs = [];
        }) }
    {
        self.begin_named(alloc, true, tag.resolve())
    }

    /// Begins an attribute with a character of its name.
    pub(crate) fn begin_attr(&mut self, c: char) -> Result<(), AllocError>
        ensures tag { OnOk result (draft_of self.new ≡ draft_of self.old) }
        ensures attr { OnOk result (text_view self.new.attr ≡ to_ascii_lowercase c ∷ []) }
    {
        text::begin(&mut self.attr, c.to_ascii_lowercase())
    }

    fn push_attr(&mut self, attr: HtmlAttr, value: String) -> Result<(), AllocError>
        ensures tag { OnOk result (draft_of self.new ≡ record (draft_of self.old) {
          attrs = (draft_of self.old).attrs ++ (attr, text_view value) ∷ [];
        }) }
    {
        self.attrs.push(attr, value)?;
        Ok(())
    }

    /// Adds the attribute to the tag, unless no attribute can have its name. Of two with one name the
    /// first counts.
    pub(crate) fn end_attr(
        &mut self,
        alloc: Global,
        reading: &mut Reading,
    ) -> Result<(), AllocError>
        ensures { OnOk result ((draft_of self.new, reading_of reading.new)
            ≡ tokens.attr_added (text_view self.old.attr) (text_view self.old.value) (draft_of
            self.old) (reading_of reading.old)) }
    {
        let Some(attr) = attr_named(alloc, self.attr.as_str())? else {
            reading.note(PageError::UnknownAttribute)?;
            return Ok(());
        };
        if self.attrs.get(&attr).is_some() {
            reading.note(PageError::DuplicateAttribute)?;
            return Ok(());
        }
        if MOST_ATTRS <= self.attrs.0.len() {
            reading.page.refuse(PageRefusal::TooManyAttributes);
            return Ok(());
        }
        let value = text::take(alloc, &mut self.value);
        self.push_attr(attr, value)?;
        Ok(())
    }

    /// Adds the attribute to the tag, without a value.
    pub(crate) fn end_bare_attr(
        &mut self,
        alloc: Global,
        reading: &mut Reading,
    ) -> Result<(), AllocError>
        ensures { OnOk result ((draft_of self.new, reading_of reading.new)
            ≡ tokens.attr_added (text_view self.old.attr) [] (draft_of self.old) (reading_of
            reading.old)) }
    {
        text::empty(&mut self.value);
        self.end_attr(alloc, reading)
    }
}
