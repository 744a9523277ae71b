//! The list of active formatting elements (HTML Standard 13.2.4.3).

ghost use Rattle.std.specs.{List.{list_all}, Prelude.{◌≡◌, ◌+◌, ◌∷◌, [], IfOk, OnOk, Some, None, bytes_eq, chars, map, option_map, reverse}};
ghost use Rattle.html_dom_tree.specs.Attributes.{first};
ghost use Rattle.html_dom_tree.specs.Views.{attrs_view, pair_view};
ghost use Rattle.html_page_stack.specs.{FormatPlaces.{IsLookup}, PageViews.{element_of, entries_of, entry_test, format_of, formats_of, stack_of}};
ghost use Rattle.html_page_stack.specs.Adoption as adoptions;
ghost use Rattle.html_page_stack.specs.AdoptionViews.{IsInReach, adoption_of};
ghost use Rattle.html_page_stack.specs.Copies as copies;
ghost use Rattle.html_page_stack.specs.Pages.{made};
ghost use Rattle.html_page_stack.specs.declared.modes.{Destination.TheVariants.{Parent}, Space.TheVariants.{Html}};
ghost use Rattle.html_page_stack.specs.Formats as formats;

use crate::adoption::Adoption;
use crate::element::PageElement;
use crate::modes::{Destination, Space};
use crate::stack::Stack;
use crate::token::TagName;
use html_dom_tree::{HtmlAttrs, Span};
use html_names_core::{HtmlAttr, HtmlTag};
use html_page_names::Kind;
use std::alloc::{AllocError, Global};
use std::mem;

/// The number of entries behind the last marker that may be alike, beside a new one.
const MOST_ALIKE: usize = 2;

/// A formatting element that a tag opened.
#[derive(Drop)]
pub struct Format {
    /// The name of the tag.
    pub name: TagName,
    /// The attributes of the tag.
    pub attrs: HtmlAttrs,
    /// The span of each element that is made for it.
    pub span: Span,
    /// The index of the last of these among the open elements, outermost first.
    pub index: usize,
}

/// The active formatting elements, the last one last. `None` is a marker.
#[derive(Drop)]
pub struct Formats {
    pub(crate) entries: Vec<Option<Format>>,
}

/// The entry that is meant.
#[derive(Clone, Copy)]
pub enum Entry<'a> {
    /// One of that name.
    Named(&'a HtmlTag),
    /// That of the open element at that index.
    Of(&'a PageElement, usize),
    /// One with the name and the attributes of the element.
    Alike(&'a PageElement),
    /// That of the same element.
    Same(&'a Format),
}

/// Returns what is left of so many bytes, if they are enough.
fn spend(spare: usize, size: usize) -> Option<usize>
    ensures { result ≡ copies.spent spare size }
{
    spare.checked_sub(size)
}

/// Returns what is left of so many bytes, if they are enough for a text.
#[tactic(auto, using(html_names_core::proofs::Lists::in_characters))]
fn spend_text(spare: usize, text: &str) -> Option<usize>
    ensures { result ≡ copies.spent spare (copies.text_size (chars text.now)) }
{
    spend(spare, text.len())
}

/// Returns what is left of so many bytes, if they are enough for two texts.
#[tactic(auto, using(crate::proofs::Copies::spent_on, crate::proofs::Copies::none_on))]
fn spend_texts(spare: usize, first: &str, second: &str) -> Option<usize>
    ensures { result ≡ copies.spent spare
        (copies.text_size (chars first.now) + copies.text_size (chars second.now)) }
{
    let left = spend_text(spare, first)?;
    spend_text(left, second)
}

/// Returns what is left of so many bytes, if they are enough for an attribute in a tag.
#[tactic(auto, using(crate::proofs::Copies::spent_on, crate::proofs::Copies::none_on))]
fn spend_attr(spare: usize, attr: &HtmlAttr, value: &str) -> Option<usize>
    ensures { result ≡ copies.spent spare (copies.attr_size (attr.now, chars value.now)) }
{
    let left = spend(spare, 4)?;
    spend_texts(left, attr.resolve(), value)
}

/// Returns what is left of so many bytes, if they are enough for the attributes in a tag.
#[tactic(auto, using(crate::proofs::Copies::spent_on, crate::proofs::Copies::none_on))]
fn spend_attrs(spare: usize, attrs: &HtmlAttrs) -> Option<usize>
    ensures { result ≡ copies.spent spare (copies.attrs_size (attrs_view attrs.now)) }
{
    let mut left = spare;
    for (attr, value) in &attrs.0 {
        left = spend_attr(left, attr, value.as_str())?;
    }
    Some(left)
}

/// Returns what is left of so many bytes, if they are enough for the tags of elements for the entries.
#[tactic(auto, using(crate::proofs::Copies::spent_on, crate::proofs::Copies::none_on))]
fn spend_all(spare: usize, entries: &[Format]) -> Option<usize>
    ensures { result ≡ copies.spent spare (copies.copies_size (map format_of entries.now)) }
{
    let mut left = spare;
    for entry in entries {
        left = entry.spend(left)?;
    }
    Some(left)
}

/// Returns the bytes of the tags of elements for an entry and for others, if so many are enough.
#[tactic(auto, using(crate::proofs::Copies::spent_on, crate::proofs::Copies::none_on))]
pub(crate) fn copies_size(spare: usize, entry: &Format, others: &[Format]) -> Option<usize>
    ensures { result ≡ copies.size_within spare
        (copies.copies_size (format_of entry.now ∷ map format_of others.now)) }
{
    let left = entry.spend(spare)?;
    let left = spend_all(left, others)?;
    Some(spare.saturating_sub(left))
}

impl Format {
    /// Returns a copy. Fails only if an allocation fails.
    pub fn try_clone(&self) -> Result<Format, AllocError>
        ensures { IfOk result (λ copy. format_of copy ≡ format_of self.now) }
    {
        Ok(Format {
            name: self.name.try_clone()?,
            attrs: self.attrs.try_clone()?,
            span: self.span,
            index: self.index,
        })
    }

    /// Returns whether it is the entry of the same element.
    pub(crate) fn is_same(&self, other: &Format) -> bool
        ensures { result ≡ formats.is_same (format_of self.now) (format_of other.now) }
    {
        self.span == other.span && self.index == other.index
    }

    /// Returns a new element for the entry.
    pub(crate) fn element(&self, alloc: Global) -> Result<PageElement, AllocError>
        ensures { IfOk result (λ element. let f = format_of self.now in
            element_of element ≡ made Parent Html f.name f.attrs f.span) }
    {
        let tag = self.name.tag.try_clone()?;
        let attrs = self.attrs.try_clone()?;
        let (destination, space) = (Destination::Parent, Space::Html);
        let kinds = self.name.kinds;
        Ok(PageElement::new(alloc, destination, space, tag, kinds, attrs, self.span))
    }

    /// Returns what is left of so many bytes, if they are enough for the tags of an element for the
    /// entry.
    #[tactic(auto, using(crate::proofs::Copies::spent_on, crate::proofs::Copies::none_on))]
    pub(crate) fn spend(&self, spare: usize) -> Option<usize>
        ensures { result ≡ copies.spent spare (copies.copy_size (format_of self.now)) }
    {
        let left = spend(spare, 5)?;
        let name = self.name.tag.resolve();
        let left = spend_texts(left, name, name)?;
        spend_attrs(left, &self.attrs)
    }
}

#[tactic(auto, using(html_names_core::proofs::Lists::in_characters))]
fn same_text(a: &str, b: &str) -> bool
    ensures { result ≡ bytes_eq (chars a.now) (chars b.now) }
{
    a == b
}

/// Returns whether the attributes have that pair.
fn has_pair(attrs: &HtmlAttrs, pair: &(HtmlAttr, String)) -> bool
    ensures { result ≡ (let p = pair_view pair.now in
        formats.has_value (first (attrs_view attrs.now) p.0) p.1) }
{
    match attrs.get(&pair.0) {
        None => false,
        Some(value) => same_text(value.as_str(), pair.1.as_str()),
    }
}

/// Returns whether the second attributes have all pairs of the first.
fn has_all(attrs: &HtmlAttrs, others: &HtmlAttrs) -> bool
    ensures { result ≡ list_all (λ x. formats.has_value (first (attrs_view others.now) x.0) x.1)
        (attrs_view attrs.now) }
{
    for pair in &attrs.0 {
        if !has_pair(others, pair) {
            return false;
        }
    }
    true
}

/// Returns whether the attributes are the same, in any order.
fn same_attrs(attrs: &HtmlAttrs, others: &HtmlAttrs) -> bool
    ensures { result ≡ formats.same_attrs (attrs_view attrs.now) (attrs_view others.now) }
{
    attrs.0.len() == others.0.len() && has_all(attrs, others)
}

impl Entry<'_> {
    fn is(self, format: &Format) -> bool
        ensures { result ≡ entry_test self.entry (format_of format.now) }
    {
        match self {
            Entry::Named(tag) => format.name.tag == *tag,
            Entry::Of(element, index) => {
                format.index == index && element.is_opened(&format.name.tag, format.span)
            }
            Entry::Alike(element) => {
                format.name.tag == element.element.tag
                    && same_attrs(&format.attrs, &element.element.attrs)
            }
            Entry::Same(other) => other.is_same(format),
        }
    }
}

/// Returns the index of the last such entry behind the last marker, but for so many others behind
/// it.
fn place_of(entries: &[Option<Format>], entry: Entry<'_>, others: usize) -> Option<usize>
    ensures { IsLookup (entry_test entry.entry) others (entries_of entries.now) result }
{
    let mut outer = entries;
    let mut left = others;
    while let Some((last, rest)) = outer.split_last() {
        let Some(format) = last else {
            return None;
        };
        if entry.is(format) {
            if left == 0 {
                return Some(rest.len());
            }
            left -= 1;
        }
        outer = rest;
    }
    None
}

impl Formats {
    pub(crate) fn new(alloc: Global) -> Formats
        ensures { formats_of result ≡ [] }
    {
        Formats {
            entries: Vec::new(alloc),
        }
    }

    fn push_marker(&mut self) -> Result<(), AllocError>
        ensures { OnOk result (formats_of self.new ≡ None ∷ formats_of self.old) }
    {
        self.entries.push(None)?;
        Ok(())
    }

    pub(crate) fn push(&mut self, format: Format) -> Result<(), AllocError>
        ensures { OnOk result (formats_of self.new ≡ Some (format_of format) ∷ formats_of self.old) }
    {
        self.entries.push(Some(format))?;
        Ok(())
    }

    /// Enters an element that is opened at that index among the open elements, if it is a marker or
    /// a formatting element.
    pub(crate) fn enter(&mut self, element: &PageElement, index: usize) -> Result<(), AllocError>
        ensures { OnOk result (formats_of self.new
            ≡ formats.entered (element_of element.now) index (formats_of self.old)) }
    {
        if element.is(Kind::Marker) {
            return self.push_marker();
        }
        if element.is(Kind::Formatting) {
            self.remove(Entry::Alike(element), MOST_ALIKE);
            return self.push(element.format(index)?);
        }
        Ok(())
    }

    /// Removes the last marker, and the entries behind it.
    pub(crate) fn remove_marker(&mut self)
        ensures { formats_of self.new ≡ formats.before_marker (formats_of self.old) }
    {
        while let Some(entry) = self.entries.pop() {
            if entry.is_none() {
                return;
            }
        }
    }

    /// Removes the last such entry behind the last marker, but for so many others behind it.
    #[tactic(auto, using(crate::proofs::OpenFormats::entries_left))]
    pub fn remove(&mut self, entry: Entry<'_>, others: usize)
        ensures { formats_of self.new
            ≡ formats.without_entry (entry_test entry.entry) others (formats_of self.old) }
    {
        if let Some(place) = place_of(&self.entries, entry, others) {
            let _ = self.entries.remove(place);
        }
    }

    /// Returns whether there is such an entry, behind the last marker or before it.
    pub fn has(&self, entry: Entry<'_>) -> bool
        ensures { result ≡ formats.has_entry (entry_test entry.entry) (formats_of self.now) }
    {
        let mut outer = self.entries.as_slice();
        while let Some((last, rest)) = outer.split_last() {
            if let Some(format) = last
                && entry.is(format)
            {
                return true;
            }
            outer = rest;
        }
        false
    }

    /// Returns whether the last entry is such an entry.
    pub(crate) fn ends_with(&self, entry: Entry<'_>) -> bool
        ensures { result ≡ formats.ends_with (entry_test entry.entry) (formats_of self.now) }
    {
        match self.entries.last() {
            Some(Some(format)) => entry.is(format),
            _ => false,
        }
    }

    /// Returns the last entry of that name behind the last marker.
    pub fn last_named(&self, tag: &HtmlTag) -> Option<&Format>
        ensures { option_map (λ format. format_of format.now) result
            ≡ formats.last_entry (formats.is_named tag.now) (formats_of self.now) }
    {
        let mut outer = self.entries.as_slice();
        while let Some((last, rest)) = outer.split_last() {
            let Some(format) = last else {
                return None;
            };
            if format.name.tag == *tag {
                return Some(format);
            }
            outer = rest;
        }
        None
    }

    /// Returns whether the last entry is no marker, and its element is closed.
    #[inline(always)]
    pub fn ends_closed(&self, stack: &Stack) -> bool
        ensures { result ≡ formats.ends_closed (stack_of stack.now) (formats_of self.now) }
    {
        match self.entries.last() {
            Some(Some(format)) => !stack.is_open(format),
            _ => false,
        }
    }

    /// Removes the entries behind the last marker and the last element that is open, and returns
    /// them, the last one first.
    pub(crate) fn take_closed(
        &mut self,
        alloc: Global,
        stack: &Stack,
    ) -> Result<Vec<Format>, AllocError>
        ensures taken { IfOk result (λ taken. map format_of taken.items
            ≡ formats.closed_entries (stack_of stack.now) (formats_of self.old)) }
        ensures left { OnOk result (formats_of self.new
            ≡ formats.before_closed (stack_of stack.now) (formats_of self.old)) }
    {
        let mut taken = Vec::new(alloc);
        while self.ends_closed(stack) {
            if let Some(Some(format)) = self.entries.pop() {
                taken.push(format)?;
            }
        }
        Ok(taken)
    }

    /// Gives the entries the indices that they have once a block is moved, where elements for so many
    /// of them are made around it.
    #[tactic(auto, using(crate::proofs::Adopting::reversed_twice))]
    pub(crate) fn adopt(
        &mut self,
        alloc: Global,
        adoption: Adoption<'_>,
        count: usize,
    ) -> Result<(), AllocError>
        requires { IsInReach (adoption_of adoption) count }
        ensures { OnOk result (formats_of self.new ≡ reverse (adoptions.entries_after
            (adoption_of adoption.entry) count 0 (reverse (formats_of self.old)))) }
    {
        let entries = mem::replace(&mut self.entries, Vec::new(alloc));
        self.entries = adoption.entries_after(alloc, count, entries)?;
        Ok(())
    }
}
