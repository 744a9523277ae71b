//! The state of a reader of a JSON value, and how it reads names.

ghost use Rattle.std.specs.Prelude.{◌≡◌, [], None, OnOk, IfErr, chars, option_map};
ghost use Rattle.serde_json.specs.View.{view};
ghost use Rattle.html_names_core.specs.{NameFaults.{number_of}, Names.{tag_fault, attr_fault}};
ghost use Rattle.html_dom_tree.specs.Views.{tag_view};
ghost use Rattle.typst_html_json.specs.{Fields.{numbered_leaf, pairs_at, pair_at}, Marks.{are_there, at_start, opened}};
ghost use Rattle.typst_html_json.specs.Reading.{IsWant, Locates, Notes, Reads, ReadsHere, ReadsName, ReadsPair, ReadsPairs, mark};
ghost use Rattle.typst_html_json.specs.{SpelledItems.{css_at}, declared.fault.Fault.TheVariants.{BadInput}};
ghost use Rattle.typst_html_json.specs.declared.fault.InputPlace.TheVariants.{Form};

use crate::fault::{Fault, InputPlace};
use crate::fields::pair_in;
use html_dom_tree::{HtmlAttrs, Location, Span, Tag};
use html_flow_places::NamedPlaces;
use html_names_core::{HtmlAttr, HtmlTag, NameFault, attr, tag};
use html_values_css::Properties;
use serde_json::Value;
use std::alloc::Global;

/// The state of a reader. A name that is refused does not end the reading, since the rest of the
/// value may spell nothing, and then the value is bad input whatever its names are. The reader puts
/// another name in its place, and what it made is not returned.
#[derive(Drop)]
pub(crate) struct Reader {
    alloc: Global,
    /// The number of lists of nodes or items that were opened.
    lists: u64,
    /// The locations of names.
    places: NamedPlaces,
    /// Whether there was a tag whose location is a number.
    numbered: bool,
    /// The number of the fault of the first name that was refused, and its span.
    refused: Option<(u8, Span)>,
}

impl Reader {
    pub(crate) fn new(alloc: Global) -> Reader
        ensures mark { mark result ≡ at_start }
        ensures refused { result.refused ≡ None }
    {
        Reader {
            alloc,
            lists: 0,
            places: NamedPlaces::new(alloc),
            numbered: false,
            refused: None,
        }
    }

    pub(crate) fn alloc(&self) -> Global {
        self.alloc
    }

    pub(crate) fn refused(&self) -> Option<(u8, Span)>
        ensures { result ≡ self.now.refused }
    {
        self.refused
    }

    pub(crate) fn open(&mut self) -> Result<(), Fault>
        ensures mark { OnOk result (mark self.new ≡ opened (mark self.old)) }
        ensures refused { self.new.refused ≡ self.old.refused }
        ensures fault { IfErr result IsWant }
    {
        self.lists = self.lists.checked_add(1).ok_or(Fault::OutOfMemory)?;
        Ok(())
    }

    /// Returns the span of the list that was opened last.
    pub(crate) fn here(&self) -> Span
        ensures { result.0 ≡ self.now.lists }
    {
        Span(self.lists)
    }

    /// Returns the fault that the value leaves the form in the list that was opened last, or before
    /// the first.
    pub(crate) fn left(&self) -> Fault
        ensures { result ≡ BadInput (Form self.now.lists) }
    {
        Fault::BadInput(InputPlace::Form(self.lists))
    }

    /// Returns the tag, whose locations are numbers. Fails with bad input if there is no tag, or if
    /// the value has used a name for a location: it has only names or only numbers.
    pub(crate) fn numbered(&mut self, tag: Option<Tag>) -> Result<Tag, Fault>
        ensures { Reads tag_view (λ t. []) result
            (numbered_leaf (λ t. t) (option_map tag_view tag) (mark self.old)) self.old self.new }
    {
        let Some(tag) = tag else {
            return Err(self.left());
        };
        if self.has_names() {
            return Err(self.left());
        }
        self.numbered = true;
        Ok(tag)
    }

    fn has_names(&self) -> bool
        ensures { result ≡ are_there self.now.places }
    {
        self.places.name(Location(1)).is_some()
    }

    /// Returns the location of a name. Fails with bad input if the value has used a number for a
    /// location.
    pub(crate) fn named(&mut self, name: &str) -> Result<Location, Fault>
        ensures { Locates (chars name.now) result self.old self.new }
    {
        if self.numbered {
            return Err(self.left());
        }
        Ok(self.places.location(name)?)
    }

    /// Remembers the fault of a name of the element with that span, unless there was one before.
    /// Fails if the fault is that of an allocation.
    fn note(&mut self, fault: &NameFault, span: Span) -> Result<(), Fault>
        ensures { Notes (number_of fault.now) span result self.old self.new }
    {
        match fault.number() {
            0 => Err(Fault::OutOfMemory),
            number => {
                if self.refused.is_none() {
                    self.refused = Some((number, span));
                }
                Ok(())
            }
        }
    }

    pub(crate) fn tag(&mut self, text: &str, span: Span) -> Result<HtmlTag, Fault>
        ensures { ReadsName tag_fault span result (chars text.now) self.old self.new }
    {
        match HtmlTag::intern(self.alloc, text) {
            Ok(tag) => Ok(tag),
            Err(fault) => {
                self.note(&fault, span)?;
                Ok(tag::p)
            }
        }
    }

    fn attr(&mut self, text: &str, span: Span) -> Result<HtmlAttr, Fault>
        ensures { ReadsName attr_fault span result (chars text.now) self.old self.new }
    {
        match HtmlAttr::intern(self.alloc, text) {
            Ok(attr) => Ok(attr),
            Err(fault) => {
                self.note(&fault, span)?;
                Ok(attr::id)
            }
        }
    }

    pub(crate) fn pairs(&mut self, value: Value, span: Span) -> Result<HtmlAttrs, Fault>
        ensures { ReadsPairs span result (pairs_at (view value)) self.old self.new }
    {
        let Value::Array(values) = value else {
            return Err(self.left());
        };
        let mut pairs = Vec::with_capacity(self.alloc, values.len())?;
        for value in values {
            pairs.push(self.pair(value, span)?)?;
        }
        Ok(HtmlAttrs(pairs))
    }

    /// Returns the css that a value spells.
    pub(crate) fn css(&self, value: Value) -> Result<Properties, Fault>
        ensures { ReadsHere (λ css. css) result (css_at (view value)) self.now }
    {
        let Value::Array(values) = value else {
            return Err(self.left());
        };
        let mut css = Properties::with_capacity(self.alloc, values.len())?;
        for value in values {
            let Some((name, value)) = pair_in(value) else {
                return Err(self.left());
            };
            css.push(&name, value)?;
        }
        Ok(css)
    }

    fn pair(&mut self, value: Value, span: Span) -> Result<(HtmlAttr, String), Fault>
        ensures { ReadsPair span result (pair_at (view value)) self.old self.new }
    {
        match pair_in(value) {
            Some((name, value)) => Ok((self.attr(&name, span)?, value)),
            None => Err(self.left()),
        }
    }
}
