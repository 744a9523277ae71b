//! The names in use, and new ones.

ghost use Rattle.std.specs.Prelude.{Bool, [], ◌≡◌, ◌-◌, ◌≤◌, ◌<◌, ◌^◌, ◌+◌, chars, IfOk, OnOk};
ghost use Rattle.html_names_core.specs.Names.{stands_in};
ghost use Rattle.html_dom_tree.specs.Views.{element_view, text_view, optional_text_view};
ghost use Rattle.html_links.specs.{TreeNames.{Name, element_names, with_used_name}, UsedNames.{used_in}};
ghost use Rattle.html_anchors.specs.NewNames.{name_with_number, stem_of, first_number, first_free, free_name, text_of_label, name_for, new_name};
ghost use Rattle.html_anchors.specs.NumberedNames.{is_nothing, AreUsedBelow, IsCounted, IsBounded};

use html_dom_tree::HtmlElement;
use html_links::{is_used, listed_names, put_in_use};
use std::alloc::{AllocError, Global};
use std::collections::{BTreeMap, BTreeSet};

/// The number of tries for a label: more than the names that any memory holds.
const TRIES: u64 = 1 << 63;

/// The names in use, and the next number to try for each label that was numbered. The names with
/// lower numbers are all in use, so they are not tried again.
#[derive(Drop)]
pub(crate) struct AnchorNames {
    used: BTreeSet<String>,
    next: BTreeMap<String, u64>,
    ghost counted: { IsCounted (used_in used) next },
}

/// Joins a stem, `-` and a number.
fn name_with_number(alloc: Global, stem: &str, number: u64) -> Result<String, AllocError>
    ensures { IfOk result (λ name. text_view name ≡ name_with_number (chars stem.now) number) }
{
    format!(in alloc; "{stem}-{number}")
}

/// Returns the first number from this one on whose name is free, or the limit.
fn first_free(
    alloc: Global,
    used: &BTreeSet<String>,
    stem: &str,
    from: u64,
    limit: u64,
) -> Result<u64, AllocError>
    requires { from ≤ limit }
    ensures { IfOk result (λ number.
        number ≡ first_free (chars stem.now) (used_in used.now) (limit - from) from) }
{
    for number in from..limit {
        if !is_used(used, &name_with_number(alloc, stem, number)?) {
            return Ok(number);
        }
    }
    Ok(limit)
}

/// Stores the next number to try for a label's text.
fn put_number(
    next: &mut BTreeMap<String, u64>,
    label: String,
    number: u64,
) -> Result<(), AllocError>
    ensures { (used : Name → Bool) → IsCounted used next.old →
        AreUsedBelow used (text_view label) number → IsCounted used next.new }
{
    next.insert(label, number)?;
    Ok(())
}

/// Returns the label's text, empty without a label.
fn label_text(alloc: Global, label: &Option<String>) -> Result<String, AllocError>
    ensures { IfOk result (λ text.
        text_view text ≡ text_of_label (optional_text_view label.now)) }
{
    match label {
        Some(text) => text.clone(),
        None => Ok(String::new(alloc)),
    }
}

impl AnchorNames {
    pub(crate) fn new(alloc: Global) -> AnchorNames
        ensures { result.used.keys ≡ [] }
    {
        AnchorNames {
            used: BTreeSet::new(alloc),
            next: BTreeMap::new(alloc),
        }
    }

    /// Shows that at most 2^63 names are in use, since a set holds no more.
    pub(crate) fn are_bounded(&self)
        ensures { IsBounded (used_in self.now.used) }
    {
        let _ = self.used.len();
    }

    pub(crate) fn put(&mut self, name: &String) -> Result<(), AllocError>
        ensures { OnOk result (used_in self.new.used
            ≡ with_used_name (text_view name.now) (used_in self.old.used)) }
    {
        put_in_use(&mut self.used, name.clone()?)
    }

    pub(crate) fn make(
        &mut self,
        alloc: Global,
        label: &Option<String>,
    ) -> Result<String, AllocError>
        ensures name { IfOk result (λ name. text_view name
            ≡ new_name (optional_text_view label.now) (used_in self.old.used)) }
        ensures used { IfOk result (λ name. used_in self.new.used
            ≡ with_used_name (text_view name) (used_in self.old.used)) }
    {
        let name = self.new_name(alloc, label_text(alloc, label)?)?;
        self.put(&name)?;
        Ok(name)
    }

    fn new_name(&mut self, alloc: Global, label: String) -> Result<String, AllocError>
        ensures name { IfOk result (λ name. text_view name
            ≡ name_for (text_view label) (used_in self.old.used)) }
        ensures same { self.new.used ≡ self.old.used }
    {
        if is_nothing(&label) || is_used(&self.used, &label) {
            self.free_name(alloc, label)
        } else {
            Ok(label)
        }
    }

    fn free_name(&mut self, alloc: Global, label: String) -> Result<String, AllocError>
        ensures name { IfOk result (λ name. text_view name
            ≡ free_name (text_view label) (used_in self.old.used)) }
        ensures same { self.new.used ≡ self.old.used }
    {
        let limit = first_number(&label) + TRIES;
        let from = self.next_number(&label);
        let number = first_free(alloc, &self.used, stem_of(&label), from, limit)?;
        let name = name_with_number(alloc, stem_of(&label), number)?;
        put_number(&mut self.next, label, number)?;
        Ok(name)
    }

    fn next_number(&self, label: &String) -> u64
        ensures { AreUsedBelow (used_in self.now.used) (text_view label.now) result }
    {
        match self.next.get(label.as_str()) {
            Some(number) => *number,
            None => first_number(label),
        }
    }
}

/// Returns the names in use in an element and in everything below it.
pub(crate) fn element_names(alloc: Global, element: &HtmlElement) -> Result<AnchorNames, AllocError>
    ensures { IfOk result (λ names. used_in names.used
        ≡ stands_in (element_names (element_view element.now))) }
{
    let mut names = AnchorNames::new(alloc);
    for name in &listed_names(alloc, element)? {
        names.put(name)?;
    }
    Ok(names)
}

fn is_nothing(text: &String) -> bool
    ensures { result ≡ is_nothing (text_view text.now) }
{
    text.is_empty()
}

fn stem_of(label: &String) -> &str
    ensures { chars result.now ≡ stem_of (text_view label.now) }
{
    if is_nothing(label) {
        "loc"
    } else {
        label.as_str()
    }
}

fn first_number(label: &String) -> u64
    ensures { result ≡ first_number (text_view label.now) }
{
    if is_nothing(label) { 1 } else { 2 }
}
