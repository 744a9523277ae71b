//! Names and values of a start tag.

ghost use Rattle.std.specs.{List.{list_any}, Prelude.{◌≡◌, chars, map, not, ◌&&◌}};
ghost use Rattle.html_dom_tree.specs.{Attributes.{has_name, names_differ}, Views.{attrs_view, element_view, pair_view}};
ghost use Rattle.html_page_nesting.specs.WrittenTags.{attrs_misnesting, begins_with_letter, capital_attrs, keep_case, tag_misnesting};
ghost use Rattle.html_page_nesting.specs.WrittenTexts.{has_return};

use crate::capitals::{attr_keeps_case, tag_keeps_case};
use crate::misnesting::Misnesting;
use crate::reading::Space;
use crate::texts::has_return;
use html_dom_tree::{HtmlAttrs, HtmlElement};
use html_names_core::HtmlAttr;

fn begins_with_letter(name: &str) -> bool
    ensures { result ≡ begins_with_letter (chars name.now) }
{
    match name.chars().next() {
        Some(c) => c.is_ascii_lowercase() || c.is_ascii_uppercase(),
        None => false,
    }
}

fn keep_case(space: Space, attrs: &HtmlAttrs) -> bool
    ensures { result ≡ keep_case (capital_attrs space) (attrs_view attrs.now) }
{
    for attr in &attrs.0 {
        if !attr_keeps_case(space, attr.0.resolve()) {
            return false;
        }
    }
    true
}

fn has_name(pairs: &[(HtmlAttr, String)], name: &HtmlAttr) -> bool
    ensures { result ≡ has_name (map pair_view pairs.now) name.now }
{
    for pair in pairs {
        if pair.0 == *name {
            return true;
        }
    }
    false
}

fn names_differ(pairs: &[(HtmlAttr, String)]) -> bool
    ensures { result ≡ names_differ (map pair_view pairs.now) }
{
    let mut left = pairs;
    while let Some((first, rest)) = left.split_first() {
        if has_name(rest, &first.0) {
            return false;
        }
        left = rest;
    }
    true
}

fn have_return(attrs: &HtmlAttrs) -> bool
    ensures { result ≡ list_any (λ a. has_return a.1) (attrs_view attrs.now) }
{
    for attr in &attrs.0 {
        if has_return(attr.1.as_str()) {
            return true;
        }
    }
    false
}

fn attrs_misnesting(space: Space, attrs: &HtmlAttrs) -> Option<Misnesting>
    ensures { result ≡ attrs_misnesting space (attrs_view attrs.now) }
{
    if !keep_case(space, attrs) {
        return Some(Misnesting::AttributeName);
    }
    if !names_differ(&attrs.0) {
        return Some(Misnesting::RepeatedAttribute);
    }
    if have_return(attrs) {
        return Some(Misnesting::CarriageReturn);
    }
    None
}

/// Returns the first rule that the start tag of an element in that namespace breaks.
pub(crate) fn tag_misnesting(space: Space, element: &HtmlElement) -> Option<Misnesting>
    ensures { result ≡ tag_misnesting space (element_view element.now).0 }
{
    let name = element.tag.resolve();
    if begins_with_letter(name) && tag_keeps_case(space, name) {
        attrs_misnesting(space, &element.attrs)
    } else {
        Some(Misnesting::TagName)
    }
}
