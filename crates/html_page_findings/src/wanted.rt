//! The wanted texts of an element.

ghost use Rattle.std.specs.Prelude.{◌≡◌, IfOk, option_map, option_to_list};
ghost use Rattle.html_dom_tree.specs.Views.{element_view, text_view};
ghost use Rattle.html_links.specs.Indicated.{unless_empty};
ghost use Rattle.html_page_findings.specs.{Fragments.{fragments}, Hyperlinks.{may_link}, PlacedTexts.{head_texts}};
ghost use Rattle.html_page_findings.specs.WantedTexts.{filled, hrefs, kind_of};

use html_dom_tree::HtmlElement;
use html_links::{first_id, fragment_in, link_name};
use html_names_core::{attr, tag};
use std::alloc::{AllocError, Global};

/// The texts to look for. If an element has several attributes of one name, the first counts.
#[derive(Clone, Copy)]
pub enum Wanted {
    /// The fragments of their page to which `a` and `area` elements lead.
    Fragments,
    /// The ids of elements, and the ids and anchors of frames, including empty ones.
    Ids,
    /// The ids of elements to which links may lead: all but empty ones.
    LinkedIds,
    /// The names of `a` elements to which links may lead: all but empty ones.
    LinkedNames,
    /// The addresses (`href`) of `a` and `area` elements, as they are written.
    Hrefs,
}

/// Returns the wanted text of an element, if it has one.
pub(crate) fn own_text(
    alloc: Global,
    element: &HtmlElement,
    wanted: Wanted,
) -> Result<Option<String>, AllocError>
    ensures { IfOk result (λ text. option_to_list (option_map text_view text)
        ≡ head_texts (kind_of wanted) (element_view element.now).0) }
{
    match wanted {
        Wanted::Fragments => fragment(alloc, element),
        Wanted::Ids => copy_of(first_id(element)),
        Wanted::LinkedIds => copy_of(filled(first_id(element))),
        Wanted::LinkedNames => copy_of(filled(link_name(element))),
        Wanted::Hrefs => copy_of(link_href(element)),
    }
}

/// Returns the fragment to which an `a` or `area` leads, by its first `href`.
#[tactic(auto, unfolding(html_names_core::specs::Tables::known_attrs))]
fn fragment(alloc: Global, element: &HtmlElement) -> Result<Option<String>, AllocError>
    ensures { IfOk result (λ fragment. option_to_list (option_map text_view fragment)
        ≡ head_texts fragments (element_view element.now).0) }
{
    match link_href(element) {
        Some(href) => fragment_in(alloc, href.as_str()),
        None => Ok(None),
    }
}

#[tactic(auto, unfolding(html_names_core::specs::Tables::known_attrs))]
fn link_href(element: &HtmlElement) -> Option<&String>
    ensures { option_to_list (option_map (λ href. text_view href.now) result)
        ≡ head_texts hrefs (element_view element.now).0 }
{
    if may_link(element) {
        element.attrs.get(&attr::href)
    } else {
        None
    }
}

/// Returns whether an `href` makes the element a link.
#[tactic(auto, unfolding(html_names_core::specs::Tables::known_tags))]
fn may_link(element: &HtmlElement) -> bool
    ensures { result ≡ may_link (element_view element.now).0.name }
{
    element.tag == tag::a || element.tag == tag::area
}

/// Returns the value, unless it is empty.
fn filled(value: Option<&String>) -> Option<&String>
    ensures { option_to_list (option_map (λ value. text_view value.now) result)
        ≡ filled (option_map (λ value. text_view value.now) value.entry) }
{
    match value {
        Some(value) => unless_empty(value),
        None => None,
    }
}

fn unless_empty(value: &String) -> Option<&String>
    ensures { option_to_list (option_map (λ value. text_view value.now) result)
        ≡ unless_empty (text_view value.now) }
{
    if value.is_empty() { None } else { Some(value) }
}

pub(crate) fn copy_of(text: Option<&String>) -> Result<Option<String>, AllocError>
    ensures { IfOk result (λ copy.
        option_map text_view copy ≡ option_map (λ text. text_view text.now) text.entry) }
{
    match text {
        Some(text) => Ok(Some(text.clone()?)),
        None => Ok(None),
    }
}
