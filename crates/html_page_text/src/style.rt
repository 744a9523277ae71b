//! What an element's name and style mean for white space in it.

ghost use Rattle.std.specs.Prelude.{◌≡◌, ◌||◌, IsTrue};
ghost use Rattle.html_names_core.specs.{Kinds.{is_line_break}, Names.{is_ascii}};
ghost use Rattle.html_dom_tree.specs.Views.{element_view, attrs_view};
ghost use Rattle.html_dom_shown.specs.Collapsing.{has_border, has_border_display, preserves, style_is};

use html_dom_tree::{HtmlAttrs, HtmlElement};
use html_names_core::property::Display;
use html_names_core::{HtmlTag, attr, tag};

/// Returns whether the first value of `style` is exactly that ASCII text.
#[tactic(auto, unfolding(html_names_core::specs::Tables::known_attrs))]
fn style_is(attrs: &HtmlAttrs, style: &'static str) -> bool
    requires { IsTrue (is_ascii style.now) }
    ensures { result ≡ style_is style.now (attrs_view attrs.now) }
{
    match attrs.get(&attr::style) {
        None => false,
        Some(value) => style == value.as_str(),
    }
}

#[tactic(auto, unfolding(html_names_core::specs::Tables::known_tags, html_dom_shown::specs::Collapsing::preserves))]
fn preserves(element: &HtmlElement) -> bool
    ensures { let head = (element_view element.now).0 in
        result ≡ preserves head.name head.attrs }
{
    element.tag == tag::pre
        || style_is(&element.attrs, "white-space: pre-wrap")
        || style_is(&element.attrs, "display: block; white-space: pre-wrap")
}

/// Returns whether white space inside is preserved, given whether it is around the element.
pub(crate) fn preserves_inside(around: bool, element: &HtmlElement) -> bool
    ensures { let head = (element_view element.now).0 in
        result ≡ (around || preserves head.name head.attrs) }
{
    around || preserves(element)
}

fn has_border_display(tag: &HtmlTag) -> bool
    ensures { result ≡ has_border_display tag.now }
{
    Display::default_for(tag).is_some_and(|display| display.is_border())
}

/// Returns whether a line ends before and after the element.
#[tactic(auto, unfolding(html_dom_shown::specs::Collapsing::has_border))]
pub(crate) fn has_border(element: &HtmlElement) -> bool
    ensures { let head = (element_view element.now).0 in
        result ≡ has_border head.name head.attrs }
{
    has_border_display(&element.tag)
        || style_is(&element.attrs, "display: block")
        || style_is(&element.attrs, "display: block; white-space: pre-wrap")
}

#[tactic(auto, unfolding(html_names_core::specs::Tables::known_tags, html_names_core::specs::Names::stands_in))]
pub(crate) fn is_line_break(tag: &HtmlTag) -> bool
    ensures { result ≡ is_line_break tag.now }
{
    tag::br == *tag
}
