//! Hidden elements.

ghost use Rattle.std.specs.Prelude.{◌≡◌, IsTrue};
ghost use Rattle.html_names_core.specs.Names.{is_ascii};
ghost use Rattle.html_dom_tree.specs.Views.{element_view, attrs_view};
ghost use Rattle.html_dom_shown.specs.Values.{is_text};
ghost use Rattle.html_page_text.specs.Unseen.{has_hidden, is_hidden_input, is_unseen, is_unseen_name, small_value};

use html_dom_tree::{HtmlAttrs, HtmlElement};
use html_names_core::property::Display;
use html_names_core::{HtmlAttr, HtmlTag, attr, tag};
use html_page_names::{is_one_of, is_same_lowered};

/// Returns whether the first value of an attribute is that ASCII word, in any ASCII case.
fn is_word(attrs: &HtmlAttrs, attr: &HtmlAttr, word: &'static str) -> bool
    requires { IsTrue (is_ascii word.now) }
    ensures { result ≡ is_text word.now (small_value (attrs_view attrs.now) attr.now) }
{
    match attrs.get(attr) {
        None => false,
        Some(value) => is_same_lowered(value.as_str(), word),
    }
}

#[tactic(auto, unfolding(html_names_core::specs::Tables::known_attrs))]
fn has_hidden(attrs: &HtmlAttrs) -> bool
    ensures { result ≡ has_hidden (attrs_view attrs.now) }
{
    attrs.get(&attr::hidden).is_some() && !is_word(attrs, &attr::hidden, "until-found")
}

#[tactic(auto, unfolding(html_names_core::specs::Tables::known_tags, html_names_core::specs::Tables::known_attrs))]
fn is_hidden_input(element: &HtmlElement) -> bool
    ensures { let head = (element_view element.now).0 in
        result ≡ is_hidden_input head.name head.attrs }
{
    element.tag == tag::input && is_word(&element.attrs, &attr::type_, "hidden")
}

#[tactic(auto, unfolding(crate::specs::Unseen::is_unseen_name))]
fn is_unseen_name(tag: &HtmlTag) -> bool
    ensures { result ≡ is_unseen_name tag.now }
{
    Display::default_for(tag) == Some(Display::None)
        || is_one_of(&["basefont", "noembed", "noframes", "param"], tag.resolve())
}

/// Returns whether HTML Standard 15.3.1 gives the element `display: none`.
#[tactic(auto, unfolding(html_names_core::specs::Tables::known_tags, crate::specs::Unseen::is_unseen))]
pub(crate) fn is_unseen(element: &HtmlElement) -> bool
    ensures { let head = (element_view element.now).0 in
        result ≡ is_unseen head.name head.attrs }
{
    is_unseen_name(&element.tag)
        || (has_hidden(&element.attrs) && element.tag != tag::embed)
        || is_hidden_input(element)
}
