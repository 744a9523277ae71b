//! How nodes look from outside.

ghost use Rattle.std.specs.{List.{list_any, list_all}, Prelude.{◌≡◌, IsTrue, bytes_eq, chars}};
ghost use Rattle.html_flow_convert.specs.BareSpaces.{is_display_block, makes_block, is_entered};
ghost use Rattle.html_flow_convert.specs.Looks.{text_look, element_look, is_inside};
ghost use Rattle.html_dom_tree.specs.Views.{head_of};
ghost use Rattle.html_values_css.specs.Properties.{property_view};
ghost use Rattle.html_names_core.specs.{Characters.{is_ignorable}, Names.{is_ascii}};

use crate::one::is_one;
use crate::pieces::is_ignorable;
use html_dom_tree::HtmlElement;
use html_names_core::{HtmlTag, tag};
use html_values_css::{Properties, Property};

#[derive(Clone, Copy)]
pub(crate) enum Look {
    /// The end of a line.
    Border,
    Visible,
    /// A lone space.
    Space,
    Nothing,
    /// The look of its content.
    Inside,
}

impl Look {
    pub(crate) fn is_inside(self) -> bool
        ensures { result ≡ is_inside self }
    {
        matches!(self, Look::Inside)
    }
}

pub(crate) fn is_text(text: &str, expected: &'static str) -> bool
    requires { IsTrue (is_ascii expected.now) }
    ensures { result ≡ bytes_eq (chars text.now) expected.now }
{
    text == expected
}

fn is_display_block(property: &Property) -> bool
    ensures { result ≡ is_display_block (property_view property.now) }
{
    is_text(property.name.as_str(), "display") && is_text(property.value.as_str(), "block")
}

fn has_display_block(list: &[Property]) -> bool
    ensures { result ≡ list_any (λ p. is_display_block (property_view p)) list.now }
{
    list.iter().any(|property| is_display_block(property))
}

/// Returns whether the css makes a block: `display` is `block`.
pub fn makes_block(css: &Properties) -> bool
    ensures { result ≡ makes_block css.now }
{
    has_display_block(css.as_slice())
}

pub(crate) fn element_look(name: &HtmlTag, css: &Properties, pre_span: bool) -> Look
    ensures { result ≡ element_look name.now css.now pre_span }
{
    if makes_block(css) || tag::is_whitespace_collapsing(name) {
        Look::Border
    } else if tag::is_replaced(name) {
        Look::Visible
    } else if pre_span {
        Look::Nothing
    } else {
        Look::Inside
    }
}

#[tactic(auto, using(crate::proofs::Looks::is_entered_by))]
pub(crate) fn is_entered(element: &HtmlElement) -> bool
    ensures { result ≡ is_entered (head_of element.now) }
{
    element_look(&element.tag, &element.css, element.pre_span).is_inside()
}

#[tactic(auto, using(crate::proofs::Stretching::ascii_shown))]
fn is_hidden_char(c: char) -> bool
    ensures { result ≡ is_ignorable c }
{
    !c.is_ascii() && is_ignorable(c)
}

fn is_hidden(text: &str) -> bool
    ensures { result ≡ list_all is_ignorable (chars text.now) }
{
    text.chars().all(|c| is_hidden_char(c))
}

pub(crate) fn text_look(text: &str) -> Look
    ensures { result ≡ text_look (chars text.now) }
{
    if is_one(b' ', text) {
        Look::Space
    } else if is_hidden(text) {
        Look::Nothing
    } else {
        Look::Visible
    }
}
