//! The setting of a list of items.

ghost use Rattle.std.specs.Prelude.{◌≡◌, ◌+◌, ◌<◌, nat_lt};
ghost use Rattle.html_names_core.specs.{Displays.{default_display}, Kinds.{shows_border}};
ghost use Rattle.html_flow_convert.specs.Converted.{body_level, body_role, body_whitespace, is_preformatted, item_role, passes_role, role_text};
ghost use Rattle.html_flow_convert.specs.Views.{elem_view, role_view};

use crate::convert::{ConversionLevel, Whitespace};
use crate::item::{HtmlElem, Role};
use crate::makes_block;
use html_names_core::property::Display;
use html_names_core::{HtmlTag, tag};

/// The setting of a list of items.
#[derive(Clone, Copy)]
pub(crate) struct Setting<'a> {
    pub(crate) whitespace: Whitespace,
    pub(crate) role: Option<&'a str>,
    pub(crate) depth: usize,
    /// The greatest depth of a list.
    pub(crate) limit: usize,
}

impl<'a> Setting<'a> {
    pub(crate) fn with_role(self, own: &'a Role) -> Setting<'a>
        ensures whitespace { result.whitespace ≡ self.entry.whitespace }
        ensures role { role_text result.role
            ≡ item_role (role_text self.entry.role) (role_view own.now) }
        ensures depth { result.depth ≡ self.entry.depth }
        ensures limit { result.limit ≡ self.entry.limit }
    {
        let role = match own {
            Role::Inherit => self.role,
            Role::Set(text) => Some(text.as_str()),
            Role::Unset => None,
        };
        Setting { role, ..self }
    }

    pub(crate) fn inside(self, element: &HtmlElem) -> Setting<'a>
        ensures whitespace { result.whitespace
            ≡ body_whitespace self.entry.whitespace (elem_view element.now).0 }
        ensures role { role_text result.role
            ≡ body_role (role_text self.entry.role) (elem_view element.now).0 }
        ensures depth { result.depth ≡ self.entry.depth }
        ensures limit { result.limit ≡ self.entry.limit }
    {
        let whitespace = if is_preformatted(&element.tag) {
            Whitespace::Pre
        } else {
            self.whitespace
        };
        let role = if passes_role(&element.tag) {
            self.role
        } else {
            None
        };
        Setting {
            whitespace,
            role,
            ..self
        }
    }

    pub(crate) fn is_deepest(self) -> bool
        ensures { result ≡ nat_lt self.entry.limit (self.entry.depth + 1) }
    {
        self.depth >= self.limit
    }

    pub(crate) fn deeper(self) -> Setting<'a>
        requires { self.depth < 10000 }
        ensures whitespace { result.whitespace ≡ self.entry.whitespace }
        ensures role { role_text result.role ≡ role_text self.entry.role }
        ensures depth { result.depth ≡ self.entry.depth + 1 }
        ensures limit { result.limit ≡ self.entry.limit }
    {
        Setting {
            depth: self.depth + 1,
            ..self
        }
    }
}

/// Returns whether the element passes its role on to its content.
#[tactic(auto, unfolding(html_names_core::specs::Tables::known_tags))]
pub(crate) fn passes_role(tag: &HtmlTag) -> bool
    ensures { result ≡ passes_role tag.now }
{
    *tag == tag::p
}

#[tactic(auto, unfolding(html_names_core::specs::Tables::known_tags))]
fn is_preformatted(tag: &HtmlTag) -> bool
    ensures { result ≡ is_preformatted tag.now }
{
    *tag == tag::pre || tag::is_raw(tag) || tag::is_escapable_raw(tag)
}

pub(crate) fn body_level(element: &HtmlElem) -> ConversionLevel
    ensures { result ≡ body_level (elem_view element.now).0 }
{
    if has_lines(&element.tag) || makes_block(&element.css) {
        ConversionLevel::Block
    } else {
        ConversionLevel::Inline
    }
}

fn has_lines(tag: &HtmlTag) -> bool
    ensures { result ≡ shows_border (default_display tag.now) }
{
    Display::default_for(tag).is_some_and(|display| display.is_border())
}
