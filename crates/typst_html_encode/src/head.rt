//! The properties of an element that its name decides.

ghost use Rattle.std.specs.Prelude.{◌≡◌};
ghost use Rattle.html_names_core.specs.{Displays.{default_display}, Kinds.{is_foreign_self_closing}};
ghost use Rattle.html_dom_flat.specs.Siblings.{head_view};
ghost use Rattle.typst_html_encode.specs.{Content.{content_kind}, Text.{ends_at_once}};

use crate::content::ContentKind;
use html_dom_flat::Element;
use html_names_core::property::Display;

pub(crate) fn is_foreign_self_closing(element: &Element) -> bool
    ensures { result ≡ is_foreign_self_closing (head_view element.now).name }
{
    element
        .names()
        .is_foreign_self_closing(element.tag_number())
}

pub(crate) fn ends_at_once(element: &Element) -> bool
    ensures { result ≡ ends_at_once (head_view element.now) }
{
    is_foreign_self_closing(element) || element.names().is_void(element.tag_number())
}

pub(crate) fn default_display(element: &Element) -> Option<Display>
    ensures { result ≡ default_display (head_view element.now).name }
{
    element.names().default_for(element.tag_number())
}

pub(crate) fn content_kind(element: &Element) -> ContentKind
    ensures { result ≡ content_kind (head_view element.now).name }
{
    if element.names().is_raw(element.tag_number()) {
        ContentKind::Raw
    } else if element.names().is_escapable_raw(element.tag_number()) {
        ContentKind::EscapableRaw
    } else {
        ContentKind::Nodes
    }
}
