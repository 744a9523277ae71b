//! The goals and bounds of a search among the open elements.

ghost use Rattle.std.specs.Prelude.{◌≡◌};
ghost use Rattle.html_page_stack.specs.OpenElements.{bounds, bounds_general, bounds_item, is_foreign_bound, is_special};
ghost use Rattle.html_page_stack.specs.PageViews.{bound_test, element_of, goal_test};

use crate::element::PageElement;
use crate::modes::{Scope, Space};
use html_dom_tree::Span;
use html_names_core::HtmlTag;
use html_page_names::Kind;

/// The elements of HTML that are meant.
#[derive(Clone, Copy)]
pub enum Target<'a> {
    /// Those of the kind.
    Kind(Kind),
    /// Those with that name.
    Named(&'a HtmlTag),
    /// None.
    Nothing,
}

/// The goal of a search.
#[derive(Clone, Copy)]
pub enum Goal<'a> {
    /// An element of HTML that is meant.
    Of(Target<'a>),
    /// An element of HTML with that name, which has that span.
    Opened(&'a HtmlTag, Span),
    /// An element of SVG or MathML with that name, in lowercase.
    Foreign(&'a HtmlTag),
    /// An element in which start tags are read as HTML.
    HoldsTags,
}

/// The condition under which elements are closed.
#[derive(Clone, Copy)]
pub enum While<'a> {
    /// While the current node is not the goal.
    Above(Goal<'a>),
    /// While its end tag is implied, unless it is one of these.
    Implied(Target<'a>),
    /// While its end tag is implied at the end of a `template`.
    ImpliedThoroughly,
    /// While the current node is in such a part of a table, and no `template` nor `html`.
    InPart(Kind),
}

/// The bound at which a search ends.
#[derive(Clone, Copy)]
pub enum Bound {
    /// At an element that bounds the scope.
    Scope(Scope),
    /// At a special element.
    Special,
    /// At an element that stops the search for an item that a new one closes.
    Item,
    /// At an element of HTML.
    Html,
    /// At none.
    Nothing,
}

/// Returns whether an element of SVG or MathML bounds scopes, and is special.
fn is_foreign_bound(element: &PageElement) -> bool
    ensures { let e = element_of element.now in result ≡ is_foreign_bound e.space e.head.name }
{
    match element.space {
        Space::Html | Space::Removed => false,
        Space::Svg => element.has_kind(Kind::SvgHtml),
        Space::MathMl => {
            element.has_kind(Kind::MathText) || element.has_kind(Kind::AnnotationXml)
        }
    }
}

fn bounds_general(element: &PageElement) -> bool
    ensures { result ≡ bounds_general (element_of element.now) }
{
    element.is(Kind::BoundsScope) || is_foreign_bound(element)
}

fn bounds_table(element: &PageElement) -> bool
    ensures { result ≡ bounds Scope.Table (element_of element.now) }
{
    element.is_html()
        && (element.has_kind(Kind::Html)
            || element.has_kind(Kind::Table)
            || element.has_kind(Kind::Template))
}

/// Returns whether the element bounds the scope (HTML Standard 13.2.4.2).
pub(crate) fn bounds(scope: Scope, element: &PageElement) -> bool
    ensures { result ≡ bounds scope (element_of element.now) }
{
    match scope {
        Scope::General => bounds_general(element),
        Scope::ListItem => element.is(Kind::BoundsList) || bounds_general(element),
        Scope::Button => element.is(Kind::Button) || bounds_general(element),
        Scope::Table => bounds_table(element),
    }
}

pub(crate) fn is_special(element: &PageElement) -> bool
    ensures { result ≡ is_special (element_of element.now) }
{
    element.is(Kind::Special) || is_foreign_bound(element)
}

/// Returns whether the element ends the search for an item.
pub(crate) fn bounds_item(element: &PageElement) -> bool
    ensures { result ≡ bounds_item (element_of element.now) }
{
    is_special(element) && !element.is(Kind::PassedByItems)
}

impl Goal<'_> {
    #[inline(always)]
    pub(crate) fn is(self, element: &PageElement) -> bool
        ensures { result ≡ goal_test self.entry (element_of element.now) }
    {
        match self {
            Goal::Of(target) => element.is_target(target),
            Goal::Opened(tag, span) => element.is_opened(tag, span),
            Goal::Foreign(tag) => element.is_foreign_of(tag),
            Goal::HoldsTags => element.holds_tags(),
        }
    }
}

impl Bound {
    pub(crate) fn is(self, element: &PageElement) -> bool
        ensures { result ≡ bound_test self (element_of element.now) }
    {
        match self {
            Bound::Scope(scope) => bounds(scope, element),
            Bound::Special => is_special(element),
            Bound::Item => bounds_item(element),
            Bound::Html => element.is_html(),
            Bound::Nothing => false,
        }
    }
}
