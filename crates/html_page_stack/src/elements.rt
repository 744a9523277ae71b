//! Open elements, the innermost last.

ghost use Rattle.std.specs.Prelude.{◌≡◌, OnOk, map};
ghost use Rattle.html_dom_tree.specs.Views.{attrs_view};
ghost use Rattle.html_page_names.specs.PageNames.{of};
ghost use Rattle.html_page_stack.specs.{Adoption.{furthest_block, index_outwards, shown_count}, Contexts.{AreKnown, known_part, own_mode, root_mode}, Formats.{is_open}, OpenElements.{at, attr_count_at, html_mode, named_mode, reaches, with_attrs_at}};
ghost use Rattle.html_page_stack.specs.PageViews.{bound_test, element_of, format_of, goal_test, list_of};

use crate::element::PageElement;
use crate::formats::Format;
use crate::modes::Mode;
use crate::search::{Bound, Goal, Target, is_special};
use html_dom_tree::HtmlAttrs;
use html_page_names::Kind;
use std::alloc::{AllocError, Global};

/// Returns whether a search from the last element on reaches the goal before the bound.
pub(crate) fn reaches(elements: &[PageElement], goal: Goal<'_>, bound: Bound) -> bool
    requires { AreKnown elements.now }
    ensures { result ≡ reaches (goal_test goal.entry) (bound_test bound) (list_of elements.now) }
{
    let mut outer = elements;
    while let Some((element, rest)) = outer.split_last() {
        if goal.is(element) {
            return true;
        }
        if bound.is(element) {
            return false;
        }
        if let Some(milestone) = element.context.milestone
            && let Some(reached) = milestone.reaches(goal, bound)
        {
            return reached;
        }
        outer = rest;
    }
    false
}

/// Returns whether the last of them is the goal.
pub(crate) fn at(elements: &[PageElement], goal: Goal<'_>) -> bool
    ensures { result ≡ at (goal_test goal.entry) (list_of elements.now) }
{
    match elements.last() {
        None => false,
        Some(element) => goal.is(element),
    }
}

/// Returns whether the element of the entry is one of them.
pub(crate) fn is_open(elements: &[PageElement], format: &Format) -> bool
    ensures { result ≡ is_open (format_of format.now) (list_of elements.now) }
{
    if elements.len() <= format.index {
        return false;
    }
    elements[format.index].is_opened(&format.name.tag, format.span)
}

/// Returns the index of the furthest block of the formatting element at that index.
pub(crate) fn furthest_block(elements: &[PageElement], index: usize) -> Option<usize>
    ensures { result ≡ furthest_block index (list_of elements.now) }
{
    let mut outer = elements;
    let mut block = None;
    while let Some((element, rest)) = outer.split_last() {
        if rest.len() <= index {
            break;
        }
        if is_special(element) {
            block = Some(rest.len());
        }
        outer = rest;
    }
    block
}

/// Returns the index of the last of so many elements, from the innermost outwards, but for those that
/// were removed.
pub(crate) fn index_outwards(elements: &[PageElement], count: usize) -> usize
    ensures { result ≡ index_outwards count (list_of elements.now) }
{
    let mut outer = elements;
    let mut left = count;
    while let Some((element, rest)) = outer.split_last() {
        if left == 0 {
            break;
        }
        if !element.is_removed() {
            left -= 1;
        }
        outer = rest;
    }
    outer.len()
}

/// Returns the number of elements without the innermost that were removed.
pub(crate) fn shown_count(elements: &[PageElement]) -> usize
    ensures { result ≡ shown_count (list_of elements.now) }
{
    let mut outer = elements;
    while let Some((element, rest)) = outer.split_last() {
        if !element.is_removed() {
            break;
        }
        outer = rest;
    }
    outer.len()
}

/// Returns the number of the attributes of the element at that index, if it is one of HTML of the
/// kind.
pub(crate) fn attr_count_at(elements: &[PageElement], index: usize, kind: Kind) -> usize
    ensures { result ≡ attr_count_at index (of kind) (map element_of elements.now) }
{
    if elements.len() <= index {
        return 0;
    }
    let element = &elements[index];
    if element.is(kind) {
        element.element.attrs.0.len()
    } else {
        0
    }
}

/// Gives the element at that index those of the attributes that it lacks, if it is one of HTML of
/// the kind.
pub(crate) fn merge_at(
    elements: &mut [PageElement],
    alloc: Global,
    index: usize,
    kind: Kind,
    others: HtmlAttrs,
) -> Result<(), AllocError>
    ensures merged { OnOk result (map element_of elements.new
        ≡ with_attrs_at index (of kind) (attrs_view others) (map element_of elements.old)) }
    ensures known { map known_part elements.new ≡ map known_part elements.old }
{
    if elements.len() <= index {
        return Ok(());
    }
    let element = &mut elements[index];
    if element.is(kind) {
        element.merge(alloc, others)?;
    }
    Ok(())
}

/// Returns the mode that an element of HTML sets, given those around it.
fn named_mode(element: &PageElement, outer: &[PageElement]) -> Option<Mode>
    ensures { result ≡ named_mode (element_of element.now).head.name (list_of outer.now) }
{
    if element.has_kind(Kind::Cell) {
        Some(Mode::InCell)
    } else if element.has_kind(Kind::Section) {
        Some(Mode::InSection)
    } else if element.has_kind(Kind::Tr) {
        Some(Mode::InRow)
    } else if element.has_kind(Kind::Caption) {
        Some(Mode::InCaption)
    } else if element.has_kind(Kind::Colgroup) {
        Some(Mode::InColumns)
    } else if element.has_kind(Kind::Table) {
        Some(Mode::InTable)
    } else if element.has_kind(Kind::Body) {
        Some(Mode::InBody)
    } else if element.has_kind(Kind::Head) {
        Some(Mode::InHead)
    } else if element.has_kind(Kind::Raw) {
        Some(Mode::InText)
    } else if element.has_kind(Kind::Noscript) && at(outer, Goal::Of(Target::Kind(Kind::Head))) {
        Some(Mode::InHeadNoscript)
    } else if element.has_kind(Kind::Template) {
        Some(Mode::InTemplate)
    } else if element.has_kind(Kind::Frameset) {
        Some(Mode::InFrameset)
    } else {
        None
    }
}

/// Returns the mode within `html`, outside of head and body.
fn html_mode(root: &PageElement) -> Mode
    ensures { result ≡ html_mode (element_of root.now).children }
{
    if root.has_elements {
        Mode::AfterHead
    } else {
        Mode::BeforeHead
    }
}

/// Returns the mode that an element sets, given those around it.
pub(crate) fn own_mode(element: &PageElement, outer: &[PageElement]) -> Option<Mode>
    ensures { result ≡ own_mode (element_of element.now) (list_of outer.now) }
{
    if element.is_html() {
        named_mode(element, outer)
    } else {
        None
    }
}

/// Returns the mode if no element sets one.
pub(crate) fn root_mode(elements: &[PageElement]) -> Mode
    ensures { result ≡ root_mode (list_of elements.now) }
{
    match elements {
        [] => Mode::BeforeHtml,
        [root] => html_mode(root),
        _ => Mode::AfterHead,
    }
}
