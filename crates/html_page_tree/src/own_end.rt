//! Whether the end tag of the current node's name closes it, and does nothing else.

ghost use Rattle.std.specs.Prelude.{◌≡◌};
ghost use Rattle.html_page_stack.specs.PageViews.{element_of, page_of};
ghost use Rattle.html_page_tree.specs.OwnEnds.{closes_in, closes_in_body, closes_in_cell, is_of_table, takes_own_end};

use crate::turn::is_unseen;
use html_page_names::Kind;
use html_page_stack::{Mode, Page, PageElement};

fn closes_in_body(element: &PageElement) -> bool
    ensures { result ≡ closes_in_body (element_of element.now).head.name }
{
    let is_other = element.has_kind(Kind::Root)
        || element.has_kind(Kind::Br)
        || element.has_kind(Kind::Form)
        || element.has_kind(Kind::Template);
    !is_other
        && !(element.has_kind(Kind::Implied)
            && (element.has_kind(Kind::Heading) || element.has_kind(Kind::ClosesInScope)))
}

fn is_of_table(element: &PageElement) -> bool
    ensures { result ≡ is_of_table (element_of element.now).head.name }
{
    element.has_kind(Kind::Section)
        || element.has_kind(Kind::Tr)
        || element.has_kind(Kind::Table)
        || element.has_kind(Kind::TablePart)
}

fn closes_in_cell(element: &PageElement) -> bool
    ensures { result ≡ closes_in_cell (element_of element.now).head.name }
{
    if element.has_kind(Kind::Cell) {
        !element.has_kind(Kind::Implied)
    } else {
        !is_of_table(element) && closes_in_body(element)
    }
}

fn closes_in(mode: Mode, element: &PageElement) -> bool
    ensures { result ≡ closes_in mode (element_of element.now).head.name }
{
    match mode {
        Mode::InBody => closes_in_body(element),
        Mode::InCell => closes_in_cell(element),
        Mode::InRow => element.has_kind(Kind::Tr),
        Mode::InSection => element.has_kind(Kind::Section),
        Mode::InTable => element.has_kind(Kind::Table),
        _ => false,
    }
}

/// Returns whether the end tag of the current node's name closes it, and does nothing else.
#[tactic(auto, unfolding(crate::specs::OwnEnds::takes_own_end))]
pub fn takes_own_end(page: &Page) -> bool
    ensures { result ≡ takes_own_end (page_of page.now) }
{
    if is_unseen(page) {
        return false;
    }
    match page.stack.items.last() {
        None => false,
        Some(element) => {
            element.is_html()
                && closes_in(page.stack.mode(), element)
                && !page.has_unmade()
                && (!page.stack.is_at(Kind::Formatting) || page.stack.is_last(&page.formats))
        }
    }
}
