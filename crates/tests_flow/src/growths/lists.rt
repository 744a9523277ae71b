//! Lists of items, places by name, and footnotes.

use html_dom_tree::{Location, Span};
use html_flow::{HtmlElem, ItemList, NamedPlaces, Notes, Pair};
use html_names_core::tag;
use std::alloc::Global;
use tests_asserts::TestResult;
use tests_failing_alloc::{refuses_lent, refuses_pushed};
use tests_items::text_item_of;

/// A text that is too long for the room of another.
const LONG: &str =
    " and vinegar, oil and pepper, bread and cheese, plums and pears, nuts and honey, \
    tea and milk, rice and beans, leeks and eggs, dill and thyme, and all that keeps through the winter";

fn has_one(list: &ItemList) -> bool {
    list.items().len() == 1
}

/// Adds to a list without items, and a text after a text.
#[test]
fn texts_in_lists(rt: HostRuntime) -> TestResult {
    let alloc = rt.alloc();
    let (list, mut salted) = (ItemList::new(alloc), ItemList::new(alloc).spanned(Span(4)));
    salted.text("Salt")?;
    for list in [list, salted] {
        refuses_lent(alloc, list, |list: &mut ItemList| {
            list.text(LONG).map(|_| has_one(list))
        })?;
    }
    refuses_lent(alloc, ItemList::new(alloc), |list: &mut ItemList| {
        list.space().map(|_| has_one(list))
    })?;
    refuses_lent(alloc, ItemList::new(alloc), |list: &mut ItemList| {
        list.line_break().map(|_| has_one(list))
    })
}

/// A list, and the places of its names.
type Lists = (ItemList, NamedPlaces);

fn lists_of(alloc: Global) -> (Lists, HtmlElem) {
    let (list, places) = (ItemList::new(alloc), NamedPlaces::new(alloc));
    let elem = list.new_element(tag::p);
    ((list, places), elem)
}

#[test]
fn elements_in_lists(rt: HostRuntime) -> TestResult {
    let alloc = rt.alloc();
    let (lists, elem) = lists_of(alloc);
    refuses_pushed(alloc, lists, elem, |(list, _): &mut Lists, elem| {
        list.element(elem).map(|_| !list.is_empty())
    })?;
    let (lists, elem) = lists_of(alloc);
    refuses_pushed(alloc, lists, elem, |(list, places): &mut Lists, elem| {
        list.place(places, "held", elem).map(|_| !list.is_empty())
    })?;
    let (lists, elem) = lists_of(alloc);
    refuses_pushed(alloc, lists, elem, |(list, places): &mut Lists, elem| {
        list.link(places, "held", elem).map(|_| !list.is_empty())
    })
}

#[test]
fn items_in_lists(rt: HostRuntime) -> TestResult {
    let alloc = rt.alloc();
    let (list, item) = (ItemList::new(alloc), Pair::from(text_item_of(alloc)?));
    refuses_pushed(alloc, list, item, |list: &mut ItemList, item| {
        list.item(item).map(|_| !list.is_empty())
    })
}

#[test]
fn locations_of_names(rt: HostRuntime) -> TestResult {
    let places = NamedPlaces::new(rt.alloc());
    refuses_lent(rt.alloc(), places, |places: &mut NamedPlaces| {
        places.location("held").map(|it| it == Location(1))
    })
}

#[test]
fn marks_of_notes(rt: HostRuntime) -> TestResult {
    let (alloc, notes) = (rt.alloc(), Notes::new(rt.alloc()));
    let content = vec![in alloc; Pair::from(text_item_of(alloc)?)]?;
    refuses_pushed(alloc, notes, content, |notes: &mut Notes, content| {
        notes.mark(content, Span(4)).map(|_| notes.len() == 1)
    })
}

#[test]
fn marks_of_keys(rt: HostRuntime) -> TestResult {
    let notes = Notes::new(rt.alloc());
    refuses_lent(rt.alloc(), notes, |notes: &mut Notes| {
        notes.mark_key("held", Span(4)).map(|_| notes.len() == 1)
    })
}

#[test]
fn sections_of_notes(rt: HostRuntime) -> TestResult {
    let alloc = rt.alloc();
    let mut notes = Notes::new(alloc);
    notes.mark(vec![in alloc; Pair::from(text_item_of(alloc)?)]?, Span(4))?;
    refuses_lent(alloc, notes, |notes: &mut Notes| {
        notes.section().map(|items| items.len() == 1)
    })
}
