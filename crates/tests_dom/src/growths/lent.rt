//! Calls that change what they borrow, and leave it unchanged if they fail.

use html_anchors::{create_link_anchors, resolve_links};
use html_dom_document::HtmlDocument;
use html_dom_tree::{HtmlElement, Location, resolve_inline_styles};
use html_names_core::attr;
use std::alloc::{AllocError, Global};
use std::collections::{BTreeMap, BTreeSet};
use tests_asserts::TestResult;
use tests_failing_alloc::refuses_lent;
use tests_samples::{document_of, element_of};

pub(crate) type Targets = BTreeSet<Location>;

/// Returns two locations, one of which starts in the document.
pub(crate) fn targets_of(alloc: Global) -> Result<Targets, AllocError> {
    let mut targets = BTreeSet::new(alloc);
    targets.insert(Location(1))?;
    targets.insert(Location(2))?;
    Ok(targets)
}

pub(crate) fn has_style(element: &HtmlElement) -> bool {
    element.attrs.get(&attr::style).is_some()
}

/// Returns whether the position of the element that starts in the document is known, which a text
/// does not show.
pub(crate) fn is_known(document: &HtmlDocument) -> bool {
    document.introspector().position(Location(1)).is_some()
}

pub(crate) fn has_anchor(anchors: &BTreeMap<Location, String>) -> bool {
    anchors.contains_key(&Location(1))
}

fn gets_anchors(
    alloc: Global,
    document: &mut HtmlDocument,
    targets: &Targets,
) -> Result<bool, AllocError> {
    let made = create_link_anchors(alloc, document, targets);
    if is_known(document) {
        made.map(|anchors| has_anchor(&anchors))
    } else {
        Ok(false)
    }
}

fn gets_links(alloc: Global, document: &mut HtmlDocument) -> Result<bool, AllocError> {
    let made = resolve_links(alloc, document);
    if is_known(document) {
        made.map(|_| true)
    } else {
        Ok(false)
    }
}

#[test]
fn changing_calls(rt: HostRuntime) -> TestResult {
    let (alloc, targets) = (rt.alloc(), targets_of(rt.alloc())?);
    refuses_lent(alloc, element_of(alloc)?, |element: &mut HtmlElement| {
        resolve_inline_styles(alloc, element).map(|_| has_style(element))
    })?;
    refuses_lent(alloc, document_of(alloc)?, |document: &mut HtmlDocument| {
        gets_anchors(alloc, document, &targets)
    })?;
    refuses_lent(alloc, document_of(alloc)?, |document: &mut HtmlDocument| {
        gets_links(alloc, document)
    })
}
