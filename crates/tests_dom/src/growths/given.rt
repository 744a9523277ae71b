//! Calls that consume their arguments, and return them if they fail, or do not.

use crate::growths::lent::{has_anchor, has_style, is_known, targets_of};
use html_anchors::{with_link_anchors, with_resolved_links};
use html_dom_document::{DocumentInfo, HtmlDocument, HtmlOutput};
use html_dom_tree::{HtmlAttrs, HtmlElement, HtmlNode, with_inline_styles};
use html_names_core::{HtmlAttr, Refused, attr, tag};
use std::alloc::{AllocError, Global};
use tests_asserts::TestResult;
use tests_failing_alloc::{SPARES, refuses_given, refuses_taken};
use tests_samples::{document_of, element_of, id_of, info_of, inner_of, output_of, text_of};

/// A call that adds a pair to an element.
#[derive(Clone, Copy, Debug)]
enum Way {
    Push,
    PushFront,
    Set,
    SetInElement,
}

type Added = (Way, HtmlElement, HtmlAttr, String);

/// Adds a pair in place, and returns whether it is the second one.
fn added((way, mut element, name, value): Added) -> Result<bool, Refused<Added>> {
    let added = match way {
        Way::Push => element.attrs.push(name, value),
        Way::PushFront => element.attrs.push_front(name, value),
        Way::Set => element.attrs.set(name, value),
        Way::SetInElement => element.set_attr(name, value),
    };
    match added {
        Ok(()) => Ok(element.attrs.0.len() == 2),
        Err(Refused { back }) => Err(Refused {
            back: (way, element, back.0, back.1),
        }),
    }
}

type WithAttr = (HtmlElement, HtmlAttr, String);

fn with_attr((element, name, value): WithAttr) -> Result<bool, Refused<WithAttr>> {
    Ok(element.with_attr(name, value)?.attrs.0.len() == 2)
}

fn folded((inner, outer): (HtmlAttrs, HtmlAttrs)) -> Result<bool, Refused<(HtmlAttrs, HtmlAttrs)>> {
    Ok(inner.fold(outer)?.0.len() == 1)
}

#[test]
fn attributes(rt: HostRuntime) -> TestResult {
    let alloc = rt.alloc();
    for way in [Way::Push, Way::PushFront, Way::Set, Way::SetInElement] {
        let (element, value) = (inner_of(alloc)?, String::from_str(alloc, "held")?);
        refuses_given(alloc, (way, element, attr::class, value), added)?;
    }
    let (element, value) = (inner_of(alloc)?, String::from_str(alloc, "held")?);
    refuses_given(alloc, (element, attr::class, value), with_attr)?;
    refuses_given(
        alloc,
        (id_of(alloc, "inner")?, id_of(alloc, "outer")?),
        folded,
    )
}

type WithChild = (HtmlElement, HtmlNode);

fn with_child((element, child): WithChild) -> Result<bool, Refused<WithChild>> {
    Ok(element.with_child(child)?.children.len() == 1)
}

fn with_text(alloc: Global, element: HtmlElement) -> Result<bool, Refused<HtmlElement>> {
    Ok(element.with_text(alloc, "a text")?.children.len() == 1)
}

type Made = (HtmlOutput, DocumentInfo);

fn made(alloc: Global, (output, info): Made) -> Result<bool, Refused<Made>> {
    Ok(is_known(&HtmlDocument::new(alloc, output, info)?))
}

/// What a text does not show of the document must stay, too.
fn linked(alloc: Global, document: HtmlDocument) -> Result<bool, Refused<HtmlDocument>> {
    match with_resolved_links(alloc, document) {
        Ok(document) => Ok(is_known(&document)),
        Err(Refused { back }) if is_known(&back) => Err(Refused { back }),
        Err(_) => Ok(false),
    }
}

#[test]
fn children_and_documents(rt: HostRuntime) -> TestResult {
    let (alloc, empty) = (rt.alloc(), HtmlElement::new(rt.alloc(), tag::p));
    refuses_given(alloc, (empty, text_of(alloc, "held", 7)?), with_child)?;
    let empty = HtmlElement::new(alloc, tag::p);
    refuses_given(alloc, empty, |element| with_text(alloc, element))?;
    let parts = (output_of(alloc)?, info_of(alloc)?);
    refuses_given(alloc, parts, |parts| made(alloc, parts))?;
    refuses_given(
        alloc,
        document_of(alloc)?,
        |document| linked(alloc, document),
    )
}

/// These calls do not return what they consume.
#[test]
fn taken_values(rt: HostRuntime) -> TestResult {
    let (alloc, targets) = (rt.alloc(), targets_of(rt.alloc())?);
    let (mut elements, mut documents) = (Vec::new(alloc), Vec::new(alloc));
    for _ in 0..SPARES {
        elements.push(element_of(alloc)?)?;
        documents.push(document_of(alloc)?)?;
    }
    refuses_taken(alloc, elements, |element| -> Result<bool, AllocError> {
        Ok(has_style(&with_inline_styles(alloc, element)?))
    })?;
    refuses_taken(alloc, documents, |document| -> Result<bool, AllocError> {
        Ok(has_anchor(&with_link_anchors(alloc, document, &targets)?.1))
    })
}
