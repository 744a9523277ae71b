//! Nodes, and their parts.

use crate::frames::{html_frame_of, start_of};
use html_dom_tree::{HtmlAttrs, HtmlElement, HtmlNode, Span};
use html_names_core::{HtmlTag, attr, tag};
use html_values_css::Properties;
use std::alloc::{AllocError, Global};

/// Returns a list of one pair, without room for more.
pub fn id_of(alloc: Global, text: &str) -> Result<HtmlAttrs, AllocError> {
    Ok(HtmlAttrs(vec![in alloc; (attr::id, String::from_str(alloc, text)?)]?))
}

/// Returns a map of one property.
pub fn css_of(alloc: Global, name: &str, value: &str) -> Result<Properties, AllocError> {
    Ok(Properties::new(alloc).with(name, String::from_str(alloc, value)?)?)
}

/// Returns a text with that span.
pub fn text_of(alloc: Global, text: &str, span: u64) -> Result<HtmlNode, AllocError> {
    Ok(HtmlNode::text(String::from_str(alloc, text)?, Span(span)))
}

/// Returns the element in that many nested `div`s.
pub fn nested(alloc: Global, inner: HtmlElement, levels: u32) -> Result<HtmlElement, AllocError> {
    let mut element = inner;
    for _ in 0..levels {
        element = HtmlElement::new(alloc, tag::div).with_child(HtmlNode::from(element))?;
    }
    Ok(element)
}

/// Returns an element with css, an attribute and these nodes.
fn styled_of(
    alloc: Global,
    tag: HtmlTag,
    id: &str,
    nodes: Vec<HtmlNode>,
) -> Result<HtmlElement, AllocError> {
    Ok(HtmlElement {
        attrs: id_of(alloc, id)?,
        css: css_of(alloc, "color", "red")?,
        ..HtmlElement::new(alloc, tag).with_children(nodes)
    })
}

/// Returns a `p` with css, an attribute, a tag, a text and a frame, whose lists have no room for
/// more.
pub fn inner_of(alloc: Global) -> Result<HtmlElement, AllocError> {
    let mut nodes = Vec::with_capacity(alloc, 3)?;
    nodes.push(HtmlNode::from(start_of(alloc)?))?;
    nodes.push(text_of(alloc, "a text", 5)?)?;
    nodes.push(HtmlNode::from(html_frame_of(alloc)?))?;
    styled_of(alloc, tag::p, "inner", nodes)
}

/// Returns a `div` with css, an attribute, and a `p` between texts, whose lists have no room for
/// more.
pub fn element_of(alloc: Global) -> Result<HtmlElement, AllocError> {
    let mut nodes = Vec::with_capacity(alloc, 3)?;
    nodes.push(text_of(alloc, "one", 6)?)?;
    nodes.push(HtmlNode::from(inner_of(alloc)?))?;
    nodes.push(text_of(alloc, "two", 7)?)?;
    styled_of(alloc, tag::div, "outer", nodes)
}
