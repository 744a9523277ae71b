//! Normal forms of trees.

use html_dom_tree::{HtmlElement, HtmlNode, Span};
use std::alloc::{AllocError, Global};
use std::mem;

/// Returns the normal form of an element, which its plain text spells: drops tags, joins
/// neighbouring texts, and drops empty ones; keeps an element's name, attributes and children.
/// Drops frames too.
#[cycle(normal)]
pub fn normal_of(alloc: Global, element: &HtmlElement) -> Result<HtmlElement, AllocError> {
    let mut normal = HtmlElement::new(alloc, element.tag.try_clone()?);
    normal.attrs = element.attrs.try_clone()?;
    normal.children = normal_nodes(alloc, &element.children)?;
    Ok(normal)
}

#[cycle(normal)]
fn normal_nodes(alloc: Global, nodes: &[HtmlNode]) -> Result<Vec<HtmlNode>, AllocError> {
    let mut normals = Vec::new(alloc);
    let mut text = String::new(alloc);
    for node in nodes {
        match node {
            HtmlNode::Tag(_) | HtmlNode::Frame(_) => {}
            HtmlNode::Text(more, _) => text.push_str(more)?,
            HtmlNode::Element(element) => {
                let before = mem::replace(&mut text, String::new(alloc));
                add_text(&mut normals, before)?;
                normals.push(HtmlNode::from(normal_of(alloc, element)?))?;
            }
        }
    }
    add_text(&mut normals, text)?;
    Ok(normals)
}

/// Appends a text, unless it is empty.
fn add_text(nodes: &mut Vec<HtmlNode>, text: String) -> Result<(), AllocError> {
    if !text.is_empty() {
        nodes.push(HtmlNode::text(text, Span(0)))?;
    }
    Ok(())
}
