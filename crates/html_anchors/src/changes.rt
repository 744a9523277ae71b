//! Changes that anchors make to nodes.

ghost use Rattle.std.specs.Prelude.{◌≡◌, ℕ, List, Some, IfOk, OnOk};
ghost use Rattle.html_dom_tree.specs.Tree.{text_node};
ghost use Rattle.html_dom_tree.specs.Views.{text_view, optional_text_view, attrs_view, node_view, nodes_view, element_view};
ghost use Rattle.html_anchors.specs.Anchors.{attrs_with_id, span_head, text_in_span};

use html_dom_tree::{HtmlAttrs, HtmlElement, HtmlNode, Span};
use html_names_core::{attr, tag};
use std::alloc::{AllocError, Global};
use std::mem;

#[tactic(auto, unfolding(html_names_core::specs::Tables::known_attrs, html_names_core::specs::Tables::known_tags))]
pub(crate) fn named_span(
    alloc: Global,
    name: String,
    span: Span,
    children: Vec<HtmlNode>,
) -> Result<HtmlElement, AllocError>
    ensures { IfOk result (λ element. element_view element
        ≡ (span_head (text_view name) span.0, nodes_view children.items)) }
{
    let mut element = HtmlElement::new(alloc, tag::span)
        .spanned(span)
        .with_children(children);
    element.attrs.push_front(attr::id, name)?;
    Ok(element)
}

/// Prepends a new `id`, if one was made.
#[tactic(auto, unfolding(html_names_core::specs::Tables::known_attrs))]
pub(crate) fn name_attrs(attrs: &mut HtmlAttrs, made: Option<String>) -> Result<(), AllocError>
    ensures { OnOk result (attrs_view attrs.new
        ≡ attrs_with_id (optional_text_view made) (attrs_view attrs.old)) }
{
    if let Some(name) = made {
        attrs.push_front(attr::id, name)?;
    }
    Ok(())
}

pub(crate) fn put_in_span(
    alloc: Global,
    node: &mut HtmlNode,
    name: String,
) -> Result<(), AllocError>
    ensures { (text : List ℕ) → (span : ℕ) → node_view node.old ≡ text_node text span →
        OnOk result (node_view node.new ≡ text_in_span (Some (text_view name)) text span) }
{
    if let HtmlNode::Text(text, span) = node {
        let text = mem::replace(text, String::new(alloc));
        let mut children = Vec::new(alloc);
        children.push(HtmlNode::Text(text, *span))?;
        *node = HtmlNode::Element(named_span(alloc, name, *span, children)?);
    }
    Ok(())
}
