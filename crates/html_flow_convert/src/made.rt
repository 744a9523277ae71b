//! Elements that white space processing adds.

ghost use Rattle.std.specs.Prelude.{◌≡◌, [], ◌∷◌, IfOk, codes};
ghost use Rattle.html_dom_tree.specs.{Tree.{element_node, none}, Views.{element_view, head_of, node_view, nodes_view}};
ghost use Rattle.html_flow_convert.specs.Nodes.{made_head, pre_wrap_head};

use crate::reused::Reused;
use html_dom_tree::{HtmlAttrs, HtmlElement, HtmlNode, Span};
use html_names_core::tag;
use html_values_css::Properties;
use std::alloc::{AllocError, Global};

/// Creates a forced line break.
#[tactic(auto, unfolding(html_names_core::specs::Tables::known_tags))]
pub fn break_element(alloc: Global, span: Span) -> HtmlElement
    ensures { element_view result ≡ (made_head (codes "br") [] span.0, none) }
{
    HtmlElement::new(alloc, tag::br).spanned(span)
}

pub(crate) fn pre_wrap_css(alloc: Global) -> Result<Properties, AllocError>
    ensures { IfOk result (λ css. css ≡ (codes "white-space", codes "pre-wrap") ∷ []) }
{
    let kept = String::from_str(alloc, "pre-wrap")?;
    let css = Properties::with_capacity(alloc, 1)?;
    Ok(css.with("white-space", kept)?)
}

/// Creates a `span` around these nodes, in which each character of the texts is written as a
/// character reference.
#[tactic(auto, unfolding(html_names_core::specs::Tables::known_tags))]
fn pre_wrap_span(
    alloc: Global,
    reused: &Reused,
    children: Vec<HtmlNode>,
    span: Span,
) -> Result<HtmlElement, AllocError>
    ensures head { IfOk result (λ element. head_of element ≡ pre_wrap_head span.0) }
    ensures children { IfOk result (λ element. element.children ≡ children) }
{
    let attrs = HtmlAttrs(Vec::with_capacity(alloc, 1)?); // the css becomes a `style`
    let css = reused.css.try_clone()?;
    Ok(HtmlElement {
        tag: tag::span,
        attrs,
        css,
        children,
        parent: None,
        span,
        pre_span: true,
    })
}

/// Creates the node of a `span` around these nodes, in which each character of the texts is written
/// as a character reference.
pub(crate) fn pre_wrap_node(
    alloc: Global,
    reused: &Reused,
    children: Vec<HtmlNode>,
    span: Span,
) -> Result<HtmlNode, AllocError>
    ensures { IfOk result (λ node. node_view node
        ≡ element_node (pre_wrap_head span.0) (nodes_view children.items)) }
{
    Ok(HtmlNode::from(pre_wrap_span(alloc, reused, children, span)?))
}
