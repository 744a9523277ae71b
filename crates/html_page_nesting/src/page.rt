//! The root of a page.

ghost use Rattle.std.specs.Prelude.{◌≡◌};
ghost use Rattle.html_dom_tree.specs.Views.{element_view, node_view, nodes_view};
ghost use Rattle.html_page_names.specs.PageNames.{of};
ghost use Rattle.html_page_nesting.specs.PageRoots as roots;

use crate::element::KnownElement;
use crate::texts::{is_empty, is_white};
use html_dom_tree::{HtmlElement, HtmlNode};
use html_page_names::Kind;

/// How much of a page stands before a child of the root.
#[derive(Clone, Copy)]
pub enum Stage {
    First,
    BehindHead,
    BehindBody,
    /// No page.
    Other,
}

fn is_unwritten(node: &HtmlNode) -> bool
    ensures { result ≡ roots.is_unwritten (node_view node.now) }
{
    match node {
        HtmlNode::Tag(_) => true,
        HtmlNode::Text(text, _) => is_empty(text.as_str()),
        HtmlNode::Element(_) | HtmlNode::Frame(_) => false,
    }
}

fn is_white_node(node: &HtmlNode) -> bool
    ensures { result ≡ roots.is_white_node (node_view node.now) }
{
    match node {
        HtmlNode::Tag(_) => true,
        HtmlNode::Text(text, _) => is_white(text.as_str()),
        HtmlNode::Element(_) | HtmlNode::Frame(_) => false,
    }
}

fn is_named(element: &HtmlElement, kind: Kind) -> bool
    ensures { result ≡ of kind (element_view element.now).0.name }
{
    KnownElement::new(element).is(kind)
}

fn is_element_of(node: &HtmlNode, kind: Kind) -> bool
    ensures { result ≡ roots.is_element_of (of kind) (node_view node.now) }
{
    match node {
        HtmlNode::Element(element) => is_named(element, kind),
        HtmlNode::Tag(_) | HtmlNode::Text(_, _) | HtmlNode::Frame(_) => false,
    }
}

impl Stage {
    fn behind(self, node: &HtmlNode) -> Stage
        ensures { result ≡ roots.stage_behind self (node_view node.now) }
    {
        match self {
            Stage::First => {
                if is_element_of(node, Kind::Head) {
                    Stage::BehindHead
                } else if is_unwritten(node) {
                    Stage::First
                } else {
                    Stage::Other
                }
            }
            Stage::BehindHead => {
                if is_element_of(node, Kind::Body) {
                    Stage::BehindBody
                } else if is_white_node(node) {
                    Stage::BehindHead
                } else {
                    Stage::Other
                }
            }
            Stage::BehindBody => {
                if is_unwritten(node) {
                    Stage::BehindBody
                } else {
                    Stage::Other
                }
            }
            Stage::Other => Stage::Other,
        }
    }
}

fn is_complete(nodes: &[HtmlNode]) -> bool
    ensures { result ≡ roots.is_complete (roots.stage_behind_nodes Stage.First (nodes_view nodes.now)) }
{
    let mut stage = Stage::First;
    for node in nodes {
        stage = stage.behind(node);
    }
    matches!(stage, Stage::BehindBody)
}

/// Returns whether the root is an `html` that holds only a head and a body.
pub(crate) fn is_page(known: &KnownElement<'_>) -> bool
    ensures { result ≡ roots.is_page (element_view known.now.element.now) }
{
    known.is(Kind::Html) && is_complete(&known.element.children)
}
