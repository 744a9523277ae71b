//! Nodes that are elements, and elements that are named `html`.

ghost use Rattle.std.specs.{Borrow.{Lends, sem}, Prelude.{◌≡◌, true, Some, is_some}};
ghost use Rattle.html_dom_tree.specs.{Views.{node_view, element_view}, declared.node.HtmlNode.TheVariants.{Element}};
ghost use Rattle.html_dom_tree.specs.contracts.node.HtmlNode as node_type;
ghost use Rattle.html_dom_tree.specs.contracts.node.HtmlElement as element_type;
ghost use Rattle.html_dom_document.specs.{Documents.{as_element}, Places.{is_named_html}};

use html_dom_tree::{HtmlElement, HtmlNode};
use html_names_core::tag;

/// Returns whether the element is named `html`.
#[tactic(auto, unfolding(html_names_core::specs::Tables::known_tags))]
pub fn is_named_html(element: &HtmlElement) -> bool
    ensures { result ≡ is_named_html (element_view element.now).0 }
{
    element.tag == tag::html
}

pub(crate) fn is_element(node: &HtmlNode) -> bool
    ensures { result ≡ is_some (as_element (Some (node_view node.now))) }
{
    matches!(node, HtmlNode::Element(_))
}

pub(crate) fn element(node: &HtmlNode) -> &HtmlElement
    requires { is_some (as_element (Some (node_view node.now))) ≡ true }
    ensures { as_element (Some (node_view node.now)) ≡ Some (element_view result.now) }
{
    match node {
        HtmlNode::Element(element) => element,
        _ => unreachable!(),
    }
}

pub(crate) fn element_mut(node: &mut HtmlNode) -> &mut HtmlElement
    requires { is_some (as_element (Some (node_view node.old))) ≡ true }
    ensures* writes_back { sem 𝓛
        (Lends node_type.the_row element_type.the_row node.entry result Element) }
    ensures value { node.old ≡ Element result.now }
{
    match node {
        HtmlNode::Element(element) => element,
        _ => unreachable!(),
    }
}
