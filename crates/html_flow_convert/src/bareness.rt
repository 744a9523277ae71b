//! The lone spaces that may stay bare.

ghost use Rattle.std.specs.Prelude.{◌≡◌, ◌+◌, ◌<◌, ◌≤◌, ◌^◌, true, IfOk};
ghost use Rattle.html_dom_flat.specs.{Flat.{nodes_count}, FlatTrees.{tree_nodes}, FlatViews.{flat_node_view, is_node_given}};
ghost use Rattle.html_flow_convert.specs.{BareSpaces.{bare_spaces, nodes_turns}, Lines.{place_past, next_place}, Looks.{flat_look}};

use crate::line::{Last, push_answer};
use crate::look::{Look, element_look, text_look};
use html_dom_flat::{FlatNode, FlatTree};
use std::alloc::{AllocError, Global};

/// The lone spaces of a list of nodes that may stay bare.
#[derive(Debug, Drop)]
pub struct Bareness {
    /// Whether each text of exactly one space is bare, in the order of writing; without those
    /// inside an element that is not looked into.
    pub bare: Vec<bool>,
    /// The number of nodes that were looked at, including elements that are not looked into, but
    /// not what is inside them.
    pub turns: usize,
}

fn flat_look(tree: &FlatTree, node: &FlatNode) -> Look
    requires { is_node_given tree.now.names node.now ≡ true }
    ensures { result ≡ flat_look (flat_node_view tree.now.names node.now) }
{
    match node {
        FlatNode::Tag(_) => Look::Nothing,
        FlatNode::Text(text, _) => text_look(text.as_str()),
        FlatNode::Element(element) => {
            let tag = tree.names().tag_at(element.tag);
            element_look(tag, &element.css, element.pre_span)
        }
        FlatNode::Frame(_) => Look::Visible,
    }
}

/// Returns the index after a node and everything in it.
fn place_past(node: &FlatNode, place: usize) -> usize
    requires { place + 1 < 2 ^ 64 }
    ensures { result ≡ place_past place node.now }
{
    match node {
        FlatNode::Element(element) => element.past,
        FlatNode::Tag(_) | FlatNode::Text(_, _) | FlatNode::Frame(_) => place + 1,
    }
}

fn next_place(node: &FlatNode, look: Look, place: usize) -> usize
    requires { place + 1 < 2 ^ 64 }
    ensures { result ≡ next_place place look node.now }
{
    if look.is_inside() {
        return place + 1;
    }
    place_past(node, place)
}

/// Returns which lone spaces of these nodes survive when white space collapses (CSS Text 3, 4.1): a
/// text of exactly one space is bare if something that is no border stands right before it, and
/// something visible right after it.
///
/// An element with `display: block` in its css or with lines of its own by default is a border, and
/// so is `br`; otherwise, a replaced element is visible, like a frame, and an element whose texts
/// are written as character references counts for nothing. None of these is looked into. Any other
/// element counts as its content. Any other text is visible if one of its characters is visible by
/// default, and otherwise counts for nothing, like a tag. Fails only if an allocation fails.
///
/// Takes time linear in `turns`, which is at most the number of nodes at all depths.
///
/// ```
/// use html_dom::{FlatTree, HtmlNode, Span};
/// use html_flow::bare_spaces;
///
/// let mut nodes = Vec::new(rt.alloc());
/// for text in ["a", " ", "b", " "] {
///     nodes.push(HtmlNode::text(String::from_str(rt.alloc(), text)?, Span(0)))?;
/// }
/// let tree = FlatTree::from_nodes(rt.alloc(), &nodes)?;
/// let found = bare_spaces(rt.alloc(), &tree)?;
/// assert!(rt; found.bare.as_slice() == [true, false].as_slice());
/// assert_eq!(rt; found.turns, 4);
/// ```
pub fn bare_spaces(alloc: Global, tree: &FlatTree) -> Result<Bareness, AllocError>
    ensures answers { IfOk result (λ found. (found.bare.items ≡ bare_spaces (tree_nodes tree.now))
        × (found.turns ≡ nodes_turns (tree_nodes tree.now))) }
    ensures few { IfOk result (λ found. found.turns ≤ nodes_count (tree_nodes tree.now)) }
{
    let nodes = tree.nodes();
    let mut bare = Vec::new(alloc);
    let mut turns = 0;
    let mut last = Last::Border;
    let mut place = 0;
    while place < nodes.len() {
        let node = &nodes[place];
        let look = flat_look(tree, node);
        push_answer(&mut bare, last, look)?;
        last = last.after(look);
        turns += 1;
        place = next_place(node, look, place);
    }
    push_answer(&mut bare, last, Look::Border)?;
    Ok(Bareness { bare, turns })
}
