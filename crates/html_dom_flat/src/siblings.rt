//! Parts of a flat tree.

ghost use Rattle.std.{proofs.Props.{props}, specs.Prelude.{◌≡◌, ◌+◌, ◌<◌, ◌^◌, true, length}};
ghost use Rattle.html_names_table.specs.NameTables.{NamesView};
ghost use Rattle.html_dom_flat.specs.{Flat.{IsSpelling, past_of}, FlatViews.{flat_node_view, flat_nodes_view, are_given, is_given}};
ghost use Rattle.html_dom_flat.specs.Sets.{flat_node_is_set};

use crate::flat_node::{FlatElement, FlatNode};
use crate::flat_tree::FlatTree;
use html_dom_tree::{HtmlFrame, Span, Tag};
use html_names_core::HtmlTag;
use html_names_table::NameTable;

/// Consecutive siblings in a flat tree, with everything inside them.
#[derive(Clone, Copy)]
pub struct Siblings<'a> {
    /// The name table to which the numbers in the nodes refer.
    pub(crate) names: &'a NameTable,
    /// The nodes at all depths.
    pub(crate) nodes: &'a [FlatNode],
    /// The index of the first node in the tree's list.
    pub(crate) first: usize,
    ghost fits: { first + length nodes.now < 2 ^ 64 },
    ghost given: { are_given names.now nodes.now ≡ true },
    ghost spells: { let list = flat_nodes_view names.now nodes.now in
        IsSpelling first list } by { Prim.hlevel (props, flat_node_is_set) },
}

/// A node of a flat tree, with everything inside it.
#[derive(Clone, Copy)]
pub enum Node<'a> {
    /// The start or end of a located element.
    Tag(&'a Tag),
    /// A text and its place in the source.
    Text(&'a String, Span),
    /// A laid-out frame.
    Frame(&'a HtmlFrame),
    /// An element.
    Element(Element<'a>),
}

/// An element of a flat tree, with everything inside it.
#[derive(Clone, Copy)]
pub struct Element<'a> {
    /// The element apart from its children.
    pub flat: &'a FlatElement,
    /// Its children.
    pub children: Siblings<'a>,
    ghost given: { is_given children.names.now flat.now ≡ true },
}

impl<'a> Siblings<'a> {
    ghost use Rattle.html_dom_flat.specs.{FlatTrees.{tree_nodes}, Siblings.{siblings_view, SplitsFirst}};

    /// Returns the nodes of a tree that are inside no other node.
    pub fn of(tree: &'a FlatTree) -> Siblings<'a>
        ensures { siblings_view result ≡ tree_nodes tree.now }
    {
        Siblings {
            names: &tree.names,
            nodes: &tree.nodes,
            first: 0,
        }
    }

    /// Returns the first node and the siblings after it, or `None` if there is no node.
    ///
    /// Takes constant time.
    #[inline(always)]
    pub fn split_first(&self) -> Option<(Node<'a>, Siblings<'a>)>
        ensures { SplitsFirst (siblings_view self.now) result }
    {
        let Some((flat, rest)) = self.nodes.split_first() else {
            return None;
        };
        let next = self.first + 1;
        let past = past_of(flat, next);
        let (inside, after) = rest.split_at(past - next);
        let children = Siblings {
            names: self.names,
            nodes: inside,
            first: next,
        };
        let others = Siblings {
            names: self.names,
            nodes: after,
            first: past,
        };
        Some((Node::new(flat, children), others))
    }
}

impl<'a> Node<'a> {
    ghost use Rattle.html_dom_flat.specs.{FlatViews.{is_node_given}, Siblings.{node_view, node_with, siblings_view}};

    #[inline(always)]
    fn new(flat: &'a FlatNode, children: Siblings<'a>) -> Node<'a>
        requires { is_node_given children.names.now flat.now ≡ true }
        ensures { node_view result ≡ node_with
            (flat_node_view children.entry.names.now flat.now)
            (siblings_view children.entry) }
    {
        match flat {
            FlatNode::Tag(tag) => Node::Tag(tag),
            FlatNode::Text(text, span) => Node::Text(text, *span),
            FlatNode::Frame(frame) => Node::Frame(frame),
            FlatNode::Element(flat) => Node::Element(Element { flat, children }),
        }
    }
}

impl<'a> Element<'a> {
    ghost use Rattle.std.specs.{List.{list_all}, Prelude.{map}};
    ghost use Rattle.html_names_table.specs.NameTables.{name_at};
    ghost use Rattle.html_dom_flat.specs.{FlatViews.{flat_pair, is_pair_given}, Siblings.{head_view}};

    /// Returns the name table to which the numbers of its names refer.
    pub fn names(&self) -> &'a NameTable
        ensures { result.now ≡ self.now.children.names.now }
    {
        self.children.names
    }

    /// Returns the tag.
    pub fn tag(&self) -> &'a HtmlTag
        ensures { result.now ≡ (head_view self.now).name }
    {
        self.names().tag_at(self.tag_number())
    }

    /// Returns the number of the tag.
    #[inline(always)]
    pub fn tag_number(&self) -> usize
        ensures given { result < length self.now.children.names.now.tags }
        ensures same { name_at self.now.children.names.now.tags result
            ≡ (head_view self.now).name }
    {
        self.flat.tag
    }

    /// Returns the attributes, in the order in which they are written: the number of each name, and
    /// the value.
    #[inline(always)]
    pub fn attrs(&self) -> &'a [(usize, String)]
        ensures given { list_all (is_pair_given self.now.children.names.now) result.now
            ≡ true }
        ensures same { map (flat_pair self.now.children.names.now) result.now
            ≡ (head_view self.now).attrs }
    {
        &self.flat.attrs
    }
}

/// Returns the index after a node and everything inside it, given the index `next` after the node
/// alone.
fn past_of(flat: &FlatNode, next: usize) -> usize
    ensures { (names : NamesView) → result ≡ past_of next (flat_node_view names flat.now) }
{
    match flat {
        FlatNode::Element(element) => element.past,
        FlatNode::Tag(_) | FlatNode::Text(_, _) | FlatNode::Frame(_) => next,
    }
}
