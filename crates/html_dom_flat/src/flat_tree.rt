//! The flat tree: its list of nodes and its name table, made from nodes that are copied.

ghost use Rattle.std.{proofs.Props.{props}, specs.Prelude.{◌≡◌, true}};
ghost use Rattle.html_dom_flat.specs.{Flat.{IsSpelling}, FlatViews.{flat_nodes_view, are_given}, Sets.{flat_node_is_set}};

use crate::builder::{Builder, nodes_room};
use crate::flat_node::FlatNode;
use crate::moving::flat_tree_of;
use crate::spelling::spelled_nodes;
use html_dom_tree::{HtmlElement, HtmlNode};
use html_names_table::NameTable;
use std::alloc::{AllocError, Global};
use std::fmt;

/// A tree as one list of its nodes at all depths, in the order in which they are written. An
/// element holds the index after the last node inside it.
///
/// ```
/// use html_dom::{FlatNode, FlatTree, HtmlElement, HtmlNode, Span};
/// use html_names::tag;
///
/// let alloc = rt.alloc();
/// let text = HtmlNode::text(String::from_str(alloc, "Hello")?, Span(1));
/// let paragraph = HtmlElement::new(alloc, tag::p).with_child(text)?;
/// let tree = FlatTree::from_element(alloc, &paragraph)?;
/// assert_eq!(rt; tree.nodes().len(), 2);
/// if let Some(FlatNode::Element(element)) = tree.nodes().first() {
///     assert_eq!(rt; element.past, 2); // the index after the last node inside it
///     let names = tree.names();
///     assert!(rt; element.tag < names.tags());
///     assert!(rt; *names.tag_at(element.tag) == tag::p);
/// }
/// ```
#[derive(Drop)]
pub struct FlatTree {
    pub(crate) nodes: Vec<FlatNode>,
    pub(crate) names: NameTable,
    ghost given: { are_given names nodes.items ≡ true },
    ghost spells: { let list = flat_nodes_view names nodes.items in
        IsSpelling 0 list } by { Prim.hlevel (props, flat_node_is_set) },
}

impl FlatTree {
    ghost use Rattle.std.specs.Prelude.{IfOk};
    ghost use Rattle.html_dom_tree.specs.{Tree.{node, none, element_node}, Views.{element_view, nodes_view}};
    ghost use Rattle.html_dom_flat.specs.FlatTrees.{tree_nodes, IsListOf};

    /// Creates the list of these nodes and all below them, which are copied. Fails only if an
    /// allocation fails.
    ///
    /// Takes time that grows with the number of nodes and the length of their texts.
    pub fn from_nodes(alloc: Global, nodes: &[HtmlNode]) -> Result<FlatTree, AllocError>
        ensures { IfOk result (λ tree. tree_nodes tree ≡ nodes_view nodes.now) }
    {
        let mut builder = Builder::with_room(alloc, nodes_room(nodes))?;
        builder.push_nodes(alloc, nodes)?;
        Ok(builder.into_tree())
    }

    /// Creates the list of this element and all nodes below it, which are copied. Fails only if an
    /// allocation fails.
    ///
    /// Takes time that grows with the number of nodes and the length of their texts.
    pub fn from_element(alloc: Global, element: &HtmlElement) -> Result<FlatTree, AllocError>
        ensures { let e = element_view element.now in
            IfOk result (λ tree. tree_nodes tree ≡ node (element_node e.0 e.1) none) }
    {
        flat_tree_of(alloc, element.try_clone()?)
    }

    /// Returns the nodes at all depths, in the order in which they are written.
    pub fn nodes(&self) -> &[FlatNode]
        ensures { IsListOf self.now result.now }
    {
        &self.nodes
    }

    /// Returns the name table to which the numbers in the nodes refer.
    pub fn names(&self) -> &NameTable
        ensures { result.now ≡ self.now.names }
    {
        &self.names
    }

    /// Returns a copy of the nodes from which the list was made. Fails only if an allocation fails.
    ///
    /// Takes time that grows with the number of nodes and the length of their texts.
    pub fn to_nodes(&self) -> Result<Vec<HtmlNode>, AllocError>
        ensures { IfOk result (λ nodes. nodes_view nodes.items ≡ tree_nodes self.now) }
    {
        spelled_nodes(*self.nodes.allocator(), &self.names, &self.nodes)
    }
}

/// Writes `FlatTree`.
impl fmt::Debug for FlatTree {
    ghost use Rattle.std.specs.Prelude.{codes, Some};

    ghost debug_output = { λ _. Some (codes "FlatTree") };

    fn fmt<W: fmt::Write>(&self, f: &mut fmt::Formatter<W>) -> fmt::Result {
        write!(f, "FlatTree")
    }
}
