//! The nodes of a document, with the index of the root among them.

ghost use Rattle.std.specs.Prelude.{◌≡◌, true};
ghost use Rattle.html_dom_tree.specs.Views.{nodes_view};
ghost use Rattle.html_dom_document.specs.Documents.{is_element_at};

use crate::element::{element, element_mut, is_element};
use html_dom_tree::{HtmlElement, HtmlNode};
use std::alloc::AllocError;

/// The nodes of a document with the root, always an element, among them.
#[derive(Debug, Drop)]
pub struct HtmlOutput {
    nodes: Vec<HtmlNode>,
    root_index: usize,
    ghost root_is_element: { is_element_at (nodes_view nodes.items) root_index ≡ true },
}

impl HtmlOutput {
    ghost use Rattle.std.specs.{Borrow.{sem}, Prelude.{◌<◌, Some, IfOk, length, slice_index_or}};
    ghost use Rattle.html_dom_tree.specs.{Views.{node_view, element_view}, declared.node.HtmlElement.{HtmlElement}};
    ghost use Rattle.html_dom_document.specs.{Documents.{node_at, root_of, with_root}, Lending.{with_root_element, LendsRoot}};
    ghost use Rattle.html_dom_document.specs.Views.{output_view};

    /// Creates an output with the root at that index. The node there must be an element.
    pub fn new(nodes: Vec<HtmlNode>, root_index: usize) -> HtmlOutput
        requires { is_element_at (nodes_view nodes.items) root_index ≡ true }
        ensures { output_view result
            ≡ record { nodes = nodes_view nodes.items; root = root_index } }
    {
        HtmlOutput { nodes, root_index }
    }

    /// Returns whether the node at that index is an element, and so can be the root.
    ///
    /// ```
    /// use html_dom::{HtmlElement, HtmlNode, HtmlOutput};
    /// use html_names::tag;
    ///
    /// let html = HtmlElement::new(rt.alloc(), tag::html);
    /// let nodes = vec![in rt.alloc(); HtmlNode::Element(html)]?;
    /// assert!(rt; !HtmlOutput::can_be_root(&nodes, 1));
    /// if HtmlOutput::can_be_root(&nodes, 0) {
    ///     let output = HtmlOutput::new(nodes, 0);
    ///     assert!(rt; output.root().tag == tag::html);
    /// }
    /// ```
    pub fn can_be_root(nodes: &[HtmlNode], place: usize) -> bool
        ensures { result ≡ is_element_at (nodes_view nodes.now) place }
    {
        match nodes.get(place) {
            Some(node) => is_element(node),
            None => false,
        }
    }

    /// Returns all nodes, in order.
    pub fn nodes(&self) -> &[HtmlNode]
        ensures { nodes_view result.now ≡ (output_view self.now).nodes }
    {
        &self.nodes
    }

    /// Returns the root.
    pub fn root(&self) -> &HtmlElement
        ensures { root_of (output_view self.now) ≡ Some (element_view result.now) }
    {
        element(self.root_node())
    }

    /// Returns a mutable reference to the root. The other nodes stay, and the root keeps its index.
    pub fn root_mut(&mut self) -> &mut HtmlElement
        ensures* writes_back { sem 𝓛 (LendsRoot self.entry result) }
        ensures value { root_of (output_view self.old) ≡ Some (element_view result.now) }
        ensures written { (last : HtmlElement) → output_view (with_root_element self.old last)
            ≡ with_root (output_view self.old) (element_view last) }
    {
        let root_index = self.root_index;
        let root = &mut self.nodes[root_index];
        element_mut(root)
    }

    /// Returns the root as a node.
    pub fn root_node(&self) -> &HtmlNode
        ensures { let output = output_view self.now in
            node_at output.nodes output.root ≡ Some (node_view result.now) }
    {
        &self.nodes[self.root_index]
    }

    /// Returns a copy of the output. Fails only if an allocation fails.
    pub fn try_clone(&self) -> Result<HtmlOutput, AllocError>
        ensures { IfOk result (λ copy. output_view copy ≡ output_view self.now) }
    {
        let mut nodes = Vec::new(*self.nodes.allocator());
        for node in &self.nodes {
            nodes.push(node.try_clone()?)?;
        }
        Ok(HtmlOutput {
            nodes,
            root_index: self.root_index,
        })
    }
}
