//! The builder of a flat tree.

ghost use Rattle.std.specs.Prelude.{◌≡◌, true};
ghost use Rattle.html_dom_flat.specs.FlatViews.{are_given};

use crate::flat_node::{FlatElement, FlatNode};
use crate::flat_tree::FlatTree;
use crate::numbering::{numbered_attrs, set_past};
use html_dom_tree::moving::{STEP, give_back, reverse_nodes};
use html_dom_tree::{HtmlAttrs, HtmlElement, HtmlFrame, HtmlNode, Span, Tag};
use html_names_core::HtmlTag;
use html_names_table::NameTable;
use html_values_css::Properties;
use std::alloc::{AllocError, Global};

/// A builder of a flat tree, for the crates that build on this one. It holds the tree's list so far.
/// An element that is not closed yet has the `past` 0.
#[derive(Drop)]
pub struct Builder {
    pub(crate) nodes: Vec<FlatNode>,
    pub(crate) names: NameTable,
    ghost given: { are_given names nodes.items ≡ true },
}

impl Builder {
    ghost use Rattle.std.specs.Prelude.{◌+◌, ◌<◌, [], ◌∷◌, ◌++◌, IfOk, OnOk, vec_len};
    ghost use Rattle.html_dom_tree.specs.{FrameViews.{html_frame_view}, Tree.{plain_head}};
    ghost use Rattle.html_dom_tree.specs.Views.{attrs_view, node_view, element_view, nodes_view, tag_view, text_view};
    ghost use Rattle.html_dom_flat.specs.{Builders.{builder_view}, ClosedElements.{closed_at}};
    ghost use Rattle.html_dom_flat.specs.Flat.{node_count, nodes_count, node_flat, nodes_flat, element_flat, flat_tag, flat_text, flat_frame, flat_element, IsSpelling, spelled_nodes};
    ghost use Rattle.html_dom_flat.specs.{FlatTrees.{tree_nodes}, FlatViews.{flat_node_view, is_node_given}, Numbering.{AreNumbersOf}};

    /// Creates an empty list.
    pub fn new(alloc: Global) -> Builder
        ensures list { builder_view result ≡ [] }
        ensures count { vec_len result.nodes ≡ 0 }
    {
        Builder {
            nodes: Vec::new(alloc),
            names: NameTable::new(alloc),
        }
    }

    /// Creates an empty list with room for that many nodes.
    pub(crate) fn with_room(alloc: Global, room: usize) -> Result<Builder, AllocError>
        ensures list { IfOk result (λ builder. builder_view builder ≡ []) }
        ensures count { IfOk result (λ builder. vec_len builder.nodes ≡ 0) }
    {
        Ok(Builder {
            nodes: Vec::with_capacity(alloc, room)?,
            names: NameTable::new(alloc),
        })
    }

    #[inline(always)]
    fn push(&mut self, node: FlatNode) -> Result<(), AllocError>
        requires { is_node_given self.old.names node ≡ true }
        ensures list { OnOk result (builder_view self.new
            ≡ builder_view self.old ++ flat_node_view self.old.names node ∷ []) }
        ensures count { OnOk result (vec_len self.new.nodes ≡ vec_len self.old.nodes + 1) }
    {
        self.nodes.push(node)?;
        Ok(())
    }

    fn numbered(
        &mut self,
        alloc: Global,
        tag: HtmlTag,
        attrs: HtmlAttrs,
    ) -> Result<(usize, Vec<(usize, String)>), AllocError>
        ensures numbers { IfOk result (λ numbers.
            AreNumbersOf self.new.names numbers.0 numbers.1.items tag (attrs_view attrs)) }
        ensures list { OnOk result (builder_view self.new ≡ builder_view self.old) }
        ensures count { OnOk result (vec_len self.new.nodes ≡ vec_len self.old.nodes) }
    {
        let number = self.names.insert_tag(tag)?;
        let pairs = numbered_attrs(alloc, &mut self.names, attrs)?;
        Ok((number, pairs))
    }

    /// Closes the element with that index: all nodes after it are inside it.
    pub fn close_element(&mut self, index: usize)
        requires { index < vec_len self.old.nodes }
        ensures list { builder_view self.new
            ≡ closed_at index (vec_len self.old.nodes) (builder_view self.old) }
        ensures count { vec_len self.new.nodes ≡ vec_len self.old.nodes }
    {
        let past = self.nodes.len();
        set_past(&mut self.nodes[index], past);
    }

    // Moving a tree recurses at each level. Code that moves one node alone stays out of the
    // recursion, so that a level takes less stack.

    /// Appends a tag.
    #[inline(never)]
    pub fn push_tag(&mut self, tag: Tag) -> Result<(), AllocError>
        ensures list { OnOk result (builder_view self.new
            ≡ builder_view self.old ++ flat_tag (tag_view tag) ∷ []) }
        ensures count { OnOk result (vec_len self.new.nodes ≡ vec_len self.old.nodes + 1) }
    {
        self.push(FlatNode::Tag(tag))
    }

    /// Appends a text.
    #[inline(never)]
    pub fn push_text(&mut self, text: String, span: Span) -> Result<(), AllocError>
        ensures list { OnOk result (builder_view self.new
            ≡ builder_view self.old ++ flat_text (text_view text) span.0 ∷ []) }
        ensures count { OnOk result (vec_len self.new.nodes ≡ vec_len self.old.nodes + 1) }
    {
        self.push(FlatNode::Text(text, span))
    }

    #[inline(never)]
    fn push_frame(&mut self, alloc: Global, frame: HtmlFrame) -> Result<(), AllocError>
        ensures list { OnOk result (builder_view self.new
            ≡ builder_view self.old ++ flat_frame (html_frame_view frame) ∷ []) }
        ensures count { OnOk result (vec_len self.new.nodes ≡ vec_len self.old.nodes + 1) }
    {
        self.push(FlatNode::Frame(Box::new(alloc, frame)?))
    }

    /// Appends an element without css and parent that is not closed yet, and returns its index.
    #[inline(never)]
    pub fn start_element(
        &mut self,
        alloc: Global,
        tag: HtmlTag,
        attrs: HtmlAttrs,
        span: Span,
    ) -> Result<usize, AllocError>
        ensures index { IfOk result (λ index. index ≡ vec_len self.old.nodes) }
        ensures list { OnOk result (builder_view self.new ≡ builder_view self.old
            ++ flat_element (plain_head tag (attrs_view attrs) span.0) 0 ∷ []) }
        ensures count { OnOk result (vec_len self.new.nodes ≡ vec_len self.old.nodes + 1) }
    {
        let index = self.nodes.len();
        let (tag, attrs) = self.numbered(alloc, tag, attrs)?;
        self.push(FlatNode::Element(FlatElement {
            tag,
            attrs,
            css: Properties::new(alloc),
            parent: None,
            span,
            pre_span: false,
            past: 0,
        }))?;
        Ok(index)
    }

    /// Consumes the builder and returns the tree, in which each element must be closed.
    pub fn into_tree(self) -> FlatTree
        requires { IsSpelling 0 (builder_view self) }
        ensures { tree_nodes result ≡ spelled_nodes 0 (builder_view self) }
    {
        let Builder { nodes, names } = self;
        FlatTree { nodes, names }
    }

    /// Appends an element that is not closed yet, and returns its children.
    #[inline(never)]
    fn open_element(
        &mut self,
        alloc: Global,
        element: HtmlElement,
    ) -> Result<Vec<HtmlNode>, AllocError>
        ensures children { IfOk result (λ children. children ≡ element.children) }
        ensures list { OnOk result (builder_view self.new
            ≡ builder_view self.old ++ flat_element (element_view element).0 0 ∷ []) }
        ensures count { OnOk result (vec_len self.new.nodes ≡ vec_len self.old.nodes + 1) }
    {
        let HtmlElement {
            tag,
            attrs,
            css,
            children,
            parent,
            span,
            pre_span,
        } = element;
        let (tag, attrs) = self.numbered(alloc, tag, attrs)?;
        self.push(FlatNode::Element(FlatElement {
            tag,
            attrs,
            css,
            parent,
            span,
            pre_span,
            past: 0,
        }))?;
        Ok(children)
    }

    /// Calls `move_node` without inlining it, which costs less in a short list.
    #[cycle(flatten)]
    #[inline(never)]
    fn move_one(&mut self, alloc: Global, node: HtmlNode) -> Result<(), AllocError>
        ensures list { OnOk result (builder_view self.new
            ≡ builder_view self.old ++ node_flat (vec_len self.old.nodes) (node_view node)) }
        ensures count { OnOk result (vec_len self.new.nodes
            ≡ vec_len self.old.nodes + node_count (node_view node)) }
    {
        self.move_node(alloc, node)
    }

    #[cycle(flatten)]
    #[inline(always)]
    #[tactic(auto, unfolding(crate::specs::Flat::node_flat, crate::specs::Flat::node_count))]
    fn move_node(&mut self, alloc: Global, node: HtmlNode) -> Result<(), AllocError>
        ensures list { OnOk result (builder_view self.new
            ≡ builder_view self.old ++ node_flat (vec_len self.old.nodes) (node_view node)) }
        ensures count { OnOk result (vec_len self.new.nodes
            ≡ vec_len self.old.nodes + node_count (node_view node)) }
    {
        match node {
            HtmlNode::Tag(tag) => self.push_tag(tag),
            HtmlNode::Text(text, span) => self.push_text(text, span),
            HtmlNode::Frame(frame) => self.push_frame(alloc, frame),
            HtmlNode::Element(element) => self.move_element(alloc, element),
        }
    }

    #[cycle(flatten)]
    pub(crate) fn move_element(
        &mut self,
        alloc: Global,
        element: HtmlElement,
    ) -> Result<(), AllocError>
        ensures list { OnOk result (builder_view self.new ≡ builder_view self.old
            ++ element_flat (vec_len self.old.nodes) (element_view element)) }
        ensures count { OnOk result (vec_len self.new.nodes
            ≡ vec_len self.old.nodes + 1 + nodes_count (element_view element).1) }
    {
        let index = self.nodes.len();
        let children = self.open_element(alloc, element)?;
        self.move_nodes(alloc, children)?;
        self.close_element(index);
        Ok(())
    }

    #[cycle(flatten)]
    fn move_nodes(&mut self, alloc: Global, nodes: Vec<HtmlNode>) -> Result<(), AllocError>
        ensures list { OnOk result (builder_view self.new
            ≡ builder_view self.old ++ nodes_flat (vec_len self.old.nodes) (nodes_view nodes.items)) }
        ensures count { OnOk result (vec_len self.new.nodes
            ≡ vec_len self.old.nodes + nodes_count (nodes_view nodes.items)) }
    {
        if nodes.len() < STEP {
            self.move_few(alloc, nodes)
        } else {
            self.move_many(alloc, nodes)
        }
    }

    #[cycle(flatten)]
    #[tactic(auto, unfolding(crate::specs::Flat::nodes_flat, crate::specs::Flat::nodes_count))]
    fn move_few(&mut self, alloc: Global, nodes: Vec<HtmlNode>) -> Result<(), AllocError>
        ensures list { OnOk result (builder_view self.new
            ≡ builder_view self.old ++ nodes_flat (vec_len self.old.nodes) (nodes_view nodes.items)) }
        ensures count { OnOk result (vec_len self.new.nodes
            ≡ vec_len self.old.nodes + nodes_count (nodes_view nodes.items)) }
    {
        for node in nodes {
            self.move_one(alloc, node)?;
        }
        Ok(())
    }

    /// Moves the nodes in order, and frees the room of moved nodes on the way (`give_back`).
    #[cycle(flatten)]
    #[tactic(auto, unfolding(crate::specs::Flat::nodes_flat, crate::specs::Flat::nodes_count))]
    fn move_many(&mut self, alloc: Global, mut nodes: Vec<HtmlNode>) -> Result<(), AllocError>
        ensures list { OnOk result (builder_view self.new
            ≡ builder_view self.old ++ nodes_flat (vec_len self.old.nodes) (nodes_view nodes.items)) }
        ensures count { OnOk result (vec_len self.new.nodes
            ≡ vec_len self.old.nodes + nodes_count (nodes_view nodes.items)) }
    {
        reverse_nodes(&mut nodes);
        while let Some(node) = nodes.pop() {
            self.move_node(alloc, node)?;
            give_back(&mut nodes);
        }
        Ok(())
    }

    #[tactic(auto, unfolding(crate::specs::Flat::nodes_flat, crate::specs::Flat::nodes_count))]
    pub(crate) fn push_nodes(&mut self, alloc: Global, nodes: &[HtmlNode]) -> Result<(), AllocError>
        ensures list { OnOk result (builder_view self.new
            ≡ builder_view self.old ++ nodes_flat (vec_len self.old.nodes) (nodes_view nodes.now)) }
        ensures count { OnOk result (vec_len self.new.nodes
            ≡ vec_len self.old.nodes + nodes_count (nodes_view nodes.now)) }
    {
        for node in nodes {
            self.move_node(alloc, node.try_clone()?)?;
        }
        Ok(())
    }
}

/// Returns the number of these nodes and all below them. It is only a hint for a list's capacity.
#[cycle(counting)]
pub(crate) fn nodes_room(nodes: &[HtmlNode]) -> usize {
    let mut room = nodes.len();
    for node in nodes {
        if let HtmlNode::Element(element) = node {
            room = room.saturating_add(nodes_room(&element.children));
        }
    }
    room
}
