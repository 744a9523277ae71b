//! The siblings that a walk over a tree is among, with their place in a browser's tree.

ghost use Rattle.std.specs.Prelude.{◌≡◌, ◌++◌, ◌∷◌, [], IfOk, OnOk};
ghost use Rattle.html_dom_tree.specs.Views.{element_view, nodes_view};
ghost use Rattle.html_dom_walk.specs.Events.{enter, leave};
ghost use Rattle.html_dom_document.specs.{DomIndices.{dom_indices}, IndexWalks.{indices_left}};
ghost use Rattle.html_dom_document.specs.DomWalks.{first_siblings, index_next, past_next, path_view, siblings_past, siblings_view};

use crate::dom_indices::{DomIndices, HtmlSliceExt};
use crate::element::is_named_html;
use html_dom_tree::{HtmlElement, HtmlNode};
use std::alloc::{AllocError, Global};

/// The path of a node: that of its parent, and its own DOM index.
#[derive(Clone, Copy)]
pub(crate) struct NodePath<'a> {
    pub(crate) parent: &'a Vec<usize>,
    pub(crate) index: usize,
}

impl NodePath<'_> {
    pub(crate) fn to_vec(self) -> Result<Vec<usize>, AllocError>
        ensures { IfOk result (λ path. path.items ≡ path_view self.entry) }
    {
        let mut path = Vec::with_capacity(*self.parent.allocator(), self.parent.len() + 1)?;
        path.extend_from_slice(self.parent)?;
        path.push(self.index)?;
        Ok(path)
    }
}

/// An element that is open.
#[derive(Clone, Copy)]
pub(crate) struct Outer<'a> {
    /// The siblings behind it.
    pub(crate) left: DomIndices<'a>,
    /// The length of the path of its parent.
    pub(crate) depth: usize,
}

/// The siblings that a walk is among.
#[derive(Drop)]
pub(crate) struct Siblings<'a> {
    /// Those that the walk comes to next.
    left: DomIndices<'a>,
    /// The path of their parent, without `html` elements.
    parent: Vec<usize>,
    /// The open elements, the innermost last.
    outer: Vec<Outer<'a>>,
}

/// Returns the iterator over nodes with their DOM indices.
fn numbered(nodes: &[HtmlNode]) -> DomIndices<'_>
    ensures { indices_left result ≡ dom_indices (nodes_view nodes.now) }
{
    nodes.iter_with_dom_indices()
}

impl<'a> Siblings<'a> {
    pub(crate) fn of(alloc: Global, nodes: &'a [HtmlNode]) -> Siblings<'a>
        ensures { siblings_view result ≡ first_siblings (nodes_view nodes.now) }
    {
        Siblings {
            left: numbered(nodes),
            parent: Vec::new(alloc),
            outer: Vec::new(alloc),
        }
    }

    pub(crate) fn path(&self, index: usize) -> NodePath<'_>
        ensures { path_view result ≡ self.now.parent.items ++ index ∷ [] }
    {
        NodePath {
            parent: &self.parent,
            index,
        }
    }

    /// Goes past the next of them, and returns its DOM index.
    pub(crate) fn pass(&mut self) -> usize
        ensures index { result ≡ index_next (siblings_view self.old) }
        ensures past { siblings_view self.new ≡ past_next (siblings_view self.old) }
    {
        match self.left.next() {
            Some((_, index)) => index,
            None => 0,
        }
    }

    pub(crate) fn enter(&mut self, element: &'a HtmlElement) -> Result<(), AllocError>
        ensures { let e = element_view element.now in OnOk result (siblings_view self.new
            ≡ siblings_past (siblings_view self.old) (enter e.0 e.1)) }
    {
        let index = self.pass();
        self.outer.push(Outer {
            left: self.left,
            depth: self.parent.len(),
        })?;
        self.left = numbered(&element.children);
        if !is_named_html(element) {
            self.parent.push(index)?;
        }
        Ok(())
    }

    pub(crate) fn leave(&mut self)
        ensures { siblings_view self.new ≡ siblings_past (siblings_view self.old) leave }
    {
        if let Some(Outer { left, depth }) = self.outer.pop() {
            self.left = left;
            self.parent.truncate(depth);
        }
    }
}
