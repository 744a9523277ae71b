//! The iterator over a list of nodes with their DOM indices, and the trait that starts it.

ghost use Rattle.std.specs.Prelude.{◌+◌, ◌<◌, ◌^◌, length};
ghost use Rattle.html_dom_document.specs.Cursor.{element_index};

use crate::cursor::Cursor;
use html_dom_tree::HtmlNode;

/// A list of nodes that can be iterated with their DOM indices: the index of each among its
/// siblings in a browser's tree (DOM), where neighbouring texts are one node and tags are none. An
/// empty text counts as a text here, but not in a browser.
pub trait HtmlSliceExt<'a> {
    ghost use Rattle.std.specs.{List.{zip}, Prelude.{◌≡◌, List}};
    ghost use Rattle.html_dom_tree.specs.{Views.{nodes_view}, declared.node.HtmlNode.{HtmlNode}};
    ghost use Rattle.html_dom_document.specs.{DomIndices.{dom_indices}, IndexWalks.{pairs_left}};

    /// The list whose nodes are numbered.
    ghost listed: { Self → List HtmlNode };

    /// Iterates over the nodes of the list, in order, each with its DOM index, without allocating.
    ///
    /// The index of an element or frame is the number of elements, frames and runs of texts before
    /// it. Tags do not split a run, and empty texts count. The index of a tag or text is the number
    /// of elements and frames before it, plus the number of runs that these have ended.
    ///
    /// ```
    /// use html_dom::{HtmlElement, HtmlNode, HtmlSliceExt, Span};
    /// use html_names::tag;
    ///
    /// let alloc = rt.alloc();
    /// let mut nodes = Vec::new(alloc);
    /// nodes.push(HtmlNode::text(String::from_str(alloc, "Hello")?, Span(1)))?;
    /// nodes.push(HtmlNode::text(String::from_str(alloc, " you")?, Span(2)))?;
    /// nodes.push(HtmlNode::from(HtmlElement::new(alloc, tag::br)))?;
    /// let indices = nodes.as_slice().iter_with_dom_indices();
    /// for ((_, index), wanted) in indices.zip([0, 0, 1].iter()) {
    ///     assert_eq!(rt; index, *wanted);
    /// }
    /// ```
    fn iter_with_dom_indices(self) -> DomIndices<'a>
        ensures pairs { let nodes = listed self in
            pairs_left result ≡ zip nodes (dom_indices (nodes_view nodes)) }
        ensures count { length (pairs_left result) ≡ length (listed self) };
}

impl<'a> HtmlSliceExt<'a> for &'a [HtmlNode] {
    ghost listed = { λ nodes. nodes.now };

    fn iter_with_dom_indices(self) -> DomIndices<'a> {
        DomIndices {
            nodes: self,
            cursor: Cursor::new(),
        }
    }
}

/// The iterator that `iter_with_dom_indices` returns. It yields as many items as the list has
/// nodes.
#[derive(Clone, Copy)]
pub struct DomIndices<'a> {
    nodes: &'a [HtmlNode],
    cursor: Cursor,
    ghost fits: { element_index cursor + length nodes.now < 2 ^ 64 },
}

impl<'a> Iterator for DomIndices<'a> {
    ghost use Rattle.std.specs.Iterator.{YieldsFirstBy, item_count};
    ghost use Rattle.html_dom_document.specs.IndexWalks.{pairs_left};

    type Item = (&'a HtmlNode, usize);

    ghost next_gives = { YieldsFirstBy (λ pair. (pair.0.now, pair.1)) pairs_left };

    ghost remaining = { item_count pairs_left };

    fn next(&mut self) -> Option<(&'a HtmlNode, usize)> {
        let (node, others) = self.nodes.split_first()?;
        let index = self.cursor.pass(node);
        self.nodes = others;
        Some((node, index))
    }
}
