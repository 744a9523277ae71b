//! Reading of written texts.

use crate::normal::normal_of;
use html_dom_flat::{FlatNode, FlatTree};
use html_dom_tree::HtmlElement;
use std::alloc::Global;
use typst_html_encode::{HtmlOptions, html_in_bundle};
use typst_html_read::read_html;

const DEPTH_LIMIT: usize = 10_000;

fn tree_of(alloc: Global, text: &str) -> Option<HtmlElement> {
    read_html(alloc, text, DEPTH_LIMIT).ok()
}

/// Returns the plain text of a tree without frames.
fn plain_of(alloc: Global, root: &HtmlElement) -> Option<String> {
    html_in_bundle(alloc, root, &HtmlOptions::default(), &()).ok()
}

/// Returns whether the plain text of a tree that was read reads as that tree again.
fn stays(alloc: Global, read: &HtmlElement) -> bool {
    let again = plain_of(alloc, read).and_then(|text| tree_of(alloc, &text));
    again.is_some_and(|again| again == *read)
}

/// Returns whether a text is read, and the plain text of the resulting tree reads the same.
pub fn reads_again(alloc: Global, text: &str) -> bool {
    tree_of(alloc, text).is_some_and(|read| stays(alloc, &read))
}

/// Returns whether a text is the plain text of the tree that it is read as.
pub fn reads_same(alloc: Global, text: &str) -> bool {
    let written = tree_of(alloc, text).and_then(|read| plain_of(alloc, &read));
    written.is_some_and(|written| written.as_str() == text)
}

/// Returns whether the text that was written of a tree with these options is read as it should be.
/// A plain text is read as the tree's normal form, and is that form's text, unless an element has
/// the flag `pre_span`, which no text spells. A pretty text must only be read, and the plain text
/// of the resulting tree must read the same. A tree with frames always passes.
pub fn reads_back(alloc: Global, root: &HtmlElement, options: &HtmlOptions, text: &str) -> bool {
    let Ok(tree) = FlatTree::from_element(alloc, root) else {
        return false;
    };
    if tree.nodes().iter().any(is_frame) {
        return true;
    }
    if options.pretty {
        return reads_again(alloc, text);
    }
    let is_flagged = tree.nodes().iter().any(is_flagged);
    reads_normal(alloc, root, text) && (is_flagged || reads_same(alloc, text))
}

fn is_frame(node: &FlatNode) -> bool {
    matches!(node, FlatNode::Frame(_))
}

/// Returns whether the node is an element with the flag `pre_span`.
fn is_flagged(node: &FlatNode) -> bool {
    match node {
        FlatNode::Element(element) => element.pre_span,
        _ => false,
    }
}

/// Returns whether a text is read as the tree's normal form, and that form's text reads the same.
fn reads_normal(alloc: Global, root: &HtmlElement, text: &str) -> bool {
    let Ok(normal) = normal_of(alloc, root) else {
        return false;
    };
    tree_of(alloc, text).is_some_and(|read| read == normal) && stays(alloc, &normal)
}
