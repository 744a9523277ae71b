//! Nodes that were made, and what is put behind them.

ghost use Rattle.std.specs.Prelude.{◌≡◌, ◌∷◌, [], IfOk, OnOk, chars};
ghost use Rattle.html_dom_tree.specs.{Tree.{text_node, with_last}, Views.{node_view, nodes_view, text_view}};
ghost use Rattle.html_clean_nodes.specs.Cleaned as cleaned;

use html_dom_tree::text::split_first;
use html_dom_tree::{HtmlNode, Span};
use std::alloc::{AllocError, Global};

const BYTE_ORDER_MARK: char = '\u{feff}';

/// Appends a node. Takes room for one first, as most elements have one child.
#[tactic(auto, using(html_dom_tree::proofs::Nodes::with_last_view))]
pub(crate) fn add(nodes: &mut Vec<HtmlNode>, node: HtmlNode) -> Result<(), AllocError>
    ensures { OnOk result (nodes_view nodes.new.items
        ≡ with_last (nodes_view nodes.old.items) (node_view node)) }
{
    if nodes.is_empty() {
        nodes.reserve_exact(1)?;
    }
    nodes.push(node)?;
    Ok(())
}

#[tactic(auto, using(crate::proofs::LastChars::space_by_bytes))]
fn last_is_space(text: &str) -> bool
    ensures { result ≡ cleaned.last_is 32 (chars text.now) }
{
    text.ends_with(' ')
}

#[tactic(auto, using(crate::proofs::LastChars::line_feed_by_bytes))]
fn last_is_line_feed(text: &str) -> bool
    ensures { result ≡ cleaned.last_is 10 (chars text.now) }
{
    text.ends_with('\n')
}

fn is_gap(node: &HtmlNode) -> bool
    ensures { result ≡ cleaned.is_gap (node_view node.now) }
{
    match node {
        HtmlNode::Text(text, _) => last_is_space(text.as_str()) || last_is_line_feed(text.as_str()),
        _ => false,
    }
}

/// Returns whether nothing stands there, or a text that ends in a space or a line feed stands last.
#[tactic(auto, using(crate::proofs::LastNodes::last_apart))]
fn end_apart(nodes: &[HtmlNode]) -> bool
    ensures { result ≡ cleaned.end_apart (nodes_view nodes.now) }
{
    match nodes.split_last() {
        None => true,
        Some((last, _)) => is_gap(last),
    }
}

/// Appends a line feed, if it is to part words.
pub(crate) fn part(alloc: Global, apart: bool, nodes: &mut Vec<HtmlNode>) -> Result<(), AllocError>
    ensures { OnOk result (nodes_view nodes.new.items
        ≡ cleaned.parted apart (nodes_view nodes.old.items)) }
{
    if !apart || end_apart(nodes) {
        return Ok(());
    }
    add(nodes, line_feed(alloc)?)
}

fn line_feed(alloc: Global) -> Result<HtmlNode, AllocError>
    ensures { IfOk result (λ node. node_view node ≡ text_node (10 ∷ []) 0) }
{
    Ok(HtmlNode::text(String::from_str(alloc, "\n")?, Span(0)))
}

/// Returns the text without the byte order marks at its beginning.
fn without_marks(text: &str) -> &str
    ensures { chars result.now ≡ cleaned.without_marks (chars text.now) }
{
    let mut left = text;
    while let Some((c, rest)) = split_first(left) {
        if c != BYTE_ORDER_MARK {
            return left;
        }
        left = rest;
    }
    left
}

/// Appends a text, unless it is empty.
pub(crate) fn add_text(
    nodes: &mut Vec<HtmlNode>,
    text: String,
    span: Span,
) -> Result<(), AllocError>
    ensures { OnOk result (nodes_view nodes.new.items
        ≡ cleaned.with_text (nodes_view nodes.old.items) (text_view text) span.0) }
{
    let Some(_) = split_first(text.as_str()) else {
        return Ok(());
    };
    add(nodes, HtmlNode::text(text, span))
}

/// Returns whether a byte order mark begins the text.
fn is_marked(text: &str) -> bool
    ensures { result ≡ cleaned.is_marked (chars text.now) }
{
    match split_first(text) {
        Some((c, _)) => c == BYTE_ORDER_MARK,
        None => false,
    }
}

/// Takes the byte order marks at its beginning off a text.
fn unmark(alloc: Global, text: String) -> Result<String, AllocError>
    ensures { IfOk result (λ left. text_view left ≡ cleaned.without_marks (text_view text)) }
{
    if !is_marked(text.as_str()) {
        return Ok(text);
    }
    String::from_str(alloc, without_marks(text.as_str()))
}

/// Returns what is added of a text behind the nodes.
pub(crate) fn first_text(
    alloc: Global,
    nodes: &[HtmlNode],
    text: String,
) -> Result<String, AllocError>
    ensures { IfOk result (λ shown. text_view shown
        ≡ cleaned.first_text (nodes_view nodes.now) (text_view text)) }
{
    match nodes.split_first() {
        None => unmark(alloc, text),
        Some(_) => Ok(text),
    }
}
