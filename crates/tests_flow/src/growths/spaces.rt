//! Calls that preserve white space: they consume their arguments, and do not return them.

use html_dom_tree::{HtmlElement, HtmlNode, Span};
use html_flow_convert::{keep_runs, protect_spaces, push_text_nodes};
use html_names_core::tag;
use std::alloc::{AllocError, Global};
use tests_asserts::TestResult;
use tests_failing_alloc::{SPARES, refuses_taken};
use tests_samples::{start_of, text_of};

/// The number of nodes that are made, and the indices of a lone space and a tab.
const COUNT: usize = 5;

const SPACE: usize = 0;

const TAB: usize = 3;

fn nodes_of(alloc: Global) -> Result<Vec<HtmlNode>, AllocError> {
    let mut nodes = Vec::with_capacity(alloc, COUNT)?;
    nodes.push(text_of(alloc, " ", 1)?)?;
    nodes.push(HtmlNode::Tag(start_of(alloc)?))?;
    nodes.push(text_of(alloc, "one", 2)?)?;
    nodes.push(text_of(alloc, "\t", 3)?)?;
    let inner = vec![in alloc; text_of(alloc, "two", 4)?]?;
    nodes.push(HtmlNode::from(HtmlElement::new(alloc, tag::b).with_children(inner)))?;
    Ok(nodes)
}

/// Returns whether a text of three pieces adds that many nodes.
fn adds_text(alloc: Global, mut nodes: Vec<HtmlNode>) -> Result<bool, AllocError> {
    let text = String::from_str(alloc, "two\twords")?;
    push_text_nodes(alloc, &mut nodes, text, Span(9))?;
    Ok(nodes.len() == COUNT + 3)
}

/// Returns whether there are as many nodes as before, and the one at that index is no longer a
/// text.
fn is_kept_at(nodes: &[HtmlNode], place: usize) -> bool {
    nodes.len() == COUNT && !matches!(nodes.get(place), None | Some(HtmlNode::Text(_, _)))
}

/// Returns nodes for each of the calls.
fn taken_of(alloc: Global) -> Result<Vec<Vec<HtmlNode>>, AllocError> {
    let mut values = Vec::new(alloc);
    for _ in 0..SPARES {
        values.push(nodes_of(alloc)?)?;
    }
    Ok(values)
}

#[test]
fn taken(rt: HostRuntime) -> TestResult {
    let alloc = rt.alloc();
    refuses_taken(alloc, taken_of(alloc)?, |nodes| {
        keep_runs(alloc, nodes).map(|kept| is_kept_at(&kept, TAB))
    })?;
    refuses_taken(alloc, taken_of(alloc)?, |nodes| {
        protect_spaces(alloc, nodes).map(|kept| is_kept_at(&kept, SPACE))
    })?;
    refuses_taken(alloc, taken_of(alloc)?, |nodes| adds_text(alloc, nodes))
}
