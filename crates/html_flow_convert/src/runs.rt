//! Runs of blanks.

ghost use Rattle.std.specs.{List.{filter}, Prelude.{◌≡◌, ◌++◌, [], false, OnOk, IfOk, map}};
ghost use Rattle.html_dom_tree.specs.Views.{node_view};
ghost use Rattle.html_flow_convert.specs.OpenRuns.{goes_on, has_kept_run};
ghost use Rattle.html_flow_convert.specs.Runs.{is_space, is_tab, is_blank_node, are_kept, first_node_span, run_nodes, nodes_with_runs};

use crate::made::pre_wrap_node;
use crate::one::is_one;
use crate::reused::Reused;
use html_dom_tree::moving::give_back;
use html_dom_tree::{HtmlNode, Span};
use std::alloc::{AllocError, Global};
use std::mem;

fn is_space(node: &HtmlNode) -> bool
    ensures { result ≡ is_space (node_view node.now) }
{
    match node {
        HtmlNode::Text(text, _) => is_one(b' ', text),
        _ => false,
    }
}

fn is_tab(node: &HtmlNode) -> bool
    ensures { result ≡ is_tab (node_view node.now) }
{
    match node {
        HtmlNode::Text(text, _) => is_one(b'\t', text),
        _ => false,
    }
}

fn is_blank(node: &HtmlNode) -> bool
    ensures { result ≡ is_blank_node (node_view node.now) }
{
    is_space(node) || is_tab(node)
}

fn goes_on(run: &[HtmlNode], node: &HtmlNode) -> bool
    ensures { result ≡ goes_on (map node_view run.now) (node_view node.now) }
{
    is_blank(node) || (node.is_tag() && !run.is_empty())
}

/// Returns whether the blanks of a run are preserved: two or more, or a single tab.
fn are_kept(run: &[HtmlNode]) -> bool
    ensures { result ≡ are_kept (filter is_blank_node (map node_view run.now)) }
{
    let mut has_space = false;
    for node in run {
        if is_tab(node) || (has_space && is_space(node)) {
            return true;
        }
        has_space = has_space || is_space(node);
    }
    false
}

/// Returns the first span of these nodes that is not 0, or 0.
fn first_node_span(nodes: &[HtmlNode]) -> Span
    ensures { result.0 ≡ first_node_span (map node_view nodes.now) }
{
    for node in nodes {
        if node.span() != Span(0) {
            return node.span();
        }
    }
    Span(0)
}

/// Ends a run: takes its nodes, and wraps them in a `span` that preserves them if they need it.
fn end_run(
    alloc: Global,
    reused: &Reused,
    made: &mut Vec<HtmlNode>,
    run: &mut Vec<HtmlNode>,
) -> Result<(), AllocError>
    ensures made { OnOk result (map node_view made.new.items
        ≡ map node_view made.old.items ++ run_nodes (map node_view run.old.items)) }
    ensures ended { OnOk result (run.new.items ≡ []) }
{
    if !are_kept(run) {
        made.append(run)?;
        return Ok(());
    }
    let mut kept = mem::replace(run, Vec::new(alloc));
    kept.shrink_to_fit();
    let span = first_node_span(&kept);
    made.push(pre_wrap_node(alloc, reused, kept, span)?)?;
    Ok(())
}

fn has_kept_run(nodes: &[HtmlNode]) -> bool
    ensures { result ≡ has_kept_run false (map node_view nodes.now) }
{
    let mut has_space = false;
    for node in nodes {
        if is_tab(node) || (has_space && is_space(node)) {
            return true;
        }
        has_space = is_space(node) || (has_space && node.is_tag());
    }
    false
}

/// Wraps each run of two blanks or more, or of one tab, in a `span` that preserves it. A run begins
/// with a text of exactly one space or tab and continues over such texts and tags up to another
/// node. The `span` has the first span of its nodes that is not 0. Fails only if an allocation
/// fails.
///
/// Takes time linear in the number of nodes; moves none if no run is preserved. Returns the memory
/// of moved nodes on the way.
pub fn keep_runs(alloc: Global, nodes: Vec<HtmlNode>) -> Result<Vec<HtmlNode>, AllocError>
    ensures { IfOk result (λ made.
        map node_view made.items ≡ nodes_with_runs (map node_view nodes.items)) }
{
    let reused = Reused::new(alloc)?;
    with_runs(alloc, &reused, nodes)
}

/// Returns what [`keep_runs`] returns.
pub(crate) fn with_runs(
    alloc: Global,
    reused: &Reused,
    mut nodes: Vec<HtmlNode>,
) -> Result<Vec<HtmlNode>, AllocError>
    ensures { IfOk result (λ made.
        map node_view made.items ≡ nodes_with_runs (map node_view nodes.items)) }
{
    if !has_kept_run(&nodes) {
        return Ok(nodes);
    }
    let (mut made, mut run) = (Vec::new(alloc), Vec::new(alloc));
    nodes.reverse();
    while let Some(node) = nodes.pop() {
        give_back(&mut nodes);
        if goes_on(&run, &node) {
            run.push(node)?;
        } else {
            end_run(alloc, reused, &mut made, &mut run)?;
            made.push(node)?;
        }
    }
    end_run(alloc, reused, &mut made, &mut run)?;
    Ok(made)
}
