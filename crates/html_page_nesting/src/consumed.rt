//! The walk over a tree that frees its nodes on the way.

ghost use Rattle.std.specs.Prelude.{◌≡◌, ◌++◌, ◌-◌, ◌∷◌, [], ℕ, List, take, vec_len, IfOk, OnOk};
ghost use Rattle.html_dom_tree.specs.{Taking.{Takes}, Tree.{element_node}, Views.{element_view, node_view, nodes_view}};
ghost use Rattle.html_page_nesting.specs.{Misnested.{misnested_nodes}, Walks.{node_walk, nodes_walk}};

use crate::misnested_sink::MisnestedSink;
use crate::misnesting::Misnesting;
use crate::reports::Reports;
use crate::rules::{frame_misnesting, text_misnesting};
use crate::surroundings::Surroundings;
use html_dom_tree::moving::{give_back, reverse_nodes};
use html_dom_tree::{HtmlElement, HtmlNode};
use html_names_core::Refused;
use std::alloc::{AllocError, Global};

/// Reports the misnested nodes of a tree to a sink, and returns the sink. Frees each node before it
/// passes the next.
pub(crate) fn walk_tree_of<S: MisnestedSink>(
    alloc: Global,
    root: HtmlElement,
    sink: S,
) -> Result<S, Refused<S>>
    ensures { IfOk result (λ given.
        S.made_with given [] ≡ S.made_with sink (misnested_nodes (element_view root))) }
{
    let mut reports = Reports::new(alloc, sink);
    let passed = pass_tree_of(root, &mut reports);
    reports.finish(passed)
}

fn pass_tree_of<S: MisnestedSink>(
    mut root: HtmlElement,
    reports: &mut Reports<S>,
) -> Result<(), AllocError>
    ensures { OnOk result (Takes (S.made_with reports.old.sink) (S.made_with reports.new.sink)
        (misnested_nodes (element_view root))) }
{
    let inside = reports.pass_root(&root)?;
    let mut path = Vec::new(reports.alloc);
    pass_nodes_of(&mut root.children, &inside, &mut path, reports)
}

// Each level of the walk has one frame. A node stays in its list until it is passed, since a frame
// that held one would be several times as large. The number of ancestors proves that it ends.

#[cycle(consume)]
fn pass_element_of<S: MisnestedSink>(
    element: &mut HtmlElement,
    around: &Surroundings,
    path: &mut Vec<usize>,
    reports: &mut Reports<S>,
) -> Result<(), AllocError>
    ensures path { OnOk result (path.new.items ≡ path.old.items) }
    ensures taken { let e = element_view element.old in
        OnOk result (Takes (S.made_with reports.old.sink) (S.made_with reports.new.sink)
        (node_walk path.old.items around.now (element_node e.0 e.1))) }
{
    if around.is_too_deep() {
        return reports.report(path.as_slice(), element.span, Some(Misnesting::TooDeep));
    }
    let inside = reports.pass_own(element, around, path.as_slice())?;
    pass_nodes_of(&mut element.children, &inside, path, reports)
}

#[cycle(consume)]
fn pass_node_of<S: MisnestedSink>(
    child: &mut HtmlNode,
    around: &Surroundings,
    path: &mut Vec<usize>,
    reports: &mut Reports<S>,
) -> Result<(), AllocError>
    ensures path { OnOk result (path.new.items ≡ path.old.items) }
    ensures taken { OnOk result (Takes (S.made_with reports.old.sink) (S.made_with reports.new.sink)
        (node_walk path.old.items around.now (node_view child.old))) }
{
    match child {
        HtmlNode::Tag(_) => Ok(()),
        HtmlNode::Text(text, span) => {
            let why = text_misnesting(text.as_str(), around);
            reports.report(path.as_slice(), *span, why)
        }
        HtmlNode::Element(element) => pass_element_of(element, around, path, reports),
        HtmlNode::Frame(frame) => {
            reports.report(path.as_slice(), frame.span, frame_misnesting(around))
        }
    }
}

#[cycle(consume)]
fn pass_nodes_of<S: MisnestedSink>(
    nodes: &mut Vec<HtmlNode>,
    around: &Surroundings,
    path: &mut Vec<usize>,
    reports: &mut Reports<S>,
) -> Result<(), AllocError>
    ensures path { OnOk result (path.new.items ≡ path.old.items) }
    ensures taken { OnOk result (Takes (S.made_with reports.old.sink) (S.made_with reports.new.sink)
        (nodes_walk path.old.items 0 around.now (nodes_view nodes.old.items))) }
{
    let mut index = 0;
    reverse_nodes(nodes);
    while let Some(child) = nodes.last_mut() {
        path.push(index)?;
        pass_node_of(child, around, path, reports)?;
        drop_last(nodes);
        leave(path);
        index += 1;
    }
    Ok(())
}

#[inline(never)]
fn drop_last(nodes: &mut Vec<HtmlNode>)
    ensures { nodes.new.items ≡ take (vec_len nodes.old - 1) nodes.old.items }
{
    let _ = nodes.pop();
    give_back(nodes);
}

fn leave(path: &mut Vec<usize>)
    ensures { (parent : List ℕ) → (index : ℕ) → path.old.items ≡ parent ++ index ∷ [] →
        path.new.items ≡ parent }
{
    let _ = path.pop();
}
