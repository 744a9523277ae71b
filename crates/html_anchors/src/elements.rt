//! Anchors in elements and in lists of nodes.

ghost use Rattle.std.specs.{List.{list_any}, Prelude.{◌≡◌, false, OnOk, IfOk}};
ghost use Rattle.html_dom_tree.specs.{Tree.{node, none, element_node}, Views.{optional_text_view, node_view, nodes_view, element_view}};
ghost use Rattle.html_anchors.specs.{AnchorWalk.{walk}, Anchors.{span_before}, Joined.{is_end}, WalkViews.{state_view, targets_view}};

use crate::changes::name_attrs;
use crate::nodes::{anchor_frame, anchor_tag, anchor_text, has_end, push_span};
use crate::sought::Sought;
use crate::state::AnchorState;
use html_dom_tree::moving::give_back;
use html_dom_tree::{HtmlElement, HtmlNode};
use html_names_core::attr;
use std::alloc::{AllocError, Global};
use std::mem;

// The node comes first among the parameters: its depth proves that the recursion ends.

/// Serves all waiting locations, then adds anchors in the element.
#[cycle(nodes)]
fn anchor_element(
    element: &mut HtmlElement,
    state: &mut AnchorState,
    alloc: Global,
    sought: Sought<'_>,
) -> Result<(), AllocError>
    ensures { let old = element_view element.old in let new = element_view element.new in
        OnOk result ((node (element_node new.0 new.1) none, state_view state.new)
        ≡ walk (targets_view sought.entry) (node (element_node old.0 old.1) none)
        (state_view state.old)) }
{
    let name = state.serve(alloc, element.attrs.get(&attr::id))?;
    name_attrs(&mut element.attrs, name)?;
    anchor_nodes(&mut element.children, state, alloc, sought)
}

/// Returns the name of the new `span` that must follow the node, if any.
#[cycle(nodes)]
fn anchor_node(
    child: &mut HtmlNode,
    state: &mut AnchorState,
    alloc: Global,
    sought: Sought<'_>,
) -> Result<Option<String>, AllocError>
    ensures { IfOk result (λ name.
        (node (node_view child.new) (span_before (optional_text_view name) none), state_view state.new)
        ≡ walk (targets_view sought.entry) (node (node_view child.old) none) (state_view state.old)) }
{
    match child {
        HtmlNode::Tag(tag) => return anchor_tag(state, alloc, sought, tag),
        HtmlNode::Text(_, _) => anchor_text(state, child, alloc)?,
        HtmlNode::Element(element) => anchor_element(element, state, alloc, sought)?,
        HtmlNode::Frame(frame) => anchor_frame(state, frame, alloc, sought)?,
    }
    Ok(None)
}

#[cycle(nodes)]
fn anchor_in_place(
    nodes: &mut [HtmlNode],
    state: &mut AnchorState,
    alloc: Global,
    sought: Sought<'_>,
) -> Result<(), AllocError>
    requires { list_any (λ n. is_end (node_view n)) nodes.old ≡ false }
    ensures { OnOk result ((nodes_view nodes.new, state_view state.new)
        ≡ walk (targets_view sought.entry) (nodes_view nodes.old) (state_view state.old)) }
{
    for child in nodes.iter_mut() {
        if state.passes(child) {
            continue;
        }
        // The nodes hold no end tag, so no `span` follows any of them.
        let _ = anchor_node(child, state, alloc, sought)?;
    }
    Ok(())
}

/// Adds anchors to the nodes, and the new `span`s that follow end tags.
#[cycle(nodes)]
fn with_spans(
    mut nodes: Vec<HtmlNode>,
    state: &mut AnchorState,
    alloc: Global,
    sought: Sought<'_>,
) -> Result<Vec<HtmlNode>, AllocError>
    ensures { IfOk result (λ made. (nodes_view made.items, state_view state.new)
        ≡ walk (targets_view sought.entry) (nodes_view nodes.items) (state_view state.old)) }
{
    let mut made = Vec::with_capacity(alloc, nodes.len())?;
    nodes.reverse();
    while let Some(mut child) = nodes.pop() {
        give_back(&mut nodes);
        let name = anchor_node(&mut child, state, alloc, sought)?;
        made.push(child)?;
        push_span(&mut made, alloc, name)?;
    }
    Ok(made)
}

#[cycle(nodes)]
pub(crate) fn anchor_nodes(
    nodes: &mut Vec<HtmlNode>,
    state: &mut AnchorState,
    alloc: Global,
    sought: Sought<'_>,
) -> Result<(), AllocError>
    ensures { OnOk result ((nodes_view nodes.new.items, state_view state.new)
        ≡ walk (targets_view sought.entry) (nodes_view nodes.old.items) (state_view state.old)) }
{
    if !has_end(nodes) {
        return anchor_in_place(nodes, state, alloc, sought);
    }
    let old = mem::replace(nodes, Vec::new(alloc));
    *nodes = with_spans(old, state, alloc, sought)?;
    Ok(())
}
