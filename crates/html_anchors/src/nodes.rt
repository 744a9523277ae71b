//! Anchors in nodes, which are changed in place.

ghost use Rattle.std.specs.{List.{list_any}, Prelude.{◌≡◌, ℕ, List, OnOk, IfOk}};
ghost use Rattle.html_dom_tree.specs.{Attributes.{or_else}, FrameViews.{tag_view, html_frame_view}};
ghost use Rattle.html_dom_tree.specs.Tree.{node, none, tag_node, text_node, frame_node};
ghost use Rattle.html_dom_tree.specs.Views.{node_view, nodes_view, optional_text_view};
ghost use Rattle.html_anchors.specs.{AnchorWalk.{walk}, Anchors.{span_before}, Events.{Targets}, Joined.{is_end}};
ghost use Rattle.html_anchors.specs.WalkViews.{state_view, targets_view};
ghost use Rattle.html_dom_document.specs.DomIndices.{◌then◌};

use crate::changes::{named_span, put_in_span};
use crate::frames::name_frame;
use crate::sought::Sought;
use crate::state::AnchorState;
use html_dom_tree::{HtmlFrame, HtmlNode, Span, Tag};
use std::alloc::{AllocError, Global};

fn is_end(node: &HtmlNode) -> bool
    ensures { result ≡ is_end (node_view node.now) }
{
    match node {
        HtmlNode::Tag(Tag::End { .. }) => true,
        HtmlNode::Tag(Tag::Start { .. }) => false,
        HtmlNode::Text(_, _) | HtmlNode::Element(_) | HtmlNode::Frame(_) => false,
    }
}

pub(crate) fn has_end(nodes: &[HtmlNode]) -> bool
    ensures { result ≡ list_any (λ n. is_end (node_view n)) nodes.now }
{
    nodes.iter().any(|node| is_end(node))
}

/// Wraps the text in a new `span` that serves the waiting locations, if there are any.
pub(crate) fn anchor_text(
    state: &mut AnchorState,
    child: &mut HtmlNode,
    alloc: Global,
) -> Result<(), AllocError>
    ensures { (x : Targets) → (text : List ℕ) → (span : ℕ) →
        node_view child.old ≡ text_node text span →
        OnOk result ((node (node_view child.new) none, state_view state.new)
        ≡ walk x (node (text_node text span) none) (state_view state.old)) }
{
    if let Some(name) = state.serve(alloc, None)? {
        put_in_span(alloc, child, name)?;
    }
    Ok(())
}

/// Queues the location of a start tag, if it is a target. Returns the name of the new `span` that
/// must follow an end tag, if any.
pub(crate) fn anchor_tag(
    state: &mut AnchorState,
    alloc: Global,
    sought: Sought<'_>,
    tag: &Tag,
) -> Result<Option<String>, AllocError>
    ensures { IfOk result (λ name. (
      node (tag_node (tag_view tag.now)) (span_before (optional_text_view name) none),
      state_view state.new,
    ) ≡ walk (targets_view sought.entry)
        (node (tag_node (tag_view tag.now)) none) (state_view state.old)) }
{
    match tag {
        Tag::Start {
            location,
            label,
            ..
        } => {
            state.start(sought.targets, *location, label)?;
            Ok(None)
        }
        Tag::End { location } => state.end(alloc, *location),
    }
}

fn name_frame_id(id: &mut Option<String>, made: Option<String>)
    ensures { optional_text_view id.new
        ≡ or_else (optional_text_view id.old) (optional_text_view made) }
{
    if id.is_none() {
        *id = made;
    }
}

/// Serves all waiting locations by the frame, and adds anchors for the start tags in it.
pub(crate) fn anchor_frame(
    state: &mut AnchorState,
    frame: &mut HtmlFrame,
    alloc: Global,
    sought: Sought<'_>,
) -> Result<(), AllocError>
    ensures { OnOk result ((node (frame_node (html_frame_view frame.new)) none, state_view state.new)
        ≡ walk (targets_view sought.entry)
        (node (frame_node (html_frame_view frame.old)) none) (state_view state.old)) }
{
    let name = state.serve(alloc, frame.id.as_ref())?;
    name_frame(state, &mut frame.anchors, alloc, sought, &frame.inner)?;
    name_frame_id(&mut frame.id, name);
    Ok(())
}

pub(crate) fn push_span(
    made: &mut Vec<HtmlNode>,
    alloc: Global,
    name: Option<String>,
) -> Result<(), AllocError>
    ensures { OnOk result (nodes_view made.new.items
        ≡ (nodes_view made.old.items then span_before (optional_text_view name) none)) }
{
    if let Some(name) = name {
        let span = named_span(alloc, name, Span(0), Vec::new(alloc))?;
        made.push(HtmlNode::Element(span))?;
    }
    Ok(())
}
