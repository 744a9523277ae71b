//! Anchors in frames.

ghost use Rattle.std.specs.Prelude.{◌≡◌, OnOk};
ghost use Rattle.html_dom_tree.specs.FrameViews.{tag_view, anchors_view, frame_view, frame_item_view};
ghost use Rattle.html_dom_tree.specs.Frames.{PointView, no_frame_items, placed_item, tag_item};
ghost use Rattle.html_anchors.specs.{Events.{items_starts, frame_starts}, Joined.{with_starts}, WalkViews.{state_view, targets_view}};

use crate::sought::Sought;
use crate::state::AnchorState;
use html_dom_tree::{Frame, FrameItem, Point, Tag};
use std::alloc::{AllocError, Global};

/// Names the start tag of a target at its point in a frame.
fn name_start(
    state: &mut AnchorState,
    anchors: &mut Vec<(Point, String)>,
    alloc: Global,
    sought: Sought<'_>,
    tag: &Tag,
) -> Result<(), AllocError>
    ensures { (point : PointView) → OnOk result (
        (state_view state.new, anchors_view anchors.new.items) ≡ with_starts
        (items_starts (targets_view sought.entry)
        (placed_item point (tag_item (tag_view tag.now)) no_frame_items))
        (state_view state.old, anchors_view anchors.old.items)) }
{
    let Tag::Start {
        location,
        label,
        ..
    } = tag
    else {
        return Ok(());
    };
    if !sought.targets.contains(location) {
        return Ok(());
    }
    let Some(point) = sought.point(*location) else {
        return Ok(());
    };
    let name = state.name_start(alloc, *location, label)?;
    anchors.push((point, name))?;
    Ok(())
}

#[cycle(frames)]
#[tactic(auto, unfolding(crate::specs::Events::items_starts))]
fn name_item(
    state: &mut AnchorState,
    anchors: &mut Vec<(Point, String)>,
    alloc: Global,
    sought: Sought<'_>,
    content: &FrameItem,
) -> Result<(), AllocError>
    ensures { (point : PointView) → OnOk result (
        (state_view state.new, anchors_view anchors.new.items) ≡ with_starts
        (items_starts (targets_view sought.entry)
        (placed_item point (frame_item_view content.now) no_frame_items))
        (state_view state.old, anchors_view anchors.old.items)) }
{
    match content {
        FrameItem::Tag(tag) => name_start(state, anchors, alloc, sought, tag),
        FrameItem::Group(frame) => name_frame(state, anchors, alloc, sought, frame),
        FrameItem::Link(_) => Ok(()),
        FrameItem::Other => Ok(()),
    }
}

#[cycle(frames)]
pub(crate) fn name_frame(
    state: &mut AnchorState,
    anchors: &mut Vec<(Point, String)>,
    alloc: Global,
    sought: Sought<'_>,
    frame: &Frame,
) -> Result<(), AllocError>
    ensures { OnOk result ((state_view state.new, anchors_view anchors.new.items)
        ≡ with_starts (frame_starts (targets_view sought.entry) (frame_view frame.now))
        (state_view state.old, anchors_view anchors.old.items)) }
{
    for (_, content) in &frame.items {
        name_item(state, anchors, alloc, sought, content)?;
    }
    Ok(())
}
