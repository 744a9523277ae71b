//! Tags, and frames with tags and links in them.

use crate::nodes::css_of;
use html_dom_tree::{Frame, FrameItem, HtmlFrame, Location, Point, Span, Tag};
use html_values_css::Abs;
use std::alloc::{AllocError, Global};

/// Returns the start tag of that element, with a link to another, if any.
pub fn start(location: u64, dest: Option<u64>) -> Tag {
    Tag::Start {
        location: Location(location),
        label: None,
        dest: dest.map(|dest| Location(dest)),
    }
}

/// Returns the start tag of an element with a label, with a link to another.
pub fn start_of(alloc: Global) -> Result<Tag, AllocError> {
    Ok(Tag::Start {
        location: Location(1),
        label: Some(String::from_str(alloc, "here")?),
        dest: Some(Location(2)),
    })
}

/// Returns the point that is that many points to the right and down.
pub fn point(right: u8, down: u8) -> Point {
    Point {
        x: Abs::from_millionths(i64::from(right) * 1_000_000),
        y: Abs::from_millionths(i64::from(down) * 1_000_000),
    }
}

fn place() -> Point {
    let (x, y) = (Abs::from_millionths(1), Abs::from_millionths(2));
    Point { x, y }
}

/// Returns a frame with a tag and a link.
pub fn group_of(alloc: Global) -> Result<Frame, AllocError> {
    let (tag, link) = (
        FrameItem::Tag(start_of(alloc)?),
        FrameItem::Link(Some(Location(3))),
    );
    let items = vec![in alloc; (place(), tag), (place(), link)]?;
    Ok(Frame { picture: 1, items })
}

/// Returns a frame with a frame in it.
pub fn frame_of(alloc: Global) -> Result<Frame, AllocError> {
    let group = FrameItem::Group(group_of(alloc)?);
    let items = vec![in alloc; (place(), group), (place(), FrameItem::Other)]?;
    Ok(Frame { picture: 2, items })
}

/// Returns a frame with a name, css and an anchor.
pub fn html_frame_of(alloc: Global) -> Result<HtmlFrame, AllocError> {
    Ok(HtmlFrame {
        id: Some(String::from_str(alloc, "drawn")?),
        css: css_of(alloc, "color", "red")?,
        anchors: vec![in alloc; (place(), String::from_str(alloc, "anchor")?)]?,
        ..HtmlFrame::new(alloc, frame_of(alloc)?, Abs::from_millionths(3), Span(4))
    })
}
