//! Laid-out frames with their items, and what the tree adds to a frame: an `id`, css and anchors.

ghost use Rattle.std.specs.Prelude.{◌≡◌, ◌↔◌, IsTrue, IfOk};
ghost use Rattle.html_dom_tree.specs.FrameViews.{frame_item_view, frame_view, frame_items_view, anchor_view, anchors_view, html_frame_view};
ghost use Rattle.html_dom_tree.specs.Frames.{new_html_frame};

use crate::introspection::{Location, Tag, same_tag};
use crate::span::Span;
use crate::text::{copy_optional_text, same_optional_text, same_text};
use html_values_css::laws::equal_properties;
use html_values_css::{Abs, Properties};
use std::alloc::{AllocError, Global};

/// A position in a frame, measured from its top left corner.
#[derive(Clone, Copy, Debug, PartialEq, Eq)]
pub struct Point {
    /// The distance to the right.
    pub x: Abs,
    /// The distance down.
    pub y: Abs,
}

/// A frame that is already laid out. Two frames are equal if all their fields are.
#[derive(Debug, Drop)]
#[cycle(frame)]
pub struct Frame {
    /// The caller's number for the picture.
    pub picture: u64,
    /// The items in it, each at its final position.
    pub items: Vec<(Point, FrameItem)>,
}

/// An item of a frame. Two items are equal if all their fields are.
#[derive(Debug, Drop)]
#[cycle(frame)]
pub enum FrameItem {
    /// The start or end of a located element.
    Tag(Tag),
    /// A nested frame. Its position is not added to those of its items.
    Group(Frame),
    /// A link, with the location that it leads to, if any.
    Link(Option<Location>),
    /// Anything else.
    Other,
}

/// A laid-out frame in the tree. Two frames are equal if all their fields are.
#[derive(Debug, Drop)]
pub struct HtmlFrame {
    /// The frame.
    pub inner: Frame,
    /// The size of the surrounding text.
    pub text_size: Abs,
    /// Its `id`, if any.
    pub id: Option<String>,
    /// Its css properties.
    pub css: Properties,
    /// The positions in it that links lead to, each with its `id`.
    pub anchors: Vec<(Point, String)>,
    /// Its place in the source.
    pub span: Span,
}

impl HtmlFrame {
    /// Creates a frame in the tree, without an `id`, css or anchors.
    pub fn new(alloc: Global, inner: Frame, text_size: Abs, span: Span) -> HtmlFrame
        ensures { html_frame_view result ≡ new_html_frame (frame_view inner) text_size span.0 }
    {
        HtmlFrame {
            inner,
            text_size,
            id: None,
            css: Properties::new(alloc),
            anchors: Vec::new(alloc),
            span,
        }
    }

    /// Returns a copy. Fails only if an allocation fails.
    pub fn try_clone(&self) -> Result<HtmlFrame, AllocError>
        ensures { IfOk result (λ copy. html_frame_view copy ≡ html_frame_view self.now) }
    {
        Ok(HtmlFrame {
            inner: self.inner.try_clone()?,
            text_size: self.text_size,
            id: copy_optional_text(&self.id)?,
            css: self.css.try_clone()?,
            anchors: copy_anchors(&self.anchors)?,
            span: self.span,
        })
    }
}

fn copy_anchors(anchors: &Vec<(Point, String)>) -> Result<Vec<(Point, String)>, AllocError>
    ensures { IfOk result (λ copies. anchors_view copies.items ≡ anchors_view anchors.now.items) }
{
    let mut copies = Vec::new(*anchors.allocator());
    for (point, name) in anchors {
        copies.push((*point, name.clone()?))?;
    }
    Ok(copies)
}

impl FrameItem {
    /// Returns a copy. Fails only if an allocation fails.
    #[cycle(copy_frame)]
    pub fn try_clone(&self) -> Result<FrameItem, AllocError>
        ensures { IfOk result (λ copy. frame_item_view copy ≡ frame_item_view self.now) }
    {
        match self {
            FrameItem::Tag(tag) => Ok(FrameItem::Tag(tag.try_clone()?)),
            FrameItem::Group(frame) => Ok(FrameItem::Group(frame.try_clone()?)),
            FrameItem::Link(link) => Ok(FrameItem::Link(*link)),
            FrameItem::Other => Ok(FrameItem::Other),
        }
    }
}

impl Frame {
    /// Returns a copy of the frame and everything in it. Fails only if an allocation fails.
    #[cycle(copy_frame)]
    pub fn try_clone(&self) -> Result<Frame, AllocError>
        ensures { IfOk result (λ copy. frame_view copy ≡ frame_view self.now) }
    {
        let mut items = Vec::new(*self.items.allocator());
        for item in &self.items {
            items.push((item.0, item.1.try_clone()?))?;
        }
        Ok(Frame {
            picture: self.picture,
            items,
        })
    }
}

#[cycle(same)]
fn same_frame_item(a: &FrameItem, b: &FrameItem) -> bool
    ensures { IsTrue result ↔ (frame_item_view a.now ≡ frame_item_view b.now) }
{
    match a {
        FrameItem::Tag(tag) => {
            if let FrameItem::Tag(other) = b {
                same_tag(tag, other)
            } else {
                false
            }
        }
        FrameItem::Group(frame) => {
            if let FrameItem::Group(other) = b {
                same_frame(frame, other)
            } else {
                false
            }
        }
        FrameItem::Link(link) => {
            if let FrameItem::Link(other) = b {
                *link == *other
            } else {
                false
            }
        }
        FrameItem::Other => {
            if let FrameItem::Other = b {
                true
            } else {
                false
            }
        }
    }
}

#[cycle(same)]
fn same_frame(a: &Frame, b: &Frame) -> bool
    ensures { IsTrue result ↔ (frame_view a.now ≡ frame_view b.now) }
{
    a.picture == b.picture && same_items(&a.items, &b.items)
}

#[cycle(same)]
#[tactic(auto, using(crate::proofs::Frames::same_items_length))]
fn same_items(a: &[(Point, FrameItem)], b: &[(Point, FrameItem)]) -> bool
    ensures { IsTrue result ↔ (frame_items_view a.now ≡ frame_items_view b.now) }
{
    if a.len() != b.len() {
        return false;
    }
    for (i, item) in a.iter().enumerate() {
        let other = &b[i];
        if item.0 != other.0 {
            return false;
        }
        if !same_frame_item(&item.1, &other.1) {
            return false;
        }
    }
    true
}

fn same_anchor(a: &(Point, String), b: &(Point, String)) -> bool
    ensures { IsTrue result ↔ (anchor_view a.now ≡ anchor_view b.now) }
{
    a.0 == b.0 && same_text(&a.1, &b.1)
}

#[tactic(auto, using(html_names_core::proofs::Equals::same_count))]
fn same_anchors(a: &[(Point, String)], b: &[(Point, String)]) -> bool
    ensures { IsTrue result ↔ (anchors_view a.now ≡ anchors_view b.now) }
{
    if a.len() != b.len() {
        return false;
    }
    for (i, anchor) in a.iter().enumerate() {
        if !same_anchor(anchor, &b[i]) {
            return false;
        }
    }
    true
}

pub(crate) fn same_html_frame(a: &HtmlFrame, b: &HtmlFrame) -> bool
    ensures { IsTrue result ↔ (html_frame_view a.now ≡ html_frame_view b.now) }
{
    same_frame(&a.inner, &b.inner)
        && a.text_size == b.text_size
        && same_optional_text(&a.id, &b.id)
        && equal_properties(&a.css, &b.css)
        && same_anchors(&a.anchors, &b.anchors)
        && a.span == b.span
}

impl PartialEq for Frame {
    ghost use Rattle.std.specs.Cmp.{partial_equiv_from_equiv};
    ghost use Rattle.html_dom_tree.specs.{FrameEqual.{frame_discrete}, NodeEqual.{same, same_equiv}};

    ghost eq = { same frame_view frame_discrete };

    ghost laws = { partial_equiv_from_equiv (same_equiv frame_view frame_discrete) };

    fn eq(&self, other: &Frame) -> bool {
        same_frame(self, other)
    }
}

impl Eq for Frame {
    ghost use Rattle.html_dom_tree.specs.{FrameEqual.{frame_discrete}, NodeEqual.{same_equiv}};

    ghost laws = { same_equiv frame_view frame_discrete };
}

impl PartialEq for FrameItem {
    ghost use Rattle.std.specs.Cmp.{partial_equiv_from_equiv};
    ghost use Rattle.html_dom_tree.specs.{FrameEqual.{frame_item_discrete}, NodeEqual.{same, same_equiv}};

    ghost eq = { same frame_item_view frame_item_discrete };

    ghost laws = { partial_equiv_from_equiv (same_equiv frame_item_view frame_item_discrete) };

    fn eq(&self, other: &FrameItem) -> bool {
        same_frame_item(self, other)
    }
}

impl Eq for FrameItem {
    ghost use Rattle.html_dom_tree.specs.{FrameEqual.{frame_item_discrete}, NodeEqual.{same_equiv}};

    ghost laws = { same_equiv frame_item_view frame_item_discrete };
}

impl PartialEq for HtmlFrame {
    ghost use Rattle.std.specs.Cmp.{partial_equiv_from_equiv};
    ghost use Rattle.html_dom_tree.specs.{FrameEqual.{html_frame_discrete}, NodeEqual.{same, same_equiv}};

    ghost eq = { same html_frame_view html_frame_discrete };

    ghost laws = { partial_equiv_from_equiv (same_equiv html_frame_view html_frame_discrete) };

    fn eq(&self, other: &HtmlFrame) -> bool {
        same_html_frame(self, other)
    }
}

impl Eq for HtmlFrame {
    ghost use Rattle.html_dom_tree.specs.{FrameEqual.{html_frame_discrete}, NodeEqual.{same_equiv}};

    ghost laws = { same_equiv html_frame_view html_frame_discrete };
}
