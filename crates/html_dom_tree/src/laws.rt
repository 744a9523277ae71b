//! Laws of this crate's definitions and types. The contract of each function is a law; functions
//! without arguments do nothing.

ghost use Rattle.std.specs.Prelude.{◌≡◌, ◌↔◌, IsTrue};
ghost use Rattle.html_dom_tree.specs.Attributes.{FindsInnerFirst, IsAssociative, KeepsOnNothing, DropsRepeats};
ghost use Rattle.html_dom_tree.specs.FrameViews.{tag_view, point_view, frame_item_view, frame_view, html_frame_view};
ghost use Rattle.html_dom_tree.specs.Views.{attrs_view, node_view, element_view};

use crate::attrs::HtmlAttrs;
use crate::frame::{Frame, FrameItem, HtmlFrame, Point};
use crate::introspection::{Location, Tag};
use crate::node::{HtmlElement, HtmlNode};
use crate::span::Span;

/// After a fold, a name has its inner value if there is one, and otherwise its outer value.
#[tactic(auto, using(crate::proofs::Folds::finds_inner_first))]
pub fn fold_finds_inner_first()
    ensures { FindsInnerFirst }
{}

/// Folding is associative.
#[tactic(auto, using(crate::proofs::Folds::is_associative))]
pub fn fold_is_associative()
    ensures { IsAssociative }
{}

/// Folding with an empty outer list changes nothing.
#[tactic(auto, using(crate::proofs::Folds::keeps_on_nothing))]
pub fn fold_keeps_on_nothing()
    ensures { KeepsOnNothing }
{}

/// Folding an empty inner list takes each name of the outer list once.
#[tactic(auto, using(crate::proofs::Folds::drops_repeats))]
pub fn fold_drops_repeats()
    ensures { DropsRepeats }
{}

/// Spans are equal if their numbers are.
pub fn equal_spans(a: Span, b: Span) -> bool
    ensures { IsTrue result ↔ (a.0 ≡ b.0) }
{
    a == b
}

/// Locations are equal if their numbers are.
pub fn equal_locations(a: Location, b: Location) -> bool
    ensures { IsTrue result ↔ (a.0 ≡ b.0) }
{
    a == b
}

/// Tags are equal if all their fields are.
pub fn equal_tags(a: &Tag, b: &Tag) -> bool
    ensures { IsTrue result ↔ (tag_view a.now ≡ tag_view b.now) }
{
    a == b
}

/// Points are equal if both coordinates are.
pub fn equal_points(a: Point, b: Point) -> bool
    ensures { IsTrue result ↔ (point_view a ≡ point_view b) }
{
    a == b
}

/// Items of frames are equal if all their fields are, at any depth.
pub fn equal_frame_items(a: &FrameItem, b: &FrameItem) -> bool
    ensures { IsTrue result ↔ (frame_item_view a.now ≡ frame_item_view b.now) }
{
    a == b
}

/// Frames are equal if all their fields are, at any depth.
pub fn equal_frames(a: &Frame, b: &Frame) -> bool
    ensures { IsTrue result ↔ (frame_view a.now ≡ frame_view b.now) }
{
    a == b
}

/// Frames in a tree are equal if all their fields are, at any depth.
pub fn equal_html_frames(a: &HtmlFrame, b: &HtmlFrame) -> bool
    ensures { IsTrue result ↔ (html_frame_view a.now ≡ html_frame_view b.now) }
{
    a == b
}

/// Attribute lists are equal if they have the same names and values in the same order.
pub fn equal_attrs(a: &HtmlAttrs, b: &HtmlAttrs) -> bool
    ensures { IsTrue result ↔ (attrs_view a.now ≡ attrs_view b.now) }
{
    a == b
}

/// Nodes are equal if all their fields are, at any depth.
pub fn equal_nodes(a: &HtmlNode, b: &HtmlNode) -> bool
    ensures { IsTrue result ↔ (node_view a.now ≡ node_view b.now) }
{
    a == b
}

/// Elements are equal if all their fields are, at any depth.
pub fn equal_elements(a: &HtmlElement, b: &HtmlElement) -> bool
    ensures { IsTrue result ↔ (element_view a.now ≡ element_view b.now) }
{
    a == b
}
