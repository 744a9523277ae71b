//! The introspector of a document: positions and link destinations from its tree, and anchors.

ghost use Rattle.std.specs.Prelude.{◌≡◌, IfOk, option_map};
ghost use Rattle.html_dom_tree.specs.Views.{text_view, nodes_view};
ghost use Rattle.html_dom_document.specs.Introspectors.{introspector_view, position_view, recorded_view, location_text, has_location};

use crate::position::HtmlPosition;
use crate::recorder::Recorder;
use crate::tables::{
    add_all, copy_positions, copy_set, copy_texts, destinations, first_positions, location_set,
};
use html_dom_tree::{HtmlNode, Location};
use std::alloc::{AllocError, Global};
use std::collections::{BTreeMap, BTreeSet};
use std::fmt;

/// The positions of the located elements of a document, the destinations of its links, and its
/// anchors for them.
///
/// ```
/// use html_dom::{HtmlElement, HtmlIntrospector, HtmlNode, Location, Tag};
/// use html_names::tag;
///
/// let start = Tag::Start {
///     location: Location(7),
///     label: None,
///     dest: Some(Location(8)),
/// };
/// let mut nodes = Vec::new(rt.alloc());
/// nodes.push(HtmlNode::from(HtmlElement::new(rt.alloc(), tag::hr)))?;
/// nodes.push(HtmlNode::from(start))?;
/// let introspector = HtmlIntrospector::new(rt.alloc(), &nodes)?;
/// let position = introspector.position(Location(7)).expect(&rt, "a position");
/// assert!(rt; position.path() == [1].as_slice());
/// assert!(rt; introspector.link_targets()?.contains(&Location(8)));
/// ```
#[derive(Drop)]
pub struct HtmlIntrospector {
    positions: BTreeMap<Location, HtmlPosition>,
    destinations: BTreeSet<Location>,
    frame_link_targets: BTreeSet<Location>,
    anchors: BTreeMap<Location, String>,
}

impl HtmlIntrospector {
    /// Records the start tags and links of a document's nodes. There are no anchors yet. Fails only
    /// if an allocation fails.
    pub fn new(alloc: Global, nodes: &[HtmlNode]) -> Result<HtmlIntrospector, AllocError>
        ensures { IfOk result (λ introspector.
            introspector_view introspector ≡ recorded_view (nodes_view nodes.now)) }
    {
        let Recorder { places, links } = Recorder::of(alloc, nodes)?;
        let destinations = destinations(alloc, &places)?;
        Ok(HtmlIntrospector {
            positions: first_positions(alloc, places)?,
            destinations,
            frame_link_targets: location_set(alloc, &links)?,
            anchors: BTreeMap::new(alloc),
        })
    }

    /// Returns the position of a location's first start tag in document order, if it has one.
    pub fn position(&self, location: Location) -> Option<&HtmlPosition>
        ensures { option_map (λ position. position_view position.now) result
            ≡ (introspector_view self.now).position location.0 }
    {
        self.positions.get(&location)
    }

    /// Returns the destinations of start tags, including those in frames, and of links in frames.
    /// Fails only if an allocation fails.
    pub fn link_targets(&self) -> Result<BTreeSet<Location>, AllocError>
        ensures { IfOk result (λ targets.
            has_location targets ≡ (introspector_view self.now).is_link_target) }
    {
        let mut targets = copy_set(&self.destinations)?;
        add_all(&mut targets, &self.frame_link_targets)?;
        Ok(targets)
    }

    /// Returns the destinations of links in frames.
    pub fn frame_link_targets(&self) -> &BTreeSet<Location>
        ensures { has_location result.now ≡ (introspector_view self.now).is_frame_target }
    {
        &self.frame_link_targets
    }

    /// Replaces all anchors with these.
    pub fn set_anchors(&mut self, anchors: BTreeMap<Location, String>)
        ensures { introspector_view self.new
            ≡ record (introspector_view self.old) { anchor = location_text anchors } }
    {
        self.anchors = anchors;
    }

    /// Returns the anchor of a location, if it has one.
    pub fn anchor(&self, location: Location) -> Option<&String>
        ensures { option_map (λ anchor. text_view anchor.now) result
            ≡ (introspector_view self.now).anchor location.0 }
    {
        self.anchors.get(&location)
    }

    /// Returns a copy. Fails only if an allocation fails.
    pub fn try_clone(&self) -> Result<HtmlIntrospector, AllocError>
        ensures { IfOk result (λ copy. introspector_view copy ≡ introspector_view self.now) }
    {
        Ok(HtmlIntrospector {
            positions: copy_positions(&self.positions)?,
            destinations: copy_set(&self.destinations)?,
            frame_link_targets: copy_set(&self.frame_link_targets)?,
            anchors: copy_texts(&self.anchors)?,
        })
    }
}

impl fmt::Debug for HtmlIntrospector {
    ghost use Rattle.std.specs.Prelude.{codes, Some};

    ghost debug_output = { λ _. Some (codes "HtmlIntrospector(..)") };

    fn fmt<W: fmt::Write>(&self, f: &mut fmt::Formatter<W>) -> fmt::Result {
        write!(f, "HtmlIntrospector(..)")
    }
}
