//! The locations that get anchors.

use html_dom_document::HtmlIntrospector;
use html_dom_tree::{Location, Point};
use std::collections::BTreeSet;

/// The locations that links lead to, and what is known of locations.
#[derive(Clone, Copy)]
pub(crate) struct Sought<'a> {
    pub(crate) targets: &'a BTreeSet<Location>,
    /// The positions of locations.
    pub(crate) known: &'a HtmlIntrospector,
}

impl Sought<'_> {
    ghost use Rattle.std.specs.Prelude.{◌≡◌, option_map};
    ghost use Rattle.html_dom_tree.specs.FrameViews.{point_view};
    ghost use Rattle.html_anchors.specs.WalkViews.{targets_view};

    /// Returns the point of a location's position, if it is in a frame.
    pub(crate) fn point(self, location: Location) -> Option<Point>
        ensures { option_map point_view result ≡ (targets_view self.entry).points location.0 }
    {
        match self.known.position(location) {
            Some(position) => position.point(),
            None => None,
        }
    }
}
