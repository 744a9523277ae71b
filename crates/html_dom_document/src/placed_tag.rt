//! What the recorder keeps of a start tag: its location, its destination and its position.

use crate::position::HtmlPosition;
use html_dom_tree::Location;

/// A start tag and its position.
#[derive(Drop)]
pub(crate) struct PlacedTag {
    /// The element that starts there.
    pub(crate) location: Location,
    /// The location to which that element links.
    pub(crate) dest: Option<Location>,
    pub(crate) position: HtmlPosition,
}
