//! Anchors of links: names for the places in the tree to which links lead.
#![tactic(auto)]

mod anchors;
mod changes;
mod dead;
mod distinct;
mod elements;
mod frames;
pub mod laws;
mod links;
mod location_maps;
mod names;
mod nodes;
mod root_children;
mod sought;
mod state;

pub use anchors::{create_link_anchors, with_link_anchors};
pub use dead::{DeadLink, dead_links};
pub use distinct::ids_are_distinct;
pub use links::{document_with_links, resolve_links, with_resolved_links};
