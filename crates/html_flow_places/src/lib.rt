//! Places and links by name: a part of html_flow, which re-exports these names.
//!
//! ```
//! use html_flow::{HtmlElem, NamedPlaces};
//! use html_names::tag;
//!
//! let alloc = rt.alloc();
//! let (mut places, mut items) = (NamedPlaces::new(alloc), Vec::new(alloc));
//! places.push_link(&mut items, "tides", HtmlElem::new(alloc, tag::a))?;
//! places.push_place(&mut items, "tides", HtmlElem::new(alloc, tag::h2))?;
//! assert_eq!(rt; items.len(), 6);
//! ```
#![tactic(auto)]

pub mod laws;
mod named_places;

pub use named_places::{NamedPlaces, location_with_room};
