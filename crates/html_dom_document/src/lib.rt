//! HTML documents: the nodes with a root element among them, information about the whole, the
//! positions of its located elements, and the destinations of its links.
//!
//! In contracts, the data of an introspector are functions of a location: its position, whether
//! links lead to it, and its anchor.
//!
//! ```
//! use html_dom::{DocumentInfo, HtmlDocument, HtmlElement, HtmlNode, HtmlOutput, Span};
//! use html_names::tag;
//!
//! let alloc = rt.alloc();
//! let html = HtmlElement::new(alloc, tag::html);
//! let nodes = vec![in alloc; HtmlNode::Element(html)]?;
//! assert!(rt; HtmlOutput::can_be_root(&nodes, 0)); // an element stands there
//! let output = HtmlOutput::new(nodes, 0);
//! let mut document = HtmlDocument::new(alloc, output, DocumentInfo::new(alloc))?;
//! document.info_mut().title = Some(String::from_str(alloc, "Tides")?);
//! document.root_mut().span = Span(3);
//! assert!(rt; document.root().tag == tag::html && document.info().title.is_some());
//! ```
#![tactic(auto)]

mod cursor;
mod document;
mod dom_indices;
mod element;
mod info;
mod introspect;
pub mod laws;
mod output;
mod placed_tag;
mod position;
mod recorder;
mod siblings;
mod tables;

pub use document::HtmlDocument;
pub use dom_indices::{DomIndices, HtmlSliceExt};
pub use element::is_named_html;
pub use info::{DocumentInfo, Locale};
pub use introspect::HtmlIntrospector;
pub use output::HtmlOutput;
pub use position::HtmlPosition;
