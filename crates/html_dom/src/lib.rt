//! The tree of an HTML document: elements, texts, frames and tags, the document around them, the
//! positions of its located elements, the anchors of links, and the tree as one list.
//!
//! Re-exports the public names of its parts that users need.
//!
//! ```
//! use html_dom::{HtmlElement, HtmlNode, Span};
//! use html_names::{attr, tag};
//!
//! let alloc = rt.alloc();
//! let text = HtmlNode::text(String::from_str(alloc, "Hello")?, Span(1));
//! let paragraph = HtmlElement::new(alloc, tag::p)
//!     .with_attr(attr::class, String::from_str(alloc, "intro")?)?
//!     .with_child(text)?;
//! let class = paragraph.attrs.get(&attr::class).expect(&rt, "a class");
//! assert_eq!(rt; class.as_str(), "intro");
//! assert_eq!(rt; paragraph.children.len(), 1);
//! ```
#![tactic(auto)]

pub mod laws;

pub use html_anchors::{
    DeadLink, create_link_anchors, dead_links, ids_are_distinct, resolve_links, with_resolved_links,
};
pub use html_dom_document::{
    DocumentInfo, DomIndices, HtmlDocument, HtmlIntrospector, HtmlOutput, HtmlPosition,
    HtmlSliceExt, Locale,
};
pub use html_dom_flat::{FlatElement, FlatNode, FlatTree};
pub use html_dom_tree::{
    Frame, FrameItem, HtmlAttrs, HtmlElement, HtmlFrame, HtmlNode, Location, Point, Span, Tag,
    resolve_inline_styles,
};
pub use html_links::{
    base_of, decoded_fragment, fragment_in, fragment_leads, href_is_script, href_to, place_in,
    place_names,
};
