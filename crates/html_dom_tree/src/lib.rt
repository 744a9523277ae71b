//! The tree of an HTML document: elements with their attributes and css, texts, laid-out frames,
//! and tags that mark where located elements start and end.
//!
//! In contracts a tree is a pure value in which each text is a list of characters.
//!
//! ```
//! use html_dom::{HtmlElement, HtmlNode, Span};
//! use html_names::{attr, tag};
//!
//! let alloc = rt.alloc();
//! let text = HtmlNode::text(String::from_str(alloc, "Hello")?, Span(1));
//! let paragraph = HtmlElement::new(alloc, tag::p)
//!     .with_attr(attr::class, String::from_str(alloc, "intro")?)?
//!     .with_child(text)?;
//! let class = paragraph.attrs.get(&attr::class).expect(&rt, "a class");
//! assert_eq!(rt; class.as_str(), "intro");
//! assert_eq!(rt; paragraph.children.len(), 1);
//! ```
#![tactic(auto)]

mod attrs;
mod frame;
mod introspection;
pub mod laws;
pub mod moving;
mod node;
mod resolve;
mod span;
pub mod text;

pub use attrs::HtmlAttrs;
pub use frame::{Frame, FrameItem, HtmlFrame, Point};
pub use introspection::{Location, Tag};
pub use node::{HtmlElement, HtmlNode};
pub use resolve::{resolve_inline_styles, with_inline_styles};
pub use span::Span;
