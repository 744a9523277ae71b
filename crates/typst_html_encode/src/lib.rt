//! The HTML text of a tree, with the proof that the text reads back.
//!
//! # Example
//!
//! A list, written pretty. It has no frames, so its frame writer is `()`, which refuses every
//! frame:
//!
//! ```
//! use html_dom::{HtmlElement, HtmlNode, Span};
//! use html_names::tag;
//! use typst_html::{HtmlOptions, html_in_bundle};
//!
//! let alloc = rt.alloc();
//! let mut list = HtmlElement::new(alloc, tag::ul);
//! for content in ["one", "two"] {
//!     let text = HtmlNode::text(String::from_str(alloc, content)?, Span(0));
//!     let item = HtmlElement::new(alloc, tag::li).with_child(text)?;
//!     list.children.push(HtmlNode::from(item))?;
//! }
//! let html = html_in_bundle(alloc, &list, &HtmlOptions { pretty: true }, &())?;
//! let wanted = "<!DOCTYPE html>\n<ul>\n  <li>one</li>\n  <li>two</li>\n</ul>\n";
//! assert_eq!(rt; html.as_str(), wanted);
//! ```
#![tactic(auto)]

mod content;
mod escape;
mod export;
mod fault;
mod fragment;
mod frame;
mod head;
mod indent;
pub mod laws;
mod layout;
mod open_elements;
mod options;
mod place;
mod raw;
mod stretch;
mod tags;
mod write;

pub use export::{html_in_bundle, html_of, tree_html};
pub use fault::ExportFault;
pub use fragment::html_fragment;
pub use frame::{FrameFault, FrameWriter};
pub use options::HtmlOptions;
