//! Names of HTML and MathML: tags and attributes, the kinds of elements, their default displays,
//! and the characters that are valid in names, values and texts.
//!
//! In contracts a name is its text, a list of characters.
//!
//! ```
//! use html_names::{HtmlTag, attr, tag};
//!
//! let heading = HtmlTag::intern(rt.alloc(), "h2")?;
//! assert!(rt; heading == tag::h2);
//! assert!(rt; tag::is_heading_content(&heading));
//! assert_eq!(rt; heading.resolve(), "h2");
//! assert_eq!(rt; attr::class.resolve(), "class");
//! ```
#![tactic(auto)]

pub mod laws;

pub use html_names_core::{
    HtmlAttr, HtmlTag, NameFault, Refused, attr, charsets, lookup, property, room, tag, text_writer,
};
pub use html_names_table::NameTable;
