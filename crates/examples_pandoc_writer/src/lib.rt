//! For `examples_pandoc`: the state of writing a page, the attributes of its elements, and the
//! calls that add links, images, footnotes and raw HTML to it.
#![tactic(auto)]

mod attributes;
mod ends;
pub mod json;
mod writer;

pub use attributes::{Attr, with_number, with_words};
pub use writer::Writer;
