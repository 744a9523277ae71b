//! The trees, items and documents that JSON spells, or the place where the JSON leaves their form.
//! The crate typst_html_run reexports the names that a user of this project needs.
//!
//! JSON spells a tree by its root, and items by a list of them:
//!
//! ```json
//! ["el", "p", [["class", "intro"]], [["text", "a"]]]
//! [["text", "a"], ["space"], ["text", "b"]]
//! ```
#![tactic(auto)]

mod documents;
mod fault;
mod fields;
mod info_members;
mod input_forms;
mod items;
mod json;
mod json_place;
mod json_stage;
mod kind;
mod nodes;
mod reader;

pub use documents::{SpelledDocument, document_in, into_document};
pub use fault::{Fault, InputPlace};
pub use items::{document_items_in, into_document_items, into_items, items_in};
pub use json::parse;
pub use nodes::{element_in, tree_in};
