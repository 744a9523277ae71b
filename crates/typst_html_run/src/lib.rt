//! A run of the program on any reader and writer: the HTML text of a tree or of items that JSON
//! spells. The crate html_tool is the program and cannot be a dependency; depend on this crate to
//! run it from other code.
//!
//! JSON spells a tree by its root, and items by a list of them:
//!
//! ```json
//! ["el", "p", [["class", "intro"]], [["text", "a"]]]
//! [["text", "a"], ["space"], ["text", "b"]]
//! ```
#![tactic(auto)]

mod documents;
mod fragment;
mod program;
mod recorded;
mod status;
mod unused;
mod whole;
mod words;

pub use documents::{DocumentText, Settings, text_of_document};
pub use fragment::text_of_fragment;
pub use program::{run, run_recorded, text_of_input};
pub use recorded::{LastCall, Recorded, WriteFailed};
pub use status::Status;
pub use typst_html_json::{Fault, InputPlace, element_in, items_in};
pub use unused::unused_of_document;
pub use words::{Task, wanted_task, words_of};
