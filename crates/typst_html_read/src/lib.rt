//! The reader of written pages: the tree that an HTML text spells.
#![tactic(auto)]

mod content;
mod end_tag;
mod fault;
pub mod laws;
mod open;
mod raw;
mod read;
mod reader;
mod reference;
mod stack;
mod stretch;
mod tags;

pub use fault::ReadFault;
pub use html_text::Place;
pub use read::read_html;
