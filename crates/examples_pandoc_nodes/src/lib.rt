//! For `examples_pandoc`: turns blocks and inlines of pandoc's tree, in JSON, into items of a page.
#![tactic(auto)]

mod nodes;
mod table;

pub use nodes::{Level, values};
