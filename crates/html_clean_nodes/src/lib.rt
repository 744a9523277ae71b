//! The nodes that stay of foreign ones, by a policy and by the rules of nesting: what a browser reads of
//! their text is these nodes.
#![tactic(auto)]

mod clean;
mod cleaner;
mod made;

pub use clean::clean_nodes;
