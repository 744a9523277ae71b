//! A tree as one list of its nodes at all depths, in the order in which they are written. Each name
//! is a number, so that facts about a name are found by index.
//!
//! See [`FlatTree`] for an example.
#![tactic(auto)]

mod builder;
mod flat_node;
mod flat_tree;
mod moving;
mod numbering;
mod siblings;
mod spelling;

pub use builder::Builder;
pub use flat_node::{FlatElement, FlatNode};
pub use flat_tree::FlatTree;
pub use moving::flat_tree_of;
pub use siblings::{Element, Node, Siblings};
