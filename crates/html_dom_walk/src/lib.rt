//! One walk over the nodes of a tree, for everything that looks at a tree: a loop with a stack of
//! its own, so that a deep tree takes no stack of the program, and nobody writes a recursion.
#![tactic(auto)]

pub mod laws;
mod walk;

pub use walk::{Visit, Walk};
