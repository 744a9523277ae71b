//! Spaces stay: what is visible of the nodes of items in plain flow, once white space has
//! collapsed, is exactly the items' text.
//!
//! There is no code here: the functions of [`laws`] have laws as their contracts and do nothing.
#![tactic(auto)]

pub mod laws;
