//! The law that the turns of a token end: none is processed again without an end.
//!
//! There is no code here: the functions of [`laws`] have laws as their contracts and do nothing.
#![tactic(auto)]

pub mod laws;
