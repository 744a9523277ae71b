//! The page text of what was written and read: exactly what is visible in the body of the text.
//!
//! There is no code here: the functions of [`laws`] have laws as their contracts and do nothing.
#![tactic(auto)]

pub mod laws;
