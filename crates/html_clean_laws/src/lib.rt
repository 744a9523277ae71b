//! The theorems behind [`clean_nodes`](html_clean_nodes::clean_nodes): what it leaves is clean, stays as
//! it is when it is cleaned again, and is what a browser reads of its text.
//!
//! There is no code here: the functions of [`laws`] have laws as their contracts and do nothing.
#![tactic(auto)]

pub mod laws;
