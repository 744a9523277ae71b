//! The theorem behind [`misnested`](html_page_nesting::misnested): a parser of HTML makes the tree that
//! was written, if nothing in it is misnested.
//!
//! There is no code here: the functions of [`laws`] have laws as their contracts and do nothing.
#![tactic(auto)]

pub mod laws;
