//! The table that numbers tags and attributes, and the laws of their numbers. `html_names`
//! re-exports it.
#![tactic(auto)]

pub mod laws;
mod name_table;

pub use name_table::NameTable;
