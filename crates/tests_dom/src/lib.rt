//! Tests of trees, flat trees, positions and documents, over public calls: deep trees, what changes
//! leave, and refused growths of memory.
#![tactic(auto)]

#[cfg(test)]
mod growths;
#[cfg(test)]
mod trees;
