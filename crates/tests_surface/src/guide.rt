//! The guide's functions, word for word, with the crate that users name.

mod attributes;
mod elements;
mod frames;
mod links;
mod refusals;
mod trees;
