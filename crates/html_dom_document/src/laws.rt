//! Laws of this crate's types and definitions. The contract of each function is a law.

pub mod document;
pub mod introspect;
