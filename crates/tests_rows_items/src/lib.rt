//! For the rows of `tests_rows`: the items that an input spells.
//!
//! ```
//! let items = items_in(alloc, br#"[["el","p",[],[["text","a"]]],["role","note",["space"]]]"#)?;
//! ```
#![tactic(auto)]

mod items;

pub use items::{items_in, items_of, list_of, number_of, string_of, text_of};
