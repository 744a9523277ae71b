//! Lists that grow item by item, and footnotes: a part of html_flow, which re-exports these names.
//!
//! ```
//! use html_dom::Span;
//! use html_flow::ItemList;
//!
//! let mut words = ItemList::new(rt.alloc()).spanned(Span(4));
//! words.text("Salt &")?;
//! words.space()?;
//! words.text("vinegar")?;
//! assert_eq!(rt; words.items().len(), 1); // one text
//! ```
#![tactic(auto)]

mod item_list;
pub mod laws;
mod notes;

pub use item_list::ItemList;
pub use notes::Notes;
