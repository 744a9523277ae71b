//! Documents made from items, and their HTML text.
#![tactic(auto)]

mod document;
mod encode;
mod fragment;
mod head;
pub mod laws;

pub use document::{
    has_own_root, html_document, html_document_for_bundle, html_document_with_head,
};
pub use encode::{export, export_items, export_linked, export_with_head, html};
pub use fragment::export_fragment;
