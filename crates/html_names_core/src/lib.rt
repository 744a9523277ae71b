//! What all crates need of names: tags and attributes, the kinds of elements, their default
//! displays, and the characters that are valid in names, values and texts. `html_names` re-exports
//! it.
#![tactic(auto)]

mod attr_kind;
pub mod charsets;
mod constants;
mod fault;
mod html_attr;
mod html_tag;
mod kind;
pub mod laws;
pub mod lookup;
mod name;
pub mod property;
mod refused;
pub mod room;
mod table;
pub mod text_writer;

pub use constants::{attr, tag};
pub use fault::NameFault;
pub use html_attr::HtmlAttr;
pub use html_tag::HtmlTag;
pub use refused::Refused;
