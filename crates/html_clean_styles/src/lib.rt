//! What stays of the value of a `style` attribute of foreign HTML.
#![tactic(auto)]

mod cut;
mod declaration;
pub mod laws;
mod space;
mod style;
mod value;

pub use style::clean_style;
