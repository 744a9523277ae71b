//! For tests: trees and documents as arguments of calls.
//!
//! ```
//! let element = element_of(alloc)?;
//! refuses_copy(alloc, element, HtmlElement::try_clone)?;
//! ```
#![tactic(auto)]

mod documents;
mod frames;
mod nodes;

pub use documents::{document_of, info_of, locale_of, output_of};
pub use frames::{frame_of, group_of, html_frame_of, point, start, start_of};
pub use nodes::{css_of, element_of, id_of, inner_of, nested, text_of};
