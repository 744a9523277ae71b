//! For tests: makes a call that takes memory with none, and then with a little more each time,
//! until it succeeds.
//!
//! ```
//! let text = String::from_str(alloc, "a text")?;
//! refuses_lent(alloc, text, |text: &mut String| -> Result<bool, AllocError> {
//!     Ok(text.clone()?.as_str() == "a text")
//! })?;
//! ```
#![tactic(auto)]

mod attempts;
mod memory;
mod shown;

pub use attempts::{
    Made, SPARES, refuses, refuses_copy, refuses_given, refuses_kept, refuses_lent, refuses_pushed,
    refuses_taken,
};
pub use shown::{is_shown, shown_of};
