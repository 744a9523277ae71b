//! For tests: reads a written text back, and compares the tree with the one that was written.
//!
//! ```
//! let text = html_in_bundle(alloc, &root, &options, &())?;
//! assert!(rt; reads_back(alloc, &root, &options, &text));
//! ```
#![tactic(auto)]

mod back;
mod normal;

pub use back::{reads_again, reads_back, reads_same};
pub use normal::normal_of;
