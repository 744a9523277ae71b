//! What is visible of a page in a browser once white space has collapsed.
#![tactic(auto)]

mod page;
mod progress;
mod seen;
mod shown;
mod style;
mod unseen;
mod walk;

pub use shown::{PageText, Shown};
pub use walk::page_text;
