//! For `tests_rows`: reads lines as rows, and runs the rows of files.
//!
//! ```
//! let row = Row::from_line(alloc, "page-text | <p>a</p> | |[a]|")?.context("a row")?;
//! let given = caller.output(alloc, &row)?;
//! ```
#![tactic(auto)]

mod files;
mod row;

pub use files::{Caller, run_files};
pub use row::Row;
