//! For the rows of `tests_rows`: casts of values to types of attributes, and elements made from
//! arguments.
//!
//! ```
//! let text = cast(alloc, br#"["PositiveInt",0]"#)?;
//! assert_eq!(rt; text.as_str(), "Err(NumberRange), castable");
//! ```
#![tactic(auto)]

mod construction;
mod types;
mod values;

pub use construction::constructed;
pub use types::cast;
