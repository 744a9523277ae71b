//! Values that are compared to the text that showed them before, without taking memory.

use std::alloc::{AllocError, Global};
use std::fmt::{self, Debug, Write};

/// The rest of a text that must be written.
#[derive(Drop)]
struct Left<'a> {
    text: &'a str,
}

impl fmt::Write for Left<'_> {
    fn write_str(&mut self, s: &str) -> fmt::Result {
        match self.text.strip_prefix(s) {
            Some(left) => {
                self.text = left;
                Ok(())
            }
            None => Err(fmt::Error),
        }
    }
}

/// Returns whether `{:?}` shows the value as the text.
pub fn is_shown<T: Debug>(value: &T, text: &str) -> bool {
    let mut left = Left { text };
    write!(left, "{value:?}").is_ok() && left.text.is_empty()
}

/// Returns the text that shows the value.
pub fn shown_of<T: Debug>(alloc: Global, value: &T) -> Result<String, AllocError> {
    format!(in alloc; "{value:?}")
}
