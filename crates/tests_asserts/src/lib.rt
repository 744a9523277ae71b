//! For tests: results and assertions. A failed assertion is returned, to be passed on by `?`, since
//! a library may not end the process. A test that calls a few small functions is proved in a second
//! or two; the time grows with the square of what one function does itself.
//!
//! ```
//! let text = String::from_str(rt.alloc(), "a text")?;
//! assert_text(&text, "a text")?;
//! assert_debug(rt.alloc(), &text, "\"a text\"")?;
//! ```
#![tactic(auto)]

use std::alloc::Global;
use std::fmt::Debug;
use std::process::Abort;
use std::test::Fail;

/// The runtime of a test: assertions with it may end the test, and it has the test's memory.
pub trait Tester: Abort + AllocGlobal {}

impl<R: Abort + AllocGlobal> Tester for R {}

/// The result of a test.
pub type TestResult = Result<(), Fail>;

/// Asserts that a text is the expected one.
pub fn assert_text(text: &str, wanted: &str) -> TestResult {
    if text == wanted {
        return Ok(());
    }
    Err(Fail::new(format_args!("{text:?} in place of {wanted:?}")))
}

/// Asserts that a number is the expected one.
pub fn assert_number(number: usize, wanted: usize) -> TestResult {
    if number == wanted {
        return Ok(());
    }
    Err(Fail::new(format_args!("{number} in place of {wanted}")))
}

/// Asserts that `{:?}` shows a value as the expected text.
pub fn assert_debug<T: Debug>(alloc: Global, value: &T, wanted: &str) -> TestResult {
    assert_text(&format!(in alloc; "{value:?}")?, wanted)
}
