//! Tests of the faults of construction, and of refused growths of memory, over public calls. The
//! rows of `tests_rows` say what is constructed, and what items become.
#![tactic(auto)]

#[cfg(test)]
mod faults;
#[cfg(test)]
mod growths;
