//! Tests of the faults of casts, and of values and casts when growths of memory are refused, over
//! public calls. The rows of `tests_rows` say what casts return.
#![tactic(auto)]

#[cfg(test)]
mod faults;
#[cfg(test)]
mod growths;
