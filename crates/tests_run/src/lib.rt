//! Tests of runs of the program with readers and writers of their own, and of reading changed
//! texts. The rows of `tests_rows` have inputs and their outputs.
#![tactic(auto)]

#[cfg(test)]
mod devices;
#[cfg(test)]
mod no_memory;
#[cfg(test)]
mod reading;
#[cfg(test)]
mod runs;
