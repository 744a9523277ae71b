//! Tests of the public surface: each public name is where users look for it (`names`), the types
//! have their traits (`traits`), a caller implements each trait, word for word as the docs do
//! (`own`), has the guide's functions (`guide`), and passes on the faults of calls (`taken_faults`).
//! `faults` and `program` test what no other test calls or shows. They use only the crates that
//! users name, typst_html_run for the program, and tests_asserts.
#![tactic(auto)]

#[cfg(test)]
mod faults;
#[cfg(test)]
mod guide;
#[cfg(test)]
mod names;
#[cfg(test)]
mod own;
#[cfg(test)]
mod program;
#[cfg(test)]
mod taken_faults;
#[cfg(test)]
mod traits;
