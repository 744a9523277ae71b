//! Tests of the texts of displays and of faults, and of names, numbers for them, and a text under
//! construction when growths of memory are refused, over public calls. The rows of `tests_rows` show
//! more of names.
#![tactic(auto)]

#[cfg(test)]
mod displays;
#[cfg(test)]
mod faults;
#[cfg(test)]
mod growths;
