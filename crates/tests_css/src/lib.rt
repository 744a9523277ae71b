//! Tests of css texts, warnings and maps of properties, over public calls.
#![tactic(auto)]

#[cfg(test)]
mod growths;
#[cfg(test)]
mod warnings;
