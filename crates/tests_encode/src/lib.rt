//! Tests of writing trees: texts, frames, a deep tree, and refused growths of memory, over public
//! calls.
#![tactic(auto)]

#[cfg(test)]
mod asserts;
#[cfg(test)]
mod frames;
#[cfg(test)]
mod growths;
#[cfg(test)]
mod texts;
