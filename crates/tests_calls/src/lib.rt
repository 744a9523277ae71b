//! Tests of public calls over several crates when growths of memory are refused: of the calls for C,
//! and of those that consume their arguments and return them. What the calls make is tested
//! elsewhere.
#![tactic(auto)]

#[cfg(test)]
mod calls;
#[cfg(test)]
mod given;
#[cfg(test)]
mod growths;
