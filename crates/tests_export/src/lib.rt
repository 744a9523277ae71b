//! Tests of documents made from items, over public calls: their frames, nodes in their heads, and
//! calls on documents and pages whose growths of memory are refused. The rows of `tests_rows` say
//! what items become.
#![tactic(auto)]

#[cfg(test)]
mod frames;
#[cfg(test)]
mod growths;
#[cfg(test)]
mod heads;
