//! The reasons why items or arguments can't be converted: a part of html_flow, which re-exports
//! these names.
#![tactic(auto)]

mod construct_fault;
mod fault;
pub mod laws;

pub use construct_fault::ConstructFault;
pub use fault::FlowFault;
