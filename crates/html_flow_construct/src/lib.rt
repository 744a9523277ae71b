//! Elements constructed from typed arguments.
#![tactic(auto)]

mod args;
mod construction;

pub use args::{Arg, ArgValue, Args, ElementInfo};
pub use construction::construct;
