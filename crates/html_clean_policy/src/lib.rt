//! What may stay of foreign HTML: a policy says which elements, attributes, URLs and css stay.
#![tactic(auto)]

mod allows;
mod attr_use;
mod build;
mod elements;
mod fault;
mod kept;
pub mod laws;
mod link;
mod lists;
mod names;
mod policy;
mod ready;
mod tables;

pub use elements::{is_dropped, is_never_kept};
pub use fault::{PolicyFault, PolicyRefused};
pub use policy::Policy;
