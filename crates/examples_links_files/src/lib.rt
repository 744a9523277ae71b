//! For `examples_links`: the files of a site, and the targets of links among them. Calls fail if an
//! allocation fails, and [`inputs_of`] also if it can't report what does not exist.
#![tactic(auto)]

mod address;
mod files;
mod inputs;
mod listing;
mod paths;

pub use address::{cleaned, fragment_of, is_external, scheme_of, spot_of};
pub use files::{Entry, Files, Found};
pub use inputs::{Input, inputs_of};
pub use listing::{Listing, NotGiven};
pub use paths::{Spot, system_path};
