//! The texts of a tree with their paths, the faults of its links (fragments that lead nowhere, and
//! repeated ids), and the elements at paths.
#![tactic(auto)]

mod fragments;
pub mod laws;
mod path;
mod repeated;
mod text_sink;
mod walk;
mod wanted;

pub use fragments::{DeadFragment, dead_fragments, report_dead_fragments};
pub use path::element_at;
pub use repeated::{RepeatedId, repeated_ids, report_repeated_ids};
pub use text_sink::TextSink;
pub use walk::report_texts;
pub use wanted::Wanted;
