//! The nodes that make a browser build another tree of the written text: its parser closes elements
//! where others begin, moves what has no place in a table, and more (HTML Standard 13.2).
#![tactic(auto)]

mod body;
mod capitals;
mod check;
mod consumed;
mod content;
mod element;
mod finding;
mod inside;
mod kept;
mod misnested_sink;
mod misnesting;
pub mod page;
pub mod reading;
mod reports;
mod rules;
mod script;
pub mod surroundings;
mod texts;
mod walk;
mod written;

pub use check::{misnested, report_misnested, report_misnested_of};
pub use finding::Misnested;
pub use misnested_sink::MisnestedSink;
pub use misnesting::Misnesting;
