//! What writing and reading HTML need of texts alone: places, closing tags, words, and fronts of
//! characters of a class.
#![tactic(auto)]

mod closing;
mod front;
mod place;
mod raw_end;
mod word;

pub use closing::{holds_closing, is_tag_end};
pub use front::{cut_common, cut_name, cut_tag_name, split_front};
pub use place::{Place, common_length, place_at};
pub use raw_end::{end_of, ends_in};
pub use word::begins;
