//! The tokens of a page, as a browser reads them (HTML Standard 13.2.5), and the element that they
//! make.
#![tactic(auto)]

mod bytes;
mod cdata;
mod comment;
mod common;
mod data;
mod doctype;
mod draft;
mod fault;
mod fragment;
mod front;
mod holders;
mod legacy;
mod markup;
mod names;
mod number;
mod place;
mod raw;
mod read;
mod reader;
mod reading;
mod reference;
mod since;
mod tag_front;
mod tags;
mod values;

pub use bytes::decode_page_bytes;
pub use fault::{PageFault, PageNote, PageNotes};
pub use fragment::{read_any_fragment, read_fragment};
pub use place::Places;
pub use read::{read_page, read_page_bytes};
