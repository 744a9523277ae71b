//! The encoding of a page of bytes, and its text (HTML Standard 13.2.3, Encoding Standard).
//!
//! A page has the encoding of its byte order mark, or else the one that it declares by a label
//! among its first 1,024 bytes. If it has neither, it is UTF-8 if its bytes are UTF-8, and
//! windows-1252 otherwise. Known labels are those of UTF-8, UTF-16, windows-1252 and
//! x-user-defined. A page with another label is refused: browsers know more encodings, and pass
//! over a label that none of them has.
#![tactic(auto)]

mod attribute;
mod class;
mod content;
mod encoding;
mod fault;
mod label;
pub mod laws;
mod markup;
mod meta;
mod page;
mod part;
mod utf16;
mod windows;
mod word;
mod xml;

pub use encoding::Encoding;
pub use fault::EncodingFault;
pub use page::{DecodedPage, decode, decode_page, encoding_of, utf8_text};
pub use windows::windows_char;
