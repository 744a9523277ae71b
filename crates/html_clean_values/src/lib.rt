//! Values of attributes of foreign HTML: texts that a browser reads as they are, which URLs are
//! allowed by their schemes, and prefixes of ids and names.
#![tactic(auto)]

pub mod laws;
mod prefixes;
mod schemes;
mod srcset;
mod texts;
mod urls;
mod words;

pub use prefixes::{prefixed, prefixed_href, prefixed_name, prefixed_words};
pub use srcset::srcset_is_allowed;
pub use texts::replaced;
pub use urls::{url_is_allowed, urls_are_allowed};
