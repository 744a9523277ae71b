//! Foreign HTML, made safe: a cleaner of fragments.
//!
//! [`clean`] reads a fragment as browsers do and keeps what a [`Policy`] allows and browsers leave where
//! it is. So what they read of the written result is the very tree that was checked: no text, however
//! hostile, becomes another tree on its way (laws of `html_clean_laws`).
#![tactic(auto)]

mod fragment;

pub use fragment::{Cleaned, clean, clean_text};
pub use html_clean_nodes::clean_nodes;
pub use html_clean_policy::{Policy, PolicyFault, PolicyRefused, is_dropped, is_never_kept};
pub use html_clean_styles::clean_style;
pub use html_clean_values::replaced;
