//! Items and the nodes that they become, and white space that must not collapse (CSS Text 3, 4.1):
//! a part of html_flow, which re-exports these names.
//!
//! ```
//! use html_dom::Span;
//! use html_flow::{HtmlElem, Item};
//! use html_names::{attr, tag};
//!
//! let href = String::from_str(rt.alloc(), "/tides")?;
//! let link = HtmlElem::new(rt.alloc(), tag::a).with_attr(attr::href, href)?;
//! let item = Item::Element(link.spanned(Span(4)));
//! assert!(rt; item.span() == Span(4));
//! ```
#![tactic(auto)]

mod answers;
mod bareness;
mod convert;
mod depth;
mod fragment;
mod item;
pub mod laws;
mod line;
mod lone;
mod look;
mod made;
mod one;
mod pieces;
mod protect;
mod reused;
mod runs;
mod setting;

pub use bareness::{Bareness, bare_spaces};
pub use convert::{ConversionLevel, Whitespace, convert_items, convert_to_nodes, is_depth_limit};
pub use fragment::{html_block_fragment, html_inline_fragment, html_math_fragment};
pub use html_flow_faults::{ConstructFault, FlowFault};
pub use item::{
    FrameElem, HtmlElem, Item, Pair, Role, copied_pairs, push_located, push_located_reserved,
};
pub use look::makes_block;
pub use made::break_element;
pub use one::is_one;
pub use pieces::push_text_nodes;
pub use protect::protect_spaces;
pub use runs::keep_runs;
