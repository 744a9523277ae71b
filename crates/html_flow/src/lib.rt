//! The flow of a document: items, elements constructed from typed arguments, and the nodes that
//! items become.
//!
//! ```
//! use html_dom::Span;
//! use html_flow::{HtmlElem, Item};
//! use html_names::{attr, tag};
//!
//! let href = String::from_str(rt.alloc(), "/tides")?;
//! let link = HtmlElem::new(rt.alloc(), tag::a).with_attr(attr::href, href)?;
//! let item = Item::Element(link.spanned(Span(4)));
//! assert!(rt; item.span() == Span(4));
//! ```
#![tactic(auto)]

pub mod laws;

pub use html_flow_construct::{Arg, ArgValue, Args, ElementInfo, construct};
pub use html_flow_convert::{
    Bareness, ConstructFault, ConversionLevel, FlowFault, FrameElem, HtmlElem, Item, Pair, Role,
    Whitespace, bare_spaces, convert_to_nodes, html_block_fragment, html_inline_fragment,
    html_math_fragment, is_depth_limit, push_located,
};
pub use html_flow_lists::{ItemList, Notes};
pub use html_flow_places::NamedPlaces;
