//! Pages, read as browsers read them: the tree of a page and the errors in it, what it shows, the
//! nodes that browsers would move, where its links lead, and which ids repeat. For link checkers,
//! and for HTML from elsewhere.
//!
//! Re-exports the public names of its parts, and those of the trees that it returns. It knows
//! nothing of items or of writing, which are in `typst_html`.
//!
//! ```
//! use html_page::{dead_fragments, page_text, read_page};
//!
//! let alloc = rt.alloc();
//! let page = "<!DOCTYPE html><title>Tides</title><p id=low>Low <a href='#high'>tide";
//! let (root, notes) = read_page(alloc, page, 50)?;
//! assert_eq!(rt; notes.count, 0);
//! for dead in &dead_fragments(alloc, &root)? {
//!     assert_eq!(rt; dead.fragment.as_str(), "high");
//! }
//! let text = page_text(alloc, &root)?;
//! let shown = format!(in alloc; "{text}")?;
//! assert_eq!(rt; shown.as_str(), "Low tide");
//! ```
#![tactic(auto)]

pub mod laws;

pub use html_dom_tree::{
    Frame, FrameItem, HtmlAttrs, HtmlElement, HtmlFrame, HtmlNode, Location, Point, Span, Tag,
};
pub use html_dom_walk::{Visit, Walk};
pub use html_links::{
    base_of, decoded_fragment, fragment_in, fragment_leads, href_is_script, place_in, place_names,
};
pub use html_names_core::{HtmlAttr, HtmlTag, NameFault, Refused, attr, property, tag};
pub use html_page_encoding::{DecodedPage, Encoding};
pub use html_page_findings::{DeadFragment, RepeatedId, dead_fragments, element_at, repeated_ids};
pub use html_page_nesting::{Misnested, Misnesting, misnested};
pub use html_page_read::{
    PageFault, PageNote, PageNotes, Places, decode_page_bytes, read_any_fragment, read_fragment,
    read_page, read_page_bytes,
};
pub use html_page_stack::{PageError, PageRefusal};
pub use html_page_text::{PageText, Shown, page_text};
pub use html_text::Place;
