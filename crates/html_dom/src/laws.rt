//! Laws of trees, documents, positions and anchors, as contracts of functions.

pub use html_anchors::laws as link;
pub use html_dom_document::laws::{document, introspect};
pub use html_dom_tree::laws as tree;
