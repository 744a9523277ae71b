//! Laws of pages and of their trees, as contracts of functions.

pub use html_dom_tree::laws as tree;
pub use html_dom_walk::laws as walk;
pub use html_links::laws as links;
pub use html_page_findings::laws as findings;
