//! Laws of all layers, as contracts of functions.

pub use html_dom::laws as dom;
pub use html_dom_walk::laws as walk;
pub use html_flow::laws as flow;
pub use html_names::laws as names;
pub use html_values::laws as values;
pub use typst_html_encode::laws as encode;
pub use typst_html_export::laws as export;
pub use typst_html_read::laws as read;
pub use typst_html_spaces::laws as spaces;
