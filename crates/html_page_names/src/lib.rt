//! Names that the reader of a page distinguishes: the kinds of elements, the names of SVG and
//! MathML with their capitals, and the named character references.
#![tactic(auto)]

mod foreign_names;
mod foreign_table;
mod kind;
mod kind_table;
mod kinds;
mod reference_rows;
mod references;

pub use foreign_names::{
    is_encoding, is_font_attr, is_html_encoding, is_same_lowered, keeps_case, math_attr,
    math_attr_keeps_case, svg_attr, svg_attr_keeps_case, svg_tag, svg_tag_keeps_case,
};
pub use html_names_core::lookup::is_one_of;
pub use kind::Kind;
pub use kinds::{Kinds, kinds_of};
pub use references::{legacy_reference, named_reference};
