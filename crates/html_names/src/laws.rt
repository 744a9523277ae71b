//! The laws of names, as contracts of functions.

pub use html_names_core::laws::{equal_displays, equal_name_faults, equal_refused};
pub use html_names_laws::{attrs, tags};
pub use html_names_table::laws::{
    attr_at_number, attr_number_stays, equal_attr_numbers, equal_tag_numbers, tag_at_number,
    tag_number_stays,
};
