//! Laws of this layer, as contracts of functions.

pub use html_flow_convert::laws::{
    equal_construct_faults, equal_conversion_levels, equal_flow_faults, equal_whitespaces,
};
pub use html_flow_lists::laws::{note_locations_are_high, note_locations_differ};
pub use html_flow_places::laws::{equal_name_locations, name_at_location, name_location_stays};
