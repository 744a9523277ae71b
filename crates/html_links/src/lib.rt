//! Links to fragments: the places of a tree to which they lead, the names in a tree, and the
//! spellings of names in an `href`.
#![tactic(auto)]

mod bases;
mod directives;
mod indicated;
pub mod laws;
mod names;
mod names_in_tree;
mod places;
mod scripts;
mod spellings;

pub use bases::{base_is_elsewhere, base_of};
pub use indicated::{decoded_fragment, fragment_in, fragment_leads, place_in};
pub use names::{is_used, put_in_use};
pub use names_in_tree::listed_names;
pub use places::{all_place_names, first_id, keeps_children, link_name, place_names};
pub use scripts::href_is_script;
pub use spellings::{href_to, leading_href};
