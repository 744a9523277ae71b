//! Laws of links: resolving them adds no dead fragment and repeats no id, since each leads to a place
//! of its tree; and if no item is a link with an `href` of its own, the document has no dead fragment.
//!
//! There is no code here: the functions of [`laws`] have laws as their contracts and do nothing.
#![tactic(auto)]

pub mod laws;
