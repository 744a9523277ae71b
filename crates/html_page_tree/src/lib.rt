//! Tree construction: the element that the tokens of a page make, as in a browser (HTML Standard
//! 13.2.6). A page is refused at a limit.
#![tactic(auto)]

mod adoption;
mod body_end;
mod body_start;
mod foreign;
mod fragment;
mod frameset;
mod head;
mod own_end;
mod table;
mod template;
mod turn;

pub use fragment::begin_fragment;
pub use head::is_space;
pub use own_end::takes_own_end;
pub use turn::{end_text, read_token, takes_text};
