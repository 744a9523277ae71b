//! For `examples_site`: pages in a small text form, and the HTML text of each, with a navigation
//! and with links that lead. Reads and writes no files. Calls fail if an allocation fails, or with
//! the file and line of a page that has another form, holds what HTML can't hold, or has a link
//! that leads nowhere. Nodes that browsers would move are reported in the same way, but not
//! refused.
#![tactic(auto)]

mod page;
mod site;

pub use page::Page;
pub use site::{Hrefs, Site};
