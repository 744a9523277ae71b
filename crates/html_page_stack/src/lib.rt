//! A page that is being read: the open elements, and the steps that open and close them (HTML
//! Standard 13.2.4, 13.2.6).
#![tactic(auto)]

mod adoption;
mod before_table;
mod context;
mod element;
mod elements;
mod error;
mod fault;
mod formats;
mod milestone;
mod modes;
mod moving;
mod notes;
mod page;
mod search;
mod stack;
mod token;

pub use element::PageElement;
pub use error::PageError;
pub use fault::PageRefusal;
pub use formats::{Entry, Format, Formats};
pub use modes::{Destination, FramesetRule, Mode, Scope, Space, TableRule, TemplateMode};
pub use notes::Notes;
pub use page::Page;
pub use search::{Bound, Goal, Target, While};
pub use stack::Stack;
pub use token::{StartTag, TagName, Token};
