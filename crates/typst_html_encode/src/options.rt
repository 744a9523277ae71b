//! The choice between plain and pretty HTML text.

/// Options for writing HTML text.
#[derive(Clone, Debug, Default, Drop, PartialEq, Eq, Hash)]
pub struct HtmlOptions {
    /// Whether blocks, and other elements that want it, are on lines of their own, indented by two
    /// spaces per level.
    pub pretty: bool,
}
