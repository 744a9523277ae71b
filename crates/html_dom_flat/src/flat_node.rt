//! The nodes of a flat tree. The names in them are numbers in the tree's name table.

use html_dom_tree::{HtmlFrame, Location, Span, Tag};
use html_values_css::Properties;

/// A node in the list of a `FlatTree`. It owns its texts.
#[derive(Debug, Drop)]
pub enum FlatNode {
    /// The start or end of a located element.
    Tag(Tag),
    /// A text and its place in the source.
    Text(String, Span),
    /// A laid-out frame. It is boxed, since it is rare and takes more room than an element.
    Frame(Box<HtmlFrame>),
    /// An element. The nodes inside it follow it in the list.
    Element(FlatElement),
}

/// An element in the list of a `FlatTree`. Its names are numbers in the tree's name table.
#[derive(Debug, Drop)]
pub struct FlatElement {
    /// The number of its tag.
    pub tag: usize,
    /// The attributes, in the order in which they are written: the number of each name, and the
    /// value.
    pub attrs: Vec<(usize, String)>,
    /// The css properties.
    pub css: Properties,
    /// The location of the element's parent in the source, if that stands elsewhere in the tree.
    pub parent: Option<Location>,
    /// Its place in the source.
    pub span: Span,
    /// Whether each character of the texts directly in this element is written as a character
    /// reference.
    pub pre_span: bool,
    /// The index after the last node inside the element. The nodes inside it are those between the
    /// element and this index.
    pub past: usize,
}
