//! Values of a document before they are cast to the texts of attributes.

use crate::moment::Moment;
use html_values_css::{Dir, Rgba};

/// A value of a document, which a type of attribute casts to a text.
#[derive(Debug, Drop)]
#[cycle(value)]
pub enum Value {
    /// Nothing.
    None,
    /// The automatic value, `auto`.
    Auto,
    /// A Boolean.
    Bool(bool),
    /// A whole number.
    Int(i64),
    /// A text.
    Str(String),
    /// A colour.
    Color(Rgba),
    /// A date, a time, or both.
    Datetime(Moment),
    /// A span of time in seconds.
    Duration(u64),
    /// A direction of writing.
    Dir(Dir),
    /// An image.
    Image {
        /// The address of the image.
        src: String,
        /// The width in pixels.
        width: Option<i64>,
    },
    /// Several values.
    Array(Vec<Value>),
}
