//! The name and typed attributes of an element, and the arguments of a call that constructs it.

ghost use Rattle.std.specs.Prelude.{◌≡◌};

use html_dom_tree::Span;
use html_flow_convert::Pair;
use html_names_core::{HtmlAttr, HtmlTag};
use html_values::{AttrType, Value};

/// The name of an element of HTML, and its typed attributes.
#[derive(Debug, Drop)]
pub struct ElementInfo {
    /// The element's name.
    pub tag: HtmlTag,
    /// The attributes with their types. Of several with one name the first counts.
    pub attrs: Vec<(HtmlAttr, AttrType)>,
}

impl ElementInfo {
    /// Creates the description of an element with that name and these attributes.
    pub fn new(tag: HtmlTag, attrs: Vec<(HtmlAttr, AttrType)>) -> ElementInfo
        ensures tag { result.tag ≡ tag }
        ensures attrs { result.attrs ≡ attrs }
    {
        ElementInfo { tag, attrs }
    }
}

/// The arguments of a call that constructs an element.
#[derive(Debug, Drop)]
pub struct Args {
    /// The arguments in their order.
    pub items: Vec<Arg>,
}

/// An argument.
#[derive(Debug, Drop)]
pub struct Arg {
    /// The name, if it has one.
    pub name: Option<String>,
    /// Its place in the source.
    pub span: Span,
    /// The value or items.
    pub value: ArgValue,
}

/// What an argument holds.
#[derive(Debug, Drop)]
pub enum ArgValue {
    /// A value.
    Plain(Value),
    /// Items.
    Body(Vec<Pair>),
}
