//! For tests: items as arguments of calls.
//!
//! ```
//! let element = elem_of(alloc, tag::p)?;
//! let longer = element.with_item(alloc, Pair::from(text_item_of(alloc)?))?;
//! ```
#![tactic(auto)]

use html_dom_tree::Span;
use html_flow_convert::{HtmlElem, Item, Pair};
use html_names_core::HtmlTag;
use std::alloc::{AllocError, Global};
use tests_samples::{css_of, id_of, start_of};

/// Returns a text with blanks and a line end.
pub fn text_item_of(alloc: Global) -> Result<Item, AllocError> {
    Ok(Item::Text(String::from_str(alloc, "  two  words \n")?, Span(2)))
}

/// Returns items of a line, with a text in a box.
fn line_of(alloc: Global) -> Result<Vec<Pair>, AllocError> {
    let mut items = Vec::with_capacity(alloc, 6)?;
    items.push(Pair::from(Item::Tag(start_of(alloc)?)))?;
    items.push(Pair::from(Item::Space(Span(1))))?;
    items.push(Pair::from(text_item_of(alloc)?))?;
    items.push(Pair::from(Item::LineBreak(Span(3))))?;
    let boxed = vec![in alloc; Pair::from(text_item_of(alloc)?)]?;
    items.push(Pair::from(Item::Box(Some(boxed), Span(4))))?;
    items.push(Pair::from(Item::Hole))?;
    Ok(items)
}

/// Returns an element with css, an attribute and items of a line.
pub fn elem_of(alloc: Global, tag: HtmlTag) -> Result<HtmlElem, AllocError> {
    Ok(HtmlElem {
        attrs: id_of(alloc, "inner")?,
        css: css_of(alloc, "color", "red")?,
        body: Some(line_of(alloc)?),
        ..HtmlElem::new(alloc, tag)
    })
}
