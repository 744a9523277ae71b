//! Documents, and information about them.

use crate::nodes::{element_of, text_of};
use html_dom_document::{DocumentInfo, HtmlDocument, HtmlOutput, Locale};
use html_dom_tree::{HtmlElement, HtmlNode};
use html_names_core::tag;
use std::alloc::{AllocError, Global};

/// Returns a language with a region.
pub fn locale_of(alloc: Global) -> Result<Locale, AllocError> {
    Ok(Locale {
        lang: String::from_str(alloc, "de")?,
        region: Some(String::from_str(alloc, "ch")?),
    })
}

/// Returns information of each kind.
pub fn info_of(alloc: Global) -> Result<DocumentInfo, AllocError> {
    Ok(DocumentInfo {
        title: Some(String::from_str(alloc, "Tides")?),
        description: Some(String::from_str(alloc, "Of the moon")?),
        author: vec![in alloc;
            String::from_str(alloc, "A. Hill")?,
            String::from_str(alloc, "B. Lake")?,
        ]?,
        keywords: vec![in alloc; String::from_str(alloc, "sea")?]?,
        locale: Some(locale_of(alloc)?),
    })
}

/// Returns a text, and then an `html` around a `div` in which an element starts.
pub fn output_of(alloc: Global) -> Result<HtmlOutput, AllocError> {
    let inner = vec![in alloc; HtmlNode::from(element_of(alloc)?)]?;
    let root = HtmlElement::new(alloc, tag::html).with_children(inner);
    let mut nodes = Vec::new(alloc);
    nodes.push(text_of(alloc, "x", 1)?)?;
    nodes.push(HtmlNode::Element(root))?;
    Ok(HtmlOutput::new(nodes, 1))
}

/// Returns a document with that root, and with information of each kind.
pub fn document_of(alloc: Global) -> Result<HtmlDocument, AllocError> {
    Ok(HtmlDocument::new(alloc, output_of(alloc)?, info_of(alloc)?)?)
}
