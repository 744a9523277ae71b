//! The check that the names of a document differ.

ghost use Rattle.std.specs.Prelude.{◌≡◌, IfOk};
ghost use Rattle.html_dom_document.specs.{Documents.{document_root}, Views.{document_view}};
ghost use Rattle.html_links.specs.{Distinct.{are_distinct, names_view}, TreeNames.{element_names}};

use html_dom_document::HtmlDocument;
use html_links::{is_used, listed_names, put_in_use};
use std::alloc::{AllocError, Global};
use std::collections::BTreeSet;

/// Returns whether all values of `id` in a document's tree differ, including those of frames and of
/// frames' anchors: the HTML Standard (3.2.6) requires each `id` to be unique in its tree, but a
/// tree may hold one twice. If they differ, each link to which
/// [`resolve_links`](crate::resolve_links) adds an `href` leads to one place. Takes logarithmic
/// time for each name. Fails only if an allocation fails.
///
/// ```
/// use typst_html::{DocumentInfo, HtmlElem, Item, Pair, attr, html_document};
/// use typst_html::{ids_are_distinct, tag};
///
/// let alloc = rt.alloc();
/// let (mut items, info) = (Vec::new(alloc), DocumentInfo::new(alloc));
/// for tag in [tag::h2, tag::p] {
///     let id = String::from_str(alloc, "tides")?;
///     let element = HtmlElem::new(alloc, tag).with_attr(attr::id, id)?;
///     items.push(Pair::from(Item::Element(element)))?;
/// }
/// let document = html_document(alloc, &items, &info, &[], 50)?;
/// assert!(rt; !ids_are_distinct(alloc, &document)?);
/// ```
pub fn ids_are_distinct(alloc: Global, document: &HtmlDocument) -> Result<bool, AllocError>
    ensures { IfOk result (λ distinct.
        distinct ≡ are_distinct (element_names (document_root (document_view document.now)))) }
{
    are_distinct(alloc, &listed_names(alloc, document.root())?)
}

fn are_distinct(alloc: Global, names: &[&String]) -> Result<bool, AllocError>
    ensures { IfOk result (λ distinct. distinct ≡ are_distinct (names_view names.now)) }
{
    let mut used = BTreeSet::new(alloc);
    for name in names {
        if is_used(&used, name) {
            return Ok(false);
        }
        put_in_use(&mut used, (*name).clone()?)?;
    }
    Ok(true)
}
