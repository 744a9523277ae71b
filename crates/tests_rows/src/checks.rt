//! Dead links, repeated ids, and misnested nodes.

use crate::documents::{document_of, linked_of, separate};
use crate::pages::root_of;
use anyhow::{Result, bail, ensure};
use html_anchors::{dead_links, ids_are_distinct};
use html_dom_document::HtmlDocument;
use html_links::{decoded_fragment, href_is_script, place_in};
use html_page_findings::{dead_fragments, repeated_ids};
use html_page_nesting::{misnested, report_misnested_of};
use serde_json::Value;
use std::alloc::Global;
use std::collections::BTreeSet;
use tests_rows_items::{list_of, string_of, text_of};
use tests_rows_run::Row;

/// Returns the dead links, and after them those that are left without an `href` once links are
/// resolved, if these are others.
pub(crate) fn dead_link_list(alloc: Global, row: &Row<'_>) -> Result<String> {
    let mut links = dead_links_of(alloc, document_of(alloc, row)?)?;
    let left = dead_links_of(alloc, linked_of(alloc, row)?)?;
    if left != links {
        write!(links, " [left: {left}]")?;
    }
    Ok(links)
}

fn dead_links_of(alloc: Global, document: HtmlDocument) -> Result<String> {
    let mut links = String::new(alloc);
    for link in &dead_links(alloc, &document)? {
        separate(&mut links)?;
        write!(links, "{} to {}", link.span.0, link.dest.0)?;
    }
    Ok(links)
}

/// The result must be the same before and after links get an `href`.
pub(crate) fn have_distinct_ids(alloc: Global, row: &Row<'_>) -> Result<String> {
    let before = ids_are_distinct(alloc, &document_of(alloc, row)?)?;
    let after = ids_are_distinct(alloc, &linked_of(alloc, row)?)?;
    ensure!(before == after, "with links: {after}");
    Ok(format!(in alloc; "{before}")?)
}

pub(crate) fn dead_fragment_list(alloc: Global, row: &Row<'_>) -> Result<String> {
    let mut text = String::new(alloc);
    for link in &dead_fragments(alloc, &root_of(alloc, row)?)? {
        write!(text, "{:?} {};", link.path, link.fragment)?;
    }
    Ok(text)
}

pub(crate) fn repeated_id_list(alloc: Global, row: &Row<'_>) -> Result<String> {
    let mut text = String::new(alloc);
    for place in &repeated_ids(alloc, &root_of(alloc, row)?)? {
        write!(text, "{:?} {};", place.path, place.id)?;
    }
    Ok(text)
}

/// The result must be the same where the tree is consumed.
pub(crate) fn misnested_list(alloc: Global, row: &Row<'_>) -> Result<String> {
    let root = root_of(alloc, row)?;
    let found = misnested(alloc, &root)?;
    let consumed = report_misnested_of(alloc, root, Vec::new(alloc))?;
    ensure!(found == consumed, "consumed: {consumed:?}");
    let mut text = String::new(alloc);
    for node in &found {
        write!(text, "{:?} {:?};", node.path, node.why)?;
    }
    Ok(text)
}

/// Returns the name of the place to which an address leads, from a JSON list of the address and the
/// names of all places.
pub(crate) fn place_name(alloc: Global, row: &Row<'_>) -> Result<String> {
    let value = Value::from_slice(alloc, &row.input)?;
    let [href, rest @ ..] = list_of(&value)? else {
        bail!("an address is wanted");
    };
    let mut names = BTreeSet::new(alloc);
    for text in rest {
        let _ = names.insert(string_of(alloc, text)?)?;
    }
    or_none(alloc, place_in(alloc, text_of(href)?, &names)?)
}

pub(crate) fn decoded_name(alloc: Global, row: &Row<'_>) -> Result<String> {
    or_none(alloc, decoded_fragment(alloc, row.text()?)?)
}

fn or_none(alloc: Global, name: Option<String>) -> Result<String> {
    Ok(name.unwrap_or("-".to_string(alloc)?))
}

/// Returns whether an address is a script.
pub(crate) fn is_script(alloc: Global, row: &Row<'_>) -> Result<String> {
    let name = if href_is_script(row.text()?) {
        "script"
    } else {
        "-"
    };
    Ok(name.to_string(alloc)?)
}
