//! Reading of pages, and their visible text.

use crate::runs::inner_text;
use anyhow::{Result, ensure};
use html_dom_document::DocumentInfo;
use html_dom_tree::{HtmlElement, HtmlNode};
use html_flow_convert::is_depth_limit;
use html_page_read::{
    PageFault, PageNotes, Places, decode_page_bytes, read_fragment, read_page, read_page_bytes,
};
use html_page_text::{Shown, page_text};
use std::alloc::Global;
use tests_rows_items::items_in;
use tests_rows_run::Row;
use typst_html_encode::{HtmlOptions, html_fragment, html_in_bundle};
use typst_html_export::export;
use typst_html_read::{ReadFault, read_html};

/// The greatest depth of elements, unless a row gives one.
const DEEPEST: usize = 10_000;

const DOCUMENT_TYPE: &str = "<!DOCTYPE html>";

fn page_of(alloc: Global, row: &Row<'_>) -> Result<String> {
    Ok(format!(in alloc; "{DOCUMENT_TYPE}{}", row.text()?)?)
}

pub(crate) fn root_of(alloc: Global, row: &Row<'_>) -> Result<HtmlElement> {
    Ok(read_html(alloc, &page_of(alloc, row)?, DEEPEST)?)
}

pub(crate) fn read(alloc: Global, row: &Row<'_>) -> Result<String> {
    let text = page_of(alloc, row)?;
    let limit = row.number("limit", DEEPEST)?;
    ensure!(is_depth_limit(limit), "no limit");
    let root = match read_html(alloc, &text, limit) {
        Ok(root) => root,
        Err(ReadFault::TooDeep { place }) => {
            return Ok(format!(in alloc; "too deep at {}, {place}", place.offset)?);
        }
        Err(ReadFault::Syntax { place }) => {
            return Ok(format!(in alloc; "none at {}, {place}", place.offset)?);
        }
        Err(fault) => return Err(fault.into()),
    };
    let written = html_in_bundle(alloc, &root, &HtmlOptions::default(), &())?;
    if written == text {
        return Ok(String::from_str(alloc, "same")?);
    }
    inner_text(alloc, &written, (DOCUMENT_TYPE, ""))
}

pub(crate) fn text(alloc: Global, row: &Row<'_>) -> Result<String> {
    visible_text(alloc, &root_of(alloc, row)?)
}

pub(crate) fn items_text(alloc: Global, row: &Row<'_>) -> Result<String> {
    let plain = exported_text(alloc, row, false)?;
    let pretty = exported_text(alloc, row, true)?;
    ensure!(plain == pretty, "pretty: {pretty}");
    Ok(plain)
}

fn exported_text(alloc: Global, row: &Row<'_>, pretty: bool) -> Result<String> {
    let items = items_in(alloc, &row.input)?;
    let (info, options) = (DocumentInfo::new(alloc), HtmlOptions { pretty });
    let text = export(alloc, &items, &info, &[], 50, &options, &())?;
    visible_text(alloc, &read_html(alloc, &text, DEEPEST)?)
}

fn visible_text(alloc: Global, root: &HtmlElement) -> Result<String> {
    let page = page_text(alloc, root)?;
    let mut text = String::new(alloc);
    for part in page.parts() {
        match part {
            Shown::Text(visible) => write!(text, "[{visible}]")?,
            Shown::Object(tag) => write!(text, "{tag}")?,
            Shown::LineBreak => text.push('/')?,
            Shown::Edge => text.push('|')?,
        }
    }
    Ok(text)
}

/// Returns what `read_page_bytes` reads, as browsers do: the tree's text, and recovered errors. With
/// the word `encoding`, the name of the page's encoding stands before it.
pub(crate) fn as_browsers(alloc: Global, row: &Row<'_>) -> Result<String> {
    let limit = row.number("limit", DEEPEST)?;
    ensure!(is_depth_limit(limit), "no limit");
    let (root, notes) = match read_page_bytes(alloc, &row.input, limit) {
        Ok(read) => read,
        Err(PageFault::OutOfMemory) => return Err(PageFault::OutOfMemory.into()),
        Err(fault) => return Ok(format!(in alloc; "refused, {fault}")?),
    };
    let text = html_in_bundle(alloc, &root, &HtmlOptions::default(), &())?;
    let mut shown = inner_text(alloc, &text, (DOCUMENT_TYPE, ""))?;
    if row.words.contains(&"encoding") {
        shown = format!(in alloc; "{} {shown}", notes.encoding.name())?;
    }
    add_notes(&notes, &mut shown)?;
    Ok(shown)
}

fn add_notes(notes: &PageNotes, shown: &mut String) -> Result<()> {
    for note in &notes.first {
        write!(shown, " ! {} at {}", note.error, note.place)?;
    }
    Ok(())
}

/// Returns what `read_fragment` reads, as browsers do: the nodes' text, and recovered errors.
pub(crate) fn fragment_as_browsers(alloc: Global, row: &Row<'_>) -> Result<String> {
    let limit = row.number("limit", DEEPEST)?;
    ensure!(is_depth_limit(limit), "no limit");
    let (nodes, notes) = match read_fragment(alloc, row.text()?, limit) {
        Ok(read) => read,
        Err(PageFault::OutOfMemory) => return Err(PageFault::OutOfMemory.into()),
        Err(fault) => return Ok(format!(in alloc; "refused, {fault}")?),
    };
    let mut shown = html_fragment(alloc, &nodes, &())?;
    add_notes(&notes, &mut shown)?;
    Ok(shown)
}

/// Returns the elements of a page of bytes, each with the place of its span in the decoded text.
pub(crate) fn element_places(alloc: Global, row: &Row<'_>) -> Result<String> {
    let page = decode_page_bytes(alloc, &row.input)?;
    let text = page.text.as_str();
    let (root, _) = read_page(alloc, text, DEEPEST)?;
    let mut places = Places::new(text);
    let mut shown = String::new(alloc);
    add_places(&root, &mut places, &mut shown)?;
    Ok(shown)
}

fn add_places(element: &HtmlElement, places: &mut Places<'_>, shown: &mut String) -> Result<()> {
    if !shown.is_empty() {
        shown.push(' ')?;
    }
    let place = places.at(usize::try_from(element.span.0)?);
    write!(shown, "{} {place}", element.tag.resolve())?;
    for child in &element.children {
        if let HtmlNode::Element(element) = child {
            add_places(element, places, shown)?;
        }
    }
    Ok(())
}
