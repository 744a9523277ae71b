//! The documents that items become.

ghost use Rattle.std.specs.Prelude.{◌≤◌};

use crate::runs::{PLAIN, inner_text};
use anyhow::{Context, Result, bail, ensure};
use html_anchors::resolve_links;
use html_dom_document::{DocumentInfo, HtmlDocument};
use html_dom_tree::Location;
use html_flow_convert::{ConversionLevel, is_depth_limit};
use serde_json::Value;
use std::alloc::Global;
use tests_frames::OneText;
use tests_rows_items::{items_in, items_of};
use tests_rows_run::Row;
use typst_html_encode::{ExportFault, HtmlOptions};
use typst_html_export::{
    export, export_fragment, export_linked, export_with_head, html_document_with_head,
};
use typst_html_json::{SpelledDocument, document_in};

/// The greatest depth of bodies, unless a row gives one.
const DEPTH_LIMIT: usize = 50;

/// The search for locations ends below this one.
const LOCATIONS: u64 = 100;

#[derive(Drop)]
struct Given {
    alloc: Global,
    spelled: SpelledDocument,
    limit: usize,
    ghost some_limit: { 1 ≤ limit },
    ghost low_limit: { limit ≤ 10000 },
}

impl Given {
    fn new(alloc: Global, row: &Row<'_>) -> Result<Given> {
        let limit = row.number("limit", DEPTH_LIMIT)?;
        ensure!(is_depth_limit(limit), "no limit");
        let spelled = spelled_in(alloc, &row.input)?;
        Ok(Given {
            alloc,
            spelled,
            limit,
        })
    }

    fn document(&self) -> Result<HtmlDocument, ExportFault> {
        let SpelledDocument {
            info,
            items,
            footnotes,
            head,
        } = &self.spelled;
        html_document_with_head(self.alloc, items, info, head, footnotes, self.limit)
    }
}

pub(crate) fn document_of(alloc: Global, row: &Row<'_>) -> Result<HtmlDocument> {
    let given = Given::new(alloc, row)?;
    Ok(given.document()?)
}

pub(crate) fn linked_of(alloc: Global, row: &Row<'_>) -> Result<HtmlDocument> {
    let mut document = document_of(alloc, row)?;
    resolve_links(alloc, &mut document)?;
    Ok(document)
}

/// Returns the document that a JSON text spells: of items alone, or of an object.
fn spelled_in(alloc: Global, json: &[u8]) -> Result<SpelledDocument> {
    let value = Value::from_slice(alloc, json)?;
    if value.as_object().is_some() {
        return document_in(alloc, &value)
            .ok()
            .context("a document is wanted");
    }
    Ok(SpelledDocument {
        info: DocumentInfo::new(alloc),
        items: items_of(alloc, &value)?,
        footnotes: Vec::new(alloc),
        head: Vec::new(alloc),
    })
}

/// Returns the words for a refusal: its number and span, the name of an element that is not alone,
/// and the spans of further footnotes.
fn refusal(alloc: Global, fault: &ExportFault) -> Result<String> {
    let mut text = format!(in alloc; "refused {} at {}", fault.number(), fault.span().0)?;
    match fault {
        ExportFault::NotAlone { tag, .. } => write!(text, " {tag}")?,
        ExportFault::Footnotes { spans } => {
            for span in spans.iter().skip(1) {
                write!(text, " {}", span.0)?;
            }
        }
        _ => {}
    }
    Ok(text)
}

pub(crate) fn text(alloc: Global, row: &Row<'_>, linked: bool) -> Result<String> {
    let Given { spelled, limit, .. } = &Given::new(alloc, row)?;
    let SpelledDocument {
        info,
        items,
        footnotes,
        head,
    } = spelled;
    let (options, frames) = (HtmlOptions::default(), OneText::new(alloc)?);
    let text = if linked {
        ensure!(head.is_empty(), "no call resolves links and takes a head");
        export_linked(alloc, items, info, footnotes, *limit, &options, &frames)
    } else if head.is_empty() {
        export(alloc, items, info, footnotes, *limit, &options, &frames)
    } else {
        export_with_head(
            alloc, items, info, head, footnotes, *limit, &options, &frames,
        )
    };
    match text {
        Ok(text) => inner_text(alloc, &text, PLAIN),
        Err(fault) => refusal(alloc, &fault),
    }
}

/// Returns the text of items by themselves, or the refusal.
pub(crate) fn fragment_text(alloc: Global, row: &Row<'_>) -> Result<String> {
    let level = match row.words.as_slice() {
        [_, "block", ..] => ConversionLevel::Block,
        [_, "inline", ..] => ConversionLevel::Inline,
        _ => bail!("a level is wanted"),
    };
    let items = items_in(alloc, &row.input)?;
    let limit = row.number("limit", DEPTH_LIMIT)?;
    ensure!(is_depth_limit(limit), "no limit");
    match export_fragment(alloc, &items, level, limit, &OneText::new(alloc)?) {
        Ok(text) => Ok(text),
        Err(fault) => refusal(alloc, &fault),
    }
}

pub(crate) fn anchors(alloc: Global, row: &Row<'_>) -> Result<String> {
    let (document, mut anchors) = (document_of(alloc, row)?, String::new(alloc));
    for location in &document.introspector().link_targets()? {
        if let Some(anchor) = document.introspector().anchor(*location) {
            separate(&mut anchors)?;
            write!(anchors, "{} {anchor}", location.0)?;
        }
    }
    Ok(anchors)
}

pub(crate) fn positions(alloc: Global, row: &Row<'_>) -> Result<String> {
    let (document, mut positions) = (document_of(alloc, row)?, String::new(alloc));
    for number in 0..LOCATIONS {
        if let Some(position) = document.introspector().position(Location(number)) {
            separate(&mut positions)?;
            write!(positions, "{number} at")?;
            for index in position.path() {
                write!(positions, " {index}")?;
            }
        }
    }
    Ok(positions)
}

pub(crate) fn separate(text: &mut String) -> Result<()> {
    if !text.is_empty() {
        text.push_str(", ")?;
    }
    Ok(())
}
