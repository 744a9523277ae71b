//! The page of a document: its visible part, and the information about it.

use anyhow::{Context, Error, Result, bail};
use examples_pandoc_nodes::{Level, values};
use examples_pandoc_writer::Writer;
use examples_pandoc_writer::json::{array, tag_and_content, text};
use html_page::{element_at, misnested};
use serde_json::{Map, Value};
use std::alloc::Global;
use std::slice;
use typst_html::{
    DocumentInfo, ExportFault, HtmlDocument, HtmlElement, HtmlOptions, Locale, Span, dead_links,
    html, html_document, resolve_links, tag,
};

/// The greatest depth of blocks, inlines or items. JSON of 127 levels holds fewer.
const DEPTH_LIMIT: usize = 200;

/// Returns the page of a document of pandoc, with warnings about content that can't be written as
/// it is or that browsers would move. Raw HTML is shown as a text, or dropped. Fails for a value
/// that is no document.
pub fn page(
    alloc: Global,
    document: &Value,
    pretty: bool,
    raw_as_text: bool,
) -> Result<(String, Vec<String>)> {
    let meta = document.get("meta").and_then(Value::as_object);
    let meta = meta.context("no document of pandoc: no `meta`")?;
    let blocks = document.get("blocks").and_then(Value::as_array);
    let blocks = blocks.context("no document of pandoc: no `blocks`")?;
    let info = info(alloc, meta).context("no document of pandoc: `meta`")?;
    let mut to = Writer::new(alloc, raw_as_text);
    to.add_ids(DEPTH_LIMIT, document)?;
    let writer = written(to, meta, blocks)?;
    let (made, warnings) = linked(writer, &info)?;
    let html = html(alloc, &made, &HtmlOptions { pretty }, &()).map_err(with_block)?;
    Ok((html, warnings))
}

/// Writes the visible part of a document. The span of everything in a block is its number.
fn written(mut to: Writer, meta: &Map<String, Value>, blocks: &[Value]) -> Result<Writer> {
    title_block(&mut to, meta).context("no document of pandoc: `meta`")?;
    for (block, number) in blocks.iter().zip(1u64..) {
        to.list.set_span(Span(number));
        let written = values(&mut to, DEPTH_LIMIT, Level::Block, slice::from_ref(block));
        written.context(format_args!("no document of pandoc: block {number}"))?;
    }
    Ok(to)
}

/// Returns the information for the head of the page.
fn info(alloc: Global, meta: &Map<String, Value>) -> Result<DocumentInfo> {
    let mut info = DocumentInfo::new(alloc);
    for (name, value) in meta {
        match name.as_str() {
            "title" => info.title = Some(plain(alloc, value)?),
            "description" => info.description = Some(plain(alloc, value)?),
            "lang" => info.locale = Some(Locale::new(plain(alloc, value)?)),
            "author" => info.author = all_plain(alloc, value)?,
            "keywords" => info.keywords = all_plain(alloc, value)?,
            _ => {}
        }
    }
    Ok(info)
}

/// Returns the values of a list, or else the value itself.
fn several(value: &Value) -> Result<&[Value]> {
    match tag_and_content(value)? {
        ("MetaList", values) => array(values),
        _ => Ok(slice::from_ref(value)),
    }
}

fn all_plain(alloc: Global, value: &Value) -> Result<Vec<String>> {
    let mut texts = Vec::new(alloc);
    for value in several(value)? {
        texts.push(plain(alloc, value)?)?;
    }
    Ok(texts)
}

/// Returns the text of a value.
fn plain(alloc: Global, value: &Value) -> Result<String> {
    let mut to = Writer::new(alloc, false);
    to.begin_plain()?;
    known(&mut to, value)?;
    to.end_plain()
}

/// Adds a value of the metadata, if it has a text.
fn known(to: &mut Writer, value: &Value) -> Result<()> {
    match tag_and_content(value)? {
        ("MetaInlines", words) => values(to, DEPTH_LIMIT, Level::Inline, array(words)?),
        ("MetaBlocks", blocks) => values(to, DEPTH_LIMIT, Level::Block, array(blocks)?),
        ("MetaString", words) => Ok(to.list.text(text(words)?)?),
        ("MetaMap" | "MetaList" | "MetaBool", _) => Ok(()),
        (name, _) => bail!("no value: {name:?}"),
    }
}

/// Adds title, subtitle, authors, date and abstract, if there is a title.
fn title_block(to: &mut Writer, meta: &Map<String, Value>) -> Result<()> {
    if meta.get("title").is_none() {
        return Ok(());
    }
    to.begin()?;
    for name in ["title", "subtitle", "author", "date", "abstract"] {
        if let Some(value) = meta.get(name) {
            titling(to, name, several(value)?, meta.get("abstract-title"))?;
        }
    }
    to.end_unless_empty(tag::header, None)
}

/// Adds titles with that name. Like pandoc, gives an abstract a title of its own.
fn titling(to: &mut Writer, name: &str, titles: &[Value], above: Option<&Value>) -> Result<()> {
    for title in titles {
        let list = title.get("c").and_then(Value::as_array);
        if list.is_some_and(|list| list.is_empty()) {
            continue;
        }
        to.begin()?;
        if name == "abstract" {
            to.begin()?;
            match above {
                Some(above) => known(to, above)?,
                None => to.list.text("Abstract")?,
            }
            to.end(tag::div, "abstract-title", None)?;
        }
        known(to, title)?;
        let tag = match name {
            "title" => tag::h1,
            "abstract" => tag::div,
            _ => tag::p,
        };
        to.end(tag, name, None)?;
    }
    Ok(())
}

/// Returns the document of the written items, with links resolved, and warnings of dead ones.
fn linked(writer: Writer, info: &DocumentInfo) -> Result<(HtmlDocument, Vec<String>)> {
    let (alloc, places, mut warnings) = (writer.alloc, writer.places, writer.warnings);
    let (items, notes) = (writer.list.into_block_items(), writer.notes.section()?);
    let made = html_document(alloc, &items, info, &notes, DEPTH_LIMIT);
    let mut made = made.map_err(with_block)?;
    for link in &dead_links(alloc, &made)? {
        let (block, name) = (link.span.0, places.name(link.dest).unwrap_or_default());
        warnings.push(format!(in alloc; "block {block}: a link to no place: {name:?}")?)?;
    }
    resolve_links(alloc, &mut made)?;
    add_misnested(alloc, made.root(), &mut warnings)?;
    Ok((made, warnings))
}

/// Adds warnings of nodes that browsers would move.
fn add_misnested(alloc: Global, root: &HtmlElement, warnings: &mut Vec<String>) -> Result<()> {
    for node in &misnested(alloc, root)? {
        let (block, why) = (node.span.0, node.why);
        let name = element_at(root, &node.path).map_or("#text", |found| found.tag.resolve());
        warnings.push(format!(in alloc;
            "block {block}: a browser reads {name:?} otherwise: it {why}"
        )?)?;
    }
    Ok(())
}

/// Adds to a fault the block that it is in.
fn with_block(fault: ExportFault) -> Error {
    match (fault.number(), fault.span()) {
        (0, _) => Error::from(fault),
        (_, Span(0)) => Error::from(fault).context("what is known of the document"),
        (_, Span(block)) => Error::from(fault).context(format_args!("block {block}")),
    }
}
