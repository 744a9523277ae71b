//! Lists that grow item by item, with notes.
//!
//! Such a list is spelled by the calls that fill it: `["text",t]`, `["space"]`, `["break"]`,
//! `["el",tag,[[name,value],..],list]`, with `null` for no body and perhaps css after it, a
//! further list of names and values; `["mark",key]`, `["note",list]`, which marks a note of that
//! content, `["set",key,list]`; and `["items",items]` for items of another kind, as
//! `tests_rows_items` spells them. A list is the body of a block by `into_block_items`, as those of
//! notes and of the page are, and that of any other element by `into_items`.

use crate::runs::{PLAIN, inner_text};
use anyhow::{Result, bail, ensure};
use html_dom_document::DocumentInfo;
use html_dom_tree::{HtmlElement, HtmlNode, Span};
use html_flow_convert::{HtmlElem, Pair, makes_block};
use html_flow_lists::{ItemList, Notes};
use html_names_core::{HtmlAttr, HtmlTag, tag};
use html_page_text::{PageText, Shown, page_text};
use serde_json::Value;
use std::alloc::Global;
use tests_rows_items::{items_of, list_of, text_of};
use tests_rows_run::Row;
use typst_html_encode::HtmlOptions;
use typst_html_export::export_linked;
use typst_html_read::read_html;

/// The greatest depth of bodies.
const DEPTH_LIMIT: usize = 50;

/// Returns the page of a list and its notes, without what stands around the content of the body.
pub(crate) fn page(alloc: Global, row: &Row<'_>) -> Result<String> {
    inner_text(alloc, &exported(alloc, row)?, PLAIN)
}

/// Returns the lines that the page of a list shows, with `/` between them. They must hold each
/// character of the page's texts.
pub(crate) fn lines(alloc: Global, row: &Row<'_>) -> Result<String> {
    let root = read_html(alloc, &exported(alloc, row)?, DEPTH_LIMIT)?;
    let page = page_text(alloc, &root)?;
    let mut written = String::new(alloc);
    add_texts(&mut written, &root)?;
    ensure!(
        written == shown_texts(alloc, &page)?,
        "not all is shown: {written:?}"
    );
    lines_of(alloc, &page)
}

fn exported(alloc: Global, row: &Row<'_>) -> Result<String> {
    let mut notes = Notes::new(alloc);
    let mut list = ItemList::new(alloc).spanned(Span(1));
    let calls = Value::from_slice(alloc, &row.input)?;
    add_all(list_of(&calls)?, alloc, &mut list, &mut notes)?;
    let (items, section) = (list.into_block_items(), notes.section()?);
    let (info, options) = (DocumentInfo::new(alloc), HtmlOptions::default());
    Ok(export_linked(alloc, &items, &info, &section, DEPTH_LIMIT, &options, &())?)
}

fn add_texts(texts: &mut String, element: &HtmlElement) -> Result<()> {
    for child in &element.children {
        match child {
            HtmlNode::Text(text, _) => texts.push_str(text)?,
            HtmlNode::Element(element) => add_texts(texts, element)?,
            _ => {}
        }
    }
    Ok(())
}

fn shown_texts(alloc: Global, page: &PageText) -> Result<String> {
    let mut texts = String::new(alloc);
    for part in page.parts() {
        if let Shown::Text(text) = part {
            texts.push_str(text)?;
        }
    }
    Ok(texts)
}

fn lines_of(alloc: Global, page: &PageText) -> Result<String> {
    let mut lines = String::new(alloc);
    let mut is_behind_line = false;
    for part in page.parts() {
        match part {
            Shown::Text(text) => {
                if is_behind_line && !lines.is_empty() {
                    lines.push('/')?;
                }
                is_behind_line = false;
                lines.push_str(text)?;
            }
            Shown::Object(_) => {}
            Shown::LineBreak | Shown::Edge => is_behind_line = true,
        }
    }
    Ok(lines)
}

// The calls come first among the parameters: their depth proves that the recursion ends.

/// Makes the calls of a list that is spelled.
#[cycle(list)]
fn add_all(calls: &[Value], alloc: Global, list: &mut ItemList, notes: &mut Notes) -> Result<()> {
    for call in calls {
        add(call, alloc, list, notes)?;
    }
    Ok(())
}

#[cycle(list)]
fn add(call: &Value, alloc: Global, list: &mut ItemList, notes: &mut Notes) -> Result<()> {
    let Value::Array(fields) = call else {
        bail!("a call is wanted");
    };
    match fields.as_slice() {
        [kind, tag, attrs, body, css @ ..] if kind.as_str() == Some("el") => {
            let element = element_of(alloc, list, tag, attrs, css)?;
            let element = with_body(body, alloc, list, notes, element)?;
            list.element(element)?;
        }
        [kind, content] if kind.as_str() == Some("note") => {
            let content = content_of(content, alloc, list, notes)?;
            list.item(Pair::from(notes.mark(content, list.span())?))?;
        }
        [kind, key, content] if kind.as_str() == Some("set") => {
            let content = content_of(content, alloc, list, notes)?;
            let _ = notes.set(text_of(key)?, content);
        }
        [kind, fields @ ..] => add_leaf(alloc, list, notes, text_of(kind)?, fields)?,
        [] => bail!("a call is wanted"),
    }
    Ok(())
}

/// Makes a call that takes no list.
fn add_leaf(
    alloc: Global,
    list: &mut ItemList,
    notes: &mut Notes,
    kind: &str,
    fields: &[Value],
) -> Result<()> {
    match (kind, fields) {
        ("text", [text]) => list.text(text_of(text)?)?,
        ("space", []) => list.space()?,
        ("break", []) => list.line_break()?,
        ("mark", [key]) => list.item(Pair::from(notes.mark_key(text_of(key)?, list.span())?))?,
        ("items", [items]) => {
            for item in items_of(alloc, items)? {
                list.item(item)?;
            }
        }
        (kind, _) => bail!("no call: {kind}"),
    }
    Ok(())
}

/// Returns the content of a note.
#[cycle(list)]
fn content_of(
    calls: &Value,
    alloc: Global,
    around: &ItemList,
    notes: &mut Notes,
) -> Result<Vec<Pair>> {
    let Value::Array(calls) = calls else {
        bail!("a list is wanted");
    };
    let mut list = around.new_list();
    add_all(calls, alloc, &mut list, notes)?;
    Ok(list.into_block_items())
}

#[cycle(list)]
fn with_body(
    calls: &Value,
    alloc: Global,
    around: &ItemList,
    notes: &mut Notes,
    element: HtmlElem,
) -> Result<HtmlElem> {
    let Value::Array(calls) = calls else {
        ensure!(calls.is_null(), "a list is wanted");
        return Ok(element);
    };
    let mut list = around.new_list();
    add_all(calls, alloc, &mut list, notes)?;
    Ok(if makes_block(&element.css) || tag::is_whitespace_collapsing(&element.tag) {
        element.with_body(list.into_block_items())
    } else {
        element.with_body(list.into_items())
    })
}

fn element_of(
    alloc: Global,
    list: &ItemList,
    tag: &Value,
    attrs: &Value,
    css: &[Value],
) -> Result<HtmlElem> {
    let mut element = list.new_element(HtmlTag::intern(alloc, text_of(tag)?)?);
    for attr in list_of(attrs)? {
        let (name, value) = two_texts(attr)?;
        element = element.with_attr_text(HtmlAttr::intern(alloc, name)?, value)?;
    }
    for properties in css {
        for property in list_of(properties)? {
            let (name, value) = two_texts(property)?;
            element.css.push(name, value.to_string(alloc)?)?;
        }
    }
    Ok(element)
}

fn two_texts(value: &Value) -> Result<(&str, &str)> {
    let [name, value] = list_of(value)? else {
        bail!("a name and a value are wanted");
    };
    Ok((text_of(name)?, text_of(value)?))
}
