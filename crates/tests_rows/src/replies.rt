//! Calls of the library for C, and their replies.

use anyhow::Result;
use std::alloc::Global;
use tests_rows_run::Row;
use typst_html_ffi::{
    Reply, typst_html_check, typst_html_dead_links, typst_html_document, typst_html_fragment,
    typst_html_links, typst_html_unused, typst_html_version, typst_html_write,
};

/// Returns the reply to a call whose buffer is full of points, and the buffer after it.
pub(crate) fn reply(alloc: Global, row: &Row<'_>, call: &str) -> Result<String> {
    let mut output = Vec::from_elem(alloc, b'.', row.number("room", 0)?)?;
    let reply = reply_to(alloc, row, call, &mut output)?;
    Ok(format!(in alloc; "{reply:?} {}", str::from_utf8(&output)?)?)
}

fn reply_to(alloc: Global, row: &Row<'_>, call: &str, output: &mut [u8]) -> Result<Reply> {
    let limit = u32::try_from(row.number("limit", 50)?)?;
    Ok(match call {
        "c-check" => typst_html_check(alloc, limit, &row.input, output),
        "c-dead-links" => typst_html_dead_links(alloc, limit, &row.input, output),
        "c-fragment" => {
            typst_html_fragment(alloc, small(row, "level")?, limit, &row.input, output)
        }
        "c-links" => typst_html_links(alloc, limit, &row.input, output),
        "c-unused" => typst_html_unused(alloc, limit, &row.input, output),
        "c-document" => {
            let (layout, links) = (small(row, "layout")?, small(row, "links")?);
            typst_html_document(alloc, layout, links, limit, &row.input, output)
        }
        _ => {
            let (kind, layout) = (small(row, "kind")?, small(row, "layout")?);
            typst_html_write(alloc, kind, layout, &row.input, output)
        }
    })
}

fn small(row: &Row<'_>, name: &str) -> Result<u8> {
    Ok(u8::try_from(row.number(name, 0)?)?)
}

pub(crate) fn version(alloc: Global) -> Result<String> {
    Ok(format!(in alloc; "{}", typst_html_version())?)
}
