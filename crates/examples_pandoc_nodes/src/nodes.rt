//! Blocks and inlines, which hold others. `depth` is the number of levels that they may still nest.

use crate::table::{end_cell, place, widths};
use anyhow::{Context, Result, bail};
use examples_pandoc_writer::Writer;
use examples_pandoc_writer::json::{array, fields, number, tag_and_content, text};
use html_names::{HtmlTag, tag};
use serde_json::Value;
use std::alloc::Global;

/// The kind of the values of a list.
#[derive(Clone, Copy)]
pub enum Level {
    Block,
    Inline,
    /// The blocks of an entry of a list.
    Entry,
    /// A term and its meanings, each of which is a list of blocks.
    Definition,
    Meaning,
    /// Inlines that are not joined with those of other lines.
    Line,
}

#[cycle(write)]
pub fn values(to: &mut Writer, depth: usize, level: Level, list: &[Value]) -> Result<()> {
    let depth = depth.checked_sub(1).context("too deep")?;
    for value in list {
        match level {
            Level::Block => {
                let (kind, content) = tag_and_content(value)?;
                block(to, depth, kind, content).context(kind)?;
            }
            Level::Inline => {
                let (kind, content) = tag_and_content(value)?;
                inline(to, depth, kind, content).context(kind)?;
            }
            Level::Entry => {
                to.is_task = is_task(value);
                inside(to, depth, Level::Block, value)?;
                to.end(tag::li, "", None)?;
            }
            Level::Definition => {
                let [term, meanings] = fields::<2>(value)?;
                inside(to, depth, Level::Inline, term)?;
                to.end(tag::dt, "", None)?;
                values(to, depth, Level::Meaning, array(meanings)?)?;
            }
            Level::Meaning => {
                inside(to, depth, Level::Block, value)?;
                to.end(tag::dd, "", None)?;
            }
            Level::Line => {
                to.begin_next_line()?;
                values(to, depth, Level::Inline, array(value)?)?;
            }
        }
    }
    Ok(())
}

/// Begins a list, and adds values to it. The caller ends the list.
#[cycle(write)]
fn inside(to: &mut Writer, depth: usize, level: Level, list: &Value) -> Result<()> {
    to.begin()?;
    values(to, depth, level, array(list)?)
}

/// Adds a block. `Figure` is of pandoc 3, `Null` of earlier versions.
#[cycle(write)]
fn block(to: &mut Writer, depth: usize, kind: &str, content: &Value) -> Result<()> {
    match kind {
        "HorizontalRule" => return to.push(to.empty(tag::hr), None, None),
        "Null" => return Ok(()),
        _ => {}
    }
    let (level, list) = match (kind, array(content)?) {
        ("Table", _) => return table(to, depth, fields::<6>(content)?),
        ("Figure", _) => return figure(to, depth, fields::<3>(content)?),
        ("Para", [image]) if is_figure(image) => return image_figure(to, depth, content),
        ("CodeBlock", [attr, code]) => return to.code_block(attr, text(code)?),
        ("RawBlock", _) => return to.raw(content),
        ("Plain", words) => return plain(to, depth, words),
        ("Para", _) => (Level::Inline, content),
        ("LineBlock", _) => (Level::Line, content),
        ("BlockQuote", _) => (Level::Block, content),
        ("BulletList", _) => (Level::Entry, content),
        ("OrderedList", [_, entries]) => (Level::Entry, entries),
        ("DefinitionList", _) => (Level::Definition, content),
        ("Header", [_, _, words]) => (Level::Inline, words),
        ("Div", [_, blocks]) => (Level::Block, blocks),
        _ => bail!("no block"),
    };
    inside(to, depth, level, list)?;
    end_block(to, kind, array(content)?)
}

/// Ends a block that is an element.
fn end_block(to: &mut Writer, kind: &str, content: &[Value]) -> Result<()> {
    match (kind, content) {
        ("LineBlock", _) => to.end(tag::div, "line-block", None),
        ("BlockQuote", _) => to.end(tag::blockquote, "", None),
        ("BulletList", _) => to.end(tag::ul, "", None),
        ("OrderedList", [numbering, _]) => to.end_ordered_list(numbering),
        ("DefinitionList", _) => to.end(tag::dl, "", None),
        ("Header", [level, attr, _]) => to.end(heading(to.alloc, level)?, "", Some(attr)),
        ("Div", [attr, _]) => to.end(tag::div, "", Some(attr)),
        _ => to.end(tag::p, "", None),
    }
}

/// Adds a line that is no paragraph: a space separates it from the next.
#[cycle(write)]
fn plain(to: &mut Writer, depth: usize, words: &[Value]) -> Result<()> {
    to.begin_line()?;
    values(to, depth, Level::Inline, words)?;
    to.end_line();
    Ok(())
}

#[cycle(write)]
fn figure(to: &mut Writer, depth: usize, [attr, caption, blocks]: &[Value; 3]) -> Result<()> {
    inside(to, depth, Level::Block, blocks)?;
    inside(to, depth, Level::Block, &fields::<2>(caption)?[1])?;
    to.end_unless_empty(tag::figcaption, None)?;
    to.end(tag::figure, "", Some(attr))
}

/// Adds a figure of pandoc 2: a single image, whose alternative text is the caption too.
#[cycle(write)]
fn image_figure(to: &mut Writer, depth: usize, image: &Value) -> Result<()> {
    let words = image.pointer("/0/c/1").context("no image")?;
    inside(to, depth, Level::Inline, image)?;
    inside(to, depth, Level::Inline, words)?;
    to.end_unless_empty(tag::figcaption, None)?;
    to.end(tag::figure, "", None)
}

/// Adds a table: its caption, columns, head, bodies and foot.
#[cycle(write)]
fn table(to: &mut Writer, depth: usize, table: &[Value; 6]) -> Result<()> {
    let [attr, caption, columns, head, bodies, foot] = table;
    let columns = array(columns)?;
    to.begin()?;
    inside(to, depth, Level::Block, &fields::<2>(caption)?[1])?;
    to.end_unless_empty(tag::caption, None)?;
    widths(to, columns)?;
    let [head_attr, head_rows] = fields::<2>(head)?;
    to.begin()?;
    rows(to, depth, columns, head_rows, usize::MAX)?;
    to.end_unless_empty(tag::thead, Some(head_attr))?;
    for body in array(bodies)? {
        let [body_attr, heads, head_rows, body_rows] = fields::<4>(body)?;
        to.begin()?;
        rows(to, depth, columns, head_rows, usize::MAX)?;
        rows(to, depth, columns, body_rows, number(heads)?)?;
        to.end(tag::tbody, "", Some(body_attr))?;
    }
    let [foot_attr, foot_rows] = fields::<2>(foot)?;
    to.begin()?;
    rows(to, depth, columns, foot_rows, 0)?;
    to.end_unless_empty(tag::tfoot, Some(foot_attr))?;
    to.end(tag::table, "", Some(attr))
}

/// Adds rows, in which the first `heads` columns are heads.
#[cycle(write)]
fn rows(
    to: &mut Writer,
    depth: usize,
    columns: &[Value],
    rows: &Value,
    heads: usize,
) -> Result<()> {
    // (for each column, the number of rows, with the current one, that its last cell still takes)
    let mut taken: Vec<usize> = Vec::new(to.alloc);
    taken.resize(columns.len(), 0)?;
    for row in array(rows)? {
        let [attr, cells] = fields::<2>(row)?;
        let mut next = 0;
        for rows in &mut taken {
            *rows = rows.saturating_sub(1);
        }
        to.begin()?;
        for cell in array(cells)? {
            let cell = fields::<5>(cell)?;
            inside(to, depth, Level::Block, &cell[4])?;
            let (rows, across) = (number(&cell[2])?, number(&cell[3])?);
            let column = place(&mut taken, next, rows, across);
            end_cell(to, cell, columns.get(column), column < heads)?;
            next = column.saturating_add(across);
        }
        to.end(tag::tr, "", Some(attr))?;
    }
    Ok(())
}

/// Returns whether an inline is an image that its title makes a figure in pandoc 2.
fn is_figure(inline: &Value) -> bool {
    let kind = inline.get("t").and_then(Value::as_str);
    let title = inline.pointer("/c/2/1").and_then(Value::as_str);
    matches!(kind, Some("Image")) && title.is_some_and(|title| title.starts_with("fig:"))
}

/// Returns whether an entry of a list is a task: it begins with a box and a space.
fn is_task(entry: &Value) -> bool {
    let first = entry.pointer("/0/c/0/c").and_then(Value::as_str);
    let next = entry.pointer("/0/c/1/t").and_then(Value::as_str);
    matches!(first, Some("☐" | "☒")) && matches!(next, Some("Space"))
}

/// Returns the tag of a heading of that level. HTML has six.
fn heading(alloc: Global, level: &Value) -> Result<HtmlTag> {
    match level.as_u64().context("no number")? {
        level @ 1..=6 => Ok(HtmlTag::intern(alloc, &format!(in alloc; "h{level}")?)?),
        _ => Ok(tag::p),
    }
}

#[cycle(write)]
fn inline(to: &mut Writer, depth: usize, kind: &str, content: &Value) -> Result<()> {
    match kind {
        "Str" => return to.text(text(content)?),
        "Space" | "SoftBreak" => return Ok(to.list.space()?),
        "LineBreak" => return Ok(to.list.line_break()?),
        _ => {}
    }
    let (level, list) = match (kind, array(content)?) {
        ("Code", [attr, code]) => return to.line(tag::code, "", Some(attr), text(code)?),
        ("Math", [mode, math]) => return to.line(tag::span, class_of(mode)?, None, text(math)?),
        ("RawInline", _) => return to.raw(content),
        ("Note", _) => (Level::Block, content),
        ("Emph" | "Underline" | "Strong" | "Strikeout", _) => (Level::Inline, content),
        ("Superscript" | "Subscript" | "SmallCaps", _) => (Level::Inline, content),
        ("Quoted" | "Cite" | "Span", [_, words]) => (Level::Inline, words),
        ("Link" | "Image", [_, words, _]) => (Level::Inline, words),
        _ => bail!("no inline"),
    };
    begin_inline(to, kind, array(content)?)?;
    values(to, depth, level, array(list)?)?;
    end_inline(to, kind, array(content)?)
}

fn begin_inline(to: &mut Writer, kind: &str, content: &[Value]) -> Result<()> {
    match (kind, content) {
        ("Quoted", [quotes, _]) => Ok(to.list.text(marks(quotes)?.0)?),
        ("Image", _) => to.begin_plain(),
        _ => to.begin(),
    }
}

fn end_inline(to: &mut Writer, kind: &str, content: &[Value]) -> Result<()> {
    match (kind, content) {
        ("Emph", _) => to.end(tag::em, "", None),
        ("Underline", _) => to.end(tag::u, "", None),
        ("Strong", _) => to.end(tag::strong, "", None),
        ("Strikeout", _) => to.end(tag::del, "", None),
        ("Superscript", _) => to.end(tag::sup, "", None),
        ("Subscript", _) => to.end(tag::sub, "", None),
        ("SmallCaps", _) => to.end(tag::span, "smallcaps", None),
        ("Quoted", [quotes, _]) => Ok(to.list.text(marks(quotes)?.1)?),
        ("Cite", [works, _]) => to.end_citation(works),
        ("Span", [attr, _]) => to.end(tag::span, "", Some(attr)),
        ("Link", [attr, _, target]) => to.end_link(attr, target),
        ("Image", [attr, _, target]) => to.end_image(attr, target),
        _ => to.end_note(),
    }
}

fn class_of(mode: &Value) -> Result<&'static str> {
    match tag_and_content(mode)?.0 {
        "DisplayMath" => Ok("math display"),
        "InlineMath" => Ok("math inline"),
        mode => bail!("no mode of mathematics: {mode:?}"),
    }
}

fn marks(quotes: &Value) -> Result<(&'static str, &'static str)> {
    match tag_and_content(quotes)?.0 {
        "SingleQuote" => Ok(("‘", "’")),
        "DoubleQuote" => Ok(("“", "”")),
        quotes => bail!("no quotes: {quotes:?}"),
    }
}
