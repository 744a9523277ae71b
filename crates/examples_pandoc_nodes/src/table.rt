//! The cells of tables, which may take several rows and columns, and the widths of columns.

use anyhow::{Context, Result, bail};
use examples_pandoc_writer::json::{fields, tag_and_content};
use examples_pandoc_writer::{Writer, with_number};
use html_names::{attr, tag};
use serde_json::Value;

/// Returns the column of a cell: the first from `from` on that no cell above takes. Marks it and
/// those after it, `across` in all, as taken for `rows` rows.
pub fn place(taken: &mut [usize], from: usize, rows: usize, across: usize) -> usize {
    let above = taken.iter().skip(from).take_while(|rows| **rows > 0);
    let column = from.saturating_add(above.count());
    for left in taken.iter_mut().skip(column).take(across) {
        *left = rows;
    }
    column
}

/// Ends a cell. Its text is aligned as the cell says, or else its column.
pub fn end_cell(
    to: &mut Writer,
    [attr, own, rows, across, _]: &[Value; 5],
    column: Option<&Value>,
    is_head: bool,
) -> Result<()> {
    let side = match (side(own)?, column) {
        ("", Some(column)) => side(&fields::<2>(column)?[0])?,
        (own, _) => own,
    };
    let mut elem = to.empty(if is_head { tag::th } else { tag::td });
    if !side.is_empty() {
        elem.css.push("text-align", side.to_string(to.alloc)?)?;
    }
    let elem = with_number(elem, attr::rowspan, rows)?;
    to.end_with(with_number(elem, attr::colspan, across)?, Some(attr))
}

/// Returns the side of an alignment, or an empty text if it has none.
fn side(alignment: &Value) -> Result<&'static str> {
    match tag_and_content(alignment)?.0 {
        "AlignLeft" => Ok("left"),
        "AlignRight" => Ok("right"),
        "AlignCenter" => Ok("center"),
        "AlignDefault" => Ok(""),
        name => bail!("no alignment: {name:?}"),
    }
}

/// Adds the widths of columns, as percentages, if any is given.
pub fn widths(to: &mut Writer, columns: &[Value]) -> Result<()> {
    let mut are_given = false;
    to.begin()?;
    for column in columns {
        let mut elem = to.empty(tag::col);
        match tag_and_content(&fields::<2>(column)?[1])? {
            ("ColWidth", part) => {
                let percent = part.as_f64().context("no number")? * 100.0;
                elem.css
                    .push("width", format!(in to.alloc; "{percent:.2}%")?)?;
                are_given = true;
            }
            ("ColWidthDefault", _) => {}
            (name, _) => bail!("no width: {name:?}"),
        }
        to.list.element(elem)?;
    }
    if are_given {
        return to.end(tag::colgroup, "", None);
    }
    let _ = to.end_list();
    Ok(())
}
