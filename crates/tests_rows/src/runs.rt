//! Runs of the program, and their outputs.
//!
//! The output of a run is
//!
//! - `refused 12 at 4` if the number and the span of a refusal are written,
//! - `wrong words` if `bad input` alone is written since the words are wrong, and nothing is read,
//! - `bad input at 2` if `bad input` alone is written since a value does not have the form, and
//!   `bad input at line 1 column 5` if the input is no JSON: with the place that the library reports
//!   of the same input,
//! - otherwise the text: for a tree everything after the document type; for items the content of
//!   the body, if all around it is as in a document without information, else the whole text. The
//!   line feeds that `--pretty` writes at the beginning and at the end are left out, too.

use anyhow::{Context, Result, bail, ensure};
use std::alloc::Global;
use tests_rows_run::Row;
use typst_html_run::{Fault, InputPlace, Status, Task, run, text_of_input, wanted_task};

/// The text before and after the body of a document without information.
pub(crate) const PLAIN: (&str, &str) = (
    concat!(
        r#"<!DOCTYPE html><html lang="en"><head><meta charset="utf-8">"#,
        r#"<meta name="viewport" content="width=device-width, initial-scale=1"></head><body>"#,
    ),
    "</body></html>",
);

/// The same in pretty text.
const PRETTY: (&str, &str) = (
    concat!(
        "<!DOCTYPE html>\n<html lang=\"en\">\n  <head>\n    <meta charset=\"utf-8\">\n",
        "    <meta name=\"viewport\" content=\"width=device-width, initial-scale=1\">\n",
        "  </head>\n  <body>",
    ),
    "\n  </body>\n</html>\n",
);

pub(crate) fn output(alloc: Global, row: &Row<'_>) -> Result<String> {
    let words = words_of(alloc, row)?;
    let mut reader = row.input.as_slice();
    let mut written = Vec::new(alloc);
    let status = run(alloc, &mut reader, &mut written, &words);
    let text = String::from_utf8(written)?;
    match status {
        Status::Done => inner_text(alloc, &text, frame_of(&row.words)),
        Status::Refused => {
            let refusal = text.strip_prefix("refused: ").context("no refusal")?;
            let line = refusal.strip_suffix('\n').context("no line")?;
            Ok(format!(in alloc; "refused {line}")?)
        }
        Status::BadInput => {
            ensure!(text.as_str() == "bad input\n", "{text}");
            bad_input(alloc, row, &words, reader)
        }
        Status::Failed => Ok(String::from_str(alloc, "failed")?),
    }
}

/// Returns the output of a run that wrote `bad input` and left these bytes of the input unread.
fn bad_input(alloc: Global, row: &Row<'_>, words: &[String], unread: &[u8]) -> Result<String> {
    if let Some((task, pretty)) = wanted_task(words) {
        return bad_input_at(alloc, &row.input, task, pretty);
    }
    ensure!(unread == row.input.as_slice(), "something was read");
    Ok(String::from_str(alloc, "wrong words")?)
}

/// Returns the words for the place that the library reports of an input that is bad.
fn bad_input_at(alloc: Global, input: &[u8], task: Task, pretty: bool) -> Result<String> {
    match text_of_input(alloc, input, task, pretty) {
        Err(Fault::BadInput(InputPlace::Form(number))) => {
            Ok(format!(in alloc; "bad input at {number}")?)
        }
        Err(Fault::BadInput(InputPlace::Text(line, column))) => {
            Ok(format!(in alloc; "bad input at line {line} column {column}")?)
        }
        _ => bail!("the library reports no place"),
    }
}

fn words_of(alloc: Global, row: &Row<'_>) -> Result<Vec<String>> {
    let mut words = Vec::new(alloc);
    for word in &row.words {
        words.push(String::from_str(alloc, word)?)?;
    }
    Ok(words)
}

/// Returns the text around the part that is compared.
fn frame_of(words: &[&str]) -> (&'static str, &'static str) {
    match words {
        ["tree"] => ("<!DOCTYPE html>", ""),
        ["tree", ..] => ("<!DOCTYPE html>\n", "\n"),
        ["doc"] => PLAIN,
        _ => PRETTY,
    }
}

/// Returns the part of a text between these two, or else the whole text.
pub(crate) fn inner_text(
    alloc: Global,
    text: &str,
    (before, behind): (&str, &str),
) -> Result<String> {
    if let Some(rest) = text.strip_prefix(before)
        && let Some(part) = rest.strip_suffix(behind)
    {
        return Ok(String::from_str(alloc, part)?);
    }
    Ok(String::from_str(alloc, text)?)
}
