//! A writer for pandoc: reads its document tree in JSON from standard input, and writes an HTML
//! page to standard output, in which all inner links lead.
//!
//! ```text
//! pandoc -t json README.md | (cd crates/examples_pandoc && rt try)
//! ```
//!
//! Reports content that can't be written as it is on standard error, with the number of its block:
//! a link to no place, raw HTML (dropped, or shown as a text with `--raw-text`), an `id` that an
//! earlier element has, an attribute without a name, a script as an address, and what browsers
//! would move (such as a link in a link, which a note in a link is). Drops raw comments, and turns
//! a raw `<br>` into a line break. Adds `data-` in front of attributes that may do harm. Exits with
//! 0 if a page is written, with 2 if the arguments are wrong, and with 1 otherwise.
#![tactic(auto)]

mod document;

use anyhow::{Context, Result};
use clap::{ArgMatches, Command, arg};
use document::page;
use serde_json::Value;
use std::alloc::Global;
use std::env;
use std::io::Read;
use std::process::ExitCode;

fn main(rt: HostRuntime) -> ExitCode {
    match run(&rt) {
        Ok(code) => code,
        Err(error) => {
            let _ = eprintln!(rt; "examples_pandoc: {error:#}");
            ExitCode::FAILURE
        }
    }
}

/// Parses the arguments, writes the page, and returns the exit status.
fn run(rt: &HostRuntime) -> Result<ExitCode> {
    let words: Vec<String> = env::args(rt)?.collect(rt.alloc())?;
    match command(rt.alloc())?.try_get_matches_from(&words) {
        Ok(matches) => write_page(rt, &matches),
        Err(error) => {
            error.print(rt)?;
            Ok(ExitCode::from(u8::try_from(error.exit_code())?))
        }
    }
}

/// Describes the command line.
fn command<'a>(alloc: Global) -> Result<Command<'a>> {
    let command = Command::new(alloc, "examples_pandoc")
        .about("Makes an HTML page of pandoc's JSON on standard input")
        .arg(arg!(in alloc; --pretty "Lay the text out with indents"))?
        .arg(arg!(in alloc; --"raw-text" "Show raw HTML as a text instead of dropping it"))?;
    Ok(command)
}

/// Reads the tree, writes the page and its warnings, and returns the exit status.
fn write_page(rt: &HostRuntime, matches: &ArgMatches<'_>) -> Result<ExitCode> {
    let mut input = Vec::new(rt.alloc());
    let _ = rt.stdin().read_to_end(&mut input)?;
    let (pretty, raw_as_text) = (matches.get_flag("pretty"), matches.get_flag("raw-text"));
    let document = Value::from_slice(rt.alloc(), &input).context("no document of pandoc")?;
    let (html, warnings) = page(rt.alloc(), &document, pretty, raw_as_text)?;
    for warning in &warnings {
        eprintln!(rt; "{warning}")?;
    }
    println!(rt; "{html}").context("standard output")?;
    Ok(ExitCode::SUCCESS)
}
