//! Files of rows, and their runs.

use crate::row::Row;
use anyhow::{Context, Result, ensure};
use std::alloc::Global;
use std::process::ExitCode;
use std::{env, fs};

/// The greatest number of characters of a text that are printed.
const MOST_PRINTED: usize = 2000;

/// A runner of rows.
pub trait Caller {
    /// Returns the output of the row.
    fn output(&self, alloc: Global, row: &Row<'_>) -> Result<String>;
}

/// The number of rows that were run, and of those with another output.
#[derive(Clone, Copy)]
struct Counts {
    rows: u64,
    wrong: u64,
}

/// Runs the rows of the files that the program's arguments name, or else of each `NAME.rows` in the
/// current folder, and prints what differs and the number of rows. Returns success if each row has
/// its output. Fails if a file is not read, a line is no row, or there is none.
pub fn run_files<C: Caller>(rt: &HostRuntime, caller: &C) -> Result<ExitCode> {
    let mut counts = Counts { rows: 0, wrong: 0 };
    for name in &names(rt)? {
        run_file(rt, caller, name, &mut counts).context(format_args!("{name}"))?;
    }
    let Counts { rows, wrong } = counts;
    ensure!(rows != 0, "no rows");
    if wrong == 0 {
        println!(rt; "{rows} rows, each gives its output")?;
        return Ok(ExitCode::SUCCESS);
    }
    println!(rt; "{rows} rows, {wrong} of them give something else")?;
    Ok(ExitCode::FAILURE)
}

/// Returns the names of the files with rows: the arguments, or else all in this folder, sorted.
fn names(rt: &HostRuntime) -> Result<Vec<String>> {
    let mut names: Vec<String> = env::args(rt)?.collect(rt.alloc())?;
    if names.len() > 1 {
        names.remove(0);
    } else {
        names.clear();
        for entry in fs::read_dir(rt, ".")? {
            let entry = entry?;
            let name = entry.file_name();
            if name.ends_with(".rows") {
                names.push(name.to_string(rt.alloc())?)?;
            }
        }
        names.sort()?;
    }
    Ok(names)
}

fn run_file<C: Caller>(
    rt: &HostRuntime,
    caller: &C,
    name: &str,
    counts: &mut Counts,
) -> Result<()> {
    let text = fs::read_to_string(rt, name)?;
    let mut number = 0u64;
    for line in text.lines() {
        number = number.saturating_add(1);
        let row = Row::from_line(rt.alloc(), line);
        let row = row.context(format_args!("line {number}"))?;
        if let Some(row) = row {
            counts.rows = counts.rows.saturating_add(1);
            let given = given_by(rt.alloc(), caller, &row)?;
            if given != row.output {
                println!(rt; "{name}:{number}: {}", shortened(&given))?;
                println!(rt; "    in place of {}", shortened(&row.output))?;
                counts.wrong = counts.wrong.saturating_add(1);
            }
        }
    }
    Ok(())
}

fn given_by<C: Caller>(alloc: Global, caller: &C, row: &Row<'_>) -> Result<String> {
    match caller.output(alloc, row) {
        Ok(given) => Ok(given),
        Err(error) => Ok(format!(in alloc; "error: {error:#}")?),
    }
}

fn shortened(text: &str) -> &str {
    match text.char_indices().nth(MOST_PRINTED) {
        Some((end, _)) => text.get(..end).unwrap_or(text),
        None => text,
    }
}
