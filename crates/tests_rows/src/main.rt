//! Runs the rows of files, and prints what differs. Without arguments, it takes each `NAME.rows` in
//! its current folder.
//!
//! ```text
//! cd crates/tests_rows && rt try -- data/trees.rows data/links.rows
//! ```
//!
//! A row is a line of three fields, `words | input | output`, split at the first two ` | `. Lines
//! that begin with `#` are comments. If the output of a row differs, it is printed with its file
//! and line.
//!
//! - The input is taken as it is, unless `escaped` is the last of the words: then it is read like
//!   the output, and `\xff` is a byte.
//! - In the output `\n`, `\r`, `\t`, `\\` and `\u{20}` stand for characters.
//! - In both, `⟨500*<p>⟩` stands for that many copies, in which each `%` is the number of the copy,
//!   from 1; `⟨100..fdcf⟩` for each character from U+0100 to U+FDCF.
//!
//! A row whose first word names no call of the library is a run of the program with these words,
//! whose output [`runs`] describes; [`calls`] describes that of a call.
//!
//! Exits with 0 if all rows have their outputs, and with 1 otherwise.
#![tactic(auto)]

mod calls;
mod checks;
mod cleaned;
mod documents;
mod kinds;
mod lists;
mod nodes;
mod pages;
mod replies;
mod runs;

use crate::calls::Library;
use std::process::ExitCode;
use tests_rows_run::run_files;

fn main(rt: HostRuntime) -> ExitCode {
    match run_files(&rt, &Library) {
        Ok(code) => code,
        Err(error) => {
            let _ = eprintln!(rt; "tests_rows: {error:#}");
            ExitCode::FAILURE
        }
    }
}
