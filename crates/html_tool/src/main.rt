//! A program that writes the HTML text of a tree or of items, which standard input spells in JSON.
#![tactic(auto)]

use std::env;
use std::io::ErrorKind;
use std::process::ExitCode;
use typst_html_run::{Status, run, words_of};

fn main(rt: HostRuntime) -> ExitCode {
    ExitCode::from(outcome(&rt).code())
}

/// Calls `run` with the process's arguments, standard input and standard output. Arguments that are
/// not UTF-8 count as wrong words, just as an empty list of arguments.
fn outcome(rt: &HostRuntime) -> Status {
    let mut args = Vec::new(rt.alloc());
    match env::args(rt) {
        Ok(given) => {
            if args.extend(given).is_err() {
                return Status::Failed;
            }
        }
        Err(fault) => {
            if fault.kind() == ErrorKind::OutOfMemory {
                return Status::Failed;
            }
        }
    }
    let words = words_of(&args);
    run(rt.alloc(), &mut rt.stdin(), &mut rt.stdout(), words)
}
