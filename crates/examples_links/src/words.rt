//! The arguments of the command line.

use anyhow::Result;
use clap::{Arg, ArgAction, Command};
use std::alloc::Global;
use std::env;
use std::io::ErrorKind;

/// Returns the arguments. If one is no UTF-8, reports this and returns `None`.
pub fn given_words(rt: &HostRuntime) -> Result<Option<Vec<String>>> {
    match env::args(rt) {
        Ok(words) => Ok(Some(words.collect(rt.alloc())?)),
        Err(error) if error.kind() == ErrorKind::InvalidData => {
            eprintln!(rt; "a word is no UTF-8")?;
            Ok(None)
        }
        Err(error) => Err(error.into()),
    }
}

/// Describes the command line.
pub fn command<'a>(alloc: Global) -> Result<Command<'a>> {
    let paths = Arg::new(alloc, "PATH")
        .required(true)
        .num_args(1..)
        .action(ArgAction::Append)
        .help("A page, or a folder of pages");
    let root = Arg::new(alloc, "root")
        .long("root")
        .value_name("FOLDER")
        .help("The folder from which links that begin with / start");
    let json = Arg::new(alloc, "json")
        .long("json")
        .action(ArgAction::SetTrue)
        .help("Write one JSON object instead of lines for people");
    Ok(
        Command::new(alloc, "examples_links")
            .about("Reports links in written pages that lead nowhere, and repeated ids")
            .arg(paths)?
            .arg(root)?
            .arg(json)?,
    )
}
