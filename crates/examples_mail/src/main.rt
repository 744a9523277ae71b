//! Turns a template and records in JSON into HTML mails, one on each line of standard output.
//!
//! ```text
//! cd crates/examples_mail && rt try -- data/template.txt < stdin
//! ```
//!
//! The first line of a template is the subject; each other line that is not blank is a paragraph. A
//! paragraph that begins with `> ` is a button, whose last word is the address that it leads to.
//! Anywhere in a template, `{name}` is a hole that the field of that name fills. Fields are
//! escaped, but addresses are not checked.
//!
//! Each line of standard input is a record, an object whose fields are texts. Reports a record
//! without a mail on standard error, with its line, and writes the mails of the others. Exits with
//! 0 if all are written, with 2 if the arguments are wrong, and with 1 otherwise.
#![tactic(auto)]

mod mail;

use anyhow::{Context, Result};
use clap::{Arg, ArgMatches, Command};
use mail::mail;
use std::alloc::Global;
use std::io::{BufRead, BufReader};
use std::process::ExitCode;
use std::{env, fs};

fn main(rt: HostRuntime) -> ExitCode {
    match run(&rt) {
        Ok(code) => code,
        Err(error) => {
            let _ = eprintln!(rt; "examples_mail: {error:#}");
            ExitCode::FAILURE
        }
    }
}

/// Parses the arguments, writes the mails, and returns the exit status.
fn run(rt: &HostRuntime) -> Result<ExitCode> {
    let words: Vec<String> = env::args(rt)?.collect(rt.alloc())?;
    match command(rt.alloc())?.try_get_matches_from(&words) {
        Ok(matches) => write_mails(rt, &matches),
        Err(error) => {
            error.print(rt)?;
            Ok(ExitCode::from(u8::try_from(error.exit_code())?))
        }
    }
}

/// Describes the command line.
fn command<'a>(alloc: Global) -> Result<Command<'a>> {
    let template = Arg::new(alloc, "TEMPLATE")
        .required(true)
        .help("The file of the template");
    let lang = Arg::new(alloc, "lang")
        .long("lang")
        .value_name("TAG")
        .default_value("en")
        .help("The language of the mails");
    let command = Command::new(alloc, "examples_mail")
        .about("Makes an HTML mail of each record in JSON on standard input")
        .arg(template)?
        .arg(lang)?;
    Ok(command)
}

/// Reads the template, writes the mails, and returns the exit status.
fn write_mails(rt: &HostRuntime, matches: &ArgMatches<'_>) -> Result<ExitCode> {
    let path = matches.get_str("TEMPLATE").context("no template")?;
    let lang = matches.get_str("lang").context("no language")?;
    let template = fs::read_to_string(rt, path).context(path)?;
    write_mails_of(rt, &template, lang)
}

/// Writes the mail of each record on standard input, and returns the exit status.
fn write_mails_of(rt: &HostRuntime, template: &str, lang: &str) -> Result<ExitCode> {
    let mut code = ExitCode::SUCCESS;
    let mut number = 0u64;
    let input = BufReader::new(rt.alloc(), rt.stdin())?;
    for record in input.split(rt.alloc(), b'\n') {
        number = number.saturating_add(1);
        let mail = mail(rt.alloc(), template, &record?, lang);
        if !is_written(rt, number, mail)? {
            code = ExitCode::FAILURE;
        }
    }
    Ok(code)
}

/// Writes the mail of a line, or reports why there is none. Returns whether it is written.
fn is_written(rt: &HostRuntime, line: u64, mail: Result<String>) -> Result<bool> {
    match mail {
        Ok(html) => {
            println!(rt; "{html}").context("standard output")?;
            Ok(true)
        }
        Err(error) => {
            eprintln!(rt; "line {line}: {error:#}")?;
            Ok(false)
        }
    }
}
