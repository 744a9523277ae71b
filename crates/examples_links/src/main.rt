//! A link checker for written pages: reads all pages of a site as browsers do, and reports each
//! link that leads nowhere.
//!
//! ```text
//! cd crates/examples_links && rt try -- "$PWD/data/site"
//! ```
//!
//! # What is checked
//!
//! Each argument is a page or a folder. In a folder, all files `*.html` and `*.htm`, in any case
//! and at any depth, are pages, and links may lead to its other files. Links may lead into folders
//! behind symbolic links, but these are not searched for pages.
//!
//! - `dead-fragment`: the `href` of an `a` or an `area` has a fragment that leads to no place of a
//!   page that was read, this one or another (HTML Standard 7.4.6.3, with ids, names of `a`,
//!   percent-encoding and `top`; URL Fragment Text Directives).
//! - `missing-file`: the target of such an `href` does not exist, or that of the `href` of a
//!   `link`, the `src` of an `img`, `script`, `iframe`, `embed`, `source`, `track`, `audio` or
//!   `video`, or the `data` of an `object`. A folder stands for its `index.html` or `index.htm`.
//! - `other-case`: the same, but a file of the given folders differs only in case.
//! - `repeated-id`: an element has an `id` that an earlier element has.
//! - `misnested`: an element stands more than 511 elements below `body`, where Chromium puts it
//!   beside its parent, or is a `selectedcontent`, which browsers fill from the chosen `option`. A
//!   tree that was read as browsers read it can break no other rule of nesting.
//!
//! # What is not checked
//!
//! Links out of the site: with a scheme (`https:`, `mailto:`, `data:`) or a host (`//host/x`), and
//! all relative ones if the page's `base` leads out. Fragments of anything but pages that were
//! read. `srcset`, `poster`, the actions of forms, addresses in CSS and scripts, elements of SVG
//! and MathML.
//!
//! # Where links lead
//!
//! Relative links are resolved as the URL Standard says: against the page, or its first `base` with
//! an `href`. Blanks around them, and line breaks and tabs in them, are ignored; `\` is `/`; a
//! query is skipped; percent-encoding is decoded. A link that begins with `/` starts from the
//! folder that `--root` names, or else from the given folder in which the page was found; for a
//! page that was given itself, from its folder.
//!
//! # What is written
//!
//! Each finding is a line on standard output, sorted by file and place; pages that are not read
//! come first, and a count last. Lines and columns count from 1, columns in characters.
//!
//! ```text
//! site/herbs.html:3:57: "#mint" leads nowhere: there is no place site/herbs.html#mint
//! 5 pages: 1 finding
//! ```
//!
//! With `--json`, the output is one object. `target` is the page and the fragment, the missing
//! path, that of the file in another case, the id, or what becomes of a misnested element; `link`
//! is the link as written, or null for other findings. `number` is that of the refusal in the
//! project's guide. If the system can't read a file or a folder, `number`, `line` and `column` are
//! null. `pages` counts those that are not read, too.
//!
//! ```text
//! {"pages": 5,
//!  "unread": [{"file", "line", "column", "number", "reason"}],
//!  "findings": [{"file", "line", "column", "kind", "link", "target"}]}
//! ```
//!
//! Elements may nest at most 1,000 deep. Every 500 pages, standard error reports how many are read.
//! Exits with 0 if nothing is found, 1 if something is, 2 if the arguments are wrong or name
//! nothing that exists, and 3 if a page or a folder is not read, or the report can't be written.
#![tactic(auto)]

mod finding;
mod links;
mod page;
mod pages;
mod report;
mod site;
mod words;

use anyhow::{Context, Result};
use examples_links_files::inputs_of;
use report::write_report;
use site::{check_site, read_site};
use std::process::ExitCode;
use words::{command, given_words};

/// The exit status if the arguments are wrong or name nothing that exists.
const WRONG_WORDS: u8 = 2;

/// The exit status if something is not read, or the report is not written.
const NOT_READ: u8 = 3;

fn main(rt: HostRuntime) -> ExitCode {
    match run(&rt) {
        Ok(code) => code,
        Err(error) => {
            let _ = eprintln!(rt; "examples_links: {error:#}");
            ExitCode::from(NOT_READ)
        }
    }
}

/// Parses the arguments (wrong if no UTF-8), checks the site, and returns the exit status.
fn run(rt: &HostRuntime) -> Result<ExitCode> {
    let Some(words) = given_words(rt)? else {
        return Ok(ExitCode::from(WRONG_WORDS));
    };
    match command(rt.alloc())?.try_get_matches_from(&words) {
        Ok(matches) => {
            let paths = matches.get_strs("PATH").context("no path")?;
            let root = matches.get_str("root");
            check(rt, paths, root, matches.get_flag("json"))
        }
        Err(error) => {
            error.print(rt)?;
            Ok(ExitCode::from(u8::try_from(error.exit_code())?))
        }
    }
}

/// Checks the pages at these paths, writes the report, and returns the exit status.
fn check(rt: &HostRuntime, paths: &[&str], root: Option<&str>, is_json: bool) -> Result<ExitCode> {
    let Some(inputs) = inputs_of(rt, paths, root)? else {
        return Ok(ExitCode::from(WRONG_WORDS));
    };
    let site = read_site(rt, &inputs)?;
    let findings = check_site(rt, &site)?;
    write_report(rt, &site.pages, &findings, is_json).context("standard output")?;
    Ok(if !site.pages.unread.is_empty() {
        ExitCode::from(NOT_READ)
    } else if findings.is_empty() {
        ExitCode::SUCCESS
    } else {
        ExitCode::FAILURE
    })
}
