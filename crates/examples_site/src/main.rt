//! A site maker: turns each page `NAME.txt` of a folder, in the text form that `page.rt` of
//! `examples_site_pages` describes, into a page `NAME.html`. If a link leads nowhere, reports it
//! and writes no page. If a browser would move a node, reports it and writes all pages.
#![tactic(auto)]

use anyhow::{Context, Result, ensure};
use clap::{Arg, ArgMatches, Command, arg};
use examples_site_pages::{Hrefs, Page, Site};
use std::alloc::{AllocError, Global};
use std::collections::BTreeMap;
use std::fs::DirEntry;
use std::process::ExitCode;
use std::{env, fs};
use typst_html::{HtmlDocument, HtmlOptions};

fn main(rt: HostRuntime) -> ExitCode {
    match run(&rt) {
        Ok(code) => code,
        Err(error) => {
            let _ = eprintln!(rt; "{error:#}");
            ExitCode::FAILURE
        }
    }
}

/// Parses the arguments, makes the site, and returns the exit status.
fn run(rt: &HostRuntime) -> Result<ExitCode> {
    let words: Vec<String> = env::args(rt)?.collect(rt.alloc())?;
    match command(rt.alloc())?.try_get_matches_from(&words) {
        Ok(matches) => make_site(rt, &matches),
        Err(error) => {
            error.print(rt)?;
            Ok(ExitCode::from(u8::try_from(error.exit_code())?))
        }
    }
}

/// Describes the command line.
fn command<'a>(alloc: Global) -> Result<Command<'a>> {
    let command = with_options(alloc, Command::new(alloc, "examples_site"))?
        .arg(folder(alloc, "PAGES", "The folder with the pages, NAME.txt"))?
        .arg(folder(alloc, "OUTPUT", "The folder for the pages, NAME.html"))?;
    Ok(command)
}

fn with_options<'a>(alloc: Global, command: Command<'a>) -> Result<Command<'a>> {
    let command = command
        .arg(arg!(in alloc; --pretty "Lay the text of pages out with indents"))?
        .arg(arg!(in alloc; --title <TITLE> "The title of the site"))?;
    Ok(command)
}

fn folder<'a>(alloc: Global, name: &'a str, help: &'a str) -> Arg<'a> {
    Arg::new(alloc, name).required(true).help(help)
}

/// Makes all pages, then writes them, and returns the exit status.
fn make_site(rt: &HostRuntime, matches: &ArgMatches<'_>) -> Result<ExitCode> {
    let folder = matches.get_str("PAGES").context("no PAGES")?;
    let output = matches.get_str("OUTPUT").context("no OUTPUT")?;
    let mut site = Site::new(rt.alloc(), matches.get_str("title"));
    read_pages(rt, &mut site, folder)?;
    let pretty = matches.get_flag("pretty");
    let texts = texts(rt, &site, &HtmlOptions { pretty })?;
    write_pages(rt, &site.pages, &texts, output)?;
    Ok(ExitCode::SUCCESS)
}

/// Adds the pages of a folder, in the order of their names.
fn read_pages(rt: &HostRuntime, site: &mut Site<'_>, folder: &str) -> Result<()> {
    for name in page_names(rt, folder)? {
        read_page(rt, site, folder, name)?;
    }
    Ok(())
}

fn read_page(rt: &HostRuntime, site: &mut Site<'_>, folder: &str, name: String) -> Result<()> {
    let path = format!(in rt.alloc(); "{folder}/{name}.txt")?;
    let text = fs::read_to_string(rt, &path).context(&path)?;
    site.add_page(name, path, &text)
}

/// Returns the names of the pages of a folder, in order.
fn page_names(rt: &HostRuntime, folder: &str) -> Result<Vec<String>> {
    let mut names = names_in(rt, folder)?;
    ensure!(!names.is_empty(), "{folder}: no page NAME.txt");
    names.sort()?;
    Ok(names)
}

fn names_in(rt: &HostRuntime, folder: &str) -> Result<Vec<String>> {
    let mut names = Vec::new(rt.alloc());
    for entry in fs::read_dir(rt, folder).context(folder)? {
        add_name(rt.alloc(), &entry?, &mut names)?;
    }
    Ok(names)
}

/// Adds the name of the page in a file, if it is one.
fn add_name(alloc: Global, entry: &DirEntry, names: &mut Vec<String>) -> Result<(), AllocError> {
    if let Some(name) = entry.file_name().strip_suffix(".txt") {
        names.push(name.to_string(alloc)?)?;
    }
    Ok(())
}

/// Returns the HTML text of each page.
fn texts(rt: &HostRuntime, site: &Site<'_>, options: &HtmlOptions) -> Result<Vec<String>> {
    let mut hrefs = BTreeMap::new(site.alloc);
    let documents = documents(rt, site, &mut hrefs)?;
    let mut texts = Vec::new(site.alloc);
    for (page, document) in site.pages.iter().zip(documents) {
        for warning in &site.misnested(page, &document)? {
            eprintln!(rt; "{warning}")?;
        }
        texts.push(site.text(page, document, &hrefs, options)?)?;
        progress(rt, texts.len(), "linked")?;
    }
    Ok(texts)
}

/// Makes the document of each page, and collects the addresses of pages and headings.
fn documents(rt: &HostRuntime, site: &Site<'_>, hrefs: &mut Hrefs) -> Result<Vec<HtmlDocument>> {
    let mut documents = Vec::new(site.alloc);
    for page in &site.pages {
        let document = site.document(page)?;
        site.add_hrefs(hrefs, page, &document)?;
        documents.push(document)?;
        progress(rt, documents.len(), "made")?;
    }
    Ok(documents)
}

/// Writes the text of each page into a folder.
fn write_pages(rt: &HostRuntime, pages: &[Page], texts: &[String], folder: &str) -> Result<()> {
    fs::create_dir_all(rt, folder).context(folder)?;
    for (page, text) in pages.iter().zip(texts) {
        write_page(rt, page, text, folder)?;
    }
    let count = texts.len();
    let pages = if count == 1 { "page" } else { "pages" };
    println!(rt; "{count} {pages} written to {folder}")?;
    Ok(())
}

fn write_page(rt: &HostRuntime, page: &Page, text: &str, folder: &str) -> Result<()> {
    let path = format!(in rt.alloc(); "{folder}/{}.html", page.name)?;
    fs::write(rt, &path, text).context(&path)
}

/// Every hundred pages, reports how many are done.
fn progress(rt: &HostRuntime, done: usize, what: &str) -> Result<()> {
    if done % 100 == 0 {
        eprintln!(rt; "{done} pages {what}")?;
    }
    Ok(())
}
