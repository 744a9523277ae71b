//! Reports which nodes of pages' trees are misnested, to be compared with the trees that other
//! parsers make of the pages (`tools/nested_trees`).
//!
//! ```text
//! cd crates/tests_nests && rt try -- data/pages.json
//! ```
//!
//! Each line of a file is the text of a page in JSON, as `html` writes it. For each, prints a line
//! with the path of each misnested node and its rule: `[[[1,0,1],"ClosesParagraph"]]`. If the text
//! is not read, the line is the fault, with the place where reading stops.
#![tactic(auto)]

use anyhow::{Context, Result, ensure};
use html_dom_tree::HtmlElement;
use html_page_nesting::{Misnested, misnested};
use serde_json::Value;
use std::alloc::Global;
use std::{env, fs};
use typst_html_encode::{HtmlOptions, html_in_bundle};
use typst_html_read::read_html;

/// The greatest depth of elements.
const DEEPEST: usize = 2000;

fn main(rt: HostRuntime) -> Result<()> {
    let words: Vec<String> = env::args(&rt)?.collect(rt.alloc())?;
    for name in words.iter().skip(1) {
        let pages = fs::read_to_string(&rt, name).context(format_args!("{name}"))?;
        for (index, line) in pages.lines().enumerate() {
            let report = page_line(rt.alloc(), line).context(format_args!("{name}: {index}"))?;
            println!(rt; "{report}")?;
        }
    }
    Ok(())
}

/// Returns the line of a page.
fn page_line(alloc: Global, spelled: &str) -> Result<String> {
    let page = Value::from_str(alloc, spelled)?;
    let text = page.as_str().context("no text")?;
    match read_html(alloc, text, DEEPEST) {
        Ok(root) => {
            let written = html_in_bundle(alloc, &root, &HtmlOptions::default(), &())?;
            ensure!(written.as_str() == text, "written as {written}");
            misnested_line(alloc, &root)
        }
        Err(fault) => Ok(Value::String(format!(in alloc; "{fault}")?).to_string(alloc)?),
    }
}

fn misnested_line(alloc: Global, root: &HtmlElement) -> Result<String> {
    let mut line = String::new(alloc);
    line.push('[')?;
    for (index, node) in misnested(alloc, root)?.iter().enumerate() {
        if index > 0 {
            line.push(',')?;
        }
        push_node(&mut line, node)?;
    }
    line.push(']')?;
    Ok(line)
}

fn push_node(line: &mut String, node: &Misnested) -> Result<()> {
    Ok(write!(line, "[{:?},\"{:?}\"]", node.path, node.why)?)
}
