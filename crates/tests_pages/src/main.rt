//! Reads pages, and prints the tree of each as a line of JSON, to be compared with those of other
//! parsers (`tools/page_corpus`).
//!
//! ```text
//! cd crates/tests_pages && rt try -- data/list.html
//! ```
//!
//! An element is its name, its attributes and its children, which may be texts:
//! `["p",[["class","a"]],["b & c",["br",[],[]]]]`. For a page that is not read, the line is the
//! reason and the place: `"an element has too many attributes at 3:14"`.
#![tactic(auto)]

use anyhow::{Context, Result};
use html_dom_tree::{HtmlAttrs, HtmlElement};
use html_dom_walk::{Visit, Walk};
use html_page_read::read_page_bytes;
use serde_json::Value;
use std::alloc::Global;
use std::{env, fs};

/// The greatest depth of elements.
const DEEPEST: usize = 1000;

fn main(rt: HostRuntime) -> Result<()> {
    let words: Vec<String> = env::args(&rt)?.collect(rt.alloc())?;
    for page in words.iter().skip(1) {
        let bytes = fs::read(&rt, page).context(format_args!("{page}"))?;
        println!(rt; "{}", page_line(rt.alloc(), &bytes)?)?;
    }
    Ok(())
}

/// Returns the line of a page.
fn page_line(alloc: Global, page: &[u8]) -> Result<String> {
    let mut line = String::new(alloc);
    let (root, _) = match read_page_bytes(alloc, page, DEEPEST) {
        Ok(read) => read,
        Err(fault) => {
            let reason = format!(in alloc; "{fault}")?;
            push_text(alloc, &mut line, reason.as_str())?;
            return Ok(line);
        }
    };
    push_tree(alloc, &mut line, &root)?;
    Ok(line)
}

/// Adds an element with its children, with commas between them.
fn push_tree(alloc: Global, line: &mut String, root: &HtmlElement) -> Result<()> {
    push_start(alloc, line, root)?;
    let mut walk = Walk::over(alloc, &root.children);
    let mut is_first = true;
    while let Some(visit) = walk.next()? {
        if !is_first && !matches!(visit, Visit::Leave) {
            line.push(',')?;
        }
        match visit {
            Visit::Enter(element) => push_start(alloc, line, element)?,
            Visit::Text(text, _) => push_text(alloc, line, text)?,
            Visit::Leave => line.push_str("]]")?,
            Visit::Tag(_) | Visit::Frame(_) => {}
        }
        is_first = matches!(visit, Visit::Enter(_));
    }
    line.push_str("]]")?;
    Ok(())
}

/// Adds an element up to its children.
fn push_start(alloc: Global, line: &mut String, element: &HtmlElement) -> Result<()> {
    line.push('[')?;
    push_text(alloc, line, element.tag.resolve())?;
    line.push_str(",[")?;
    push_attrs(alloc, line, &element.attrs)?;
    line.push_str("],[")?;
    Ok(())
}

/// Adds attributes, with commas between them.
fn push_attrs(alloc: Global, line: &mut String, attrs: &HtmlAttrs) -> Result<()> {
    for (index, (attr, value)) in attrs.0.iter().enumerate() {
        if index > 0 {
            line.push(',')?;
        }
        line.push('[')?;
        push_text(alloc, line, attr.resolve())?;
        line.push(',')?;
        push_text(alloc, line, value)?;
        line.push(']')?;
    }
    Ok(())
}

/// Adds a text in quotes.
fn push_text(alloc: Global, line: &mut String, text: &str) -> Result<()> {
    let value = Value::String(String::from_str(alloc, text)?);
    line.push_str(value.to_string(alloc)?.as_str())?;
    Ok(())
}
