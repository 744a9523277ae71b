//! Cleans fragments, and prints what stays of each, to be compared with what browsers read of it
//! (`tools/cleaned`).
//!
//! ```text
//! cd crates/tests_cleaned && rt try -- article data/fragments.json
//! ```
//!
//! Its arguments are the name of a policy and a file with a list of texts in JSON. It prints the list of
//! the cleaned texts in JSON, with `null` for one that is refused.
#![tactic(auto)]

use anyhow::{Context, Result, bail};
use html_clean::{Policy, clean_text};
use html_page_read::PageFault;
use serde_json::Value;
use std::alloc::Global;
use std::{env, fs};

/// The greatest depth of elements.
const DEEPEST: usize = 1000;

fn main(rt: HostRuntime) -> Result<()> {
    let words: Vec<String> = env::args(&rt)?.collect(rt.alloc())?;
    let [_, name, file] = words.as_slice() else {
        bail!("the name of a policy and a file are wanted");
    };
    let policy = policy_named(rt.alloc(), name.as_str())?;
    let json = fs::read_to_string(&rt, file).context(format_args!("{file}"))?;
    println!(rt; "{}", cleaned_list(rt.alloc(), json.as_str(), &policy)?)?;
    Ok(())
}

fn policy_named(alloc: Global, name: &str) -> Result<Policy> {
    Ok(match name {
        "text" => Policy::text(alloc),
        "inline" => Policy::inline(alloc)?,
        "article" => Policy::article(alloc)?,
        "mail" => Policy::mail(alloc)?,
        _ => bail!("no policy is named {name}"),
    })
}

/// Returns the list of the cleaned texts in JSON.
fn cleaned_list(alloc: Global, json: &str, policy: &Policy) -> Result<String> {
    let value = Value::from_str(alloc, json)?;
    let Some(texts) = value.as_array() else {
        bail!("a list of texts is wanted");
    };
    let mut list = String::from_str(alloc, "[")?;
    for (index, text) in texts.iter().enumerate() {
        if index > 0 {
            list.push(',')?;
        }
        let cleaned = cleaned_value(alloc, text.as_str().unwrap_or(""), policy)?;
        list.push_str(cleaned.to_string(alloc)?.as_str())?;
    }
    list.push(']')?;
    Ok(list)
}

/// Returns the cleaned text, or `null` if the fragment is refused.
fn cleaned_value(alloc: Global, text: &str, policy: &Policy) -> Result<Value> {
    match clean_text(alloc, text, policy, DEEPEST) {
        Ok(cleaned) => Ok(Value::String(cleaned)),
        Err(PageFault::OutOfMemory) => Err(PageFault::OutOfMemory.into()),
        Err(_) => Ok(Value::Null),
    }
}
