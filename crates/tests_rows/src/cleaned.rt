//! The rows of foreign fragments, and what policies leave of them.

use anyhow::{Result, bail, ensure};
use html_clean::{Policy, clean_text};
use html_page_read::PageFault;
use std::alloc::Global;
use tests_rows_run::Row;

/// The greatest depth of elements, unless a row has another.
const DEEPEST: usize = 1000;

/// Returns what stays of the fragment by the policy of that name, with the row's prefix and `rel`.
pub(crate) fn text(alloc: Global, row: &Row<'_>) -> Result<String> {
    let limit = row.number("limit", DEEPEST)?;
    ensure!(1 <= limit && limit <= 10000, "no limit");
    let policy = policy_of(alloc, row)?;
    match clean_text(alloc, row.text()?, &policy, limit) {
        Ok(text) => Ok(text),
        Err(PageFault::OutOfMemory) => Err(PageFault::OutOfMemory.into()),
        Err(fault) => Ok(format!(in alloc; "refused, {fault}")?),
    }
}

fn policy_of(alloc: Global, row: &Row<'_>) -> Result<Policy> {
    let policy = policy_named(alloc, row.words.get(1).copied().unwrap_or(""))?;
    let policy = match row.value("prefix") {
        Some(prefix) => policy.with_prefix(prefix)?,
        None => policy,
    };
    Ok(match row.value("rel") {
        Some(rel) => policy.with_rel(rel)?,
        None => policy,
    })
}

fn policy_named(alloc: Global, name: &str) -> Result<Policy> {
    Ok(match name {
        "text" => Policy::text(alloc),
        "inline" => Policy::inline(alloc)?,
        "article" => Policy::article(alloc)?,
        "mail" => Policy::mail(alloc)?,
        _ => bail!("no policy is named {name}"),
    })
}
