//! The addresses of links, as the URL Standard reads them.

use crate::paths::{Spot, Way};
use percent_encoding::percent_decode;
use std::alloc::{AllocError, Global};

/// Returns an address without the characters that a URL drops: controls and spaces around it, tabs
/// and line breaks.
pub fn cleaned(alloc: Global, address: &str) -> Result<String, AllocError> {
    let mut text = String::new(alloc);
    for c in address.trim_matches(|c: char| c <= ' ').chars() {
        if !matches!(c, '\t' | '\n' | '\r') {
            text.push(c)?;
        }
    }
    Ok(text)
}

/// Returns whether an address has a scheme or a host of its own.
pub fn is_external(address: &str) -> bool {
    scheme_of(address).is_some() || has_host(address)
}

/// Returns the scheme of an address, if it has one.
pub fn scheme_of(address: &str) -> Option<&str> {
    let (scheme, _) = address.split_once(':')?;
    if is_scheme(scheme) {
        Some(scheme)
    } else {
        None
    }
}

fn is_scheme(text: &str) -> bool {
    text.starts_with(|c: char| c.is_ascii_alphabetic()) && text.chars().all(is_in_scheme)
}

fn is_in_scheme(c: char) -> bool {
    c.is_ascii_alphanumeric() || matches!(c, '+' | '-' | '.')
}

fn has_host(address: &str) -> bool {
    let is_slash = |c: char| matches!(c, '/' | '\\');
    address
        .strip_prefix(is_slash)
        .is_some_and(|behind| behind.starts_with(is_slash))
}

/// Returns the text after the first `#`, without a directive (`:~:` and all after it).
pub fn fragment_of(address: &str) -> Option<&str> {
    let (_, fragment) = address.split_once('#')?;
    fragment.split(":~:").next()
}

/// Returns the decoded path of a relative address.
fn path_of(alloc: Global, address: &str) -> Result<String, AllocError> {
    let path = address.split(['#', '?']).next().unwrap_or_default();
    let path = path.replace(alloc, '\\', "/")?;
    let decoded = percent_decode(path.as_bytes()).decode_utf8_lossy(alloc)?;
    decoded.into_owned(alloc)
}

/// Resolves a relative address against a spot, in a site whose folder is `root`.
pub fn spot_of(alloc: Global, base: &Spot, root: &str, address: &str) -> Result<Spot, AllocError> {
    let path = path_of(alloc, address)?;
    let path = path.as_str();
    if path.is_empty() {
        return Ok(Spot {
            path: base.path.clone()?,
            is_folder: base.is_folder,
        });
    }
    let start = if path.starts_with('/') {
        root
    } else {
        base.folder()
    };
    Ok(Spot {
        path: path_from(alloc, start, path)?,
        is_folder: ends_with_folder(path),
    })
}

/// Resolves a path against a folder. If the path begins with `/`, no `..` leads out of the folder.
fn path_from<'a>(alloc: Global, folder: &'a str, path: &'a str) -> Result<String, AllocError> {
    let mut way = Way::new(alloc, folder)?;
    if path.starts_with('/') {
        way.keep();
    }
    way.follow(path)?;
    way.into_path(alloc)
}

fn ends_with_folder(path: &str) -> bool {
    let last = path.rsplit_once('/').map_or(path, |(_, last)| last);
    matches!(last, "" | "." | "..")
}
