//! The given pages, and folders of pages.

use crate::paths::{Way, folder_of};
use anyhow::Result;
use std::alloc::{AllocError, Global};
use std::fs;

/// A given page or folder.
#[derive(Drop)]
pub struct Input {
    /// Its path.
    pub path: String,
    /// Whether it is a folder.
    pub is_folder: bool,
    /// The folder from which links that begin with `/` start.
    pub root: String,
}

/// Returns the given pages and folders. If some do not exist, reports these and returns `None`.
/// `root` is the folder from which links that begin with `/` start, if one is given.
pub fn inputs_of(
    rt: &HostRuntime,
    words: &[&str],
    root: Option<&str>,
) -> Result<Option<Vec<Input>>> {
    let mut inputs = Vec::new(rt.alloc());
    let mut all_exist = match root {
        Some(root) => kind_of(rt, root)?.is_some(),
        None => true,
    };
    for word in words {
        match kind_of(rt, word)? {
            Some(is_folder) => inputs.push(made_input(rt.alloc(), word, is_folder, root)?)?,
            None => all_exist = false,
        }
    }
    Ok(if all_exist { Some(inputs) } else { None })
}

/// Returns whether the entry at a path is a folder. If nothing is there, reports this and returns
/// `None`.
fn kind_of(rt: &HostRuntime, word: &str) -> Result<Option<bool>> {
    match fs::metadata(rt, word) {
        Ok(metadata) => Ok(Some(metadata.is_dir())),
        Err(error) => {
            eprintln!(rt; "{word}: {error}")?;
            Ok(None)
        }
    }
}

fn made_input(
    alloc: Global,
    word: &str,
    is_folder: bool,
    root: Option<&str>,
) -> Result<Input, AllocError> {
    let path = Way::new(alloc, word)?.into_path(alloc)?;
    let root = match root {
        Some(root) => Way::new(alloc, root)?.into_path(alloc)?,
        None if is_folder => path.clone()?,
        None => String::from_str(alloc, folder_of(path.as_str()))?,
    };
    Ok(Input {
        path,
        is_folder,
        root,
    })
}
