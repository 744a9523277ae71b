//! The listing of the files of a site.

use crate::files::{Entry, Files};
use crate::inputs::Input;
use crate::paths::{folder_of, path_in, system_path};
use std::alloc::{AllocError, Global};
use std::collections::BTreeSet;
use std::fs::{DirEntry, ReadDir};
use std::{fs, io};

/// A file or folder that the system can't read.
#[derive(Drop)]
pub struct NotGiven {
    /// Its path.
    pub path: String,
    /// The reason.
    pub reason: String,
}

impl NotGiven {
    /// Creates the report of an unreadable path from the system's error.
    pub fn new(alloc: Global, path: &str, error: &io::Error) -> Result<NotGiven, AllocError> {
        Ok(NotGiven {
            path: String::from_str(alloc, path)?,
            reason: format!(in alloc; "{error}")?,
        })
    }
}

/// The content of the given folders, and of the folders of given pages.
#[derive(Drop)]
pub struct Listing<'a> {
    alloc: Global,
    /// The files.
    pub files: Files<'a>,
    /// The folders that the system can't read and whose pages are needed.
    pub not_given: Vec<NotGiven>,
    /// The folders of given pages that are listed.
    listed: BTreeSet<&'a str>,
    /// The folders that must still be listed.
    left: Vec<String>,
}

impl<'a> Listing<'a> {
    /// Lists the files of the inputs: those beside a page, or all in a folder.
    pub fn of(rt: &HostRuntime, inputs: &'a [Input]) -> Result<Listing<'a>, AllocError> {
        let alloc = rt.alloc();
        let mut listing = Listing {
            alloc,
            files: Files::new(alloc),
            not_given: Vec::new(alloc),
            listed: BTreeSet::new(alloc),
            left: Vec::new(alloc),
        };
        for input in inputs {
            listing.add(rt, input)?;
        }
        Ok(listing)
    }

    fn add(&mut self, rt: &HostRuntime, input: &'a Input) -> Result<(), AllocError> {
        let root = input.root.as_str();
        if input.is_folder {
            self.left.push(input.path.clone()?)?;
            self.add_left(rt, root)
        } else {
            self.files.put(input.path.clone()?, Entry::Page { root })?;
            let folder = folder_of(input.path.as_str());
            if self.listed.insert(folder)? {
                self.add_folder(rt, folder, None)?;
            }
            Ok(())
        }
    }

    /// Adds the folders that are left, and everything in them, at any depth.
    fn add_left(&mut self, rt: &HostRuntime, root: &'a str) -> Result<(), AllocError> {
        for _ in 0..u64::MAX {
            let Some(folder) = self.left.pop() else {
                break;
            };
            self.add_folder(rt, folder.as_str(), Some(root))?;
            self.files.put(folder, Entry::Folder)?;
        }
        Ok(())
    }

    /// Adds the entries of a folder. If a root is given, files with the names of pages are pages,
    /// and subfolders are listed later.
    fn add_folder(
        &mut self,
        rt: &HostRuntime,
        folder: &str,
        root: Option<&'a str>,
    ) -> Result<(), AllocError> {
        match fs::read_dir(rt, system_path(folder)) {
            Ok(entries) => self.add_entries(rt, folder, entries, root),
            Err(error) => self.keep_error(folder, root, &error),
        }
    }

    fn add_entries(
        &mut self,
        rt: &HostRuntime,
        folder: &str,
        entries: ReadDir,
        root: Option<&'a str>,
    ) -> Result<(), AllocError> {
        for entry in entries {
            match entry {
                Ok(entry) => self.add_entry(rt, folder, &entry, root)?,
                Err(error) => self.keep_error(folder, root, &error)?,
            }
        }
        Ok(())
    }

    /// Records that the system can't read a folder, or a name in it, if its pages are needed.
    fn keep_error(
        &mut self,
        folder: &str,
        root: Option<&str>,
        error: &io::Error,
    ) -> Result<(), AllocError> {
        if root.is_some() {
            self.not_given
                .push(NotGiven::new(self.alloc, folder, error)?)?;
        }
        Ok(())
    }

    /// Adds an entry of a folder. A folder behind a symbolic link is not listed.
    fn add_entry(
        &mut self,
        rt: &HostRuntime,
        folder: &str,
        entry: &DirEntry,
        root: Option<&'a str>,
    ) -> Result<(), AllocError> {
        let path = path_in(self.alloc, folder, entry.file_name())?;
        let Ok(own) = entry.metadata() else {
            return Ok(());
        };
        let Ok(behind) = fs::metadata(rt, &path) else {
            return Ok(());
        };
        if own.is_dir() && root.is_some() {
            self.left.push(path.clone()?)?;
        }
        self.files
            .put(path, entry_of(entry.file_name(), &behind, root))
    }
}

/// Returns the kind of a folder's entry, by its name and the metadata of its target.
fn entry_of<'a>(name: &str, behind: &fs::Metadata, root: Option<&'a str>) -> Entry<'a> {
    match root {
        _ if behind.is_dir() => Entry::Folder,
        Some(root) if behind.is_file() && is_page_name(name) => Entry::Page { root },
        _ => Entry::File,
    }
}

/// Returns whether a file with that name is a page.
fn is_page_name(name: &str) -> bool {
    name.rsplit_once('.').is_some_and(|(_, end)| {
        end.eq_ignore_ascii_case("html") || end.eq_ignore_ascii_case("htm")
    })
}
