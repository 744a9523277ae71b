//! The files of a site.

use crate::paths::{Spot, path_in, system_path};
use std::alloc::{AllocError, Global};
use std::collections::BTreeMap;
use std::io::ErrorKind;
use std::{fs, io};

/// The kind of entry at a path.
#[derive(Clone, Copy)]
pub enum Entry<'a> {
    /// A page.
    Page {
        /// The folder from which its links that begin with `/` start.
        root: &'a str,
    },
    /// Another file.
    File,
    /// A folder.
    Folder,
}

/// The result of looking for the target of a link.
#[derive(Drop)]
pub enum Found {
    /// The page at that path.
    Page(String),
    /// A file that is no page.
    File,
    /// Nothing; but this path exists, which differs only in case.
    OtherCase(String),
    /// Nothing: this path is missing.
    Nothing(String),
}

/// The files of a site.
#[derive(Drop)]
pub struct Files<'a> {
    alloc: Global,
    entries: BTreeMap<String, Entry<'a>>,
    /// The first path that exists for each path in lowercase.
    by_small: BTreeMap<String, String>,
}

impl<'a> Files<'a> {
    /// Creates an empty set of files.
    pub(crate) fn new(alloc: Global) -> Files<'a> {
        Files {
            alloc,
            entries: BTreeMap::new(alloc),
            by_small: BTreeMap::new(alloc),
        }
    }

    /// Returns all files, by path.
    pub fn entries(&self) -> &BTreeMap<String, Entry<'a>> {
        &self.entries
    }

    /// Adds the entry at a path. A page stays one.
    pub(crate) fn put(&mut self, path: String, entry: Entry<'a>) -> Result<(), AllocError> {
        if matches!(self.entries.get(path.as_str()), Some(Entry::Page { .. })) {
            return Ok(());
        }
        self.put_small(path.as_str())?;
        self.entries.insert(path, entry)?;
        Ok(())
    }

    /// Adds a path under its lowercase form, unless an earlier one has that form.
    fn put_small(&mut self, path: &str) -> Result<(), AllocError> {
        let small = path.to_lowercase(self.alloc)?;
        let is_first = match self.by_small.get(small.as_str()) {
            Some(other) => path < other.as_str(),
            None => true,
        };
        if is_first {
            self.by_small
                .insert(small, String::from_str(self.alloc, path)?)?;
        }
        Ok(())
    }

    /// Finds the target of a link.
    pub fn find(&self, rt: &HostRuntime, spot: Spot) -> Result<Found, AllocError> {
        let Spot { path, is_folder } = spot;
        match self.entry(rt, path.as_str())? {
            Some(Entry::Folder) => self.find_index(rt, path.as_str()),
            Some(_) if is_folder => Ok(Found::Nothing(format!(in self.alloc; "{path}/")?)),
            Some(Entry::Page { .. }) => Ok(Found::Page(path)),
            Some(Entry::File) => Ok(Found::File),
            None => self.in_other_case(path),
        }
    }

    /// Finds the page that stands for a folder.
    fn find_index(&self, rt: &HostRuntime, folder: &str) -> Result<Found, AllocError> {
        for name in ["index.html", "index.htm"] {
            let path = path_in(self.alloc, folder, name)?;
            match self.entry(rt, path.as_str())? {
                Some(Entry::Page { .. }) => return Ok(Found::Page(path)),
                Some(Entry::File) => return Ok(Found::File),
                Some(Entry::Folder) | None => {}
            }
        }
        self.in_other_case(path_in(self.alloc, folder, "index.html")?)
    }

    /// Returns the entry at a path, in the given folders or elsewhere.
    fn entry(&self, rt: &HostRuntime, path: &str) -> Result<Option<Entry<'a>>, AllocError> {
        if let Some(entry) = self.entries.get(path) {
            return Ok(Some(*entry));
        }
        if self.other_case(path)?.is_some() {
            return Ok(None); // a file system that ignores case would find it
        }
        Ok(entry_elsewhere(fs::metadata(rt, system_path(path))))
    }

    fn other_case(&self, path: &str) -> Result<Option<&String>, AllocError> {
        let small = path.to_lowercase(self.alloc)?;
        Ok(self.by_small.get(small.as_str()))
    }

    fn in_other_case(&self, path: String) -> Result<Found, AllocError> {
        match self.other_case(path.as_str())? {
            Some(there) => Ok(Found::OtherCase(there.clone()?)),
            None => Ok(Found::Nothing(path)),
        }
    }
}

/// Returns the entry for the metadata of a path. If the system denies access, there may be a file.
fn entry_elsewhere<'a>(metadata: io::Result<fs::Metadata>) -> Option<Entry<'a>> {
    match metadata {
        Ok(metadata) if metadata.is_dir() => Some(Entry::Folder),
        Ok(_) => Some(Entry::File),
        Err(error) if error.kind() == ErrorKind::PermissionDenied => Some(Entry::File),
        Err(_) => None,
    }
}
