//! Paths of files, with `/` between their parts. The current folder has the empty path.

use std::alloc::{AllocError, Global};

/// The target of a link.
#[derive(Drop)]
pub struct Spot {
    /// The path, without a trailing `/`.
    pub path: String,
    /// Whether the link requires a folder there.
    pub is_folder: bool,
}

impl Spot {
    /// Returns the folder against which relative links there are resolved.
    pub fn folder(&self) -> &str {
        if self.is_folder {
            self.path.as_str()
        } else {
            folder_of(self.path.as_str())
        }
    }
}

/// Returns the folder of a file.
pub fn folder_of(path: &str) -> &str {
    match path.rsplit_once('/') {
        Some(("", _)) => "/",
        Some((folder, _)) => folder,
        None => "",
    }
}

/// Returns the path of an entry with that name in a folder.
pub fn path_in(alloc: Global, folder: &str, name: &str) -> Result<String, AllocError> {
    match folder {
        "" => String::from_str(alloc, name),
        "/" => format!(in alloc; "/{name}"),
        _ => format!(in alloc; "{folder}/{name}"),
    }
}

/// Returns the path in the form that the system accepts.
pub fn system_path(path: &str) -> &str {
    if path.is_empty() { "." } else { path }
}

/// The parts of a path, without `.` and, as far as possible, without `..`.
#[derive(Drop)]
pub struct Way<'a> {
    parts: Vec<&'a str>,
    is_absolute: bool,
    /// The number of parts that no `..` removes, or `None` if the path may lead out of its start.
    kept: Option<usize>,
}

impl<'a> Way<'a> {
    /// Creates the parts of a path of the system.
    pub fn new(alloc: Global, path: &'a str) -> Result<Way<'a>, AllocError> {
        let mut way = Way {
            parts: Vec::new(alloc),
            is_absolute: path.starts_with('/'),
            kept: None,
        };
        for part in path.split('/') {
            if !part.is_empty() {
                way.go(part)?;
            }
        }
        Ok(way)
    }

    /// Protects the current parts from removal by a `..`.
    pub fn keep(&mut self) {
        self.kept = Some(self.parts.len());
    }

    /// Appends the parts of an address. An empty part counts: a `..` after it removes it.
    pub fn follow(&mut self, path: &'a str) -> Result<(), AllocError> {
        for part in path.strip_prefix('/').unwrap_or(path).split('/') {
            self.go(part)?;
        }
        Ok(())
    }

    fn go(&mut self, part: &'a str) -> Result<(), AllocError> {
        match part {
            "." => {}
            ".." => self.go_back()?,
            _ => self.parts.push(part)?,
        }
        Ok(())
    }

    fn go_back(&mut self) -> Result<(), AllocError> {
        let can_leave = !self.is_absolute && self.kept.is_none();
        match self.parts.last() {
            Some(&"..") | None if can_leave => self.parts.push("..")?,
            Some(_) if self.parts.len() > self.kept.unwrap_or(0) => {
                let _ = self.parts.pop();
            }
            _ => {}
        }
        Ok(())
    }

    /// Returns the path, without empty parts.
    pub fn into_path(mut self, alloc: Global) -> Result<String, AllocError> {
        self.parts.retain(|part| !part.is_empty());
        let start = if self.is_absolute { "/" } else { "" };
        format!(in alloc; "{start}{}", self.parts.join(alloc, "/")?)
    }
}
