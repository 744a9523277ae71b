//! The pages of a site that were read.

use crate::finding::Unread;
use crate::page::Page;
use anyhow::Result;
use examples_links_files::{NotGiven, system_path};
use std::alloc::{AllocError, Global};
use std::collections::BTreeMap;
use std::fs;

/// The number of pages between two reports of progress.
const MANY: usize = 500;

/// The pages of a site.
#[derive(Drop)]
pub struct Pages {
    /// Those that were read, by path.
    pub read: BTreeMap<String, Page>,
    /// The pages and folders that were not read.
    pub unread: Vec<Unread>,
    /// The number of pages.
    pub count: usize,
}

impl Pages {
    /// Creates an empty set of pages, with the folders that the system can't read.
    pub fn new(alloc: Global, not_given: Vec<NotGiven>) -> Result<Pages, AllocError> {
        let mut unread = Vec::new(alloc);
        for what in not_given {
            unread.push(Unread {
                what,
                refusal: None,
            })?;
        }
        Ok(Pages {
            read: BTreeMap::new(alloc),
            unread,
            count: 0,
        })
    }

    /// Reads the page at a path. Every 500 pages, reports how many are read.
    pub fn add(&mut self, rt: &HostRuntime, path: &str) -> Result<()> {
        self.read_page(rt, path)?;
        self.count = self.count.saturating_add(1);
        if self.count % MANY == 0 {
            eprintln!(rt; "{} pages read", self.count)?;
        }
        Ok(())
    }

    fn read_page(&mut self, rt: &HostRuntime, path: &str) -> Result<(), AllocError> {
        match read_page(rt, path)? {
            Ok(page) => {
                self.read.insert(String::from_str(rt.alloc(), path)?, page)?;
            }
            Err(fault) => self.unread.push(fault)?,
        }
        Ok(())
    }
}

/// Returns a page, or why it is not read.
fn read_page(rt: &HostRuntime, path: &str) -> Result<Result<Page, Unread>, AllocError> {
    let alloc = rt.alloc();
    let bytes = match fs::read(rt, system_path(path)) {
        Ok(bytes) => bytes,
        Err(error) => {
            let what = NotGiven::new(alloc, path, &error)?;
            return Ok(Err(Unread {
                what,
                refusal: None,
            }));
        }
    };
    match Page::read(alloc, &bytes) {
        Ok(page) => Ok(Ok(page)),
        Err(fault) => Ok(Err(Unread::by_fault(alloc, path, &fault)?)),
    }
}
