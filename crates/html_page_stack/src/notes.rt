//! The errors of a page from which the reader recovered.

ghost use Rattle.std.specs.Prelude.{◌≡◌, [], OnOk};
ghost use Rattle.html_page_stack.specs.PageViews.{notes_of};
ghost use Rattle.html_page_stack.specs.Pages as pages;
ghost use Rattle.html_page_stack.specs.Pages.{with_note};

use crate::error::PageError;
use std::alloc::{AllocError, Global};

const MOST_NOTES: usize = 10;

/// The errors of a page from which the reader recovered.
#[derive(Drop)]
pub struct Notes {
    /// The number of errors, at most that of 32 bits.
    pub count: u32,
    /// The first ten, each with its offset in the text, in bytes.
    pub first: Vec<(PageError, usize)>,
}

impl Notes {
    /// Creates an empty list of errors.
    pub fn new(alloc: Global) -> Notes
        ensures { notes_of result ≡ record { count = 0; first = [] } }
    {
        Notes {
            count: 0,
            first: Vec::new(alloc),
        }
    }

    /// Adds an error.
    pub fn add(&mut self, error: PageError, place: usize) -> Result<(), AllocError>
        ensures { OnOk result (notes_of self.new ≡ with_note error place (notes_of self.old)) }
    {
        self.count = self.count.saturating_add(1);
        if self.first.len() < MOST_NOTES {
            self.first.push((error, place))?;
        }
        Ok(())
    }
}
