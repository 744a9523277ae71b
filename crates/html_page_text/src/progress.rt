//! What is visible up to a point of a page, and the elements that are open there.

ghost use Rattle.std.specs.Prelude.{◌≡◌, IfOk, OnOk};
ghost use Rattle.html_dom_tree.specs.Views.{element_view};
ghost use Rattle.html_dom_walk.specs.Walks.{event_of};
ghost use Rattle.html_page_text.specs.{Gathering.{final}, PageViews.{page_text_view, progress_view}};
ghost use Rattle.html_page_text.specs.Progress.{entered, has_no_content, is_skipped, left, no_progress, past_event};

use crate::seen::Seen;
use crate::shown::PageText;
use crate::style::{has_border, is_line_break, preserves_inside};
use crate::unseen::is_unseen;
use html_dom_tree::HtmlElement;
use html_dom_walk::Visit;
use html_names_core::tag;
use std::alloc::{AllocError, Global};

/// An open element.
#[derive(Clone, Copy)]
struct Open {
    /// Whether blanks are preserved around it.
    preserved: bool,
    /// Whether a border ends it.
    has_border: bool,
}

#[derive(Drop)]
pub(crate) struct Progress {
    seen: Seen,
    /// Whether blanks are preserved.
    preserved: bool,
    /// The innermost last.
    opened: Vec<Open>,
}

impl Progress {
    pub(crate) fn new(alloc: Global) -> Progress
        ensures { progress_view result ≡ no_progress }
    {
        Progress {
            seen: Seen::new(alloc),
            preserved: false,
            opened: Vec::new(alloc),
        }
    }

    /// Goes past what a walk comes to. Returns whether what is below it is to be skipped.
    pub(crate) fn pass(&mut self, visit: Visit<'_>) -> Result<bool, AllocError>
        ensures past { OnOk result (progress_view self.new
            ≡ past_event (progress_view self.old) (event_of visit.entry)) }
        ensures skips { IfOk result (λ skips. skips ≡ is_skipped (event_of visit.entry)) }
    {
        match visit {
            Visit::Enter(element) => self.enter(element),
            Visit::Text(text, _) => {
                self.seen.text(self.preserved, text.as_str())?;
                Ok(false)
            }
            Visit::Leave => {
                self.leave()?;
                Ok(false)
            }
            Visit::Tag(_) | Visit::Frame(_) => Ok(false),
        }
    }

    /// Returns whether nothing counts that is in the element.
    fn enter(&mut self, element: &HtmlElement) -> Result<bool, AllocError>
        ensures entered { OnOk result (progress_view self.new
            ≡ entered (progress_view self.old) (element_view element.now).0) }
        ensures skips { IfOk result (λ skips.
            skips ≡ has_no_content (element_view element.now).0) }
    {
        let preserved = self.preserved;
        self.preserved = preserves_inside(preserved, element);
        let is_hidden = is_unseen(element);
        let is_break = is_line_break(&element.tag);
        let has_border = !is_hidden && !is_break && has_border(element);
        self.opened.push(Open {
            preserved,
            has_border,
        })?;
        if is_hidden {
            return Ok(true);
        }
        if is_break {
            self.seen.line_break()?;
            return Ok(true);
        }
        self.seen.border_if(has_border)?;
        let is_replaced = tag::is_replaced(&element.tag);
        if is_replaced {
            self.seen.object(&element.tag)?;
        }
        Ok(is_replaced)
    }

    fn leave(&mut self) -> Result<(), AllocError>
        ensures { OnOk result (progress_view self.new ≡ left (progress_view self.old)) }
    {
        let Some(element) = self.opened.pop() else {
            return Ok(());
        };
        self.preserved = element.preserved;
        self.seen.border_if(element.has_border)
    }

    pub(crate) fn into_page_text(self) -> Result<PageText, AllocError>
        ensures { IfOk result (λ text. page_text_view text ≡ final (progress_view self).seen) }
    {
        self.seen.into_page_text()
    }
}
