//! The visible parts so far, and blanks that are held back.

ghost use Rattle.std.specs.Prelude.{◌≡◌, OnOk, IfOk, true, false, chars};
ghost use Rattle.html_dom_shown.specs.Collapsing.{char_atom, text_atoms, kept, collapsible, ignorable, visible, object, break, border};
ghost use Rattle.html_page_text.specs.Gathering.{border_atoms, released, with_pieces, nothing_seen, step, run, final};
ghost use Rattle.html_page_text.specs.Gathering as gathering;
ghost use Rattle.html_page_text.specs.PageViews.{before_view, page_text_view, page_view, seen_view};

use crate::page::GatheredPage;
use crate::shown::PageText;
use html_names_core::HtmlTag;
use html_names_core::charsets::is_default_ignorable;
use html_names_core::text_writer::TextWriter;
use std::alloc::{AllocError, Global};
use std::mem;

/// What stands before a point, ignorable characters aside.
#[derive(Drop)]
enum Before {
    /// Nothing that supports a blank.
    Bare,
    /// What supports a blank: a visible character, a kept blank or an object.
    Support,
    /// A blank that has support before it, and the ignorable characters after it. They are held
    /// back until it is known whether support follows.
    Blank(TextWriter),
}

#[derive(Drop)]
pub(crate) struct Seen {
    alloc: Global,
    page: GatheredPage,
    before: Before,
}

impl Seen {
    pub(crate) fn new(alloc: Global) -> Seen
        ensures { seen_view result ≡ nothing_seen }
    {
        Seen {
            alloc,
            page: GatheredPage::new(alloc),
            before: Before::Bare,
        }
    }

    /// Releases what was held back: support follows.
    fn supported(&mut self) -> Result<(), AllocError>
        ensures page { OnOk result (page_view self.new.page
            ≡ with_pieces (page_view self.old.page) (released true (before_view self.old.before))) }
        ensures before { OnOk result (before_view self.new.before ≡ gathering.support) }
    {
        if let Before::Blank(later) = mem::replace(&mut self.before, Before::Support) {
            self.page.push_char(' ')?;
            self.page.push_text(&later)?;
        }
        Ok(())
    }

    /// Releases what was held back: no support follows.
    fn unsupported(&mut self) -> Result<(), AllocError>
        ensures page { OnOk result (page_view self.new.page
            ≡ with_pieces (page_view self.old.page) (released false (before_view self.old.before))) }
        ensures before { OnOk result (before_view self.new.before ≡ gathering.bare) }
    {
        if let Before::Blank(later) = mem::replace(&mut self.before, Before::Bare) {
            self.page.push_text(&later)?;
        }
        Ok(())
    }

    /// Adds a visible character or a preserved blank.
    fn shown(&mut self, c: char) -> Result<(), AllocError>
        ensures { OnOk result (seen_view self.new ≡ step (seen_view self.old) (visible c)) }
    {
        self.supported()?;
        self.page.push_char(c)?;
        Ok(())
    }

    fn ignorable(&mut self, c: char) -> Result<(), AllocError>
        ensures { OnOk result (seen_view self.new ≡ step (seen_view self.old) (ignorable c)) }
    {
        if let Before::Blank(later) = &mut self.before {
            later.push(c)?;
            return Ok(());
        }
        self.page.push_char(c)?;
        Ok(())
    }

    fn collapsible(&mut self, c: char)
        ensures { seen_view self.new ≡ step (seen_view self.old) (collapsible c) }
    {
        if let Before::Support = &self.before {
            self.before = Before::Blank(TextWriter::new(self.alloc));
        }
    }

    fn character(&mut self, preserved: bool, c: char) -> Result<(), AllocError>
        ensures { OnOk result (seen_view self.new
            ≡ step (seen_view self.old) (char_atom preserved c)) }
    {
        if matches!(c, '\t' | '\n' | '\r' | ' ') {
            if preserved {
                return self.shown(c);
            }
            self.collapsible(c);
            return Ok(());
        }
        if is_default_ignorable(c) {
            return self.ignorable(c);
        }
        self.shown(c)
    }

    pub(crate) fn text(&mut self, preserved: bool, text: &str) -> Result<(), AllocError>
        ensures { OnOk result (seen_view self.new
            ≡ run (seen_view self.old) (text_atoms preserved (chars text.now))) }
    {
        for c in text.chars() {
            self.character(preserved, c)?;
        }
        Ok(())
    }

    pub(crate) fn object(&mut self, tag: &HtmlTag) -> Result<(), AllocError>
        ensures { OnOk result (seen_view self.new ≡ step (seen_view self.old) (object tag.now)) }
    {
        self.supported()?;
        self.page.push_object(tag)?;
        Ok(())
    }

    pub(crate) fn line_break(&mut self) -> Result<(), AllocError>
        ensures { OnOk result (seen_view self.new ≡ step (seen_view self.old) break) }
    {
        self.unsupported()?;
        self.page.push_line_break()?;
        Ok(())
    }

    fn border(&mut self) -> Result<(), AllocError>
        ensures { OnOk result (seen_view self.new ≡ step (seen_view self.old) border) }
    {
        self.unsupported()?;
        self.page.push_edge()?;
        Ok(())
    }

    #[tactic(auto, unfolding(crate::specs::Gathering::run))]
    pub(crate) fn border_if(&mut self, stands: bool) -> Result<(), AllocError>
        ensures { OnOk result (seen_view self.new
            ≡ run (seen_view self.old) (border_atoms stands)) }
    {
        if stands {
            return self.border();
        }
        Ok(())
    }

    pub(crate) fn into_page_text(mut self) -> Result<PageText, AllocError>
        ensures { IfOk result (λ text. page_text_view text ≡ final (seen_view self)) }
    {
        self.unsupported()?;
        self.page.into_page_text()
    }
}
