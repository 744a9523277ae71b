//! A page under construction.

ghost use Rattle.std.specs.Prelude.{◌≡◌, [], OnOk, IfOk, map};
ghost use Rattle.html_dom_shown.specs.Collapsing.{char, thing, line, edge};
ghost use Rattle.html_page_text.specs.Gathering.{empty_page, ended_parts, with_part, with_piece, with_pieces};
ghost use Rattle.html_page_text.specs.PageViews.{page_text_view, page_view, part_view, parts_view};

use crate::shown::{PageText, Shown};
use html_names_core::HtmlTag;
use html_names_core::text_writer::TextWriter;
use std::alloc::{AllocError, Global};
use std::mem;

/// The parts so far, and the characters with which the next text begins.
#[derive(Drop)]
pub(crate) struct GatheredPage {
    alloc: Global,
    parts: Vec<Shown>,
    text: TextWriter,
    after_edge: bool,
}

impl GatheredPage {
    pub(crate) fn new(alloc: Global) -> GatheredPage
        ensures { page_view result ≡ empty_page }
    {
        GatheredPage {
            alloc,
            parts: Vec::new(alloc),
            text: TextWriter::new(alloc),
            after_edge: false,
        }
    }

    pub(crate) fn push_char(&mut self, c: char) -> Result<(), AllocError>
        ensures { OnOk result (page_view self.new ≡ with_piece (page_view self.old) (char c)) }
    {
        self.text.push(c)?;
        self.after_edge = false;
        Ok(())
    }

    pub(crate) fn push_text(&mut self, text: &TextWriter) -> Result<(), AllocError>
        ensures { OnOk result (page_view self.new
            ≡ with_pieces (page_view self.old) (map char text.now)) }
    {
        if text.as_str().is_empty() {
            return Ok(());
        }
        self.text.push_str(text.as_str())?;
        self.after_edge = false;
        Ok(())
    }

    pub(crate) fn push_object(&mut self, tag: &HtmlTag) -> Result<(), AllocError>
        ensures { OnOk result (page_view self.new
            ≡ with_piece (page_view self.old) (thing tag.now)) }
    {
        let tag = tag.try_clone()?;
        self.push_part(Shown::Object(tag))?;
        self.after_edge = false;
        Ok(())
    }

    pub(crate) fn push_line_break(&mut self) -> Result<(), AllocError>
        ensures { OnOk result (page_view self.new ≡ with_piece (page_view self.old) line) }
    {
        self.push_part(Shown::LineBreak)?;
        self.after_edge = false;
        Ok(())
    }

    /// Appends an edge, unless the last part is one.
    pub(crate) fn push_edge(&mut self) -> Result<(), AllocError>
        ensures { OnOk result (page_view self.new ≡ with_piece (page_view self.old) edge) }
    {
        if self.after_edge {
            return Ok(());
        }
        self.push_part(Shown::Edge)?;
        self.after_edge = true;
        Ok(())
    }

    /// Appends a part that is no text, after the text that has begun.
    fn push_part(&mut self, part: Shown) -> Result<(), AllocError>
        ensures { OnOk result (page_view self.new
            ≡ with_part (page_view self.old) (part_view part) self.old.after_edge) }
    {
        self.end_text()?;
        self.parts.push(part)?;
        Ok(())
    }

    /// Ends the text, if one has begun: an empty one is no part.
    fn end_text(&mut self) -> Result<(), AllocError>
        ensures ended { OnOk result (self.new.text ≡ []) }
        ensures parts { OnOk result (parts_view self.new.parts.items
            ≡ ended_parts (page_view self.old)) }
        ensures same { self.new.after_edge ≡ self.old.after_edge }
    {
        if self.text.as_str().is_empty() {
            return Ok(());
        }
        let text = mem::replace(&mut self.text, TextWriter::new(self.alloc));
        self.parts.push(Shown::Text(text.into_string()))?;
        Ok(())
    }

    pub(crate) fn into_page_text(mut self) -> Result<PageText, AllocError>
        ensures { IfOk result (λ text. page_text_view text ≡ ended_parts (page_view self)) }
    {
        self.end_text()?;
        Ok(PageText { parts: self.parts })
    }
}
