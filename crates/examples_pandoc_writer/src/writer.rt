//! The state of writing a page.

use crate::attributes::{Attr, with_words};
use anyhow::Result;
use html_flow::{HtmlElem, Item, ItemList, NamedPlaces, Notes, Pair};
use html_names::{HtmlTag, attr, tag};
use std::alloc::Global;
use std::collections::BTreeSet;
use std::mem;

/// The state of writing a page.
#[derive(Drop)]
pub struct Writer {
    pub alloc: Global,
    /// Whether raw HTML is shown as a text; otherwise it is dropped.
    pub raw_as_text: bool,
    /// The current list, whose span is the number of the block.
    pub list: ItemList,
    /// The lists around it.
    outer: Vec<ItemList>,
    /// The number of these lists that need only their text, without attributes, notes and warnings.
    pub plain: usize,
    /// The number of items in the list when a line ended, if one did.
    line_end: Option<usize>,
    /// Whether the next text is the box of a task.
    pub is_task: bool,
    pub places: NamedPlaces,
    /// The ids in the document, to which links may lead.
    pub all_ids: BTreeSet<String>,
    /// Those of the elements so far.
    pub ids: BTreeSet<String>,
    pub notes: Notes,
    /// The warnings of content that could not be written as it is.
    pub warnings: Vec<String>,
}

impl Writer {
    /// Starts a page.
    pub fn new(alloc: Global, raw_as_text: bool) -> Self {
        Writer {
            alloc,
            raw_as_text,
            list: ItemList::new(alloc),
            outer: Vec::new(alloc),
            plain: 0,
            line_end: None,
            is_task: false,
            places: NamedPlaces::new(alloc),
            all_ids: BTreeSet::new(alloc),
            ids: BTreeSet::new(alloc),
            notes: Notes::new(alloc),
            warnings: Vec::new(alloc),
        }
    }

    /// Stores a warning about the current block.
    pub fn warn(&mut self, what: &str, which: &str) -> Result<()> {
        if self.plain == 0 {
            let block = self.list.span().0;
            let warning = format!(in self.alloc; "block {block}: {what}: {which:?}")?;
            self.warnings.push(warning)?;
        }
        Ok(())
    }

    /// Creates an element without attributes and content.
    pub fn empty(&self, tag: HtmlTag) -> HtmlElem {
        self.list.new_element(tag)
    }

    /// Begins a line that is no paragraph, after a space if another such line stands before it.
    pub fn begin_line(&mut self) -> Result<()> {
        if self.line_end == Some(self.list.items().len()) {
            self.list.space()?;
        }
        Ok(())
    }

    /// Ends that line.
    pub fn end_line(&mut self) {
        self.line_end = Some(self.list.items().len());
    }

    /// Begins one of several lines, after a line break unless it is the first.
    pub fn begin_next_line(&mut self) -> Result<()> {
        if !self.list.is_empty() {
            self.list.line_break()?;
        }
        Ok(())
    }

    /// Begins the list for the content of an element, a link, an image or a note.
    pub fn begin(&mut self) -> Result<()> {
        let inside = self.list.new_list();
        self.line_end = None;
        Ok(self.outer.push(mem::replace(&mut self.list, inside))?)
    }

    /// Ends that list, and returns it.
    pub fn end_list(&mut self) -> ItemList {
        let around = self.outer.pop().unwrap_or(self.list.new_list());
        self.line_end = None;
        mem::replace(&mut self.list, around)
    }

    /// Ends that list, and adds an element that holds it, of a class unless that is empty.
    pub fn end(&mut self, tag: HtmlTag, class: &str, attr: Attr<'_>) -> Result<()> {
        let elem = with_words(self.empty(tag), attr::class, class)?;
        self.end_with(elem, attr)
    }

    /// Ends that list, and adds the element with the list in it.
    pub fn end_with(&mut self, elem: HtmlElem, attr: Attr<'_>) -> Result<()> {
        let list = self.end_list();
        let body = if tag::is_whitespace_collapsing(&elem.tag) {
            list.into_block_items()
        } else {
            list.into_items()
        };
        self.push(elem.with_body(body), attr, None)
    }

    /// Ends that list, and adds an element that holds it, unless the list is empty.
    pub fn end_unless_empty(&mut self, tag: HtmlTag, attr: Attr<'_>) -> Result<()> {
        if self.list.is_empty() {
            let _ = self.end_list();
            return Ok(());
        }
        self.end(tag, "", attr)
    }

    /// Begins a list that needs only its text.
    pub fn begin_plain(&mut self) -> Result<()> {
        self.plain = self.plain.saturating_add(1);
        self.begin()
    }

    /// Ends that list, and returns its text.
    pub fn end_plain(&mut self) -> Result<String> {
        self.plain = self.plain.saturating_sub(1);
        let mut text = String::new(self.alloc);
        push_text(self.end_list().items(), &mut text)?;
        Ok(text)
    }
}

fn push_text(items: &[Pair], text: &mut String) -> Result<()> {
    for pair in items {
        match &pair.item {
            Item::Text(more, _) => text.push_str(more)?,
            Item::LineBreak(_) => text.push(' ')?,
            Item::Element(elem) => {
                if let Some(body) = &elem.body {
                    push_text(body, text)?;
                }
            }
            _ => {}
        }
    }
    Ok(())
}
