//! The text form of a page:
//!
//! ```text
//! title The title, in the first line
//! # label A heading, to which links lead by its label
//! - an entry of the list that stands right before, or of a new one
//! ! file.png The alternative text of an image
//! Any other line is a paragraph. In it, and in an entry, [words](target) is a link.
//! ```
//!
//! A target is `#label` for a heading of this page, `page#label` for one of another, or `page`.

use crate::site::Site;
use anyhow::{Context, Result, ensure};
use std::alloc::{AllocError, Global};
use std::collections::BTreeSet;
use typst_html::{
    HtmlElem, HtmlTag, Item, ItemList, Location, Pair, Span, attr, charsets, push_located, tag,
};

/// A page. The span of everything in a line is the line's number.
#[derive(Drop)]
pub struct Page {
    /// Its name.
    pub name: String,
    /// The path of its file.
    pub path: String,
    /// Its title.
    pub title: String,
    /// Its location.
    pub location: Location,
    /// The locations of its headings.
    pub headings: BTreeSet<Location>,
    /// Its content.
    pub items: Vec<Pair>,
}

impl Page {
    /// Returns the file and the line of a span.
    pub fn place(&self, alloc: Global, span: Span) -> Result<String, AllocError> {
        format!(in alloc; "{}:{}", self.path, span.0)
    }
}

impl Site<'_> {
    /// Adds a page with that name and text.
    pub fn add_page(&mut self, name: String, path: String, text: &str) -> Result<()> {
        ensure!(
            !name.as_str().contains('#'),
            "{path}: a `#` in the name of a page"
        );
        let mut page = self.empty_page(name, path)?;
        for (index, line) in text.lines().enumerate() {
            let span = Span((index as u64).saturating_add(1));
            self.read_line(&mut page, line, span)
                .with_context(|| page.place(self.alloc, span))?;
        }
        ensure!(!page.title.is_empty(), "{}:1: no `title text`", page.path);
        self.pages.push(page)?;
        Ok(())
    }

    fn empty_page(&mut self, name: String, path: String) -> Result<Page> {
        Ok(Page {
            location: self.places.location(&name)?,
            name,
            path,
            title: String::new(self.alloc),
            headings: BTreeSet::new(self.alloc),
            items: Vec::new(self.alloc),
        })
    }

    /// Adds the content of a line to a page.
    fn read_line(&mut self, page: &mut Page, line: &str, span: Span) -> Result<()> {
        if span == Span(1) {
            self.read_title(page, line, span)
        } else if let Some(rest) = line.strip_prefix("# ") {
            self.read_heading(page, rest, span)
        } else if let Some(rest) = line.strip_prefix("! ") {
            self.read_image(page, rest, span)
        } else if let Some(text) = line.strip_prefix("- ") {
            let body = self.text_with_links(&page.name, text, span)?;
            let entry = HtmlElem::new(self.alloc, tag::li).with_body(body);
            push_entry(self.alloc, &mut page.items, entry.spanned(span))
        } else if !line.trim().is_empty() {
            let body = self.text_with_links(&page.name, line, span)?;
            let paragraph = HtmlElem::new(self.alloc, tag::p).with_body(body);
            Ok(page.items.push(Pair::from(paragraph.spanned(span)))?)
        } else {
            Ok(())
        }
    }

    fn read_title(&self, page: &mut Page, line: &str, span: Span) -> Result<()> {
        let title = title_in(line)?;
        page.title.push_str(title)?;
        let heading = self.element(tag::h1, title, span)?;
        Ok(page.items.push(Pair::from(heading))?)
    }

    fn read_heading(&mut self, page: &mut Page, rest: &str, span: Span) -> Result<()> {
        let (label, text) = word_and_text(rest).context("no text behind `# label`")?;
        let name = format!(in self.alloc; "{}#{label}", page.name)?;
        let here = self.places.location(&name)?;
        ensure!(page.headings.insert(here)?, "a second heading {label:?}");
        let heading = Item::from(self.element(tag::h2, text, span)?);
        let label = Some(label.to_string(self.alloc)?);
        Ok(push_located(&mut page.items, here, label, None, heading)?)
    }

    fn read_image(&self, page: &mut Page, rest: &str, span: Span) -> Result<()> {
        let (file, text) = word_and_text(rest).context("no text behind `! file`")?;
        let image = HtmlElem::new(self.alloc, tag::img)
            .with_attr_text(attr::src, file)?
            .with_attr_text(attr::alt, text)?;
        Ok(page.items.push(Pair::from(image.spanned(span)))?)
    }

    /// Makes an element with that text.
    fn element(&self, tag: HtmlTag, text: &str, span: Span) -> Result<HtmlElem> {
        let element = HtmlElem::new(self.alloc, tag).spanned(span);
        Ok(element.with_text(self.alloc, text)?)
    }

    /// Makes the items of a text in the page of that name, in which `[words](target)` is a link.
    fn text_with_links(&mut self, page: &str, text: &str, span: Span) -> Result<Vec<Pair>> {
        let mut list = ItemList::new(self.alloc).spanned(span);
        let mut parts = text.split('[');
        list.text(parts.next().unwrap_or_default())?;
        for part in parts {
            self.push_part(&mut list, page, part)?;
        }
        Ok(list.into_block_items())
    }

    /// Adds the part of a text after a `[`, up to the next one.
    fn push_part(&mut self, list: &mut ItemList, page: &str, part: &str) -> Result<()> {
        let Some((words, target, behind)) = link_in(part) else {
            list.text("[")?;
            return Ok(list.text(part)?);
        };
        let page = if target.starts_with('#') { page } else { "" };
        let name = format!(in self.alloc; "{page}{target}")?;
        let link = list.new_element(tag::a).with_text(self.alloc, words)?;
        list.link(&mut self.places, &name, link)?;
        Ok(list.text(behind)?)
    }
}

/// Returns the title in a line.
fn title_in(line: &str) -> Result<&str> {
    let title = line.strip_prefix("title ").unwrap_or_default().trim();
    ensure!(!title.is_empty(), "no `title text`");
    let is_clean = title.chars().all(charsets::is_w3c_text_char);
    ensure!(is_clean, "a control character");
    Ok(title)
}

/// Splits a text into a word and the text after it.
fn word_and_text(text: &str) -> Option<(&str, &str)> {
    let (word, rest) = text.trim().split_once(char::is_whitespace)?;
    Some((word, rest.trim_start()))
}

/// Splits what follows a `[` into the words and the target of a link, and the text after it.
fn link_in(part: &str) -> Option<(&str, &str, &str)> {
    let (words, rest) = part.split_once("](")?;
    let (target, behind) = rest.split_once(')')?;
    Some((words, target, behind))
}

/// Adds an entry to the list that is the last item, or to a new one.
fn push_entry(alloc: Global, items: &mut Vec<Pair>, entry: HtmlElem) -> Result<()> {
    if let Some(last) = items.last_mut()
        && let Item::Element(list) = &mut last.item
        && list.tag == tag::ul
        && let Some(entries) = &mut list.body
    {
        return Ok(entries.push(Pair::from(entry))?);
    }
    let list = HtmlElem::new(alloc, tag::ul).with_item(alloc, Pair::from(entry))?;
    Ok(items.push(Pair::from(list))?)
}
