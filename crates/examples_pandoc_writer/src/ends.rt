//! Texts and raw HTML, and the ends of lists of inlines and of blocks.

use crate::attributes::{Attr, with_number, with_words};
use crate::json::{fields, joined, tag_and_content, two_texts};
use crate::writer::Writer;
use anyhow::{Result, bail};
use html_dom::{decoded_fragment, href_is_script, place_in};
use html_flow::Pair;
use html_names::{HtmlAttr, HtmlTag, attr, tag};
use serde_json::Value;
use std::mem;

impl Writer {
    /// Adds a text, or the box of a task.
    pub fn text(&mut self, text: &str) -> Result<()> {
        if !mem::replace(&mut self.is_task, false) {
            return Ok(self.list.text(text)?);
        }
        let task = self.empty(tag::input);
        let task = task.with_attr_text(attr::type_, "checkbox")?;
        let mut task = task.with_attr_text(attr::disabled, "")?;
        if text == "☒" {
            task = task.with_attr_text(attr::checked, "")?;
        }
        Ok(self.list.element(task)?)
    }

    /// Adds raw HTML as a text, or drops it, since it would not be escaped. Ignores other raw
    /// formats, which are for other writers.
    pub fn raw(&mut self, raw: &Value) -> Result<()> {
        let (format, html) = two_texts(raw)?;
        let trimmed = html.trim();
        if !matches!(format, "html" | "html4" | "html5") || is_comment(trimmed) {
            Ok(())
        } else if matches!(trimmed, "<br>" | "<br/>" | "<br />") {
            Ok(self.list.line_break()?)
        } else if self.raw_as_text && self.plain == 0 {
            Ok(self.list.text(html.trim_end_matches('\n'))?)
        } else {
            self.warn("raw HTML is dropped", html)
        }
    }

    /// Adds an element with a text in it, on one line.
    pub fn line(&mut self, tag: HtmlTag, class: &str, attr: Attr<'_>, text: &str) -> Result<()> {
        let line = text.replace(self.alloc, "\n", " ")?;
        self.begin()?;
        self.list.text(&line)?;
        self.end(tag, class, attr)
    }

    /// Adds lines of code.
    pub fn code_block(&mut self, attr: &Value, text: &str) -> Result<()> {
        self.begin()?;
        self.begin()?;
        self.list.text(text)?;
        self.end(tag::code, "", None)?;
        self.end(tag::pre, "", Some(attr))
    }

    /// Ends a citation. Its text repeats the text around the works.
    pub fn end_citation(&mut self, works: &Value) -> Result<()> {
        let works = joined(self.alloc, works, "/citationId")?;
        let cites = HtmlAttr::intern(self.alloc, "data-cites")?;
        let span = self
            .empty(tag::span)
            .with_attr_text(attr::class, "citation")?;
        self.end_with(span.with_attr(cites, works)?, None)
    }

    /// Ends a list with numbers, with the first number and the style. HTML has nothing for the
    /// characters around them.
    pub fn end_ordered_list(&mut self, numbering: &Value) -> Result<()> {
        let [first, style, _] = fields::<3>(numbering)?;
        let style = match tag_and_content(style)?.0 {
            "DefaultStyle" => "",
            "Example" | "Decimal" => "1",
            "LowerRoman" => "i",
            "UpperRoman" => "I",
            "LowerAlpha" => "a",
            "UpperAlpha" => "A",
            style => bail!("no style of numbers: {style:?}"),
        };
        let list = with_number(self.empty(tag::ol), attr::start, first)?;
        self.end_with(with_words(list, attr::type_, style)?, None)
    }

    /// Ends a footnote, stores it, and adds its mark.
    pub fn end_note(&mut self) -> Result<()> {
        let content = self.end_list().into_block_items();
        if self.plain == 0 {
            let mark = self.notes.mark(content, self.list.span())?;
            self.list.item(Pair::from(mark))?;
        }
        Ok(())
    }

    /// Ends the alternative text of an image, and adds the image.
    pub fn end_image(&mut self, attr: &Value, target: &Value) -> Result<()> {
        let (address, title) = two_texts(target)?;
        let title = title.strip_prefix("fig:").unwrap_or(title);
        let words = self.end_plain()?;
        let image = self.empty(tag::img).with_attr_text(attr::src, address)?;
        let image = image.with_attr(attr::alt, words)?;
        self.push(with_words(image, attr::title, title)?, Some(attr), None)
    }

    /// Ends a link: to a place in the document, or to an address.
    pub fn end_link(&mut self, attr: &Value, target: &Value) -> Result<()> {
        let (address, title) = two_texts(target)?;
        let name = self.name_in(address)?;
        let body = self.end_list().into_items();
        let mut link = self.empty(tag::a).with_body(body);
        if href_is_script(address) {
            self.warn("an address that would be run is dropped", address)?;
        } else if name.is_none() {
            link = link.with_attr_text(attr::href, address)?;
        }
        let link = with_words(link, attr::title, title)?;
        self.push(link, Some(attr), name.as_deref())
    }

    /// Returns the name of the place in this document that an address leads to, or would lead to if
    /// there were one. The top needs none.
    fn name_in(&self, address: &str) -> Result<Option<String>> {
        if let Some(name) = place_in(self.alloc, address, &self.all_ids)? {
            return Ok(Some(name));
        }
        match decoded_fragment(self.alloc, address)? {
            Some(name) if !name.eq_ignore_ascii_case("top") => Ok(Some(name)),
            _ => Ok(None),
        }
    }
}

fn is_comment(html: &str) -> bool {
    html.starts_with("<!--") && html.find("-->") == html.len().checked_sub(3)
}
