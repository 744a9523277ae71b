//! The attributes of elements, and warnings about them.

use crate::json::{array, fields, joined, text, two_texts};
use crate::writer::Writer;
use anyhow::{Context, Result};
use html_flow::{HtmlElem, push_located};
use html_names::{HtmlAttr, attr};
use serde_json::Value;
use std::alloc::Global;

/// The value with the attributes, if there is one: an `id`, classes, and others by their names.
pub type Attr<'a> = Option<&'a Value>;

/// Known attributes that get `data-` in front like unknown ones: an `id` and classes are written by
/// themselves, addresses are checked before they are written, and `ping` reports each click to a
/// stranger. The others run nothing on the elements that are written here (`action`, `srcdoc` ..).
const APART: [&str; 6] = ["class", "href", "id", "ping", "src", "srcset"];

impl Writer {
    /// Adds an element with attributes: as a place if it has an `id`, and as a link if it leads to
    /// a place, of that name.
    pub fn push(&mut self, elem: HtmlElem, attr: Attr<'_>, dest: Option<&str>) -> Result<()> {
        let (0, Some(attr)) = (self.plain, attr) else {
            return Ok(self.list.element(elem)?);
        };
        let [id, classes, others] = fields::<3>(attr)?;
        let id = self.new_id(text(id)?)?;
        let elem = with_words(elem, attr::id, id.unwrap_or_default())?;
        let mut elem = with_words(elem, attr::class, &joined(self.alloc, classes, "")?)?;
        for other in array(others)? {
            let (name, value) = two_texts(other)?;
            elem = self.with_other(elem, name, value)?;
        }
        match (id, dest) {
            (None, None) => Ok(self.list.element(elem)?),
            (Some(id), None) => Ok(self.list.place(&mut self.places, id, elem)?),
            (None, Some(dest)) => Ok(self.list.link(&mut self.places, dest, elem)?),
            (Some(id), Some(dest)) => self.push_both(id, dest, elem),
        }
    }

    /// Collects the ids in a value at most that deep, to which links may lead from anywhere.
    pub fn add_ids(&mut self, depth: usize, value: &Value) -> Result<()> {
        let below = depth.checked_sub(1).context("too deep")?;
        if let Some(id) = id_of(value) {
            let _ = self.all_ids.insert(id.to_string(self.alloc)?)?;
        }
        if let Some(values) = value.as_array() {
            for inner in values {
                self.add_ids(below, inner)?;
            }
        }
        if let Some(values) = value.as_object() {
            for (_, inner) in values {
                self.add_ids(below, inner)?;
            }
        }
        Ok(())
    }

    /// Returns the `id`, if there is one and no earlier element has it.
    fn new_id<'a>(&mut self, id: &'a str) -> Result<Option<&'a str>> {
        if id.is_empty() {
            return Ok(None);
        }
        if self.ids.insert(id.to_string(self.alloc)?)? {
            return Ok(Some(id));
        }
        self.warn("an earlier element has this id", id)?;
        Ok(None)
    }

    /// Adds an element that is a place and a link.
    fn push_both(&mut self, id: &str, dest: &str, elem: HtmlElem) -> Result<()> {
        let (here, dest) = (self.places.location(id)?, self.places.location(dest)?);
        let mut located = Vec::new(self.alloc);
        push_located(&mut located, here, None, Some(dest), elem.into())?;
        for item in located {
            self.list.item(item)?;
        }
        Ok(())
    }

    /// Adds an attribute to the element. A width or height with a unit becomes a css property.
    fn with_other(&mut self, mut elem: HtmlElem, name: &str, value: &str) -> Result<HtmlElem> {
        if matches!(name, "width" | "height") && !value.ends_with(char::is_numeric) {
            elem.css.push(name, value.to_string(self.alloc)?)?;
            return Ok(elem);
        }
        let name = name_of(self.alloc, name)?;
        let what = match HtmlAttr::intern(self.alloc, &name) {
            Ok(attr) if elem.attrs.get(&attr).is_none() => {
                return Ok(elem.with_attr_text(attr, value)?);
            }
            Ok(_) => "a second attribute of that name",
            Err(_) => "no name of an attribute",
        };
        self.warn(what, &name)?;
        Ok(elem)
    }
}

/// Returns the `id` in a value, if that is the attributes of an element.
fn id_of(value: &Value) -> Option<&str> {
    let [id, classes, others] = fields::<3>(value).ok()?;
    match (id.as_str()?, classes.as_array(), others.as_array()) {
        ("", _, _) => None,
        (id, Some(_), Some(_)) => Some(id),
        _ => None,
    }
}

/// Returns the name under which an attribute is written. An unknown one, and so any future one,
/// gets `data-` in front, so that no document brings a script of its own.
fn name_of(alloc: Global, name: &str) -> Result<String> {
    let attr = HtmlAttr::intern(alloc, name);
    let is_known = attr.is_ok_and(|attr| attr::is_known(&attr) && !attr::is_event_handler(&attr));
    let is_kept = name.starts_with("data-") || is_known && !APART.contains(&name);
    let prefix = if is_kept { "" } else { "data-" };
    Ok(format!(in alloc; "{prefix}{name}")?)
}

/// Adds a text as an attribute to the element, unless the text is empty.
pub fn with_words(elem: HtmlElem, attr: HtmlAttr, words: &str) -> Result<HtmlElem> {
    match words {
        "" => Ok(elem),
        _ => Ok(elem.with_attr_text(attr, words)?),
    }
}

/// Adds a number as an attribute to the element, unless it is 1, HTML's default.
pub fn with_number(elem: HtmlElem, attr: HtmlAttr, number: &Value) -> Result<HtmlElem> {
    let alloc = *elem.attrs.0.allocator();
    match number.as_i64().context("no number")? {
        1 => Ok(elem),
        number => Ok(elem.with_attr(attr, format!(in alloc; "{number}")?)?),
    }
}
