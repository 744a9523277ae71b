//! Items that a JSON value spells: a list of `["text",t]`, `["space"]`, `["break"]`, `["hole"]`,
//! `["start",n]`, `["start",n,destination]`, `["start",n,destination,label]`, `["end",n]`,
//! `["frame",n,..]`, in which these elements start, each with a link to itself, `["box",items]`,
//! `["block",items]` and `["el",tag,[[name,value],..],items]`, with `null` for no body. An item may
//! be wrapped in `["role",text,item]` or `["norole",item]`, and an element in
//! `["css",name,value,item]`. The spans are the numbers of the items in the order of writing, from 1.

use anyhow::{Context, Result, bail};
use html_dom_tree::{Frame, FrameItem, Location, Point, Span, Tag};
use html_flow_convert::{FrameElem, HtmlElem, Item, Pair, Role};
use html_names_core::{HtmlAttr, HtmlTag};
use html_values_css::Abs;
use serde_json::Value;
use std::alloc::Global;

/// Returns the items of a JSON text.
pub fn items_in(alloc: Global, json: &[u8]) -> Result<Vec<Pair>> {
    items_of(alloc, &Value::from_slice(alloc, json)?)
}

/// Returns the items that a value spells.
pub fn items_of(alloc: Global, value: &Value) -> Result<Vec<Pair>> {
    body_of(alloc, value, &mut 0)?.context("items are wanted")
}

/// Returns the text that a value spells.
pub fn text_of(value: &Value) -> Result<&str> {
    value.as_str().context("a text is wanted")
}

/// Returns a copy of the text that a value spells.
pub fn string_of(alloc: Global, value: &Value) -> Result<String> {
    Ok(String::from_str(alloc, text_of(value)?)?)
}

/// Returns the number from 0 on that a value spells.
pub fn number_of(value: &Value) -> Result<u64> {
    value.as_u64().context("a number is wanted")
}

fn location_of(value: &Value) -> Result<Location> {
    Ok(Location(number_of(value)?))
}

/// Returns the values of the list that a value spells.
pub fn list_of(value: &Value) -> Result<&[Value]> {
    Ok(value.as_array().context("a list is wanted")?.as_slice())
}

#[cycle(items)]
fn body_of(alloc: Global, value: &Value, number: &mut u64) -> Result<Option<Vec<Pair>>> {
    match value {
        Value::Array(values) => Ok(Some(pairs_of(alloc, values, number)?)),
        _ => Ok(None),
    }
}

#[cycle(items)]
fn pairs_of(alloc: Global, values: &[Value], number: &mut u64) -> Result<Vec<Pair>> {
    let mut pairs = Vec::new(alloc);
    for value in values {
        pairs.push(pair_of(alloc, value, number)?)?;
    }
    Ok(pairs)
}

#[cycle(items)]
fn pair_of(alloc: Global, value: &Value, number: &mut u64) -> Result<Pair> {
    let Value::Array(fields) = value else {
        bail!("an item is wanted");
    };
    match fields.as_slice() {
        [kind, role, inner] if kind.as_str() == Some("role") => {
            let item = item_of(alloc, inner, number)?;
            let role = Role::Set(string_of(alloc, role)?);
            Ok(Pair { item, role })
        }
        [kind, inner] if kind.as_str() == Some("norole") => {
            let item = item_of(alloc, inner, number)?;
            Ok(Pair {
                item,
                role: Role::Unset,
            })
        }
        fields => Ok(Pair::from(item_in(alloc, fields, number)?)),
    }
}

#[cycle(items)]
fn item_of(alloc: Global, value: &Value, number: &mut u64) -> Result<Item> {
    match value {
        Value::Array(fields) => item_in(alloc, fields, number),
        _ => bail!("an item is wanted"),
    }
}

#[cycle(items)]
fn item_in(alloc: Global, fields: &[Value], number: &mut u64) -> Result<Item> {
    match fields {
        [kind, name, text, inner] if kind.as_str() == Some("css") => {
            let item = item_of(alloc, inner, number)?;
            styled(alloc, item, text_of(name)?, text)
        }
        [kind, tag, attrs, inner] if kind.as_str() == Some("el") => {
            let span = next_span(number);
            let body = body_of(alloc, inner, number)?;
            let element = element_of(alloc, tag, attrs)?.spanned(span);
            Ok(Item::Element(HtmlElem { body, ..element }))
        }
        [kind, inner] if kind.as_str() == Some("box") => {
            let span = next_span(number);
            Ok(Item::Box(body_of(alloc, inner, number)?, span))
        }
        [kind, inner] if kind.as_str() == Some("block") => {
            let span = next_span(number);
            Ok(Item::Block(body_of(alloc, inner, number)?, span))
        }
        [kind, fields @ ..] => leaf(alloc, text_of(kind)?, fields, next_span(number)),
        [] => bail!("an item is wanted"),
    }
}

fn next_span(number: &mut u64) -> Span {
    *number = number.saturating_add(1);
    Span(*number)
}

/// Makes an item without a body.
fn leaf(alloc: Global, kind: &str, fields: &[Value], span: Span) -> Result<Item> {
    let item = match (kind, fields) {
        ("text", [text]) => Item::Text(string_of(alloc, text)?, span),
        ("space", []) => Item::Space(span),
        ("break", []) => Item::LineBreak(span),
        ("hole", []) => Item::Hole,
        ("frame", locations) => Item::Frame(drawing(alloc, span, locations)?),
        ("start", [location, known @ ..]) => Item::Tag(start(alloc, location, known)?),
        ("end", [location]) => Item::Tag(Tag::End {
            location: location_of(location)?,
        }),
        _ => bail!("no item: {kind}"),
    };
    Ok(item)
}

/// Makes a start tag from its fields: a destination, or a destination and a label.
fn start(alloc: Global, location: &Value, known: &[Value]) -> Result<Tag> {
    let (dest, label) = match known {
        [] => (None, None),
        [dest] => (Some(location_of(dest)?), None),
        [dest, label, ..] => (Some(location_of(dest)?), Some(string_of(alloc, label)?)),
    };
    let location = location_of(location)?;
    Ok(Tag::Start {
        location,
        label,
        dest,
    })
}

fn drawing(alloc: Global, span: Span, locations: &[Value]) -> Result<FrameElem> {
    let (mut items, zero) = (Vec::new(alloc), Abs::from_millionths(0));
    for location in locations {
        let location = location_of(location)?;
        let (label, dest) = (None, Some(location));
        let start = Tag::Start {
            location,
            label,
            dest,
        };
        items.push((Point { x: zero, y: zero }, FrameItem::Tag(start)))?;
    }
    let frame = Frame { picture: 1, items };
    Ok(FrameElem {
        frame,
        text_size: zero,
        span,
    })
}

fn element_of(alloc: Global, tag: &Value, attrs: &Value) -> Result<HtmlElem> {
    let mut element = HtmlElem::new(alloc, HtmlTag::intern(alloc, text_of(tag)?)?);
    for attr in list_of(attrs)? {
        let [name, value] = list_of(attr)? else {
            bail!("a name and a value are wanted");
        };
        let name = HtmlAttr::intern(alloc, text_of(name)?)?;
        element = element.with_attr(name, string_of(alloc, value)?)?;
    }
    Ok(element)
}

fn styled(alloc: Global, item: Item, name: &str, value: &Value) -> Result<Item> {
    let Item::Element(mut element) = item else {
        bail!("an element is wanted");
    };
    element.css.push(name, string_of(alloc, value)?)?;
    Ok(Item::Element(element))
}
