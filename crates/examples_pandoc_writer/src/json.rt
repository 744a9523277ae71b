//! The parts of JSON values.

use anyhow::{Context, Result};
use serde_json::Value;
use std::alloc::Global;

/// Returns the tag and the content of a value. If there is no content, returns the value itself
/// instead, which is no text, number or list.
pub fn tag_and_content(value: &Value) -> Result<(&str, &Value)> {
    let tag = value.get("t").context("no tag")?;
    Ok((text(tag)?, value.get("c").unwrap_or(value)))
}

/// Returns the text that a value is.
pub fn text(value: &Value) -> Result<&str> {
    value.as_str().context("no text")
}

/// Returns the values of a list.
pub fn array(value: &Value) -> Result<&[Value]> {
    Ok(value.as_array().context("no list")?.as_slice())
}

/// Returns the values of a list of that length.
pub fn fields<const N: usize>(value: &Value) -> Result<&[Value; N]> {
    let fields = <&[Value; N]>::try_from(array(value)?).ok();
    fields.context("a list of another length")
}

/// Returns the texts of a list of two.
pub fn two_texts(value: &Value) -> Result<(&str, &str)> {
    let [first, second] = fields::<2>(value)?;
    Ok((text(first)?, text(second)?))
}

/// Returns the number that a value is.
pub fn number(value: &Value) -> Result<usize> {
    Ok(usize::try_from(value.as_u64().context("no number")?)?)
}

/// Joins the texts at that path in the values of a list with spaces.
pub fn joined(alloc: Global, list: &Value, path: &str) -> Result<String> {
    let mut texts = Vec::new(alloc);
    for value in array(list)? {
        texts.push(text(value.pointer(path).context("no text")?)?)?;
    }
    Ok(texts.join(alloc, " ")?)
}
