//! Types of attributes that JSON spells: the name of a native one, `"Presence"`,
//! `["strings",text,..]`, `["union",type,..]`, `["list",type,separator]` or, with the shorthand,
//! `["shorthand",type,separator]`.

use crate::values::value_of;
use anyhow::{Context, Result, bail, ensure};
use html_values::{AttrType, ListType, NativeType};
use serde_json::Value as Json;
use std::alloc::Global;
use tests_rows_items::{list_of, string_of, text_of};

#[rattlefmt::skip]
static NATIVE_TYPES: [NativeType; 18] = [
    NativeType::NoValue, NativeType::NoneEmpty, NativeType::NoneUndefined, NativeType::Auto,
    NativeType::TrueFalse, NativeType::YesNo, NativeType::OnOff, NativeType::Int,
    NativeType::NonNegativeInt, NativeType::PositiveInt, NativeType::Str, NativeType::Char,
    NativeType::Datetime, NativeType::Duration, NativeType::Color, NativeType::HorizontalDir,
    NativeType::IconSize, NativeType::ImageCandidate,
];

/// Returns the result of a cast, from a JSON list of the type and the value, and whether the type
/// is for a value that is refused.
pub fn cast(alloc: Global, json: &[u8]) -> Result<String> {
    let json = Json::from_slice(alloc, json)?;
    let [attr_type, value] = list_of(&json)? else {
        bail!("a type and a value are wanted");
    };
    let (attr_type, value) = (type_of(attr_type, alloc)?, value_of(value, alloc)?);
    let answer = attr_type.cast(alloc, &value);
    let mut shown = format!(in alloc; "{answer:?}")?;
    match (answer.is_ok(), attr_type.castable(&value)) {
        (true, is_castable) => ensure!(is_castable, "{shown}, not castable"),
        (false, true) => shown.push_str(", castable")?,
        (false, false) => {}
    }
    Ok(shown)
}

// The spelled type comes first among the parameters: its depth proves that the recursion ends.

#[cycle(types)]
pub(crate) fn type_of(json: &Json, alloc: Global) -> Result<AttrType> {
    let Json::Array(fields) = json else {
        return named_type(alloc, text_of(json)?);
    };
    match fields.as_slice() {
        [kind, texts @ ..] if kind.as_str() == Some("strings") => {
            let mut allowed = Vec::new(alloc);
            for text in texts {
                allowed.push(string_of(alloc, text)?)?;
            }
            Ok(AttrType::Strings(allowed))
        }
        [kind, types @ ..] if kind.as_str() == Some("union") => {
            let mut union = Vec::new(alloc);
            for inner in types {
                union.push(type_of(inner, alloc)?)?;
            }
            Ok(AttrType::Union(union))
        }
        [kind, inner, separator] => {
            let inner = type_of(inner, alloc)?;
            list_type(alloc, text_of(kind)?, inner, text_of(separator)?)
        }
        _ => bail!("no type"),
    }
}

fn list_type(alloc: Global, kind: &str, inner: AttrType, separator: &str) -> Result<AttrType> {
    ensure!(!inner.has_presence(), "an item may have no text");
    let separator = separator.chars().next().context("a separator is wanted")?;
    let is_short = kind == "shorthand";
    Ok(AttrType::List(ListType::new(alloc, inner, separator, is_short)?))
}

fn named_type(alloc: Global, name: &str) -> Result<AttrType> {
    for native_type in &NATIVE_TYPES {
        if format!(in alloc; "{native_type:?}")?.as_str() == name {
            return Ok(AttrType::Native(*native_type));
        }
    }
    ensure!(name == "Presence", "no type: {name}");
    Ok(AttrType::Presence)
}
