//! Values that JSON spells: `null`, a Boolean, a whole number, a text and an array each as itself;
//! others as `{"auto":[]}`, `{"dir":["ltr"]}`, `{"duration":[59]}`, `{"color":[255,0,16,128]}`,
//! `{"date":["2024-02-09"]}`, `{"time":["08:05"]}`, `{"datetime":["2024-02-09T08:05"]}`,
//! `{"image":["x.png"]}` and `{"image":["x.png",480]}`.

use anyhow::{Context, Result, bail};
use html_values::{Dir, Moment, Rgba, Value};
use serde_json::Value as Json;
use std::alloc::Global;
use tests_rows_items::{number_of, string_of, text_of};

// The spelled value comes first among the parameters: its depth proves that the recursion ends.

#[cycle(value)]
pub(crate) fn value_of(json: &Json, alloc: Global) -> Result<Value> {
    Ok(match json {
        Json::Null => Value::None,
        Json::Bool(on) => Value::Bool(*on),
        Json::Number(_) => Value::Int(int_of(json)?),
        Json::String(_) => Value::Str(string_of(alloc, json)?),
        Json::Array(items) => Value::Array(values_of(items, alloc)?),
        Json::Object(members) => {
            let (kind, fields) = members.iter().next().context("a kind is wanted")?;
            let fields = fields.as_array().context("fields are wanted")?;
            other_value(alloc, kind, fields)?
        }
    })
}

#[cycle(value)]
fn values_of(items: &[Json], alloc: Global) -> Result<Vec<Value>> {
    let mut values = Vec::new(alloc);
    for item in items {
        values.push(value_of(item, alloc)?)?;
    }
    Ok(values)
}

fn other_value(alloc: Global, kind: &str, fields: &[Json]) -> Result<Value> {
    Ok(match (kind, fields) {
        ("auto", []) => Value::Auto,
        ("dir", [dir]) => Value::Dir(dir_of(text_of(dir)?)?),
        ("duration", [seconds]) => Value::Duration(number_of(seconds)?),
        ("color", [r, g, b, a]) => {
            let (r, g, b, a) = (byte_of(r)?, byte_of(g)?, byte_of(b)?, byte_of(a)?);
            Value::Color(Rgba { r, g, b, a })
        }
        ("date", [day]) => Value::Datetime(Moment::Date(text_of(day)?.parse()?)),
        ("time", [time]) => Value::Datetime(Moment::Time(text_of(time)?.parse()?)),
        ("datetime", [both]) => Value::Datetime(Moment::DateTime(text_of(both)?.parse()?)),
        ("image", [src, width @ ..]) => {
            let src = string_of(alloc, src)?;
            let width = width.first().map(int_of).transpose()?;
            Value::Image { src, width }
        }
        _ => bail!("no value: {kind}"),
    })
}

fn dir_of(dir: &str) -> Result<Dir> {
    Ok(match dir {
        "ltr" => Dir::LTR,
        "rtl" => Dir::RTL,
        "ttb" => Dir::TTB,
        "btt" => Dir::BTT,
        _ => bail!("no direction: {dir}"),
    })
}

fn int_of(json: &Json) -> Result<i64> {
    json.as_i64().context("a whole number is wanted")
}

fn byte_of(json: &Json) -> Result<u8> {
    Ok(u8::try_from(number_of(json)?)?)
}
