//! Elements made from arguments.

use crate::types::type_of;
use crate::values::value_of;
use anyhow::{Result, bail};
use html_dom_tree::Span;
use html_flow_construct::{Arg, ArgValue, Args, ElementInfo, construct};
use html_names_core::{HtmlAttr, HtmlTag};
use serde_json::Value as Json;
use std::alloc::Global;
use tests_rows_items::{items_of, list_of, string_of, text_of};

/// Returns what is constructed, or the fault, and the spans of the arguments that are left. The
/// JSON text is a list of the element's name, the pairs of its attributes and their types, and the
/// arguments: each a name or `null`, and a value or `{"body":items}`. Their spans are their numbers
/// from 1.
pub fn constructed(alloc: Global, json: &[u8]) -> Result<String> {
    let json = Json::from_slice(alloc, json)?;
    let [tag, attrs, args] = list_of(&json)? else {
        bail!("a name, attributes and arguments are wanted");
    };
    let info = info_of(alloc, text_of(tag)?, list_of(attrs)?)?;
    let mut args = args_of(alloc, list_of(args)?)?;
    let mut shown = match construct(alloc, &info, &mut args) {
        Ok(made) => format!(in alloc; "{} {:?} {:?}", made.tag, made.attrs.0, made.body)?,
        Err(fault) => format!(in alloc; "{fault:?}")?,
    };
    shown.push_str(", left:")?;
    for arg in &args.items {
        write!(shown, " {}", arg.span.0)?;
    }
    Ok(shown)
}

fn info_of(alloc: Global, tag: &str, attrs: &[Json]) -> Result<ElementInfo> {
    let mut entries = Vec::new(alloc);
    for attr in attrs {
        let [name, attr_type] = list_of(attr)? else {
            bail!("a name and a type are wanted");
        };
        let name = HtmlAttr::intern(alloc, text_of(name)?)?;
        entries.push((name, type_of(attr_type, alloc)?))?;
    }
    Ok(ElementInfo::new(HtmlTag::intern(alloc, tag)?, entries))
}

fn args_of(alloc: Global, args: &[Json]) -> Result<Args> {
    let (mut items, mut number) = (Vec::new(alloc), 0u64);
    for arg in args {
        let [name, value] = list_of(arg)? else {
            bail!("a name and a value are wanted");
        };
        number = number.saturating_add(1);
        let name = match name {
            Json::Null => None,
            name => Some(string_of(alloc, name)?),
        };
        let value = match value.get("body") {
            Some(items) => ArgValue::Body(items_of(alloc, items)?),
            None => ArgValue::Plain(value_of(value, alloc)?),
        };
        items.push(Arg {
            name,
            span: Span(number),
            value,
        })?;
    }
    Ok(Args { items })
}
