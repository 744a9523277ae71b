//! The links of a document that lead nowhere, as JSON.

ghost use Rattle.std.specs.Prelude.{◌≡◌, string_bytes, IfOk};
ghost use Rattle.html_anchors.specs.DeadLinks.{dead_link_view, dead_links_view};
ghost use Rattle.serde_json.specs.{View.{view}, Written.{compact_text}};
ghost use Rattle.typst_html_ffi.specs.DeadLinks.{dead_link_data, dead_links_data};

use html_anchors::DeadLink;
use serde_json::{Value, json};
use std::alloc::{AllocError, Global};

pub(crate) fn dead_links_text(alloc: Global, links: &[DeadLink]) -> Result<String, AllocError>
    ensures { IfOk result (λ text.
        string_bytes text ≡ compact_text (dead_links_data (dead_links_view links.now))) }
{
    let value = dead_links_value(alloc, links)?;
    Ok(value.to_string(alloc)?)
}

fn dead_links_value(alloc: Global, links: &[DeadLink]) -> Result<Value, AllocError>
    ensures { IfOk result (λ value. view value ≡ dead_links_data (dead_links_view links.now)) }
{
    let mut values = Vec::with_capacity(alloc, links.len())?;
    for link in links {
        values.push(dead_link_value(alloc, *link)?)?;
    }
    json!(in alloc; {"dead_links": values})
}

fn dead_link_value(alloc: Global, link: DeadLink) -> Result<Value, AllocError>
    ensures { IfOk result (λ value. view value ≡ dead_link_data (dead_link_view link)) }
{
    let (destination, span) = (link.dest.0, link.span.0);
    json!(in alloc; {"destination": destination, "span": span})
}
