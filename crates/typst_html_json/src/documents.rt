//! The document that a JSON value spells: the information about it, its items, its footnotes and
//! the nodes for its head.

ghost use Rattle.std.specs.Prelude.{◌≡◌};
ghost use Rattle.serde_json.specs.View.{view};
ghost use Rattle.typst_html_json.specs.Reading.{ReadsMember};
ghost use Rattle.typst_html_json.specs.SpelledDocuments.{no_parts, spelled_document, spelling_from, list_value, parts_at, with_known, with_member};
ghost use Rattle.typst_html_json.specs.Spelling.{GivesSpelledDocument, document_parts_view};

use crate::fault::{Fault, InputPlace};
use crate::info_members::{named_member, with_info_member};
use crate::input_forms::Forms;
use crate::items::list_of;
use crate::nodes;
use crate::reader::Reader;
use html_dom_document::DocumentInfo;
use html_dom_tree::HtmlNode;
use html_flow_convert::Pair;
use serde_json::Value;
use std::alloc::Global;

/// The parts of a document: the information about it, and the lists of its items, footnotes and
/// head.
#[derive(Drop)]
pub(crate) struct DocumentParts {
    info: DocumentInfo,
    items: Value,
    footnotes: Value,
    head: Value,
}

impl DocumentParts {
    fn new(alloc: Global) -> DocumentParts
        ensures { document_parts_view result ≡ no_parts }
    {
        DocumentParts {
            info: DocumentInfo::new(alloc),
            items: Value::Array(Vec::new(alloc)),
            footnotes: Value::Array(Vec::new(alloc)),
            head: Value::Array(Vec::new(alloc)),
        }
    }
}

fn parts_at(alloc: Global, value: Value) -> Result<DocumentParts, Fault>
    ensures { ReadsMember document_parts_view result (parts_at (view value)) }
{
    let Value::Object(members) = value else {
        return Err(Fault::BadInput(InputPlace::Form(0)));
    };
    let mut parts = DocumentParts::new(alloc);
    for (name, value) in members {
        parts = with_member(alloc, parts, &name, value)?;
    }
    Ok(parts)
}

fn with_member(
    alloc: Global,
    parts: DocumentParts,
    name: &str,
    value: Value,
) -> Result<DocumentParts, Fault>
    ensures { ReadsMember document_parts_view result
        (with_member (document_parts_view parts) name.now (view value)) }
{
    match name {
        "items" => Ok(DocumentParts {
            items: known_list(value)?,
            ..parts
        }),
        "footnotes" => Ok(DocumentParts {
            footnotes: known_list(value)?,
            ..parts
        }),
        "head" => Ok(DocumentParts {
            head: known_list(value)?,
            ..parts
        }),
        _ => with_known(alloc, parts, name, value),
    }
}

fn known_list(value: Value) -> Result<Value, Fault>
    ensures { ReadsMember view result (list_value (view value)) }
{
    match value {
        Value::Array(_) => Ok(value),
        _ => Err(Fault::BadInput(InputPlace::Form(0))),
    }
}

fn with_known(
    alloc: Global,
    parts: DocumentParts,
    name: &str,
    value: Value,
) -> Result<DocumentParts, Fault>
    ensures { ReadsMember document_parts_view result
        (with_known (document_parts_view parts) name.now (view value)) }
{
    let member = named_member(name).ok_or(Fault::BadInput(InputPlace::Form(0)))?;
    let info = with_info_member(alloc, parts.info, member, value)?;
    Ok(DocumentParts { info, ..parts })
}

/// A document that a value spells.
#[derive(Drop)]
pub struct SpelledDocument {
    /// The information about it.
    pub info: DocumentInfo,
    /// Its items.
    pub items: Vec<Pair>,
    /// Its footnotes.
    pub footnotes: Vec<Pair>,
    /// Nodes for its head.
    pub head: Vec<HtmlNode>,
}

/// Returns the document that a value spells. Its items have the forms of documents, which are more
/// than those of [`items_in`](crate::items_in). Copies the value once.
///
/// Fails with [`Fault::BadInput`] if the value spells no document, whatever its names are, and with
/// [`Fault::Refused`] for the first name that is refused.
pub fn document_in(alloc: Global, value: &Value) -> Result<SpelledDocument, Fault>
    ensures { GivesSpelledDocument result (spelled_document (view value.now)) }
{
    into_document(alloc, value.clone()?)
}

/// Does the same as [`document_in`], but consumes the value and reuses its texts.
pub fn into_document(alloc: Global, value: Value) -> Result<SpelledDocument, Fault>
    ensures { GivesSpelledDocument result (spelled_document (view value)) }
{
    let parts = parts_at(alloc, value)?;
    document_by(alloc, parts)
}

fn document_by(alloc: Global, parts: DocumentParts) -> Result<SpelledDocument, Fault>
    ensures { GivesSpelledDocument result (spelling_from (document_parts_view parts)) }
{
    let DocumentParts {
        info,
        items,
        footnotes,
        head,
    } = parts;
    let mut reader = Reader::new(alloc);
    let items = list_of(&mut reader, Forms::Document, items)?;
    let footnotes = list_of(&mut reader, Forms::Document, footnotes)?;
    let head = nodes::list_of(&mut reader, head)?;
    match reader.refused() {
        Some((number, span)) => Err(Fault::Refused(number, span)),
        None => Ok(SpelledDocument {
            info,
            items,
            footnotes,
            head,
        }),
    }
}
