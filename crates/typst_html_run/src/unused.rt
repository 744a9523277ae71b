//! The information about a document that its text does not show, as JSON.

ghost use Rattle.std.specs.Prelude.{◌≡◌, ◌≤◌, ◌==◌, ◌++◌, IfOk, OnOk, not, length, string_bytes};
ghost use Rattle.serde_json.specs.{View.{view}, Written.{compact_text}};
ghost use Rattle.html_dom_tree.specs.Views.{nodes_view, text_view};
ghost use Rattle.html_flow_convert.specs.LoneNode.{node_list};
ghost use Rattle.typst_html_run.specs.Replies.{GivesAnswer};
ghost use Rattle.typst_html_run.specs.UnusedInformation.{given_name, given_names, unused_data, unused_text, unused_input_answer, unused_refusals, unused_value_answer};
ghost use Rattle.typst_html_run.specs.Words.{texts_of};
ghost use Rattle.typst_html_json.specs.{Refusals.{Gives}, Spelling.{spelling_view}};

use crate::program::fault_of;
use html_dom_tree::HtmlNode;
use serde_json::{Value, json};
use std::alloc::{AllocError, Global};
use typst_html_export::has_own_root;
use typst_html_json::{Fault, SpelledDocument, into_document, parse};

/// Returns as JSON the names of the members of an input whose information the text of its document
/// does not show. If the items have a root of their own
/// ([`has_own_root`](typst_html_export::has_own_root)), these are all members for information that
/// the input has, also those that are empty lists; otherwise there are none.
///
/// The names are in the order `title`, `description`, `authors`, `keywords`, `lang`, `region`,
/// `head`. The input is that of [`text_of_document`](crate::text_of_document). It is refused as
/// there, except for its footnotes, of which only the names count, and for what cannot be written.
///
/// ```
/// use typst_html_run::unused_of_document;
///
/// let alloc = rt.alloc();
/// let own = br#"{"title":"Tides","lang":"de","authors":[],"items":[["el","html",[],[]]]}"#;
/// let unused = unused_of_document(alloc, own, 50)?;
/// assert_eq!(rt; unused.as_str(), r#"{"unused":["title","authors","lang"]}"#);
/// let none = br#"{"title":"Tides","items":[["el","p",[],[]]]}"#;
/// assert_eq!(rt; unused_of_document(alloc, none, 50)?.as_str(), r#"{"unused":[]}"#);
/// ```
pub fn unused_of_document(alloc: Global, input: &[u8], limit: usize) -> Result<String, Fault>
    requires some_limit { 1 ≤ limit }
    requires low_limit { limit ≤ 10000 }
    ensures { GivesAnswer result (unused_input_answer limit input.now) }
{
    let value = parse(alloc, input)?;
    unused_of_value(alloc, value, limit)
}

fn unused_of_value(alloc: Global, value: Value, limit: usize) -> Result<String, Fault>
    requires some_limit { 1 ≤ limit }
    requires low_limit { limit ≤ 10000 }
    ensures { GivesAnswer result (unused_value_answer limit (view value)) }
{
    let given = given_names(alloc, &value)?;
    let document = into_document(alloc, value)?;
    unused_text(alloc, &given, &document, limit)
}

#[tactic(auto, using(crate::proofs::FirstFaults::first_faults))]
fn unused_text(
    alloc: Global,
    given: &[String],
    document: &SpelledDocument,
    limit: usize,
) -> Result<String, Fault>
    requires some_limit { 1 ≤ limit }
    requires low_limit { limit ≤ 10000 }
    ensures { Gives text_view result (unused_text (texts_of given.now) (spelling_view document.now))
        (unused_refusals limit (spelling_view document.now)) }
{
    match has_own_root(alloc, &document.items, limit) {
        Ok(true) => Ok(names_text(alloc, given)?),
        Ok(false) => Ok(names_text(alloc, &[])?),
        Err(fault) => Err(fault_of(&fault)),
    }
}

fn names_text(alloc: Global, names: &[String]) -> Result<String, AllocError>
    ensures { IfOk result (λ text.
        string_bytes text ≡ compact_text (unused_data (texts_of names.now))) }
{
    let value = names_value(alloc, names)?;
    Ok(value.to_string(alloc)?)
}

fn names_value(alloc: Global, names: &[String]) -> Result<Value, AllocError>
    ensures { IfOk result (λ value. view value ≡ unused_data (texts_of names.now)) }
{
    let mut values = Vec::with_capacity(alloc, names.len())?;
    for name in names {
        values.push(Value::String(name.clone()?))?;
    }
    json!(in alloc; {"unused": values})
}

/// Returns the names of the members for information that a value has.
fn given_names(alloc: Global, value: &Value) -> Result<Vec<String>, AllocError>
    ensures { IfOk result (λ names. texts_of names.items ≡ given_names (view value.now)) }
{
    let mut names = Vec::new(alloc);
    push_given(alloc, &mut names, value, "title")?;
    push_given(alloc, &mut names, value, "description")?;
    push_given(alloc, &mut names, value, "authors")?;
    push_given(alloc, &mut names, value, "keywords")?;
    push_given(alloc, &mut names, value, "lang")?;
    push_given(alloc, &mut names, value, "region")?;
    push_given(alloc, &mut names, value, "head")?;
    Ok(names)
}

fn push_given(
    alloc: Global,
    names: &mut Vec<String>,
    value: &Value,
    name: &str,
) -> Result<(), AllocError>
    ensures { OnOk result (texts_of names.new.items
        ≡ texts_of names.old.items ++ given_name (view value.now) name.now) }
{
    if value.get(name).is_some() {
        names.push(String::from_str(alloc, name)?)?;
    }
    Ok(())
}

pub(crate) fn has_nodes(nodes: &[HtmlNode]) -> bool
    ensures { result ≡ not (length (node_list (nodes_view nodes.now)) == 0) }
{
    !nodes.is_empty()
}
