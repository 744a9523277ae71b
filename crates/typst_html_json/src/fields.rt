//! The fields of the lists that spell texts and tags.

ghost use Rattle.std.specs.Prelude.{◌≡◌, ◌≢◌, length, drop, option_map, option_and_then, IfSome, IfNone};
ghost use Rattle.serde_json.specs.View.{view, items_view};
ghost use Rattle.html_dom_tree.specs.{Tree.{TextPair}, Views.{tag_view, text_view}};
ghost use Rattle.typst_html_json.specs.Fields.{text_at, pair_at, pair_form, text_form, end_form, no_fields, dest_at, labelled_start, plain_start_form, start_form};
ghost use Rattle.typst_html_json.specs.declared.input_forms.Forms.TheVariants.{Document};

use crate::input_forms::Forms;
use html_dom_tree::{Location, Tag};
use serde_json::Value;

pub(crate) fn text_at(value: Value) -> Option<String>
    ensures { option_map text_view result ≡ text_at (view value) }
{
    match value {
        Value::String(text) => Some(text),
        _ => None,
    }
}

pub(crate) fn parts_of<const N: usize>(list: Vec<Value>) -> Option<[Value; N]>
    ensures made { IfSome result (λ parts. (parts ≡ list.items) × (length list.items ≡ N)) }
    ensures other { IfNone result (length list.items ≢ N) }
{
    <[Value; N]>::try_from(list).ok()
}

#[tactic(auto, using(crate::proofs::Forms::forms))]
pub(crate) fn text_in(list: Vec<Value>) -> Option<String>
    ensures { option_map text_view result ≡ text_form (items_view (drop 1 list.items)) }
{
    let [_, text] = parts_of::<2>(list)?;
    text_at(text)
}

pub(crate) fn pair_in(value: Value) -> Option<(String, String)>
    ensures { option_map (λ p. (text_view p.0, text_view p.1)) result ≡ pair_at (view value) }
{
    match value {
        Value::Array(parts) => pair_of(parts),
        _ => None,
    }
}

#[tactic(auto, using(crate::proofs::Forms::forms))]
fn pair_of(parts: Vec<Value>) -> Option<(String, String)>
    ensures { option_map (λ p. (text_view p.0, text_view p.1)) result
        ≡ pair_form (items_view parts.items) }
{
    let [name, value] = parts_of::<2>(parts)?;
    text_pair(name, value)
}

fn text_pair(name: Value, value: Value) -> Option<(String, String)>
    ensures { option_map {U = TextPair} (λ p. (text_view p.0, text_view p.1)) result
        ≡ option_and_then (λ n. option_map (λ v. (n, v)) (text_at (view value)))
        (text_at (view name)) }
{
    Some((text_at(name)?, text_at(value)?))
}

#[tactic(auto, using(crate::proofs::Forms::forms))]
pub(crate) fn start_in(forms: Forms, list: Vec<Value>) -> Option<Tag>
    ensures { option_map tag_view result ≡ start_form forms (items_view (drop 1 list.items)) }
{
    match forms {
        Forms::Program => plain_start_in(list),
        Forms::Document => {
            if list.len() == 4 {
                labelled_start_in(list)
            } else {
                plain_start_in(list)
            }
        }
    }
}

fn labelled_start_in(list: Vec<Value>) -> Option<Tag>
    requires { length list.items ≡ 4 }
    ensures { option_map tag_view result ≡ start_form Document (items_view (drop 1 list.items)) }
{
    let [_, location, dest, label] = parts_of::<4>(list)?;
    labelled_start(location, dest, label)
}

fn labelled_start(location: Value, dest: Value, label: Value) -> Option<Tag>
    ensures { option_map tag_view result
        ≡ labelled_start (view location) (view dest) (view label) }
{
    Some(Tag::Start {
        location: Location(location.as_u64()?),
        label: Some(text_at(label)?),
        dest: dest_at(dest)?,
    })
}

fn dest_at(value: Value) -> Option<Option<Location>>
    ensures { option_map (option_map (λ l. l.0)) result ≡ dest_at (view value) }
{
    match value {
        Value::Null => Some(None),
        value => Some(Some(Location(value.as_u64()?))),
    }
}

#[tactic(auto, using(crate::proofs::Forms::forms))]
pub(crate) fn plain_start_in(list: Vec<Value>) -> Option<Tag>
    ensures { option_map tag_view result ≡ plain_start_form (items_view (drop 1 list.items)) }
{
    let (location, dest) = match list.as_slice() {
        [_, location] => (location, None),
        [_, location, dest] => (location, Some(Location(dest.as_u64()?))),
        _ => return None,
    };
    Some(Tag::Start {
        location: Location(location.as_u64()?),
        label: None,
        dest,
    })
}

#[tactic(auto, using(crate::proofs::Forms::forms))]
pub(crate) fn end_in(list: Vec<Value>) -> Option<Tag>
    ensures { option_map tag_view result ≡ end_form (items_view (drop 1 list.items)) }
{
    let [_, location] = list.as_slice() else {
        return None;
    };
    Some(Tag::End {
        location: Location(location.as_u64()?),
    })
}

#[tactic(auto, using(crate::proofs::Forms::forms))]
pub(crate) fn nothing_in(list: Vec<Value>) -> Option<()>
    ensures { result ≡ no_fields (items_view (drop 1 list.items)) }
{
    match list.as_slice() {
        [] | [_] => Some(()),
        _ => None,
    }
}
