//! The items that a JSON value spells.

ghost use Rattle.std.specs.Prelude.{◌≡◌, ◌≢◌, [], drop, length, option_map};
ghost use Rattle.serde_json.specs.View.{view, items_view};
ghost use Rattle.html_dom_tree.specs.Views.{tag_view};
ghost use Rattle.html_flow_convert.specs.{Items.{tag_item, space_item, break_item, hole_item}, Views.{role_view}};
ghost use Rattle.typst_html_json.specs.{Fields.{numbered_leaf, text_at, pairs_at, element_from}, LeftForms.{from_part}};
ghost use Rattle.typst_html_json.specs.Reading.{ReadsItem, ReadsItems, ReadsPart, mark};
ghost use Rattle.typst_html_json.specs.SpelledItems.{items_at, spelled_document_items, spelled_items, spelled_part, part_form, part_of_kind, item_of_kind, element_form, block_form, box_form, body_form, role_form, lone, spelled_link, spelled_place, spelled_text, css_at, element_made, is_role, list_at, role_at, role_from};
ghost use Rattle.typst_html_json.specs.{Spelling.{GivesItems}, declared.input_forms.Forms.TheVariants.{Document}};

use crate::fault::Fault;
use crate::fields::{end_in, nothing_in, parts_of, start_in, text_at, text_in};
use crate::input_forms::Forms;
use crate::kind::{Kind, list_kind};
use crate::reader::Reader;
use html_dom_tree::{Location, Tag};
use html_flow_convert::{HtmlElem, Item, Pair, Role};
use html_values_css::Properties;
use serde_json::Value;
use std::alloc::Global;

/// Returns the items that a value spells. Copies the value once.
///
/// Fails with [`Fault::BadInput`] if the value spells no items, whatever its names are, and with
/// [`Fault::Refused`] for the first name that is refused.
pub fn items_in(alloc: Global, value: &Value) -> Result<Vec<Pair>, Fault>
    ensures { GivesItems result (spelled_items (view value.now)) }
{
    into_items(alloc, value.clone()?)
}

/// Does the same as [`items_in`], but consumes the value and reuses its texts.
pub fn into_items(alloc: Global, value: Value) -> Result<Vec<Pair>, Fault>
    ensures { GivesItems result (spelled_items (view value)) }
{
    items_by(alloc, Forms::Program, value)
}

/// Returns the items that a value spells in the forms of documents, which are more than those of
/// [`items_in`]: those of [`document_in`](crate::document_in). Copies the value once.
pub fn document_items_in(alloc: Global, value: &Value) -> Result<Vec<Pair>, Fault>
    ensures { GivesItems result (spelled_document_items (view value.now)) }
{
    into_document_items(alloc, value.clone()?)
}

/// Does the same as [`document_items_in`], but consumes the value and reuses its texts.
pub fn into_document_items(alloc: Global, value: Value) -> Result<Vec<Pair>, Fault>
    ensures { GivesItems result (spelled_document_items (view value)) }
{
    items_by(alloc, Forms::Document, value)
}

fn items_by(alloc: Global, forms: Forms, value: Value) -> Result<Vec<Pair>, Fault>
    ensures { GivesItems result (items_at forms (view value)) }
{
    let mut reader = Reader::new(alloc);
    let items = list_of(&mut reader, forms, value)?;
    match reader.refused() {
        Some((number, span)) => Err(Fault::Refused(number, span)),
        None => Ok(items),
    }
}

#[cycle(spell)]
fn pair_of(reader: &mut Reader, forms: Forms, value: Value) -> Result<Pair, Fault>
    ensures { ReadsPart result (spelled_part forms (view value) (mark reader.old))
        reader.old reader.new }
{
    let Value::Array(list) = value else {
        return Err(reader.left());
    };
    reader.open()?;
    opened_pair(reader, forms, list)
}

/// Returns the item of the list that was opened last.
#[cycle(spell)]
fn opened_pair(reader: &mut Reader, forms: Forms, list: Vec<Value>) -> Result<Pair, Fault>
    ensures { ReadsPart result (part_form forms (items_view list.items) (mark reader.old))
        reader.old reader.new }
{
    match list_kind(forms, &list) {
        Some(kind) => form_of(reader, forms, kind, list),
        None => Err(reader.left()),
    }
}

#[cycle(spell)]
fn form_of(reader: &mut Reader, forms: Forms, kind: Kind, list: Vec<Value>) -> Result<Pair, Fault>
    ensures { ReadsPart result
        (part_of_kind forms kind (items_view (drop 1 list.items)) (mark reader.old))
        reader.old reader.new }
{
    if is_role(kind) {
        return with_role(reader, forms, list);
    }
    let item = item_of(reader, forms, kind, list)?;
    let role = Role::Inherit;
    Ok(Pair { item, role })
}

fn is_role(kind: Kind) -> bool
    ensures { result ≡ is_role kind }
{
    match kind {
        Kind::Role => true,
        _ => false,
    }
}

// Not inlined: few items have a role or css, and each level of items takes stack.
#[cycle(spell)]
#[inline(never)]
#[tactic(auto, using(crate::proofs::ItemForms::item_forms))]
fn with_role(reader: &mut Reader, forms: Forms, list: Vec<Value>) -> Result<Pair, Fault>
    ensures { ReadsPart result
        (role_form forms (items_view (drop 1 list.items)) (mark reader.old))
        reader.old reader.new }
{
    match parts_of::<3>(list) {
        Some(parts) => {
            let [_, role, item] = parts;
            pair_with(reader, forms, role, item)
        }
        None => Err(reader.left()),
    }
}

#[cycle(spell)]
fn pair_with(reader: &mut Reader, forms: Forms, role: Value, item: Value) -> Result<Pair, Fault>
    ensures { ReadsPart result (from_part reader.old.lists
        (λ r. role_from r (spelled_part forms (view item) (mark reader.old))) (role_at (view role)))
        reader.old reader.new }
{
    let Some(role) = role_at(role) else {
        return Err(reader.left());
    };
    let pair = pair_of(reader, forms, item)?;
    Ok(Pair { role, ..pair })
}

fn role_at(value: Value) -> Option<Role>
    ensures { option_map role_view result ≡ role_at (view value) }
{
    match value {
        Value::Null => Some(Role::Unset),
        value => Some(Role::Set(text_at(value)?)),
    }
}

#[cycle(spell)]
fn item_of(reader: &mut Reader, forms: Forms, kind: Kind, list: Vec<Value>) -> Result<Item, Fault>
    ensures { ReadsItem result
        (item_of_kind forms kind (items_view (drop 1 list.items)) (mark reader.old))
        reader.old reader.new }
{
    match kind {
        Kind::Text => text_of(reader, list),
        Kind::Element => element_of(reader, forms, list),
        Kind::Block => block_of(reader, forms, list),
        Kind::Box => box_of(reader, forms, list),
        Kind::Start => tag_of(reader, start_in(forms, list)),
        Kind::End => tag_of(reader, end_in(list)),
        Kind::Space => space_of(reader, list),
        Kind::Break => break_of(reader, list),
        Kind::Hole => hole_of(reader, list),
        Kind::Place => place_of(reader, list),
        Kind::Link => link_of(reader, list),
        Kind::Role => Err(reader.left()),
    }
}

fn space_of(reader: &Reader, list: Vec<Value>) -> Result<Item, Fault>
    ensures { ReadsItem result (lone (space_item reader.now.lists) (items_view (drop 1 list.items))
        (mark reader.now)) reader.now reader.now }
{
    match nothing_in(list) {
        Some(()) => Ok(Item::Space(reader.here())),
        None => Err(reader.left()),
    }
}

fn break_of(reader: &Reader, list: Vec<Value>) -> Result<Item, Fault>
    ensures { ReadsItem result (lone (break_item reader.now.lists) (items_view (drop 1 list.items))
        (mark reader.now)) reader.now reader.now }
{
    match nothing_in(list) {
        Some(()) => Ok(Item::LineBreak(reader.here())),
        None => Err(reader.left()),
    }
}

fn hole_of(reader: &Reader, list: Vec<Value>) -> Result<Item, Fault>
    ensures { ReadsItem result (lone hole_item (items_view (drop 1 list.items)) (mark reader.now))
        reader.now reader.now }
{
    match nothing_in(list) {
        Some(()) => Ok(Item::Hole),
        None => Err(reader.left()),
    }
}

fn text_of(reader: &Reader, list: Vec<Value>) -> Result<Item, Fault>
    ensures { ReadsItem result (spelled_text (items_view (drop 1 list.items)) (mark reader.now))
        reader.now reader.now }
{
    match text_in(list) {
        Some(text) => Ok(Item::Text(text, reader.here())),
        None => Err(reader.left()),
    }
}

fn tag_of(reader: &mut Reader, tag: Option<Tag>) -> Result<Item, Fault>
    ensures { ReadsItem result (numbered_leaf tag_item (option_map tag_view tag) (mark reader.old))
        reader.old reader.new }
{
    Ok(Item::Tag(reader.numbered(tag)?))
}

#[inline(never)]
fn place_of(reader: &mut Reader, list: Vec<Value>) -> Result<Item, Fault>
    ensures { ReadsItem result (spelled_place (items_view (drop 1 list.items)) (mark reader.old))
        reader.old reader.new }
{
    let Some(name) = text_in(list) else {
        return Err(reader.left());
    };
    let location = reader.named(&name)?;
    Ok(Item::Tag(Tag::Start {
        location,
        label: Some(name),
        dest: None,
    }))
}

#[inline(never)]
fn link_of(reader: &mut Reader, list: Vec<Value>) -> Result<Item, Fault>
    ensures { ReadsItem result (spelled_link (items_view (drop 1 list.items)) (mark reader.old))
        reader.old reader.new }
{
    let Some(name) = text_in(list) else {
        return Err(reader.left());
    };
    let destination = reader.named(&name)?;
    Ok(Item::Tag(Tag::Start {
        location: Location(0),
        label: None,
        dest: Some(destination),
    }))
}

#[cycle(spell)]
fn element_of(reader: &mut Reader, forms: Forms, list: Vec<Value>) -> Result<Item, Fault>
    ensures { ReadsItem result
        (element_form forms (items_view (drop 1 list.items)) (mark reader.old))
        reader.old reader.new }
{
    match forms {
        Forms::Document if list.len() == 5 => styled_of(reader, list),
        _ => plain_of(reader, forms, list),
    }
}

#[cycle(spell)]
#[tactic(auto, using(crate::proofs::ItemForms::item_forms))]
fn plain_of(reader: &mut Reader, forms: Forms, list: Vec<Value>) -> Result<Item, Fault>
    requires { forms ≡ Document → length list.items ≢ 5 }
    ensures { ReadsItem result
        (element_form forms (items_view (drop 1 list.items)) (mark reader.old))
        reader.old reader.new }
{
    match parts_of::<4>(list) {
        Some(parts) => {
            let [_, name, pairs, list] = parts;
            let css = Properties::new(reader.alloc());
            element_with(reader, forms, name, pairs, css, list)
        }
        None => Err(reader.left()),
    }
}

#[cycle(spell)]
#[inline(never)]
#[tactic(auto, using(crate::proofs::ItemForms::item_forms))]
fn styled_of(reader: &mut Reader, list: Vec<Value>) -> Result<Item, Fault>
    requires { length list.items ≡ 5 }
    ensures { ReadsItem result
        (element_form Document (items_view (drop 1 list.items)) (mark reader.old))
        reader.old reader.new }
{
    match parts_of::<5>(list) {
        Some(parts) => {
            let [_, name, pairs, css, list] = parts;
            styled_with(reader, name, pairs, css, list)
        }
        None => Err(reader.left()),
    }
}

#[cycle(spell)]
fn styled_with(
    reader: &mut Reader,
    name: Value,
    pairs: Value,
    css: Value,
    list: Value,
) -> Result<Item, Fault>
    ensures { ReadsItem result (from_part reader.old.lists
        (λ css. element_from (element_made css reader.old.lists) (mark reader.old)
        (text_at (view name)) (pairs_at (view pairs))
        (list_at Document (view list) (mark reader.old))) (css_at (view css)))
        reader.old reader.new }
{
    let css = reader.css(css)?;
    element_with(reader, Forms::Document, name, pairs, css, list)
}

#[cycle(spell)]
fn element_with(
    reader: &mut Reader,
    forms: Forms,
    name: Value,
    pairs: Value,
    css: Properties,
    list: Value,
) -> Result<Item, Fault>
    ensures { ReadsItem result (element_from (element_made css reader.old.lists) (mark reader.old)
        (text_at (view name)) (pairs_at (view pairs)) (list_at forms (view list) (mark reader.old)))
        reader.old reader.new }
{
    let Some(name) = text_at(name) else {
        return Err(reader.left());
    };
    let span = reader.here();
    let tag = reader.tag(&name, span)?;
    let attrs = reader.pairs(pairs, span)?;
    let body = list_of(reader, forms, list)?;
    Ok(Item::Element(HtmlElem {
        tag,
        attrs,
        css,
        body: Some(body),
        parent: None,
        span,
    }))
}

#[cycle(spell)]
fn block_of(reader: &mut Reader, forms: Forms, list: Vec<Value>) -> Result<Item, Fault>
    ensures { ReadsItem result
        (block_form forms (items_view (drop 1 list.items)) (mark reader.old))
        reader.old reader.new }
{
    let span = reader.here();
    Ok(Item::Block(Some(body_of(reader, forms, list)?), span))
}

#[cycle(spell)]
fn box_of(reader: &mut Reader, forms: Forms, list: Vec<Value>) -> Result<Item, Fault>
    ensures { ReadsItem result (box_form forms (items_view (drop 1 list.items)) (mark reader.old))
        reader.old reader.new }
{
    let span = reader.here();
    Ok(Item::Box(Some(body_of(reader, forms, list)?), span))
}

#[cycle(spell)]
#[tactic(auto, using(crate::proofs::ItemForms::item_forms))]
fn body_of(reader: &mut Reader, forms: Forms, list: Vec<Value>) -> Result<Vec<Pair>, Fault>
    ensures { ReadsItems result
        (body_form forms (items_view (drop 1 list.items)) (mark reader.old))
        reader.old reader.new }
{
    match parts_of::<2>(list) {
        Some(parts) => {
            let [_, body] = parts;
            list_of(reader, forms, body)
        }
        None => Err(reader.left()),
    }
}

#[cycle(spell)]
pub(crate) fn list_of(reader: &mut Reader, forms: Forms, value: Value) -> Result<Vec<Pair>, Fault>
    ensures { ReadsItems result (list_at forms (view value) (mark reader.old))
        reader.old reader.new }
{
    let Value::Array(values) = value else {
        return Err(reader.left());
    };
    let mut items = Vec::with_capacity(reader.alloc(), values.len())?;
    for value in values {
        items.push(pair_of(reader, forms, value)?)?;
    }
    Ok(items)
}
