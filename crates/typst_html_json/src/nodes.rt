//! The tree that a JSON value spells.

ghost use Rattle.std.specs.Prelude.{◌≡◌, true, drop, option_map, IfOk};
ghost use Rattle.serde_json.specs.View.{view, items_view};
ghost use Rattle.html_dom_tree.specs.{Tree.{tag_node}, Views.{tag_view, element_view}};
ghost use Rattle.html_dom_flat.specs.FlatTrees.{tree_nodes};
ghost use Rattle.typst_html_json.specs.Fields.{numbered_leaf, text_at, pairs_at, element_from};
ghost use Rattle.typst_html_json.specs.Reading.{AddsNode, AddsNodes, ReadsNodes, mark};
ghost use Rattle.typst_html_json.specs.Spelled.{spelled_element, spelled_node, form, node_of_kind, spelled_text, begins_with_element, element_form, element_made, list_at, IsFirstElement};
ghost use Rattle.typst_html_json.specs.Spelling.{GivesElement, GivesTree};

use crate::fault::{Fault, InputPlace};
use crate::fields::{end_in, parts_of, plain_start_in, text_at, text_in};
use crate::input_forms::Forms;
use crate::kind::{Kind, list_kind};
use crate::reader::Reader;
use html_dom_flat::{Builder, FlatTree, Node, Siblings};
use html_dom_tree::{HtmlElement, HtmlNode, Tag};
use serde_json::Value;
use std::alloc::{AllocError, Global};

/// Returns the element that a value spells. Copies the value, and then the texts of the element.
///
/// Fails with [`Fault::BadInput`] if the value spells no element, whatever its names are, and with
/// [`Fault::Refused`] for the first name that is refused.
pub fn element_in(alloc: Global, value: &Value) -> Result<HtmlElement, Fault>
    ensures { GivesElement result (spelled_element (view value.now)) }
{
    let tree = tree_in(alloc, value.clone()?)?;
    Ok(root_of(&tree)?)
}

fn root_of(tree: &FlatTree) -> Result<HtmlElement, AllocError>
    requires { begins_with_element (tree_nodes tree.now) ≡ true }
    ensures { IfOk result (λ root. IsFirstElement (tree_nodes tree.now) (element_view root)) }
{
    let mut nodes = tree.to_nodes()?;
    match nodes.swap_remove(0) {
        HtmlNode::Element(root) => Ok(root),
        HtmlNode::Tag(_) | HtmlNode::Text(_, _) | HtmlNode::Frame(_) => unreachable!(),
    }
}

/// Consumes a value and returns the flat tree of the element that it spells. Moves the texts of the
/// value into the tree.
///
/// Fails as [`element_in`] does.
pub fn tree_in(alloc: Global, value: Value) -> Result<FlatTree, Fault>
    ensures { GivesTree result (spelled_element (view value)) }
{
    let mut reader = Reader::new(alloc);
    let mut builder = Builder::new(alloc);
    push_node(&mut reader, &mut builder, value)?;
    match reader.refused() {
        Some((number, span)) => Err(Fault::Refused(number, span)),
        None => {
            let tree = builder.into_tree();
            if begins_with_element(&tree) {
                Ok(tree)
            } else {
                Err(Fault::BadInput(InputPlace::Form(1)))
            }
        }
    }
}

fn begins_with_element(tree: &FlatTree) -> bool
    ensures { result ≡ begins_with_element (tree_nodes tree.now) }
{
    match Siblings::of(tree).split_first() {
        Some((Node::Element(_), _)) => true,
        Some((Node::Tag(_) | Node::Text(_, _) | Node::Frame(_), _)) | None => false,
    }
}

#[cycle(spell)]
fn push_node(reader: &mut Reader, builder: &mut Builder, value: Value) -> Result<(), Fault>
    ensures { AddsNode result (spelled_node (view value) (mark reader.old))
        builder.old builder.new reader.old reader.new }
{
    let Value::Array(list) = value else {
        return Err(reader.left());
    };
    reader.open()?;
    push_list(reader, builder, list)
}

/// Appends the node of the list that was opened last.
#[cycle(spell)]
fn push_list(reader: &mut Reader, builder: &mut Builder, list: Vec<Value>) -> Result<(), Fault>
    ensures { AddsNode result (form (items_view list.items) (mark reader.old))
        builder.old builder.new reader.old reader.new }
{
    match list_kind(Forms::Program, &list) {
        Some(kind) => push_form(reader, builder, kind, list),
        None => Err(reader.left()),
    }
}

#[cycle(spell)]
fn push_form(
    reader: &mut Reader,
    builder: &mut Builder,
    kind: Kind,
    list: Vec<Value>,
) -> Result<(), Fault>
    ensures { AddsNode result (node_of_kind kind (items_view (drop 1 list.items)) (mark reader.old))
        builder.old builder.new reader.old reader.new }
{
    match kind {
        Kind::Text => push_text(reader, builder, list),
        Kind::Element => push_element(reader, builder, list),
        Kind::Start => push_tag(reader, builder, plain_start_in(list)),
        Kind::End => push_tag(reader, builder, end_in(list)),
        _ => Err(reader.left()),
    }
}

fn push_text(reader: &Reader, builder: &mut Builder, list: Vec<Value>) -> Result<(), Fault>
    ensures { AddsNode result (spelled_text (items_view (drop 1 list.items)) (mark reader.now))
        builder.old builder.new reader.now reader.now }
{
    let Some(text) = text_in(list) else {
        return Err(reader.left());
    };
    builder.push_text(text, reader.here())?;
    Ok(())
}

fn push_tag(reader: &mut Reader, builder: &mut Builder, tag: Option<Tag>) -> Result<(), Fault>
    ensures { AddsNode result (numbered_leaf tag_node (option_map tag_view tag) (mark reader.old))
        builder.old builder.new reader.old reader.new }
{
    let tag = reader.numbered(tag)?;
    builder.push_tag(tag)?;
    Ok(())
}

#[cycle(spell)]
#[tactic(auto, using(crate::proofs::Forms::forms))]
fn push_element(reader: &mut Reader, builder: &mut Builder, list: Vec<Value>) -> Result<(), Fault>
    ensures { AddsNode result (element_form (items_view (drop 1 list.items)) (mark reader.old))
        builder.old builder.new reader.old reader.new }
{
    match parts_of::<4>(list) {
        Some(parts) => {
            let [_, name, pairs, list] = parts;
            push_element_with(reader, builder, name, pairs, list)
        }
        None => Err(reader.left()),
    }
}

#[cycle(spell)]
fn push_element_with(
    reader: &mut Reader,
    builder: &mut Builder,
    name: Value,
    pairs: Value,
    list: Value,
) -> Result<(), Fault>
    ensures { AddsNode result (element_from (element_made reader.old.lists) (mark reader.old)
        (text_at (view name)) (pairs_at (view pairs)) (list_at (view list) (mark reader.old)))
        builder.old builder.new reader.old reader.new }
{
    let Some(name) = text_at(name) else {
        return Err(reader.left());
    };
    let span = reader.here();
    let tag = reader.tag(&name, span)?;
    let attrs = reader.pairs(pairs, span)?;
    let index = builder.start_element(reader.alloc(), tag, attrs, span)?;
    push_nodes(reader, builder, list)?;
    builder.close_element(index);
    Ok(())
}

#[cycle(spell)]
fn push_nodes(reader: &mut Reader, builder: &mut Builder, value: Value) -> Result<(), Fault>
    ensures { AddsNodes result (list_at (view value) (mark reader.old))
        builder.old builder.new reader.old reader.new }
{
    let Value::Array(values) = value else {
        return Err(reader.left());
    };
    for value in values {
        push_node(reader, builder, value)?;
    }
    Ok(())
}

/// Returns the nodes that a list spells.
pub(crate) fn list_of(reader: &mut Reader, value: Value) -> Result<Vec<HtmlNode>, Fault>
    ensures { ReadsNodes result (list_at (view value) (mark reader.old)) reader.old reader.new }
{
    let mut builder = Builder::new(reader.alloc());
    push_nodes(reader, &mut builder, value)?;
    Ok(builder.into_tree().to_nodes()?)
}
