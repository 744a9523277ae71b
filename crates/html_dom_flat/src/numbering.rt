//! Attributes with numbers for names, and the index at which an element ends.

ghost use Rattle.std.specs.Prelude.{◌≡◌, IfOk};
ghost use Rattle.html_dom_tree.specs.Views.{attrs_view};
ghost use Rattle.html_dom_flat.specs.Numbering.{Grows, ArePairsOf, node_with_past};

use crate::flat_node::FlatNode;
use html_dom_tree::HtmlAttrs;
use html_names_table::NameTable;
use std::alloc::{AllocError, Global};

pub(crate) fn numbered_attrs(
    alloc: Global,
    names: &mut NameTable,
    attrs: HtmlAttrs,
) -> Result<Vec<(usize, String)>, AllocError>
    ensures grows { Grows names.old names.new }
    ensures pairs { IfOk result (λ pairs. ArePairsOf names.new pairs.items (attrs_view attrs)) }
{
    if attrs.0.is_empty() {
        return Ok(Vec::new(alloc));
    }
    let mut pairs = Vec::with_capacity(alloc, attrs.0.len())?;
    for (attr, value) in attrs.0 {
        pairs.push((names.insert_attr(attr)?, value))?;
    }
    Ok(pairs)
}

pub(crate) fn set_past(node: &mut FlatNode, past: usize)
    ensures { node.new ≡ node_with_past past node.old }
{
    match node {
        FlatNode::Element(element) => element.past = past,
        FlatNode::Tag(_) | FlatNode::Text(_, _) | FlatNode::Frame(_) => {}
    }
}
