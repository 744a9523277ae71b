//! The nodes that a flat tree's list spells. They are made from the end of the list to its start.

ghost use Rattle.std.specs.{List.{list_all}, Prelude.{◌≡◌, true, IfOk, OnOk, map, option_map}};
ghost use Rattle.html_dom_tree.specs.Views.{attrs_view, node_view, element_view, nodes_view};
ghost use Rattle.html_dom_flat.specs.Flat.{spelled_nodes};
ghost use Rattle.html_dom_flat.specs.FlatViews.{flat_pair, flat_head, flat_node_view, flat_nodes_view, is_pair_given, is_given, is_node_given, are_given};
ghost use Rattle.html_dom_flat.specs.Stacks.{stack_view, is_top_before, stacked_before, rest_after, IsPopped, made_of, list_stack};

use crate::flat_node::{FlatElement, FlatNode};
use html_dom_tree::{HtmlAttrs, HtmlElement, HtmlNode};
use html_names_table::NameTable;
use std::alloc::{AllocError, Global};

fn named_attrs(
    alloc: Global,
    names: &NameTable,
    pairs: &[(usize, String)],
) -> Result<HtmlAttrs, AllocError>
    requires { list_all (is_pair_given names.now) pairs.now ≡ true }
    ensures { IfOk result (λ attrs. attrs_view attrs ≡ map (flat_pair names.now) pairs.now) }
{
    let mut attrs = Vec::with_capacity(alloc, pairs.len())?;
    for (number, value) in pairs {
        attrs.push((names.attr_at(*number).try_clone()?, value.clone()?))?;
    }
    Ok(HtmlAttrs(attrs))
}

fn named_element(
    alloc: Global,
    names: &NameTable,
    element: &FlatElement,
    children: Vec<HtmlNode>,
) -> Result<HtmlElement, AllocError>
    requires { is_given names.now element.now ≡ true }
    ensures { IfOk result (λ made.
        element_view made ≡ (flat_head names.now element.now, nodes_view children.items)) }
{
    Ok(HtmlElement {
        tag: names.tag_at(element.tag).try_clone()?,
        attrs: named_attrs(alloc, names, &element.attrs)?,
        css: element.css.try_clone()?,
        children,
        parent: element.parent,
        span: element.span,
        pre_span: element.pre_span,
    })
}

fn is_top_before(stack: &[(usize, HtmlNode)], past: usize) -> bool
    ensures { result ≡ is_top_before past (stack_view stack.now) }
{
    let count = stack.len();
    count > 0 && stack[count - 1].0 < past
}

fn pop_before(stack: &mut Vec<(usize, HtmlNode)>, past: usize) -> Option<HtmlNode>
    ensures { IsPopped past (stack_view stack.old.items) (stack_view stack.new.items)
        (option_map node_view result) }
{
    if !is_top_before(stack, past) {
        return None;
    }
    match stack.pop() {
        Some((_, node)) => Some(node),
        None => None,
    }
}

fn take_before(
    alloc: Global,
    stack: &mut Vec<(usize, HtmlNode)>,
    past: usize,
) -> Result<Vec<HtmlNode>, AllocError>
    ensures taken { IfOk result (λ nodes.
        map node_view nodes.items ≡ stacked_before past (stack_view stack.old.items)) }
    ensures rest { OnOk result
        (stack_view stack.new.items ≡ rest_after past (stack_view stack.old.items)) }
{
    let mut nodes = Vec::new(alloc);
    while let Some(node) = pop_before(stack, past) {
        nodes.push(node)?;
    }
    Ok(nodes)
}

/// Makes a node from one of the list. Pops its children from the stack, which holds the nodes that
/// follow it.
fn made_node(
    alloc: Global,
    names: &NameTable,
    node: &FlatNode,
    stack: &mut Vec<(usize, HtmlNode)>,
) -> Result<HtmlNode, AllocError>
    requires { is_node_given names.now node.now ≡ true }
    ensures { IfOk result (λ made. (node_view made, stack_view stack.new.items)
        ≡ made_of (flat_node_view names.now node.now) (stack_view stack.old.items)) }
{
    match node {
        FlatNode::Tag(tag) => Ok(HtmlNode::Tag(tag.try_clone()?)),
        FlatNode::Text(text, span) => Ok(HtmlNode::Text(text.clone()?, *span)),
        FlatNode::Frame(frame) => Ok(HtmlNode::Frame(frame.try_clone()?)),
        FlatNode::Element(element) => {
            let children = take_before(alloc, stack, element.past)?;
            Ok(HtmlNode::Element(named_element(alloc, names, element, children)?))
        }
    }
}

fn stacked(
    alloc: Global,
    names: &NameTable,
    nodes: &[FlatNode],
) -> Result<Vec<(usize, HtmlNode)>, AllocError>
    requires { are_given names.now nodes.now ≡ true }
    ensures { IfOk result (λ stack.
        stack_view stack.items ≡ list_stack 0 (flat_nodes_view names.now nodes.now)) }
{
    let mut stack = Vec::new(alloc);
    let mut index = nodes.len();
    while index > 0 {
        index -= 1;
        let node = made_node(alloc, names, &nodes[index], &mut stack)?;
        stack.push((index, node))?;
    }
    Ok(stack)
}

pub(crate) fn spelled_nodes(
    alloc: Global,
    names: &NameTable,
    nodes: &[FlatNode],
) -> Result<Vec<HtmlNode>, AllocError>
    requires { are_given names.now nodes.now ≡ true }
    ensures { IfOk result (λ made.
        nodes_view made.items ≡ spelled_nodes 0 (flat_nodes_view names.now nodes.now)) }
{
    let mut stack = stacked(alloc, names, nodes)?;
    let mut made = Vec::new(alloc);
    while let Some((_, node)) = stack.pop() {
        made.push(node)?;
    }
    Ok(made)
}
