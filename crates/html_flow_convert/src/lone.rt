//! Boxes and blocks, and nodes that take their place (this project's rule).

ghost use Rattle.std.specs.{List.{list_all}, Prelude.{◌≡◌, ◌++◌, ◌∷◌, [], IfOk, OnOk, bytes_eq, codes, map, option_map}};
ghost use Rattle.html_dom_tree.specs.{Tree.{element_node, is_tag, none}, Views.{element_view, head_of, node_view, nodes_view, text_view}};
ghost use Rattle.html_flow_convert.specs.LoneNode.{change_view, css_with_display, node_with_display, lone_alone, lone_node, is_math, is_shown_as_block, box_change, change_by_display, block_change, box_change_of, block_change_of, box_head, block_head, box_nodes, block_nodes};

use html_dom_tree::{HtmlElement, HtmlNode, Span};
use html_names_core::property::Display;
use html_names_core::{attr, tag};
use html_values_css::Properties;
use std::alloc::{AllocError, Global};

/// A change of `display` in the css of a node.
#[derive(Clone, Copy)]
enum DisplayChange {
    Removed,
    SetTo(&'static str),
}

impl DisplayChange {
    /// Changes the css. Removing `display` allocates nothing.
    fn apply(self, alloc: Global, css: &mut Properties) -> Result<(), AllocError>
        ensures { OnOk result (css.new ≡ css_with_display (change_view self) css.old) }
    {
        match self {
            DisplayChange::Removed => css.remove("display"),
            DisplayChange::SetTo(value) => css.push("display", String::from_str(alloc, value)?)?,
        }
        Ok(())
    }
}

fn are_tags(nodes: &[HtmlNode]) -> bool
    ensures { result ≡ list_all (λ node. is_tag (node_view node)) nodes.now }
{
    nodes.iter().all(|node| node.is_tag())
}

fn element_or_frame(node: &HtmlNode) -> Option<&HtmlNode>
    ensures { option_map (λ lone. node_view lone.now) result ≡ lone_alone (node_view node.now) }
{
    match node {
        HtmlNode::Tag(_) | HtmlNode::Text(_, _) => None,
        HtmlNode::Element(_) | HtmlNode::Frame(_) => Some(node),
    }
}

/// Returns the only node between tags at both ends, if it is an element or frame.
fn lone_node(nodes: &[HtmlNode]) -> Option<&HtmlNode>
    ensures { option_map (λ lone. node_view lone.now) result ≡ lone_node (nodes_view nodes.now) }
{
    for (place, node) in nodes.iter().enumerate() {
        if node.is_tag() {
            continue;
        }
        if are_tags(&nodes[place + 1..]) {
            return element_or_frame(node);
        }
        return None;
    }
    None
}

#[tactic(auto, unfolding(html_names_core::specs::Tables::known_tags))]
fn is_math(element: &HtmlElement) -> bool
    ensures { result ≡ is_math (head_of element.now) }
{
    element.tag == tag::mathml::math
}

fn is_block(text: &String) -> bool
    ensures { result ≡ bytes_eq (text_view text.now) (codes "block") }
{
    text.as_str() == "block"
}

/// Returns whether the first attribute `display` is `block`.
#[tactic(auto, unfolding(html_names_core::specs::Tables::known_attrs))]
fn is_shown_as_block(element: &HtmlElement) -> bool
    ensures { result ≡ is_shown_as_block (head_of element.now) }
{
    match element.attrs.get(&attr::mathml::display) {
        Some(value) => is_block(value),
        None => false,
    }
}

#[tactic(auto, using(crate::proofs::LoneNodes::inline_math_word))]
fn element_box_change(element: &HtmlElement) -> DisplayChange
    ensures { change_view result ≡ box_change (element_node (head_of element.now) none) }
{
    if is_math(element) && is_shown_as_block(element) {
        DisplayChange::SetTo("inline math")
    } else {
        DisplayChange::Removed
    }
}

fn box_change(node: &HtmlNode) -> DisplayChange
    ensures { change_view result ≡ box_change (node_view node.now) }
{
    match node {
        HtmlNode::Element(element) => element_box_change(element),
        HtmlNode::Tag(_) | HtmlNode::Text(_, _) | HtmlNode::Frame(_) => DisplayChange::Removed,
    }
}

fn change_in_box(body: &[HtmlNode]) -> Option<DisplayChange>
    ensures { option_map change_view result ≡ box_change_of (lone_node (nodes_view body.now)) }
{
    let lone = lone_node(body)?;
    Some(box_change(lone))
}

/// Returns the change of a lone element of a block, by its default display.
#[tactic(auto, using(crate::proofs::LoneNodes::block_word))]
fn change_by_display(display: Option<Display>) -> Option<DisplayChange>
    ensures { option_map change_view result ≡ change_by_display display }
{
    match display {
        Some(
            Display::None | Display::Block | Display::Table | Display::ListItem | Display::Contents,
        ) => Some(DisplayChange::Removed),
        None | Some(Display::Inline | Display::InlineBlock) => Some(DisplayChange::SetTo("block")),
        Some(_) => None,
    }
}

/// Returns the change of a lone element of a block, if it can take the block's place.
#[tactic(auto, using(crate::proofs::LoneNodes::block_math_word))]
fn element_block_change(element: &HtmlElement) -> Option<DisplayChange>
    ensures { option_map change_view result
        ≡ block_change (element_node (head_of element.now) none) }
{
    if !is_math(element) {
        return change_by_display(Display::default_for(&element.tag));
    }
    if is_shown_as_block(element) {
        Some(DisplayChange::Removed)
    } else {
        Some(DisplayChange::SetTo("block math"))
    }
}

fn block_change(node: &HtmlNode) -> Option<DisplayChange>
    ensures { option_map change_view result ≡ block_change (node_view node.now) }
{
    match node {
        HtmlNode::Tag(_) | HtmlNode::Text(_, _) => None,
        HtmlNode::Element(element) => element_block_change(element),
        HtmlNode::Frame(_) => Some(DisplayChange::SetTo("block")),
    }
}

fn change_in_block(body: &[HtmlNode]) -> Option<DisplayChange>
    ensures { option_map change_view result ≡ block_change_of (lone_node (nodes_view body.now)) }
{
    block_change(lone_node(body)?)
}

fn element_displayed(
    alloc: Global,
    mut element: HtmlElement,
    change: DisplayChange,
) -> Result<HtmlElement, AllocError>
    ensures { let view = element_view element in IfOk result (λ changed. element_view changed
        ≡ (record view.0 { css = css_with_display (change_view change) view.0.css }, view.1)) }
{
    change.apply(alloc, &mut element.css)?;
    Ok(element)
}

/// Returns the node with its css changed; a tag or text has none.
fn node_displayed(
    alloc: Global,
    node: HtmlNode,
    change: DisplayChange,
) -> Result<HtmlNode, AllocError>
    ensures { IfOk result
        (λ changed. node_view changed ≡ node_with_display (change_view change) (node_view node)) }
{
    match node {
        HtmlNode::Element(element) => {
            Ok(HtmlNode::Element(element_displayed(alloc, element, change)?))
        }
        HtmlNode::Frame(mut frame) => {
            change.apply(alloc, &mut frame.css)?;
            Ok(HtmlNode::Frame(frame))
        }
        node => Ok(node),
    }
}

fn push_displayed(
    alloc: Global,
    nodes: &mut Vec<HtmlNode>,
    body: Vec<HtmlNode>,
    change: DisplayChange,
) -> Result<(), AllocError>
    ensures { OnOk result (map node_view nodes.new.items ≡ map node_view nodes.old.items
        ++ map (node_with_display (change_view change)) (map node_view body.items)) }
{
    for node in body {
        nodes.push(node_displayed(alloc, node, change)?)?;
    }
    Ok(())
}

fn push_around(
    nodes: &mut Vec<HtmlNode>,
    element: HtmlElement,
    children: Vec<HtmlNode>,
) -> Result<(), AllocError>
    ensures { OnOk result (map node_view nodes.new.items ≡ map node_view nodes.old.items
        ++ element_node (head_of element) (nodes_view children.items) ∷ []) }
{
    nodes.push(HtmlNode::from(element.with_children(children)))?;
    Ok(())
}

fn inline_block_css(alloc: Global) -> Result<Properties, AllocError>
    ensures { IfOk result (λ css. css ≡ (codes "display", codes "inline-block") ∷ []) }
{
    let value = String::from_str(alloc, "inline-block")?;
    Ok(Properties::new(alloc).with("display", value)?)
}

#[tactic(auto, unfolding(html_names_core::specs::Tables::known_tags))]
fn box_element(alloc: Global, span: Span) -> Result<HtmlElement, AllocError>
    ensures { IfOk result (λ element. head_of element ≡ box_head span.0) }
{
    let css = inline_block_css(alloc)?;
    Ok(
        HtmlElement::new(alloc, tag::span)
            .with_css(css)
            .spanned(span),
    )
}

#[tactic(auto, unfolding(html_names_core::specs::Tables::known_tags))]
fn block_element(alloc: Global, span: Span) -> HtmlElement
    ensures { head_of result ≡ block_head span.0 }
{
    HtmlElement::new(alloc, tag::div).spanned(span)
}

/// Appends the nodes of a box, given those of its body: the one element or frame in it, tags at
/// both ends aside, whose css loses `display`, or gets `inline math` for a formula that would be a
/// block; or else a `span`.
pub(crate) fn push_box(
    alloc: Global,
    nodes: &mut Vec<HtmlNode>,
    body: Vec<HtmlNode>,
    span: Span,
) -> Result<(), AllocError>
    ensures { OnOk result (map node_view nodes.new.items
        ≡ map node_view nodes.old.items ++ box_nodes span.0 (nodes_view body.items)) }
{
    match change_in_box(&body) {
        Some(change) => push_displayed(alloc, nodes, body, change),
        None => push_around(nodes, box_element(alloc, span)?, body),
    }
}

/// Appends the nodes of a block, given those of its body: the one element or frame in it, tags at
/// both ends aside, with css that makes it a block if it is none; or else a `div`.
pub(crate) fn push_block(
    alloc: Global,
    nodes: &mut Vec<HtmlNode>,
    body: Vec<HtmlNode>,
    span: Span,
) -> Result<(), AllocError>
    ensures { OnOk result (map node_view nodes.new.items
        ≡ map node_view nodes.old.items ++ block_nodes span.0 (nodes_view body.items)) }
{
    match change_in_block(&body) {
        Some(change) => push_displayed(alloc, nodes, body, change),
        None => push_around(nodes, block_element(alloc, span), body),
    }
}
