//! Conversion of items to nodes.
#![tactic(auto, unfolding(crate::specs::Converted::item_nodes, crate::specs::Depth::item_too_deep))]

ghost use Rattle.std.specs.Prelude.{◌≡◌, ◌≤◌, ◌↔◌, ◌++◌, ◌∷◌, [], if◌then◌else◌, IfOk, IsTrue, OnOk, codes, map};
ghost use Rattle.html_names_core.specs.{Names.{is_ascii}, Texts.{text_view}};
ghost use Rattle.html_dom_tree.specs.Tree.{element_node, tag_node, text_node};
ghost use Rattle.html_dom_tree.specs.Views.{attrs_view, head_of, node_view, nodes_view, tag_view};
ghost use Rattle.html_flow_convert.specs.Converted.{body_nodes, break_item_node, converted_nodes, frame_item_node, item_nodes, list_nodes, passes_role, role_pairs, role_text, text_item_nodes};
ghost use Rattle.html_flow_convert.specs.{Depth.{body_too_deep, item_too_deep, items_too_deep}, Endings.{Adds, Gives}};
ghost use Rattle.html_flow_convert.specs.{Items.{element_item}, Views.{body_view, elem_view, frame_elem_view, item_view, items_view}};
ghost use Rattle.html_flow_convert.specs.declared.convert.Whitespace.TheVariants.{Normal};

use crate::depth::items_too_deep;
use crate::item::{FrameElem, HtmlElem, Item, Pair, copied_pairs};
use crate::lone::{push_block, push_box};
use crate::protect::with_spaces;
use crate::reused::Reused;
use crate::runs::with_runs;
use crate::setting::{Setting, body_level, passes_role};
use crate::{break_element, push_text_nodes};
use html_dom_tree::{HtmlAttrs, HtmlElement, HtmlFrame, HtmlNode, Span, Tag};
use html_flow_faults::FlowFault;
use html_names_core::{HtmlTag, attr};
use html_values_css::Properties;
use std::alloc::{AllocError, Global};

/// The level at which a list of items stands.
#[derive(Clone, Copy, Debug, PartialEq, Eq, Hash)]
pub enum ConversionLevel {
    /// On lines of its own. Lone spaces that are not bare are protected.
    Block,
    /// In a line, which is judged as a whole.
    Inline,
}

/// The treatment of white space.
#[derive(Clone, Copy, Debug, PartialEq, Eq, Hash)]
pub enum Whitespace {
    /// It collapses (CSS Text 3, 4.1), so what must stay is protected.
    Normal,
    /// It stays, as in `pre`.
    Pre,
}

/// The number of nodes for which a converted list may have more room than it needs.
const MOST_SPARE: usize = 2;

/// Returns whether the calls accept this limit on the depth of items: from 1 to 10,000.
///
/// ```
/// use html_flow::is_depth_limit;
///
/// let wanted = 20_000; // what a user asks for
/// let limit = if is_depth_limit(wanted) { wanted } else { 50 };
/// assert_eq!(rt; limit, 50);
/// ```
pub fn is_depth_limit(limit: usize) -> bool
    ensures { IsTrue result ↔ ((1 ≤ limit) × (limit ≤ 10000)) }
{
    (1..=10_000).contains(&limit)
}

/// Converts items to nodes, in order (docs/RULES.md, From items to nodes).
///
/// An element item becomes an element with this tag, these attributes, css and parent, and the
/// nodes of its body as children; a tag its node; a space the text of one space; a hole nothing; a
/// line break a `br`, or a line feed where white space stays; a frame a frame with the css
/// `display: block`; a box or block the one element or frame in it, tags at both ends aside, with
/// css that says how it is displayed, if that can take its place, or else a `span` or `div` around
/// its nodes. Each node has its item's span, and a `span` that preserves a run of blanks the first
/// span in it that is not 0.
///
/// White space stays in `pre`, `script`, `style`, `textarea`, `title` and everything in them. Where
/// it collapses, texts are split at line breaks and around blanks and ignorable characters, but not
/// at a space between two other characters; a `span` preserves each run of two blanks or more, or
/// of one tab, and at block level also each lone space that is not bare (see
/// [`bare_spaces`](crate::bare_spaces)).
///
/// `role` is that of the list, unless an item has its own. An element gets it as its last attribute
/// `role`, and its content has none; a `p`, a box or a block gets none and passes it on.
///
/// `depth` is that of the list, and a body in it is one deeper; it is at most `limit`, which is
/// from 1 to 10,000 (see [`is_depth_limit`]). Fails if an allocation fails, or else with the span
/// of the first item, in document order, whose body, even an empty one, is deeper than `limit`.
///
/// Takes time linear in the number of items at all depths and the length of their texts. But the
/// content of an element that stands alone, tags aside, in nested boxes and blocks is looked at,
/// and these tags are moved, once for each of them. Copies the items first, if none is too deep.
///
/// ```
/// use html_dom::Span;
/// use html_flow::{ConversionLevel, Item, Pair, Whitespace, convert_to_nodes};
///
/// let mut items = Vec::new(rt.alloc());
/// for text in ["a ", " b"] {
///     items.push(Pair::from(Item::Text(String::from_str(rt.alloc(), text)?, Span(1))))?;
/// }
/// let (level, space) = (ConversionLevel::Block, Whitespace::Normal);
/// let nodes = convert_to_nodes(rt.alloc(), &items, level, space, None, 0, 50)?;
/// assert_eq!(rt; nodes.len(), 3); // a text, a `span` that keeps both spaces, a text
/// ```
pub fn convert_to_nodes(
    alloc: Global,
    items: &[Pair],
    level: ConversionLevel,
    whitespace: Whitespace,
    role: Option<&str>,
    depth: usize,
    limit: usize,
) -> Result<Vec<HtmlNode>, FlowFault>
    requires within { depth ≤ limit }
    requires some_limit { 1 ≤ limit }
    requires low_limit { limit ≤ 10000 }
    ensures { Gives (λ made. nodes_view made.items) result
        (converted_nodes level whitespace (role_text role.entry) (items_view items.now))
        (items_too_deep depth limit (items_view items.now)) }
{
    if let Some(span) = items_too_deep(items, depth, limit) {
        return Err(FlowFault::TooDeep { span });
    }
    let copies = copied_pairs(alloc, items)?;
    convert_items(alloc, copies, level, whitespace, role, depth, limit)
}

/// Consumes items and converts them to nodes like [`convert_to_nodes`]. Moves their texts,
/// attributes and css into the nodes.
///
/// Takes the same time as [`convert_to_nodes`], without its copies.
pub fn convert_items(
    alloc: Global,
    items: Vec<Pair>,
    level: ConversionLevel,
    whitespace: Whitespace,
    role: Option<&str>,
    depth: usize,
    limit: usize,
) -> Result<Vec<HtmlNode>, FlowFault>
    requires within { depth ≤ limit }
    requires some_limit { 1 ≤ limit }
    requires low_limit { limit ≤ 10000 }
    ensures { Gives (λ made. nodes_view made.items) result
        (converted_nodes level whitespace (role_text role.entry) (items_view items.items))
        (items_too_deep depth limit (items_view items.items)) }
{
    let setting = Setting {
        whitespace,
        role,
        depth,
        limit,
    };
    let mut reused = Reused::new(alloc)?;
    convert_list(alloc, items, level, setting, &mut reused)
}

#[cycle(convert)]
fn convert_list(
    alloc: Global,
    items: Vec<Pair>,
    level: ConversionLevel,
    setting: Setting<'_>,
    reused: &mut Reused,
) -> Result<Vec<HtmlNode>, FlowFault>
    requires within { setting.depth ≤ setting.limit }
    requires low_limit { setting.limit ≤ 10000 }
    ensures { Gives (λ made. nodes_view made.items) result
        (converted_nodes level setting.entry.whitespace (role_text setting.entry.role)
        (items_view items.items))
        (items_too_deep setting.entry.depth setting.entry.limit (items_view items.items)) }
{
    let mut nodes = Vec::with_capacity(alloc, items.len())?;
    for pair in items {
        let Pair { item, role } = pair;
        push_item(alloc, item, setting.with_role(&role), reused, &mut nodes)?;
    }
    Ok(finish(alloc, nodes, level, setting.whitespace, reused)?)
}

/// Converts a body, if there is one, as a list in the same setting, but deeper.
#[cycle(convert)]
#[inline(always)]
fn convert_body(
    alloc: Global,
    body: Option<Vec<Pair>>,
    span: Span,
    level: ConversionLevel,
    setting: Setting<'_>,
    reused: &mut Reused,
) -> Result<Vec<HtmlNode>, FlowFault>
    requires within { setting.depth ≤ setting.limit }
    requires low_limit { setting.limit ≤ 10000 }
    ensures { Gives (λ made. nodes_view made.items) result
        (body_nodes level setting.entry.whitespace (role_text setting.entry.role)
        (body_view body))
        (body_too_deep setting.entry.depth setting.entry.limit span.0 (body_view body)) }
{
    let Some(items) = body else {
        return Ok(Vec::new(alloc));
    };
    if setting.is_deepest() {
        return Err(FlowFault::TooDeep { span });
    }
    convert_list(alloc, items, level, setting.deeper(), reused)
}

/// Appends the nodes of an item. The setting is that of its list, apart from the item's own role.
#[cycle(convert)]
fn push_item(
    alloc: Global,
    item: Item,
    setting: Setting<'_>,
    reused: &mut Reused,
    nodes: &mut Vec<HtmlNode>,
) -> Result<(), FlowFault>
    requires within { setting.depth ≤ setting.limit }
    requires low_limit { setting.limit ≤ 10000 }
    ensures { Adds result (map node_view nodes.old.items) (map node_view nodes.new.items)
        (item_nodes setting.entry.whitespace (role_text setting.entry.role) (item_view item))
        (item_too_deep setting.entry.depth setting.entry.limit (item_view item)) }
{
    match item {
        Item::Tag(tag) => Ok(push_tag(nodes, tag)?),
        Item::Element(element) => push_element(alloc, element, setting, reused, nodes),
        Item::Space(span) => Ok(push_literal(alloc, nodes, " ", span)?),
        Item::Text(text, span) => Ok(push_text(alloc, nodes, text, span, setting.whitespace)?),
        Item::Hole => Ok(()),
        Item::LineBreak(span) => Ok(push_break(alloc, nodes, span, setting.whitespace)?),
        Item::Box(body, span) => {
            let inside = convert_body(alloc, body, span, ConversionLevel::Inline, setting, reused)?;
            Ok(push_box(alloc, nodes, inside, span)?)
        }
        Item::Block(body, span) => {
            let inside = convert_body(alloc, body, span, ConversionLevel::Block, setting, reused)?;
            Ok(push_block(alloc, nodes, inside, span)?)
        }
        Item::Frame(frame) => Ok(push_frame(alloc, nodes, frame)?),
    }
}

#[cycle(convert)]
fn push_element(
    alloc: Global,
    element: HtmlElem,
    setting: Setting<'_>,
    reused: &mut Reused,
    nodes: &mut Vec<HtmlNode>,
) -> Result<(), FlowFault>
    requires within { setting.depth ≤ setting.limit }
    requires low_limit { setting.limit ≤ 10000 }
    ensures { let view = elem_view element in let item = element_item view.0 view.1 in
        Adds result (map node_view nodes.old.items) (map node_view nodes.new.items)
        (item_nodes setting.entry.whitespace (role_text setting.entry.role) item)
        (item_too_deep setting.entry.depth setting.entry.limit item) }
{
    let level = body_level(&element);
    let inside = setting.inside(&element);
    let HtmlElem {
        tag,
        attrs,
        css,
        body,
        parent,
        span,
    } = element;
    let children = convert_body(alloc, body, span, level, inside, reused)?;
    let attrs = attrs_with_role(alloc, &tag, attrs, setting.role)?;
    let made = HtmlElement {
        tag,
        attrs,
        css,
        children,
        parent,
        span,
        pre_span: false,
    };
    Ok(push_made(nodes, made)?)
}

fn push_made(nodes: &mut Vec<HtmlNode>, element: HtmlElement) -> Result<(), AllocError>
    ensures { OnOk result (map node_view nodes.new.items ≡ map node_view nodes.old.items
        ++ element_node (head_of element) (nodes_view element.children.items) ∷ []) }
{
    nodes.push(HtmlNode::from(element))?;
    Ok(())
}

fn attrs_with_role(
    alloc: Global,
    tag: &HtmlTag,
    mut attrs: HtmlAttrs,
    role: Option<&str>,
) -> Result<HtmlAttrs, AllocError>
    ensures { IfOk result (λ made. attrs_view made ≡ (if passes_role tag.now then attrs_view attrs
        else attrs_view attrs ++ role_pairs (role_text role.entry))) }
{
    if !passes_role(tag) {
        push_role(alloc, &mut attrs, role)?;
    }
    Ok(attrs)
}

#[tactic(auto, unfolding(html_names_core::specs::Tables::known_attrs))]
fn push_role(alloc: Global, attrs: &mut HtmlAttrs, role: Option<&str>) -> Result<(), AllocError>
    ensures { OnOk result (attrs_view attrs.new
        ≡ attrs_view attrs.old ++ role_pairs (role_text role.entry)) }
{
    let Some(role) = role else {
        return Ok(());
    };
    Ok(attrs.push(attr::role, String::from_str(alloc, role)?)?)
}

fn push_tag(nodes: &mut Vec<HtmlNode>, tag: Tag) -> Result<(), AllocError>
    ensures { OnOk result
        (map node_view nodes.new.items ≡ map node_view nodes.old.items ++ tag_node (tag_view tag) ∷ []) }
{
    nodes.push(HtmlNode::Tag(tag))?;
    Ok(())
}

fn push_string(nodes: &mut Vec<HtmlNode>, text: String, span: Span) -> Result<(), AllocError>
    ensures { OnOk result (map node_view nodes.new.items ≡ map node_view nodes.old.items
        ++ text_node (text_view text) span.0 ∷ []) }
{
    nodes.push(HtmlNode::text(text, span))?;
    Ok(())
}

fn push_literal(
    alloc: Global,
    nodes: &mut Vec<HtmlNode>,
    text: &str,
    span: Span,
) -> Result<(), AllocError>
    requires { IsTrue (is_ascii text.now) }
    ensures { OnOk result (map node_view nodes.new.items ≡ map node_view nodes.old.items
        ++ text_node text.now span.0 ∷ []) }
{
    push_string(nodes, String::from_str(alloc, text)?, span)
}

fn push_text(
    alloc: Global,
    nodes: &mut Vec<HtmlNode>,
    text: String,
    span: Span,
    whitespace: Whitespace,
) -> Result<(), AllocError>
    ensures { OnOk result (map node_view nodes.new.items ≡ map node_view nodes.old.items
        ++ text_item_nodes whitespace (text_view text) span.0) }
{
    match whitespace {
        Whitespace::Normal => push_text_nodes(alloc, nodes, text, span),
        Whitespace::Pre => push_string(nodes, text, span),
    }
}

fn push_break(
    alloc: Global,
    nodes: &mut Vec<HtmlNode>,
    span: Span,
    whitespace: Whitespace,
) -> Result<(), AllocError>
    ensures { OnOk result (map node_view nodes.new.items ≡ map node_view nodes.old.items
        ++ break_item_node whitespace span.0 ∷ []) }
{
    match whitespace {
        Whitespace::Normal => {
            nodes.push(HtmlNode::from(break_element(alloc, span)))?;
            Ok(())
        }
        Whitespace::Pre => push_literal(alloc, nodes, "\n", span),
    }
}

fn push_frame(alloc: Global, nodes: &mut Vec<HtmlNode>, frame: FrameElem) -> Result<(), AllocError>
    ensures { OnOk result (map node_view nodes.new.items ≡ map node_view nodes.old.items
        ++ frame_item_node (frame_elem_view frame) ∷ []) }
{
    let mut made = HtmlFrame::new(alloc, frame.frame, frame.text_size, frame.span);
    made.css = block_css(alloc)?;
    nodes.push(HtmlNode::Frame(made))?;
    Ok(())
}

fn block_css(alloc: Global) -> Result<Properties, AllocError>
    ensures { IfOk result (λ css. css ≡ (codes "display", codes "block") ∷ []) }
{
    let value = String::from_str(alloc, "block")?;
    Ok(Properties::new(alloc).with("display", value)?)
}

/// Protects what must stay in the nodes of a list where white space collapses.
fn finish(
    alloc: Global,
    nodes: Vec<HtmlNode>,
    level: ConversionLevel,
    whitespace: Whitespace,
    reused: &mut Reused,
) -> Result<Vec<HtmlNode>, AllocError>
    ensures { IfOk result (λ made. nodes_view made.items
        ≡ list_nodes level whitespace (map node_view nodes.items)) }
{
    match whitespace {
        Whitespace::Pre => Ok(nodes),
        Whitespace::Normal => finish_list(alloc, nodes, level, reused),
    }
}

#[inline(never)]
fn finish_list(
    alloc: Global,
    nodes: Vec<HtmlNode>,
    level: ConversionLevel,
    reused: &mut Reused,
) -> Result<Vec<HtmlNode>, AllocError>
    ensures { IfOk result (λ made. nodes_view made.items
        ≡ list_nodes level Normal (map node_view nodes.items)) }
{
    let nodes = with_runs(alloc, reused, nodes)?;
    let nodes = match level {
        ConversionLevel::Inline => nodes,
        ConversionLevel::Block => with_spaces(alloc, reused, nodes)?,
    };
    Ok(trimmed(nodes))
}

/// Frees the room that a list does not need, unless it is small.
fn trimmed(mut nodes: Vec<HtmlNode>) -> Vec<HtmlNode>
    ensures { result.items ≡ nodes.items }
{
    if nodes.capacity().saturating_sub(nodes.len()) > MOST_SPARE {
        nodes.shrink_to_fit();
    }
    nodes
}
