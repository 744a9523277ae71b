//! Items inside something with a known span.

ghost use Rattle.std.specs.Prelude.{◌≤◌};
ghost use Rattle.html_dom_tree.specs.Views.{nodes_view};
ghost use Rattle.html_flow_convert.specs.{Converted.{converted_nodes, role_text}, Depth.{fragment_too_deep}, Endings.{Gives}};
ghost use Rattle.html_flow_convert.specs.{Views.{items_view}, declared.convert.ConversionLevel.TheVariants.{Block, Inline}};

use crate::convert::{ConversionLevel, Whitespace, convert_to_nodes};
use crate::item::Pair;
use html_dom_tree::{HtmlNode, Span};
use html_flow_faults::FlowFault;
use std::alloc::Global;

/// Converts items on lines of their own, in something of that span. Fails with this span if `depth`
/// is above `limit`, which is from 1 to 10,000, and else as [`convert_to_nodes`] does at block
/// level.
pub fn html_block_fragment(
    alloc: Global,
    items: &[Pair],
    span: Span,
    whitespace: Whitespace,
    role: Option<&str>,
    depth: usize,
    limit: usize,
) -> Result<Vec<HtmlNode>, FlowFault>
    requires some_limit { 1 ≤ limit }
    requires low_limit { limit ≤ 10000 }
    ensures { Gives (λ made. nodes_view made.items) result
        (converted_nodes Block whitespace (role_text role.entry) (items_view items.now))
        (fragment_too_deep depth limit span.0 (items_view items.now)) }
{
    if depth > limit {
        return Err(FlowFault::TooDeep { span });
    }
    convert_to_nodes(
        alloc,
        items,
        ConversionLevel::Block,
        whitespace,
        role,
        depth,
        limit,
    )
}

/// Converts items in a line, in something of that span. Fails with this span if `depth` is above
/// `limit`, which is from 1 to 10,000, and else as [`convert_to_nodes`] does at inline level.
pub fn html_inline_fragment(
    alloc: Global,
    items: &[Pair],
    span: Span,
    whitespace: Whitespace,
    role: Option<&str>,
    depth: usize,
    limit: usize,
) -> Result<Vec<HtmlNode>, FlowFault>
    requires some_limit { 1 ≤ limit }
    requires low_limit { limit ≤ 10000 }
    ensures { Gives (λ made. nodes_view made.items) result
        (converted_nodes Inline whitespace (role_text role.entry) (items_view items.now))
        (fragment_too_deep depth limit span.0 (items_view items.now)) }
{
    if depth > limit {
        return Err(FlowFault::TooDeep { span });
    }
    convert_to_nodes(
        alloc,
        items,
        ConversionLevel::Inline,
        whitespace,
        role,
        depth,
        limit,
    )
}

/// Converts items of mathematics exactly as [`html_inline_fragment`] does.
pub fn html_math_fragment(
    alloc: Global,
    items: &[Pair],
    span: Span,
    whitespace: Whitespace,
    role: Option<&str>,
    depth: usize,
    limit: usize,
) -> Result<Vec<HtmlNode>, FlowFault>
    requires some_limit { 1 ≤ limit }
    requires low_limit { limit ≤ 10000 }
    ensures { Gives (λ made. nodes_view made.items) result
        (converted_nodes Inline whitespace (role_text role.entry) (items_view items.now))
        (fragment_too_deep depth limit span.0 (items_view items.now)) }
{
    html_inline_fragment(alloc, items, span, whitespace, role, depth, limit)
}
