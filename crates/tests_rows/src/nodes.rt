//! The nodes that items become.

use crate::runs::inner_text;
use anyhow::{Result, bail, ensure};
use html_dom_flat::FlatTree;
use html_dom_tree::{HtmlElement, HtmlNode, Span, resolve_inline_styles};
use html_flow_convert::{
    ConversionLevel, FlowFault, Whitespace, bare_spaces, convert_to_nodes, html_block_fragment,
    html_inline_fragment, html_math_fragment, is_depth_limit,
};
use html_names_core::tag;
use std::alloc::{AllocError, Global};
use tests_frames::OneText;
use tests_rows_items::items_in;
use tests_rows_run::Row;
use typst_html_encode::{HtmlOptions, html_in_bundle};

/// The greatest depth of bodies, unless a row gives one.
const DEPTH_LIMIT: usize = 50;

fn nodes_of(
    alloc: Global,
    row: &Row<'_>,
    level: ConversionLevel,
    space: Whitespace,
) -> Result<Result<Vec<HtmlNode>, FlowFault>> {
    let items = items_in(alloc, &row.input)?;
    let limit = row.number("limit", DEPTH_LIMIT)?;
    let depth = row.number("depth", 0)?;
    ensure!(is_depth_limit(limit) && depth <= limit, "no depth");
    let role = row.value("role");
    Ok(convert_to_nodes(alloc, &items, level, space, role, depth, limit))
}

pub(crate) fn converted(alloc: Global, row: &Row<'_>) -> Result<String> {
    let (level, space) = match row.words.as_slice() {
        [_, "block", "normal", ..] => (ConversionLevel::Block, Whitespace::Normal),
        [_, "block", "pre", ..] => (ConversionLevel::Block, Whitespace::Pre),
        [_, "inline", "normal", ..] => (ConversionLevel::Inline, Whitespace::Normal),
        [_, "inline", "pre", ..] => (ConversionLevel::Inline, Whitespace::Pre),
        _ => bail!("a level and white space are wanted"),
    };
    html_or_refusal(alloc, nodes_of(alloc, row, level, space)?)
}

pub(crate) fn fragment(alloc: Global, row: &Row<'_>, call: &str) -> Result<String> {
    let items = items_in(alloc, &row.input)?;
    let limit = row.number("limit", DEPTH_LIMIT)?;
    let depth = row.number("depth", 0)?;
    ensure!(is_depth_limit(limit), "no limit");
    let (span, space) = (FRAGMENT, Whitespace::Normal);
    let nodes = match call {
        "block-fragment" => html_block_fragment(alloc, &items, span, space, None, depth, limit),
        "inline-fragment" => html_inline_fragment(alloc, &items, span, space, None, depth, limit),
        _ => html_math_fragment(alloc, &items, span, space, None, depth, limit),
    };
    html_or_refusal(alloc, nodes)
}

const FRAGMENT: Span = Span(9);

fn html_or_refusal(alloc: Global, nodes: Result<Vec<HtmlNode>, FlowFault>) -> Result<String> {
    match nodes {
        Ok(nodes) => html_of(alloc, nodes),
        Err(FlowFault::TooDeep { span }) => Ok(format!(in alloc; "refused 8 at {}", span.0)?),
        Err(fault) => Err(fault.into()),
    }
}

fn html_of(alloc: Global, nodes: Vec<HtmlNode>) -> Result<String> {
    let mut body = HtmlElement::new(alloc, tag::body).with_children(nodes);
    resolve_inline_styles(alloc, &mut body)?;
    let frames = OneText::new(alloc)?;
    let text = html_in_bundle(alloc, &body, &HtmlOptions::default(), &frames)?;
    inner_text(alloc, &text, ("<!DOCTYPE html><body>", "</body>"))
}

pub(crate) fn spans(alloc: Global, row: &Row<'_>) -> Result<String> {
    let nodes = nodes_of(alloc, row, ConversionLevel::Block, Whitespace::Normal)??;
    let mut spans = String::new(alloc);
    add_spans(&mut spans, &nodes)?;
    Ok(String::from_str(alloc, spans.trim_start())?)
}

fn add_spans(spans: &mut String, nodes: &[HtmlNode]) -> Result<(), AllocError> {
    for node in nodes {
        write!(spans, " {}", node.span().0)?;
        if let HtmlNode::Element(element) = node {
            spans.push_str(" (")?;
            add_spans(spans, &element.children)?;
            spans.push_str(" )")?;
        }
    }
    Ok(())
}

/// Returns 1 or 0 for each lone space of the row's items that is bare or not, and the number of
/// visited nodes. The items become nodes with preserved white space, so that each text is one node.
pub(crate) fn bare(alloc: Global, row: &Row<'_>) -> Result<String> {
    let nodes = nodes_of(alloc, row, ConversionLevel::Inline, Whitespace::Pre)??;
    let found = bare_spaces(alloc, &FlatTree::from_nodes(alloc, &nodes)?)?;
    let mut bare = String::new(alloc);
    for is_bare in &found.bare {
        bare.push(if *is_bare { '1' } else { '0' })?;
    }
    write!(bare, " in {}", found.turns)?;
    Ok(bare)
}
