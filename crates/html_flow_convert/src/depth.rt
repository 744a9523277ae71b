//! Items that are too deep.
#![tactic(auto, unfolding(crate::specs::Depth::item_too_deep))]

ghost use Rattle.std.specs.Prelude.{◌≡◌, ◌≤◌, option_map};
ghost use Rattle.html_flow_convert.specs.Depth.{body_too_deep, first_too_deep, item_too_deep, items_too_deep};
ghost use Rattle.html_flow_convert.specs.Views.{body_view, item_view, items_view};

use crate::item::{Item, Pair};
use html_dom_tree::Span;

/// Returns the span of the first of these items, in document order and at any depth, whose body is
/// deeper than the limit.
#[cycle(depth)]
pub(crate) fn items_too_deep(items: &[Pair], depth: usize, limit: usize) -> Option<Span>
    requires within { depth ≤ limit }
    requires low_limit { limit ≤ 10000 }
    ensures { option_map (λ span. span.0) result
        ≡ first_too_deep (items_too_deep depth limit (items_view items.now)) }
{
    for pair in items {
        if let Some(span) = item_too_deep(&pair.item, depth, limit) {
            return Some(span);
        }
    }
    None
}

#[cycle(depth)]
fn item_too_deep(item: &Item, depth: usize, limit: usize) -> Option<Span>
    requires within { depth ≤ limit }
    requires low_limit { limit ≤ 10000 }
    ensures { option_map (λ span. span.0) result
        ≡ first_too_deep (item_too_deep depth limit (item_view item.now)) }
{
    match item {
        Item::Element(element) => body_too_deep(&element.body, element.span, depth, limit),
        Item::Box(body, span) | Item::Block(body, span) => body_too_deep(body, *span, depth, limit),
        Item::Tag(_)
        | Item::Space(_)
        | Item::Text(_, _)
        | Item::Hole
        | Item::LineBreak(_)
        | Item::Frame(_) => None,
    }
}

#[cycle(depth)]
fn body_too_deep(body: &Option<Vec<Pair>>, span: Span, depth: usize, limit: usize) -> Option<Span>
    requires within { depth ≤ limit }
    requires low_limit { limit ≤ 10000 }
    ensures { option_map (λ span. span.0) result
        ≡ first_too_deep (body_too_deep depth limit span.0 (body_view body.now)) }
{
    let Some(items) = body else {
        return None;
    };
    if depth >= limit {
        return Some(span);
    }
    items_too_deep(items, depth + 1, limit)
}
