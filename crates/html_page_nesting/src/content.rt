//! Content of an element that is not read as it is written.

ghost use Rattle.std.specs.Prelude.{◌≡◌};
ghost use Rattle.html_dom_tree.specs.Views.{element_view, node_view, nodes_view};
ghost use Rattle.html_page_nesting.specs.Contents as content;

use crate::element::KnownElement;
use crate::misnesting::Misnesting;
use crate::script::hide_end;
use crate::texts::is_plain_text;
use html_dom_tree::HtmlNode;
use html_names_core::tag::is_foreign_self_closing;
use html_page_names::Kind;

fn is_plain(pre_span: bool, node: &HtmlNode) -> bool
    ensures { result ≡ content.is_plain pre_span (node_view node.now) }
{
    match node {
        HtmlNode::Tag(_) => true,
        HtmlNode::Text(text, _) => is_plain_text(pre_span, text.as_str()),
        HtmlNode::Element(_) | HtmlNode::Frame(_) => false,
    }
}

/// Returns whether the nodes are only texts that are written as they are.
pub(crate) fn are_plain(pre_span: bool, nodes: &[HtmlNode]) -> bool
    ensures { result ≡ content.are_plain pre_span (nodes_view nodes.now) }
{
    for node in nodes {
        if !is_plain(pre_span, node) {
            return false;
        }
    }
    true
}

/// Returns whether the text that is written first begins with a line feed.
pub(crate) fn begin_with_feed(nodes: &[HtmlNode]) -> bool
    ensures { result ≡ content.begin_with_feed (nodes_view nodes.now) }
{
    for node in nodes {
        match node {
            HtmlNode::Tag(_) => {}
            HtmlNode::Text(text, _) => {
                if let Some(c) = text.as_str().chars().next() {
                    return c == '\n';
                }
            }
            HtmlNode::Element(_) | HtmlNode::Frame(_) => return false,
        }
    }
    false
}

/// Returns the rule that the content of an element of HTML breaks.
pub(crate) fn content_misnesting(known: &KnownElement<'_>) -> Option<Misnesting>
    ensures { let e = element_view known.now.element.now in
        result ≡ content.content_misnesting e.0 e.1 }
{
    let element = known.element;
    if is_foreign_self_closing(&element.tag) {
        return Some(Misnesting::StaysOpen);
    }
    if known.has_unread_end() {
        return Some(Misnesting::UnreadEnd);
    }
    if known.is_raw_when_read() && !are_plain(element.pre_span, &element.children) {
        return Some(Misnesting::RawText);
    }
    if known.is_listing() && begin_with_feed(&element.children) {
        return Some(Misnesting::FirstLineFeed);
    }
    if known.is(Kind::Script) && hide_end(&element.children) {
        return Some(Misnesting::ScriptComment);
    }
    None
}
