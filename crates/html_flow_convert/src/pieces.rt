//! Texts where white space collapses.

ghost use Rattle.std.specs.Prelude.{◌≡◌, ◌+◌, ◌<◌, ◌≤◌, ◌==◌, ◌&&◌, ◌||◌, ◌++◌, [], ◌∷◌, true, IsTrue, OnOk, OnErr, IfOk, chars, get_or, length, map};
ghost use Rattle.html_dom_tree.specs.{Tree.{text_node}, Views.{node_view, text_view}};
ghost use Rattle.html_flow_convert.specs.Beginnings.{AddsBeginning};
ghost use Rattle.html_flow_convert.specs.Pieces.{first_char, is_normal, is_normal_there, outside_stretch, piece_node, pieces, stretch, text_nodes};
ghost use Rattle.html_flow_convert.specs.TextStretches.{char_before, is_above_space, is_stretch, is_within, with_stretch, Passes};
ghost use Rattle.html_names_core.specs.Characters.{is_ignorable};

use crate::made::break_element;
use html_dom_tree::{HtmlNode, Span};
use html_names_core::charsets::is_default_ignorable;
use std::alloc::{AllocError, Global};

/// Returns whether the character is invisible by default.
#[tactic(auto, unfolding(html_names_core::specs::Characters::is_ignorable))]
#[inline(always)]
pub(crate) fn is_ignorable(c: char) -> bool
    ensures { result ≡ is_ignorable c }
{
    match c {
        '\u{ae}'..='\u{34e}' | '\u{3165}'..='\u{fdff}' => false,
        '\u{200b}'..='\u{200f}' => true,
        _ => is_default_ignorable(c),
    }
}

/// Returns whether the character is neither blank nor ignorable.
#[tactic(auto, using(crate::proofs::Stretching::ascii_shown))]
fn is_normal(c: char) -> bool
    ensures { result ≡ is_normal c }
{
    if c.is_ascii() {
        c > ' ' || !matches!(c, '\t' | '\n' | '\r' | ' ')
    } else {
        !is_ignorable(c)
    }
}

fn is_normal_there(c: Option<char>) -> bool
    ensures { result ≡ is_normal_there c }
{
    match c {
        Some(c) => is_normal(c),
        None => false,
    }
}

fn begins_normal(text: &str) -> bool
    ensures { result ≡ is_normal_there (first_char (chars text.now)) }
{
    is_normal_there(text.chars().next())
}

/// Returns whether the byte is a normal character of ASCII above the space.
#[tactic(auto, using(std::proofs::lemmas::Bool::Decides::nat_tests), unfolding(crate::specs::TextStretches::is_above_space))]
fn is_above_space(byte: u8) -> bool
    ensures { result ≡ is_above_space byte }
{
    byte > 32 && byte < 128
}

/// Returns whether a space stands at the index, and a normal character of ASCII above the space
/// right after it.
fn is_space_between(bytes: &[u8], at: usize) -> bool
    requires { at < length bytes.now }
    ensures space { IsTrue result → get_or bytes.now at 0 ≡ 32 }
    ensures room { IsTrue result → at + 1 < length bytes.now }
    ensures after { IsTrue result → is_above_space (get_or bytes.now (at + 1) 0) ≡ true }
{
    bytes[at] == b' ' && bytes.len() - at > 1 && is_above_space(bytes[at + 1])
}

/// Returns the text after characters that stand in a stretch: normal ones of ASCII above the
/// space, and single spaces between them.
fn past_words<'a>(text: &'a str, ends_normal: &mut bool) -> &'a str
    ensures passed { Passes ends_normal.old text.now ends_normal.new result.now }
    ensures shorter { length result.now ≤ length text.now }
{
    let bytes = text.as_bytes();
    let mut ends = *ends_normal;
    let mut at = 0;
    while at < bytes.len() {
        if is_above_space(bytes[at]) {
            ends = true;
            at += 1;
        } else if ends && is_space_between(bytes, at) {
            at += 2;
        } else {
            break;
        }
    }
    *ends_normal = ends;
    &text[at..]
}

fn goes_on(is_normal: bool, c: char, ends_normal: bool) -> bool
    ensures { result ≡ (is_normal || ((c == 32) && ends_normal)) }
{
    is_normal || (c == ' ' && ends_normal)
}

/// Returns whether a text ends right after a carriage return, given whether it begins there, and
/// its length.
fn is_after_return(returned: bool, len: usize) -> bool
    ensures { result ≡ (returned && (len == 0)) }
{
    returned && len == 0
}

/// Returns whether a character stands in a stretch, given whether it is normal, and whether a
/// normal one stands right before it.
fn is_within(normal: bool, ends_normal: bool, c: char, after: &str) -> bool
    requires { normal ≡ is_normal c }
    ensures { result ≡ is_within ends_normal c (chars after.now) }
{
    normal || (c == ' ' && ends_normal && begins_normal(after))
}

/// Returns whether the text is one stretch: normal characters, and single spaces between them.
fn is_stretch(text: &str) -> bool
    ensures { IsTrue result → pieces (chars text.now) ≡ stretch (chars text.now) ∷ [] }
{
    let mut ends_normal = false;
    let mut left = past_words(text, &mut ends_normal).chars();
    while let Some(c) = left.next() {
        let is_normal = is_normal(c);
        if !goes_on(is_normal, c, ends_normal) {
            return false;
        }
        ends_normal = is_normal;
        left = past_words(left.as_str(), &mut ends_normal).chars();
    }
    ends_normal
}

fn push_text(nodes: &mut Vec<HtmlNode>, text: String, span: Span) -> Result<(), AllocError>
    ensures added { OnOk result (map node_view nodes.new.items
        ≡ map node_view nodes.old.items ++ text_node (text_view text) span.0 ∷ []) }
    ensures kept { OnErr result (nodes.new.items ≡ nodes.old.items) }
{
    nodes.push(HtmlNode::text(text, span))?;
    Ok(())
}

/// Appends a copy of the text.
#[inline(always)]
fn push_copy(
    alloc: Global,
    nodes: &mut Vec<HtmlNode>,
    text: &str,
    span: Span,
) -> Result<(), AllocError>
    ensures added { OnOk result (map node_view nodes.new.items
        ≡ map node_view nodes.old.items ++ text_node (chars text.now) span.0 ∷ []) }
    ensures kept { OnErr result (nodes.new.items ≡ nodes.old.items) }
{
    nodes.push(HtmlNode::text(String::from_str(alloc, text)?, span))?;
    Ok(())
}

#[inline(always)]
fn push_stretch(
    alloc: Global,
    nodes: &mut Vec<HtmlNode>,
    text: &str,
    span: Span,
) -> Result<(), AllocError>
    ensures added { OnOk result (map node_view nodes.new.items ≡ map node_view nodes.old.items
        ++ map (piece_node span.0) (with_stretch (chars text.now) [])) }
    ensures kept { OnErr result (nodes.new.items ≡ nodes.old.items) }
{
    if text.is_empty() {
        return Ok(());
    }
    push_copy(alloc, nodes, text, span)
}

fn one_char(alloc: Global, c: char) -> Result<String, AllocError>
    ensures { IfOk result (λ text. text_view text ≡ c ∷ []) }
{
    let mut bytes = [0; 4];
    String::from_str(alloc, c.encode_utf8(&mut bytes))
}

/// Appends the node of any character outside stretches. The line feed after a carriage return has
/// none.
#[inline(never)]
fn push_any(
    alloc: Global,
    nodes: &mut Vec<HtmlNode>,
    after_return: bool,
    c: char,
    span: Span,
) -> Result<(), AllocError>
    ensures added { OnOk result (map node_view nodes.new.items ≡ map node_view nodes.old.items
        ++ map (piece_node span.0) (outside_stretch (char_before after_return) c [])) }
    ensures kept { OnErr result (nodes.new.items ≡ nodes.old.items) }
{
    let node = match c {
        '\n' if after_return => return Ok(()),
        '\r' | '\n' => HtmlNode::from(break_element(alloc, span)),
        _ => HtmlNode::text(one_char(alloc, c)?, span),
    };
    nodes.push(node)?;
    Ok(())
}

/// Appends the node of a character outside stretches, the most frequent of them first.
fn push_outside(
    alloc: Global,
    nodes: &mut Vec<HtmlNode>,
    after_return: bool,
    c: char,
    span: Span,
) -> Result<(), AllocError>
    ensures added { OnOk result (map node_view nodes.new.items ≡ map node_view nodes.old.items
        ++ map (piece_node span.0) (outside_stretch (char_before after_return) c [])) }
    ensures kept { OnErr result (nodes.new.items ≡ nodes.old.items) }
{
    match c {
        ' ' => push_copy(alloc, nodes, " ", span),
        '\t' => push_copy(alloc, nodes, "\t", span),
        '\u{200b}' => push_copy(alloc, nodes, "\u{200b}", span),
        _ => push_any(alloc, nodes, after_return, c, span),
    }
}

#[inline(never)]
fn push_pieces(
    alloc: Global,
    nodes: &mut Vec<HtmlNode>,
    text: &str,
    span: Span,
) -> Result<(), AllocError>
    ensures added { OnOk result (map node_view nodes.new.items
        ≡ map node_view nodes.old.items ++ text_nodes span.0 (chars text.now)) }
    ensures begun { OnErr result (AddsBeginning (map node_view nodes.old.items)
        (map node_view nodes.new.items) (text_nodes span.0 (chars text.now))) }
{
    let mut pending = text;
    let mut returned = false;
    let mut ends_normal = false;
    let mut rest = past_words(text, &mut ends_normal);
    let mut left = rest.chars();
    while let Some(c) = left.next() {
        let after = left.as_str();
        let is_normal = is_normal(c);
        if !is_within(is_normal, ends_normal, c, after) {
            let front = pending.len() - rest.len();
            push_stretch(alloc, nodes, &pending[..front], span)?;
            push_outside(alloc, nodes, is_after_return(returned, front), c, span)?;
            returned = c == '\r';
            pending = after;
        }
        ends_normal = is_normal;
        rest = past_words(after, &mut ends_normal);
        left = rest.chars();
    }
    push_stretch(alloc, nodes, pending, span)
}

/// Appends the nodes of a text where white space collapses, each with that span. A space between
/// two characters that are neither blank nor ignorable stays in its text; any other space, each tab
/// and each ignorable character becomes a text of its own; a carriage return with a line feed, and
/// each of them alone, becomes a `br`. The stretches between become texts. Fails only if an
/// allocation fails; the list then has what it had, followed by the first of the nodes.
///
/// Takes time linear in the length of the text. Moves a text that is a single stretch.
#[inline(never)]
pub fn push_text_nodes(
    alloc: Global,
    nodes: &mut Vec<HtmlNode>,
    text: String,
    span: Span,
) -> Result<(), AllocError>
    ensures added { OnOk result (map node_view nodes.new.items
        ≡ map node_view nodes.old.items ++ text_nodes span.0 (text_view text)) }
    ensures begun { OnErr result (AddsBeginning (map node_view nodes.old.items)
        (map node_view nodes.new.items) (text_nodes span.0 (text_view text))) }
{
    if is_stretch(text.as_str()) {
        return push_text(nodes, text, span);
    }
    push_pieces(alloc, nodes, text.as_str(), span)
}
