//! Reading a fragment as browsers do, from a text to its nodes and the errors in it.

ghost use Rattle.std.specs.Prelude.{◌≡◌, ◌≤◌, ◌<◌, ◌+◌, ◌^◌, IfOk, chars, length};
ghost use Rattle.html_dom_tree.specs.Views.{element_view, node_view, nodes_view};
ghost use Rattle.html_page_read.specs.FragmentReading as fragments;
ghost use Rattle.html_page_read.specs.FragmentReading.{GivesNodes};
ghost use Rattle.html_page_read.specs.{PageReaderViews.{reader_of}, PageReading.{page_result, run}};
ghost use Rattle.html_page_stack.specs.PageViews.{page_of};

use crate::fault::{PageFault, PageNotes};
use crate::read::{BYTE_ORDER_MARK, answer, run};
use crate::reader::Reader;
use html_dom_tree::text::split_first;
use html_dom_tree::{HtmlElement, HtmlNode};
use html_page_stack::{Page, PageRefusal};
use html_page_tree::begin_fragment;
use std::alloc::{AllocError, Global};

/// The depth of a fragment's nodes in its page: `html` and `body` stand above them.
const DEPTH: usize = 2;

/// Reads a fragment from elsewhere as browsers do, and returns its nodes and the errors in it.
///
/// Reads as HTML Standard 13.4 says, with scripting disabled and a `body` as the context, in a
/// document without quirks. A byte order mark at the beginning is dropped, as by
/// [`read_page`](crate::read_page). Recovers from the errors that `read_page` recovers from, and
/// refuses what that refuses. Tags of `html`, `head` and `body` leave nothing.
///
/// Spans are those of a page; a text that stands in no element of the fragment has the span 0.
///
/// `limit` is from 1 to 10,000 and bounds the depth of elements; a node of the fragment has depth 1.
///
/// # Errors
///
/// [`PageFault::Refused`] with the first place for which the fragment is refused, as for a page.
///
/// Takes time and memory like `read_page`.
///
/// ```
/// use html_page::{PageFault, read_fragment};
///
/// let alloc = rt.alloc();
/// let (nodes, notes) = read_fragment(alloc, "Low <b>tide</i></b><p>at six", 50)?;
/// assert_eq!(rt; nodes.len(), 3);
/// assert_eq!(rt; notes.count, 1);
/// for note in &notes.first {
///     assert_eq!(rt; note.place.offset, 11); // `</i>`, which closes nothing
/// }
///
/// let read = read_fragment(alloc, "<p><b>tide</b>", 1);
/// let Err(PageFault::Refused { place, .. }) = read else {
///     panic!(rt; "`b` is too deep");
/// };
/// assert_eq!(rt; place.column, 4);
/// ```
pub fn read_fragment(
    alloc: Global,
    text: &str,
    limit: usize,
) -> Result<(Vec<HtmlNode>, PageNotes), PageFault>
    requires some_limit { 1 ≤ limit }
    requires low_limit { limit ≤ 10000 }
    ensures { GivesNodes result (chars text.now) (fragments.fragment_read limit (chars text.now)) }
{
    let mut reader = reader_behind(alloc, text, limit)?;
    reader.finish()?;
    nodes_answer(alloc, text, reader.reading.page)
}

/// Reads a fragment like [`read_fragment`], but goes on at the limits of elements: of an element
/// that is deeper than `limit` only the tags are passed over, and what stands in it goes to the
/// deepest element around it; of the attributes of a tag those behind the first 256 are left out.
///
/// # Errors
///
/// [`PageFault::Refused`] with
/// [`PageRefusal::TooManyCopies`](html_page_stack::PageRefusal::TooManyCopies) and its place, if none
/// of these limits was passed before it.
///
/// ```
/// use html_page::{HtmlNode, read_any_fragment};
///
/// let alloc = rt.alloc();
/// let (nodes, _) = read_any_fragment(alloc, "<p>low <b>tide</b>", 1)?;
/// let Some(HtmlNode::Element(paragraph)) = nodes.first() else {
///     panic!(rt; "a paragraph");
/// };
/// assert_eq!(rt; paragraph.children.len(), 1); // the text `low tide`
/// ```
pub fn read_any_fragment(
    alloc: Global,
    text: &str,
    limit: usize,
) -> Result<(Vec<HtmlNode>, PageNotes), PageFault>
    requires some_limit { 1 ≤ limit }
    requires low_limit { limit ≤ 10000 }
    ensures { GivesNodes result (chars text.now)
        (fragments.any_fragment_read limit (chars text.now)) }
{
    let mut reader = reader_behind(alloc, text, limit)?;
    reader.finish()?;
    let mut page = reader.reading.page;
    pass_limits(&mut page);
    nodes_answer(alloc, text, page)
}

/// Takes the refusal of a page back, if the reader can go on at its limit.
fn pass_limits(page: &mut Page)
    ensures { page_of page.new ≡ fragments.passed_limits (page_of page.old) }
{
    if let Some((refusal, _)) = page.refusal
        && is_passed(refusal)
    {
        page.refusal = None;
    }
}

/// Returns whether a reader can go on at such a limit.
fn is_passed(refusal: PageRefusal) -> bool
    ensures { result ≡ fragments.is_passed refusal }
{
    !matches!(refusal, PageRefusal::TooManyCopies)
}

/// Returns the children of a node, if it is an element.
fn node_children(alloc: Global, node: HtmlNode) -> Vec<HtmlNode>
    ensures { nodes_view result.items ≡ fragments.node_children (node_view node) }
{
    match node {
        HtmlNode::Element(element) => element.children,
        _ => Vec::new(alloc),
    }
}

/// Returns the children of the last of the nodes, if it is an element.
#[tactic(auto, using(crate::proofs::Fragments::last_of))]
fn last_children(alloc: Global, nodes: Vec<HtmlNode>) -> Vec<HtmlNode>
    ensures { nodes_view result.items ≡ fragments.last_children (nodes_view nodes.items) }
{
    let mut nodes = nodes;
    match nodes.pop() {
        None => nodes,
        Some(last) => node_children(alloc, last),
    }
}

/// Returns the nodes in the `body` of a fragment's page.
fn body_nodes(alloc: Global, root: HtmlElement) -> Vec<HtmlNode>
    ensures { nodes_view result.items ≡ fragments.fragment_nodes (element_view root) }
{
    let HtmlElement { children, .. } = root;
    last_children(alloc, children)
}

/// Returns what a fragment is read as whose page was read to its end.
fn nodes_answer(
    alloc: Global,
    text: &str,
    page: Page,
) -> Result<(Vec<HtmlNode>, PageNotes), PageFault>
    ensures { GivesNodes result (chars text.now) (page_result (page_of page)) }
{
    let (root, notes) = answer(alloc, text, page)?;
    Ok((body_nodes(alloc, root), notes))
}

/// Returns a reader before a fragment, which starts at that offset in bytes.
fn first_reader(alloc: Global, limit: usize, place: usize) -> Result<Reader, AllocError>
    requires { limit ≤ 10000 }
    ensures { IfOk result (λ reader. reader_of reader ≡ fragments.fragment_reader limit place) }
{
    let mut page = Page::new(alloc, limit + DEPTH);
    begin_fragment(&mut page)?;
    Ok(Reader::of(page, place))
}

/// Returns a reader that has read a fragment, which starts at that offset in bytes.
fn read_from(alloc: Global, text: &str, limit: usize, place: usize) -> Result<Reader, AllocError>
    requires low_limit { limit ≤ 10000 }
    requires room { place + length text.now < 2 ^ 64 }
    ensures { IfOk result (λ reader. reader_of reader
        ≡ run (fragments.fragment_reader limit place) (chars text.now)) }
{
    let mut reader = first_reader(alloc, limit, place)?;
    run(&mut reader, text)?;
    Ok(reader)
}

/// Returns a reader that has read a fragment, and dropped its byte order mark.
fn reader_behind(alloc: Global, text: &str, limit: usize) -> Result<Reader, AllocError>
    requires { limit ≤ 10000 }
    ensures { IfOk result (λ reader. reader_of reader
        ≡ fragments.fragment_passed limit (chars text.now)) }
{
    let Some((first, rest)) = split_first(text) else {
        return first_reader(alloc, limit, 0);
    };
    if first == BYTE_ORDER_MARK {
        read_from(alloc, rest, limit, BYTE_ORDER_MARK.len_utf8())
    } else {
        read_from(alloc, text, limit, 0)
    }
}
