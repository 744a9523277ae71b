//! The nodes that make a browser build another tree of the written text.

ghost use Rattle.std.specs.Prelude.{◌≡◌, [], IfOk};
ghost use Rattle.html_dom_tree.specs.Views.{element_view};
ghost use Rattle.html_page_nesting.specs.{Misnested.{misnested_nodes}, MisnestedViews.{findings_view}};

use crate::consumed::walk_tree_of;
use crate::finding::Misnested;
use crate::misnested_sink::MisnestedSink;
use crate::walk::walk_tree;
use html_dom_tree::HtmlElement;
use html_names_core::Refused;
use std::alloc::{AllocError, Global};

/// Returns the nodes that make a browser build another tree of the written text, in document order,
/// each with the first rule that it breaks: parsers close elements where others begin, move what
/// has no place in a table, and more (HTML Standard 13.2, with scripting disabled). What moves with
/// such a node is not reported: of `<p>a<div>b</div>c</p>` the `div` is, and `c` isn't. If there are
/// none, a browser should make the same tree from the written text, with texts joined.
///
/// Judges the root as that of a page, an `html` with a `head` and a `body`, and a frame as an
/// `svg`. Does not report what writing refuses, such as children of a `br`. Reports a few nodes
/// that some browsers leave where they are; [`Misnesting`](crate::Misnesting) says which.
///
/// Takes time for each node, character and attribute, and for each pair of attributes of an
/// element. Beside the result, allocates only for the open elements, at most 514 at a time. Fails
/// only if an allocation fails.
///
/// ```
/// use html_page::{Misnesting, misnested};
/// use typst_html::read_html;
///
/// let alloc = rt.alloc();
/// let text = "<!DOCTYPE html><html><head></head><body><p>a<div>b</div></p></body></html>";
/// let root = read_html(alloc, text, 50)?;
/// let found = misnested(alloc, &root)?;
/// assert_eq!(rt; found.len(), 1);
/// for node in &found {
///     assert!(rt; node.path.as_slice() == [1, 0, 1].as_slice());
///     assert!(rt; node.why == Misnesting::ClosesParagraph);
/// }
/// ```
pub fn misnested(alloc: Global, root: &HtmlElement) -> Result<Vec<Misnested>, AllocError>
    ensures { IfOk result (λ found. findings_view found.items ≡ misnested_nodes (element_view root.now)) }
{
    let found = report_misnested(alloc, root, Vec::new(alloc))?;
    Ok(found)
}

/// Reports the nodes that [`misnested`] returns to a sink as it finds them, and returns the sink.
/// Beside what the sink does, allocates only for the open elements. Fails only if an allocation or
/// the sink fails, and then hands back the sink, which has taken the nodes up to there.
pub fn report_misnested<S: MisnestedSink>(
    alloc: Global,
    root: &HtmlElement,
    sink: S,
) -> Result<S, Refused<S>>
    ensures { IfOk result (λ given.
        S.made_with given [] ≡ S.made_with sink (misnested_nodes (element_view root.now))) }
{
    walk_tree(alloc, root, sink)
}

/// Consumes a tree and reports its misnested nodes as [`report_misnested`] does. Frees the nodes on
/// the way, which leaves room for what the sink keeps: a node once it and its content are passed,
/// and the list in which it stood in steps of 4,096 nodes. Recurses at most 514 levels deep.
pub fn report_misnested_of<S: MisnestedSink>(
    alloc: Global,
    root: HtmlElement,
    sink: S,
) -> Result<S, Refused<S>>
    ensures { IfOk result (λ given.
        S.made_with given [] ≡ S.made_with sink (misnested_nodes (element_view root))) }
{
    walk_tree_of(alloc, root, sink)
}
