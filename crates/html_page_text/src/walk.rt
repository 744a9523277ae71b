//! The walk over a page's nodes.

ghost use Rattle.std.specs.Prelude.{◌≡◌, IsTrue, OnOk, IfOk, option_map, unwrap_or};
ghost use Rattle.html_dom_tree.specs.{Tree.{node, none}, Views.{element_view, node_view, nodes_view}};
ghost use Rattle.html_dom_shown.specs.Bodies.{body_children};
ghost use Rattle.html_page_text.specs.{PageTexts.{page_parts}, PageViews.{page_text_view, progress_view}};
ghost use Rattle.html_page_text.specs.{Parts.{stand_apart}, Progress.{progress_past}, Unseen.{seen_element, seen_nodes}};

use crate::progress::Progress;
use crate::shown::PageText;
use crate::unseen::is_unseen;
use html_dom_tree::{HtmlElement, HtmlNode};
use html_dom_walk::Walk;
use html_names_core::tag;
use std::alloc::{AllocError, Global};

/// Returns what is visible in a browser of a root's body, its first child named `body` that is not
/// hidden, once white space has collapsed (CSS Text, white space processing, as this project states
/// it). Nothing is visible of a root without such a child, nor of a frame. Fails only if an
/// allocation fails.
///
/// An element is hidden, with everything in it, if HTML Standard 15.3.1 gives it `display: none`:
///
/// - `area`, `base`, `basefont`, `datalist`, `head`, `link`, `meta`, `noembed`, `noframes`, `param`,
///   `rp`, `script`, `style`, `template` and `title`;
/// - one with the attribute `hidden`, unless its value is `until-found` in any ASCII case, or the
///   element is an `embed`;
/// - an `input` whose `type` is `hidden` in any ASCII case.
///
/// If an attribute is repeated, the first counts. Elements of SVG and MathML are judged like those
/// of HTML. What is hidden counts as absent. A `noscript` is visible, as without scripting.
///
/// A tab, line feed, carriage return or space is visible as a space if what stands before it and
/// what stands after it, further such blanks after it aside, support it; otherwise it is invisible.
/// Visible characters, preserved blanks and objects support it; line breaks, edges and the ends of
/// the body do not. Ignorable characters do not count here, and stay as they are.
///
/// Blanks at any depth in `pre`, or in an element whose first `style` is exactly
/// `white-space: pre-wrap` or `display: block; white-space: pre-wrap`, are preserved: they stay as
/// they are. An edge stands where a block, a list item, a table or a caption, row group, row or
/// cell of one begins and ends, by default or because its first `style` is exactly `display: block`
/// or the latter of the two. Neighbouring edges are one. A replaced element is one object, whatever
/// is in it, and a `br` only a line break. No other css counts: what it hides counts as visible,
/// such as a `dialog` or the content of `details` that are not open.
///
/// All neighbouring characters that are visible are one text, across nodes too, so no text is
/// empty, and no two texts or edges are neighbours.
///
/// If no item in plain flow is hidden, exactly the items' text is the page text of what is read
/// from the text that `export` makes from them without footnotes, plain or pretty.
///
/// Takes time linear in the size of the tree.
///
/// ```
/// use html_page::{Shown, page_text, read_page};
///
/// let alloc = rt.alloc();
/// let html = "<!DOCTYPE html><html><body><p>Salt  &amp;\n<i>vinegar</i> </p></body></html>";
/// let (root, _) = read_page(alloc, html, 50)?;
/// let page = page_text(alloc, &root)?;
/// assert!(rt; matches!(page.parts(), [Shown::Edge, Shown::Text(_), Shown::Edge]));
/// let shown = format!(in alloc; "{page}")?;
/// assert_eq!(rt; shown.as_str(), "Salt & vinegar");
/// ```
pub fn page_text(alloc: Global, root: &HtmlElement) -> Result<PageText, AllocError>
    ensures parts { IfOk result (λ text. page_text_view text ≡ page_parts (element_view root.now)) }
    ensures apart { IfOk result (λ text. IsTrue (stand_apart (page_text_view text))) }
{
    let mut progress = Progress::new(alloc);
    pass_nodes(alloc, shown_nodes(root), &mut progress)?;
    progress.into_page_text()
}

fn pass_nodes(alloc: Global, nodes: &[HtmlNode], progress: &mut Progress) -> Result<(), AllocError>
    ensures { OnOk result (progress_view progress.new
        ≡ progress_past (progress_view progress.old) (nodes_view nodes.now)) }
{
    let mut walk = Walk::over(alloc, nodes);
    while let Some(visit) = walk.next()? {
        if progress.pass(visit)? {
            walk.skip();
        }
    }
    Ok(())
}

/// Returns the children of the body of a root, if there is one that is not hidden.
#[tactic(auto, unfolding(crate::specs::Unseen::seen_nodes))]
fn shown_nodes(root: &HtmlElement) -> &[HtmlNode]
    ensures { seen_nodes (nodes_view result.now)
        ≡ unwrap_or (body_children (seen_element (element_view root.now)).1) none }
{
    if is_unseen(root) {
        return &[];
    }
    match body_of(&root.children) {
        Some(body) => &body.children,
        None => &[],
    }
}

#[tactic(auto, unfolding(html_names_core::specs::Tables::known_tags, crate::specs::Unseen::seen_nodes))]
fn as_body(child: &HtmlNode) -> Option<&HtmlElement>
    ensures { option_map (λ body. seen_nodes (element_view body.now).1) result
        ≡ body_children (seen_nodes (node (node_view child.now) none)) }
{
    match child {
        HtmlNode::Element(element) => {
            if element.tag == tag::body && !is_unseen(element) {
                Some(element)
            } else {
                None
            }
        }
        HtmlNode::Tag(_) | HtmlNode::Text(_, _) | HtmlNode::Frame(_) => None,
    }
}

/// Returns the first element of the nodes that is named `body` and not hidden.
fn body_of(nodes: &[HtmlNode]) -> Option<&HtmlElement>
    ensures { option_map (λ body. seen_nodes (element_view body.now).1) result
        ≡ body_children (seen_nodes (nodes_view nodes.now)) }
{
    for child in nodes {
        if let Some(body) = as_body(child) {
            return Some(body);
        }
    }
    None
}
