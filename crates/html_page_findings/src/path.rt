//! The elements of a tree by their paths.

ghost use Rattle.std.specs.Prelude.{◌≡◌, Some, option_map};
ghost use Rattle.html_dom_tree.specs.{ByIndex.{as_element, element_at_index}, Views.{element_view, node_view, nodes_view}};
ghost use Rattle.html_page_findings.specs.ElementPaths.{element_at};

use html_dom_tree::{HtmlElement, HtmlNode};

/// Returns the element at a path: the index of each child on the way from the root, as in
/// [`DeadFragment::path`](crate::DeadFragment::path) and
/// [`RepeatedId::path`](crate::RepeatedId::path). The empty path leads to the root. Returns `None`
/// if the path leads to a text, a tag or a frame, or to nothing.
///
/// Takes time linear in the length of the path, and copies nothing.
///
/// ```
/// use html_page::{HtmlElement, HtmlNode, Span, attr, dead_fragments, element_at, tag};
///
/// let alloc = rt.alloc();
/// let href = String::from_str(alloc, "#mint")?;
/// let link = HtmlElement::new(alloc, tag::a).with_attr(attr::href, href)?.spanned(Span(7));
/// let root = HtmlElement::new(alloc, tag::p).with_child(HtmlNode::from(link))?;
/// for dead in &dead_fragments(alloc, &root)? {
///     let link = element_at(&root, &dead.path).expect(&rt, "the link");
///     assert_eq!(rt; link.span.0, 7);
/// }
/// assert!(rt; element_at(&root, &[0, 0]).is_none());
/// ```
pub fn element_at<'a>(root: &'a HtmlElement, path: &[usize]) -> Option<&'a HtmlElement>
    ensures { option_map (λ e. element_view e.now) result
        ≡ element_at path.now (element_view root.now) }
{
    let mut element = root;
    for index in path {
        element = child_at(&element.children, *index)?;
    }
    Some(element)
}

/// Returns the child at that index, if it is an element.
#[tactic(auto, using(crate::proofs::ElementPaths::node_within, crate::proofs::ElementPaths::none_past))]
fn child_at(children: &[HtmlNode], index: usize) -> Option<&HtmlElement>
    ensures { option_map (λ e. element_view e.now) result
        ≡ element_at_index (nodes_view children.now) index }
{
    match children.get(index) {
        Some(node) => as_element(node),
        None => None,
    }
}

fn as_element(node: &HtmlNode) -> Option<&HtmlElement>
    ensures { option_map (λ e. element_view e.now) result
        ≡ as_element (Some (node_view node.now)) }
{
    match node {
        HtmlNode::Element(element) => Some(element),
        _ => None,
    }
}
