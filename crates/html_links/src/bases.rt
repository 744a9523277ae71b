//! The base of the links of a page.

ghost use Rattle.std.specs.Prelude.{◌≡◌, option_map, chars};
ghost use Rattle.html_dom_tree.specs.{Tree.{element_node}, Views.{element_view, node_view, nodes_view, text_view}};
ghost use Rattle.html_links.specs.Bases.{base_of, base_is_elsewhere, is_elsewhere, node_base, nodes_base, own_base};
ghost use Rattle.html_links.specs.Scripts.{past_blanks};

use crate::places::keeps_children;
use crate::scripts::past_blanks;
use html_dom_tree::text::split_first;
use html_dom_tree::{HtmlElement, HtmlNode};
use html_names_core::{attr, tag};

/// Returns the base of a page's links: the first `href` of the first `base` with one, in document
/// order, the root too, but not in a `template` (HTML Standard 4.2.3). Its text is as it stands
/// there.
///
/// Unless it is empty or a fragment alone, a link to a fragment alone leads to the base's address,
/// and not to its own page. Takes time linear in the size of the tree, and copies nothing.
///
/// ```
/// use typst_html::{HtmlElement, attr, base_of, tag};
///
/// let alloc = rt.alloc();
/// let href = String::from_str(alloc, "/herbs/")?;
/// let root = HtmlElement::new(alloc, tag::base).with_attr(attr::href, href)?;
/// let base = base_of(&root).expect(&rt, "the base");
/// assert_eq!(rt; base.as_str(), "/herbs/");
/// assert!(rt; base_of(&HtmlElement::new(alloc, tag::base)).is_none());
/// ```
pub fn base_of(root: &HtmlElement) -> Option<&String>
    ensures { option_map (λ href. text_view href.now) result ≡ base_of (element_view root.now) }
{
    base_in(root)
}

/// Returns whether a link to a fragment alone leads to another address than its own page: whether
/// the base ([`base_of`]) is neither empty nor a fragment alone, blanks before it aside.
pub fn base_is_elsewhere(root: &HtmlElement) -> bool
    ensures { result ≡ base_is_elsewhere (element_view root.now) }
{
    match base_of(root) {
        Some(href) => leads_away(href.as_str()),
        None => false,
    }
}

fn leads_away(href: &str) -> bool
    ensures { result ≡ is_elsewhere (past_blanks (chars href.now)) }
{
    match split_first(past_blanks(href)) {
        Some((c, _)) => c != '#',
        None => false,
    }
}

/// Returns the first `href` of a `base`.
#[tactic(auto, unfolding(html_names_core::specs::Tables::known_tags, html_names_core::specs::Tables::known_attrs))]
fn own_base(element: &HtmlElement) -> Option<&String>
    ensures { let h = (element_view element.now).0 in
        option_map (λ href. text_view href.now) result ≡ own_base h.name h.attrs }
{
    if element.tag == tag::base {
        element.attrs.get(&attr::href)
    } else {
        None
    }
}

// The node comes first among the parameters: its depth proves that the recursion ends.

#[cycle(bases)]
#[tactic(auto, unfolding(crate::specs::Bases::node_base))]
fn base_in(element: &HtmlElement) -> Option<&String>
    ensures { let e = element_view element.now in
        option_map (λ href. text_view href.now) result ≡ node_base (element_node e.0 e.1) }
{
    if let Some(href) = own_base(element) {
        return Some(href);
    }
    if !keeps_children(element, false) {
        return None;
    }
    base_among(&element.children)
}

#[cycle(bases)]
#[tactic(auto, unfolding(crate::specs::Bases::node_base))]
fn base_at(child: &HtmlNode) -> Option<&String>
    ensures { option_map (λ href. text_view href.now) result ≡ node_base (node_view child.now) }
{
    match child {
        HtmlNode::Element(element) => base_in(element),
        HtmlNode::Tag(_) | HtmlNode::Text(_, _) | HtmlNode::Frame(_) => None,
    }
}

#[cycle(bases)]
fn base_among(nodes: &[HtmlNode]) -> Option<&String>
    ensures { option_map (λ href. text_view href.now) result ≡ nodes_base (nodes_view nodes.now) }
{
    for child in nodes {
        if let Some(href) = base_at(child) {
            return Some(href);
        }
    }
    None
}
