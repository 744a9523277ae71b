//! The `href` of links that have none.

ghost use Rattle.std.specs.Prelude.{◌≡◌, ◌∷◌, [], List, option_map, IfErr, IfOk, OnErr, OnOk};
ghost use Rattle.html_dom_document.specs.{Introspectors.{introspector_view}, Views.{document_view}};
ghost use Rattle.html_dom_tree.specs.{Tree.{NodeView, element_node}, Views.{attrs_view, element_view, node_view, nodes_view, tag_view, text_view}};
ghost use Rattle.html_anchors.specs.LinkTargets.{hrefs_view};
ghost use Rattle.html_anchors.specs.Links.{attrs_with_href, dest_before, href_of, is_open, name_of, node_with_links, nodes_with_links, open_dest, tag_dest};
ghost use Rattle.html_anchors.specs.MadeDocuments.{HasItsLinks};

use crate::root_children::{put_children, take_children};
use html_dom_document::{HtmlDocument, HtmlIntrospector};
use html_dom_tree::moving::give_back;
use html_dom_tree::{HtmlAttrs, HtmlElement, HtmlNode, Location, Tag};
use html_links::{all_place_names, leading_href};
use html_names_core::{Refused, attr, tag};
use std::alloc::{AllocError, Global};
use std::collections::BTreeSet;

/// The known anchors and the names of all places, to which links lead.
#[derive(Clone, Copy)]
pub(crate) struct LinkTargets<'a> {
    pub(crate) known: &'a HtmlIntrospector,
    pub(crate) places: &'a BTreeSet<String>,
}

impl LinkTargets<'_> {
    pub(crate) fn href(
        self,
        alloc: Global,
        dest: Option<Location>,
    ) -> Result<Option<String>, AllocError>
        ensures { IfOk result (λ href. option_map text_view href
            ≡ href_of (hrefs_view self.entry) (option_map (λ l. l.0) dest)) }
    {
        match name_of(self.known, dest) {
            Some(name) => leading_href(alloc, self.places, name.as_str()),
            None => Ok(None),
        }
    }
}

/// Adds an `href` to each link of a document that has none: one that leads to its destination.
///
/// A link is an `a` at any depth below the root directly after a start tag with a destination,
/// with only tags between; of several such tags the nearest counts. If the document's introspector
/// knows an anchor of that destination, and it is not empty, the link's first attribute becomes
/// `href`: `#` and a spelling of the anchor's name that leads to it. Links that have an `href`, and
/// everything else, stay. [`dead_links`] reports the links that are left without one.
///
/// A browser first looks for a place whose name is the fragment, and only then for one whose name
/// is the decoded fragment (HTML Standard 7.4.6.3); before, it drops all from the first `:~:` on (URL
/// Fragment Text Directives). So the `href` spells the name as it is, if the fragment percent-encode
/// set (URL Standard 1.3) leaves it so and it has no `:~:`; else with that set and `%`
/// percent-encoded, and `:` too if a `:~:` would be left; else, if another place of the tree has
/// that text as its name, with each byte encoded. If a place has that text too, the link stays
/// without an `href`. A place is an element with that first `id`, an `a` with that first `name`, a
/// frame, or an anchor of one.
///
/// Each new `href` leads: if the anchors that the introspector knows stand in the tree, as they do
/// in a document of `html_document`, the fragment that a browser takes from it indicates the
/// anchor's name, which is the first `id` of an element below the root, the `id` of a frame, or one
/// of a frame's anchors; it stays the name of what serves the destination there. If all values of
/// `id` differ ([`ids_are_distinct`](crate::ids_are_distinct)), they still do, and exactly one of
/// them is that name.
///
/// Names in a `template` count here, but a browser finds none there; and a `base` that leads
/// elsewhere ([`base_of`](html_links::base_of)) counts for nothing here, but leads all these links away.
/// [`dead_links`], called before, reports these links too; each other link that gets an `href` leads
/// a browser to the place.
///
/// Takes time linear in the size of the tree, and for each place and each link logarithmic in the
/// number of places.
///
/// Fails only if an allocation fails, and then the document is unchanged. Changes a copy, which then
/// takes the document's place.
///
/// ```
/// use typst_html::{DocumentInfo, HtmlElem, HtmlOptions, Item, Location};
/// use typst_html::{html, html_document, push_located, resolve_links, tag};
///
/// let alloc = rt.alloc();
/// let (mut items, info) = (Vec::new(alloc), DocumentInfo::new(alloc));
/// let link = Item::Element(HtmlElem::new(alloc, tag::a));
/// let heading = Item::Element(HtmlElem::new(alloc, tag::h2));
/// push_located(&mut items, Location(1), None, Some(Location(7)), link)?;
/// push_located(&mut items, Location(7), None, None, heading)?;
/// let mut document = html_document(alloc, &items, &info, &[], 50)?;
/// resolve_links(alloc, &mut document)?;
/// let text = html(alloc, &document, &HtmlOptions::default(), &())?;
/// let body = r##"<body><a href="#loc-1"></a><h2 id="loc-1"></h2></body></html>"##;
/// assert!(rt; text.as_str().ends_with(body));
/// ```
pub fn resolve_links(alloc: Global, document: &mut HtmlDocument) -> Result<(), AllocError>
    ensures links { OnOk result
        (HasItsLinks (document_view document.old) (document_view document.new)) }
    ensures kept { OnErr result (document.new ≡ document.old) }
{
    let copy = document.try_clone()?;
    *document = document_with_links(alloc, copy)?;
    Ok(())
}

/// Consumes a document and returns it with its links resolved as by [`resolve_links`]. Moves the
/// nodes, which `resolve_links` copies. If an allocation fails, drops the document.
pub fn document_with_links(
    alloc: Global,
    mut document: HtmlDocument,
) -> Result<HtmlDocument, AllocError>
    ensures { IfOk result (λ made. HasItsLinks (document_view document) (document_view made)) }
{
    let places = all_place_names(alloc, document.root())?;
    let children = take_children(alloc, &mut document);
    let targets = LinkTargets {
        known: document.introspector(),
        places: &places,
    };
    let children = nodes_with_links(children, alloc, targets)?;
    put_children(&mut document, children);
    Ok(document)
}

/// Consumes a document and returns it with its links resolved as by [`resolve_links`]. If an
/// allocation fails, the error holds the document unchanged.
pub fn with_resolved_links(
    alloc: Global,
    mut document: HtmlDocument,
) -> Result<HtmlDocument, Refused<HtmlDocument>>
    ensures links { IfOk result (λ made.
        HasItsLinks (document_view document) (document_view made)) }
    ensures back { IfErr result (λ refused. refused.back ≡ document) }
{
    match resolve_links(alloc, &mut document) {
        Ok(()) => Ok(document),
        Err(AllocError) => Err(Refused { back: document }),
    }
}

/// Returns the destination that counts right after a node, given the one right before it.
fn dest_past(dest: Option<Location>, node: &HtmlNode) -> Option<Location>
    ensures { (before : List NodeView) → option_map (λ l. l.0) dest ≡ dest_before before →
        option_map (λ l. l.0) result ≡ dest_before (node_view node.now ∷ before) }
{
    match node {
        HtmlNode::Tag(tag) => tag_dest(tag, dest),
        HtmlNode::Text(_, _) | HtmlNode::Element(_) | HtmlNode::Frame(_) => None,
    }
}

/// Returns the destination that counts right after a tag, given the one right before it.
pub(crate) fn tag_dest(tag: &Tag, dest: Option<Location>) -> Option<Location>
    ensures { option_map (λ l. l.0) result
        ≡ tag_dest (tag_view tag.now) (option_map (λ l. l.0) dest) }
{
    match tag {
        Tag::Start {
            dest: Some(there),
            ..
        } => Some(*there),
        _ => dest,
    }
}

/// Returns whether the element is an `a` without an `href`.
#[tactic(auto, unfolding(html_names_core::specs::Tables::known_tags, html_names_core::specs::Tables::known_attrs))]
fn is_open(element: &HtmlElement) -> bool
    ensures { result ≡ is_open (element_view element.now).0 }
{
    element.tag == tag::a && element.attrs.get(&attr::href).is_none()
}

pub(crate) fn open_dest(element: &HtmlElement, dest: Option<Location>) -> Option<Location>
    ensures { option_map (λ l. l.0) result
        ≡ open_dest (element_view element.now).0 (option_map (λ l. l.0) dest) }
{
    if is_open(element) { dest } else { None }
}

/// Returns the name of a destination's anchor, unless it is empty.
pub(crate) fn name_of(known: &HtmlIntrospector, dest: Option<Location>) -> Option<&String>
    ensures { option_map (λ name. text_view name.now) result
        ≡ name_of (introspector_view known.now).anchor (option_map (λ l. l.0) dest) }
{
    let name = known.anchor(dest?)?;
    if name.is_empty() { None } else { Some(name) }
}

/// Prepends a new `href`, if there is one.
#[tactic(auto, unfolding(html_names_core::specs::Tables::known_attrs))]
fn attrs_with_href(href: Option<String>, mut attrs: HtmlAttrs) -> Result<HtmlAttrs, AllocError>
    ensures { IfOk result (λ made.
        attrs_view made ≡ attrs_with_href (option_map text_view href) (attrs_view attrs)) }
{
    if let Some(href) = href {
        attrs.push_front(attr::href, href)?;
    }
    Ok(attrs)
}

// The node comes first among the parameters: its depth proves that the recursion ends.

#[cycle(link)]
fn element_with_links(
    element: HtmlElement,
    alloc: Global,
    targets: LinkTargets<'_>,
    dest: Option<Location>,
) -> Result<HtmlElement, AllocError>
    ensures { IfOk result (λ made. let e = element_view element in let m = element_view made in
        element_node m.0 m.1 ≡ node_with_links (hrefs_view targets.entry) (option_map (λ l. l.0) dest)
        (element_node e.0 e.1)) }
{
    let href = targets.href(alloc, open_dest(&element, dest))?;
    Ok(HtmlElement {
        attrs: attrs_with_href(href, element.attrs)?,
        children: nodes_with_links(element.children, alloc, targets)?,
        ..element
    })
}

#[cycle(link)]
#[tactic(auto, unfolding(crate::specs::Links::node_with_links))]
fn node_with_links(
    child: HtmlNode,
    alloc: Global,
    targets: LinkTargets<'_>,
    dest: Option<Location>,
) -> Result<HtmlNode, AllocError>
    ensures { IfOk result (λ made. node_view made
        ≡ node_with_links (hrefs_view targets.entry) (option_map (λ l. l.0) dest) (node_view child)) }
{
    match child {
        HtmlNode::Element(element) => {
            let linked = element_with_links(element, alloc, targets, dest)?;
            Ok(HtmlNode::Element(linked))
        }
        HtmlNode::Tag(_) | HtmlNode::Text(_, _) | HtmlNode::Frame(_) => Ok(child),
    }
}

#[cycle(link)]
pub(crate) fn nodes_with_links(
    mut nodes: Vec<HtmlNode>,
    alloc: Global,
    targets: LinkTargets<'_>,
) -> Result<Vec<HtmlNode>, AllocError>
    ensures { IfOk result (λ made.
        nodes_view made.items ≡ nodes_with_links (hrefs_view targets.entry) [] (nodes_view nodes.items)) }
{
    let mut made = Vec::with_capacity(alloc, nodes.len())?;
    let mut dest = None;
    nodes.reverse();
    while let Some(child) = nodes.pop() {
        give_back(&mut nodes);
        let past = dest_past(dest, &child);
        made.push(node_with_links(child, alloc, targets, dest)?)?;
        dest = past;
    }
    Ok(made)
}
