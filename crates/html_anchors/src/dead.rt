//! Links that lead nowhere.

ghost use Rattle.std.specs.Prelude.{◌≡◌, ◌++◌, [], option_map, IfOk, OnOk};
ghost use Rattle.html_dom_tree.specs.Views.{element_view, nodes_view, text_view};
ghost use Rattle.html_dom_document.specs.Views.{document_view};
ghost use Rattle.html_anchors.specs.{DeadLinks.{dead_links_view, event_dead_links, event_dest}, FoundAnchors.{EveryLinkLeads, document_dead_links, is_found}};
ghost use Rattle.html_anchors.specs.{LinkTargets.{live_hrefs_view}, Links.{dead_link, href_of, nodes_dead_links}};
ghost use Rattle.html_dom_walk.specs.Walks.{event_of};
ghost use Rattle.html_links.specs.UsedNames.{used_in};

use crate::links::{LinkTargets, name_of, open_dest, tag_dest};
use html_dom_document::HtmlDocument;
use html_dom_tree::{HtmlElement, HtmlNode, Location, Span};
use html_dom_walk::{Visit, Walk};
use html_links::{all_place_names, base_is_elsewhere, is_used, leading_href, place_names};
use std::alloc::{AllocError, Global};
use std::collections::BTreeSet;

/// A link of a document that leads nowhere.
#[derive(Clone, Copy, Debug, PartialEq, Eq, Hash)]
pub struct DeadLink {
    /// The place of the link in the source.
    pub span: Span,
    /// The location that it should lead to.
    pub dest: Location,
}

/// Returns the links of a document that have no `href` and will lead nowhere in a browser, in
/// document order:
///
/// - their destination has no anchor or an empty one, or other places have both encodings of its
///   name as their names: [`resolve_links`](crate::resolve_links) leaves exactly these as they are;
/// - that anchor stands in a `template` alone, where a browser finds no place (HTML Standard
///   4.12.3);
/// - all of them, if a `base` leads fragments elsewhere ([`base_of`](html_links::base_of)).
///
/// If there are none, each link after a start tag with a destination leads once links are
/// resolved. Look before they are: a link that has an `href` is none of these. Fails only if an
/// allocation fails.
///
/// ```
/// use typst_html::{DocumentInfo, HtmlElem, Item, Location, Span};
/// use typst_html::{dead_links, html_document, push_located, tag};
///
/// let alloc = rt.alloc();
/// let (mut items, info) = (Vec::new(alloc), DocumentInfo::new(alloc));
/// let link = Item::Element(HtmlElem::new(alloc, tag::a).spanned(Span(12)));
/// push_located(&mut items, Location(1), None, Some(Location(9)), link)?; // nothing starts 9
/// let document = html_document(alloc, &items, &info, &[], 50)?;
/// let dead = dead_links(alloc, &document)?;
/// assert_eq!(rt; dead.len(), 1);
/// for link in &dead {
///     assert!(rt; link.span == Span(12) && link.dest == Location(9));
/// }
/// ```
pub fn dead_links(alloc: Global, document: &HtmlDocument) -> Result<Vec<DeadLink>, AllocError>
    ensures dead { IfOk result (λ links.
        dead_links_view links.items ≡ document_dead_links (document_view document.now)) }
    ensures leads { IfOk result (λ links.
        links.items ≡ [] → EveryLinkLeads (document_view document.now)) }
{
    let places = all_place_names(alloc, document.root())?;
    let names = found_names(alloc, document.root())?;
    let found = FoundTargets {
        targets: LinkTargets {
            known: document.introspector(),
            places: &places,
        },
        names: &names,
    };
    let mut dead = Vec::new(alloc);
    add_nodes(&document.root().children, alloc, found, &mut dead)?;
    Ok(dead)
}

/// The targets of links, and the names of those that a browser finds.
#[derive(Clone, Copy)]
pub(crate) struct FoundTargets<'a> {
    pub(crate) targets: LinkTargets<'a>,
    pub(crate) names: &'a BTreeSet<String>,
}

impl FoundTargets<'_> {
    fn href(self, alloc: Global, dest: Option<Location>) -> Result<Option<String>, AllocError>
        ensures { IfOk result (λ href. option_map text_view href
            ≡ href_of (live_hrefs_view self.entry) (option_map (λ l. l.0) dest)) }
    {
        match name_of(self.targets.known, dest) {
            Some(name) if is_used(self.names, name) => {
                leading_href(alloc, self.targets.places, name.as_str())
            }
            _ => Ok(None),
        }
    }
}

/// Returns the names of the places that a browser finds from links to fragments: none if a `base`
/// leads them away, and none of a `template`.
fn found_names(alloc: Global, root: &HtmlElement) -> Result<BTreeSet<String>, AllocError>
    ensures { IfOk result (λ names. used_in names ≡ is_found (element_view root.now)) }
{
    if base_is_elsewhere(root) {
        Ok(BTreeSet::new(alloc))
    } else {
        place_names(alloc, root)
    }
}

fn add_link(
    alloc: Global,
    found: FoundTargets<'_>,
    dest: Option<Location>,
    span: Span,
    dead: &mut Vec<DeadLink>,
) -> Result<(), AllocError>
    ensures { OnOk result (dead_links_view dead.new.items ≡ dead_links_view dead.old.items
        ++ dead_link (live_hrefs_view found.entry) (option_map (λ l. l.0) dest) span.0) }
{
    let Some(there) = dest else {
        return Ok(());
    };
    if found.href(alloc, dest)?.is_none() {
        dead.push(DeadLink { span, dest: there })?;
    }
    Ok(())
}

/// Appends the link of an element that is entered, if it is dead after tags with that destination.
/// Returns the destination that counts right after the visit.
fn add_visited(
    visit: Visit<'_>,
    alloc: Global,
    found: FoundTargets<'_>,
    dest: Option<Location>,
    dead: &mut Vec<DeadLink>,
) -> Result<Option<Location>, AllocError>
    ensures dead { OnOk result (dead_links_view dead.new.items ≡ dead_links_view dead.old.items
        ++ event_dead_links (live_hrefs_view found.entry) (option_map (λ l. l.0) dest)
        (event_of visit.entry)) }
    ensures dest { IfOk result (λ later. option_map (λ l. l.0) later
        ≡ event_dest (event_of visit.entry) (option_map (λ l. l.0) dest)) }
{
    match visit {
        Visit::Tag(tag) => return Ok(tag_dest(tag, dest)),
        Visit::Enter(element) => {
            add_link(alloc, found, open_dest(element, dest), element.span, dead)?;
        }
        Visit::Text(_, _) | Visit::Frame(_) | Visit::Leave => {}
    }
    Ok(None)
}

/// Appends the dead links of nodes, in document order.
fn add_nodes(
    nodes: &[HtmlNode],
    alloc: Global,
    found: FoundTargets<'_>,
    dead: &mut Vec<DeadLink>,
) -> Result<(), AllocError>
    ensures { OnOk result (dead_links_view dead.new.items ≡ dead_links_view dead.old.items
        ++ nodes_dead_links (live_hrefs_view found.entry) [] (nodes_view nodes.now)) }
{
    let mut dest = None;
    let mut walk = Walk::over(alloc, nodes);
    while let Some(visit) = walk.next()? {
        dest = add_visited(visit, alloc, found, dest, dead)?;
    }
    Ok(())
}
