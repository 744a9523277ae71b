//! The creation of anchors for a set of locations, in a document that is copied or consumed.

ghost use Rattle.std.specs.Prelude.{◌≡◌, IfOk, OnErr};
ghost use Rattle.html_dom_tree.specs.Views.{nodes_view};
ghost use Rattle.html_dom_document.specs.{Introspectors.{has_location, location_text}, Views.{document_view}};
ghost use Rattle.html_anchors.specs.{AnchorWalk.{at_first, walk}, MadeDocuments.{HasNewAnchors}, NumberedNames.{IsBounded}};
ghost use Rattle.html_anchors.specs.WalkViews.{state_view, targets_view};
ghost use Rattle.html_links.specs.UsedNames.{used_in};

use crate::elements::anchor_nodes;
use crate::names::{AnchorNames, element_names};
use crate::root_children::{put_children, take_children};
use crate::sought::Sought;
use crate::state::AnchorState;
use html_dom_document::HtmlDocument;
use html_dom_tree::{HtmlNode, Location};
use std::alloc::{AllocError, Global};
use std::collections::{BTreeMap, BTreeSet};

/// Adds anchors for these locations to the tree of a document, and returns the anchor of each.
///
/// The next element, text or frame after a start tag serves its location, by its `id` or by a new
/// one made from the tag's label, as docs/RULES.md (Anchors) says. Adds a `span` around a text that
/// serves, and an empty `span` at an end tag whose location still waits. A location recorded in a
/// frame gets an anchor at its point for each of its start tags in frames. New names differ from
/// each other and from all in the tree, and each returned name is that of what serves the location
/// in the new tree. If all values of `id` differed, they still do
/// ([`ids_are_distinct`](crate::ids_are_distinct)). Fails only if an allocation fails, and then the
/// document is unchanged.
///
/// Changes a copy, which then takes the document's place. [`with_link_anchors`] consumes a document,
/// and copies nothing.
///
/// ```
/// use std::collections::BTreeSet;
/// use typst_html::{DocumentInfo, HtmlElem, Item, Location, create_link_anchors};
/// use typst_html::{html_document_for_bundle, push_located, tag};
///
/// let alloc = rt.alloc();
/// let (mut items, info) = (Vec::new(alloc), DocumentInfo::new(alloc));
/// let heading = Item::Element(HtmlElem::new(alloc, tag::h2));
/// let label = Some(String::from_str(alloc, "cooling")?);
/// push_located(&mut items, Location(7), label, None, heading)?;
/// let mut document = html_document_for_bundle(alloc, &items, &info, &[], 50)?;
/// let mut targets = BTreeSet::new(alloc);
/// let _ = targets.insert(Location(7))?;
/// let anchors = create_link_anchors(alloc, &mut document, &targets)?;
/// let anchor = anchors.get(&Location(7)).expect(&rt, "an anchor");
/// assert_eq!(rt; anchor.as_str(), "cooling"); // the heading is `<h2 id="cooling">` now
/// ```
pub fn create_link_anchors(
    alloc: Global,
    document: &mut HtmlDocument,
    targets: &BTreeSet<Location>,
) -> Result<BTreeMap<Location, String>, AllocError>
    ensures made { IfOk result (λ anchors. HasNewAnchors (has_location targets.now)
        (document_view document.old) (document_view document.new) (location_text anchors)) }
    ensures kept { OnErr result (document.new ≡ document.old) }
{
    let copy = document.try_clone()?;
    let (made, anchors) = with_link_anchors(alloc, copy, targets)?;
    *document = made;
    Ok(anchors)
}

/// Consumes a document and returns it with anchors for these locations in its tree, as
/// [`create_link_anchors`] makes them, and the anchor of each. Copies no node. Fails only if an
/// allocation fails, and then drops the document.
pub fn with_link_anchors(
    alloc: Global,
    mut document: HtmlDocument,
    targets: &BTreeSet<Location>,
) -> Result<(HtmlDocument, BTreeMap<Location, String>), AllocError>
    ensures { IfOk result (λ made. HasNewAnchors (has_location targets.now)
        (document_view document) (document_view made.0) (location_text made.1)) }
{
    let names = element_names(alloc, document.root())?;
    let children = take_children(alloc, &mut document);
    let sought = Sought {
        targets,
        known: document.introspector(),
    };
    let (children, state) = walk_over(alloc, names, sought, children)?;
    put_children(&mut document, children);
    Ok((document, state.answers))
}

fn walk_over(
    alloc: Global,
    names: AnchorNames,
    sought: Sought<'_>,
    mut nodes: Vec<HtmlNode>,
) -> Result<(Vec<HtmlNode>, AnchorState), AllocError>
    ensures walk { IfOk result (λ made. (nodes_view made.0.items, state_view made.1)
        ≡ walk (targets_view sought.entry) (nodes_view nodes.items)
        (at_first (used_in names.used))) }
    ensures bounded { IfOk result (λ made. IsBounded (state_view made.1).used) }
{
    let mut state = AnchorState::new(alloc, names);
    anchor_nodes(&mut nodes, &mut state, alloc, sought)?;
    state.names.are_bounded();
    Ok((nodes, state))
}
