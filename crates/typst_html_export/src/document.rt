//! Documents made from items.

ghost use Rattle.std.specs.Prelude.{◌≡◌, ◌≤◌, IfOk, map, option_map};
ghost use Rattle.html_anchors.specs.{DistinctIds.{IdsAreDistinct}, GivenLinks.{KnownAnchorsAreShown}, Serving.{KnownAnchorsServe}};
ghost use Rattle.html_dom_tree.specs.{Tree.{none, node}, Views.{element_view, node_view, nodes_view}};
ghost use Rattle.html_dom_document.specs.{Documents.{document_root}, Positions.{PositionsLead}};
ghost use Rattle.html_dom_document.specs.Views.{document_view, info_view, output_view};
ghost use Rattle.typst_html_encode.specs.FaultViews.{spans_view};
ghost use Rattle.html_flow_convert.specs.{Depth.{items_too_deep}, Items.{no_items}, Views.{items_view}};
ghost use Rattle.typst_html_spaces.specs.ReadableNodes.{AreReadable};
ghost use Rattle.typst_html_export.specs.Assembled.{assembled_document, assembled_document_with_head, assembled_output, document_around, document_nodes, html_output, first_own, is_own, own_head, document_outline, shown_count, body_node, both_nodes, assembly_faults, depth_faults, items_document_faults, item_spans, note_faults, outline_faults};
ghost use Rattle.typst_html_export.specs.Assembles.{GivesDocument, FailsByMemoryAlone, Passes};
ghost use Rattle.typst_html_export.specs.Linked.{document_with_anchors, linked_document, linked_document_with_head, AnchorsAreFirstIds};
ghost use Rattle.typst_html_export.specs.{LinkedRoots.{HaveSameAtoms}, Outlines.{outline_view, own_view}};
ghost use Rattle.typst_html_export.specs.{OwnRoots.{have_own_root, is_root}, Roots.{styled_root}};
ghost use Rattle.typst_html_export.specs.SpacesInDocuments.{ArePlainItems, SpacesAreLeft, SpacesAreShown};

use crate::head::{head_node, lang_text};
use html_anchors::with_link_anchors;
use html_dom_document::{DocumentInfo, HtmlDocument, HtmlOutput, is_named_html};
use html_dom_tree::{HtmlElement, HtmlNode, Span, with_inline_styles};
use html_flow_convert::{ConversionLevel, Pair, Whitespace, convert_items, convert_to_nodes};
use html_names_core::{attr, tag};
use std::alloc::{AllocError, Global};
use std::collections::BTreeMap;
use std::mem;
use typst_html_encode::ExportFault;

/// Makes a document from items, information about it and footnotes, with anchors for all locations
/// that links lead to.
///
/// Makes the document of [`html_document_for_bundle`], and then anchors for the targets of start
/// tags and of links in frames, as [`create_link_anchors`] does, if they stand in the tree. The
/// document's introspector knows them: each is the name of what serves its location in the tree.
/// The positions that it knows stay those of the tree without anchors. If all ids of the tree
/// without anchors differ, those of the returned one do. Anchors are invisible: once white space
/// has collapsed, exactly what is visible below the root without anchors is visible with them.
/// Fails as `html_document_for_bundle` does.
///
/// For items in plain flow, without footnotes and none too deep, it fails only if an allocation
/// fails, and once white space has collapsed exactly their text is visible in the document's body.
///
/// ```
/// use typst_html::{DocumentInfo, Item, Location, html_document, push_located};
///
/// let alloc = rt.alloc();
/// let (mut items, place) = (Vec::new(alloc), Location(7));
/// push_located(&mut items, place, None, Some(place), Item::Hole)?; // links to itself
/// let document = html_document(alloc, &items, &DocumentInfo::new(alloc), &[], 50)?;
/// let anchor = document.introspector().anchor(place);
/// let anchor = anchor.expect(&rt, "an anchor");
/// assert_eq!(rt; anchor.as_str(), "loc-1"); // of an empty `span` behind the end tag
/// ```
pub fn html_document(
    alloc: Global,
    items: &[Pair],
    info: &DocumentInfo,
    footnotes: &[Pair],
    limit: usize,
) -> Result<HtmlDocument, ExportFault>
    requires some_limit { 1 ≤ limit }
    requires low_limit { limit ≤ 10000 }
    ensures made { GivesDocument document_view result
        (linked_document (info_view info.now) (items_view items.now) (items_view footnotes.now))
        (items_document_faults limit (items_view items.now) (items_view footnotes.now)) }
    ensures anchors { IfOk result (λ document. AnchorsAreFirstIds (document_view document)) }
    ensures shown { IfOk result (λ document. KnownAnchorsAreShown (document_view document)) }
    ensures serves { IfOk result (λ document. KnownAnchorsServe (document_view document)) }
    ensures unseen { let assembled = assembled_document (info_view info.now)
        (items_view items.now) (items_view footnotes.now) in IfOk result (λ document.
        HaveSameAtoms (document_root (document_view document)) (document_root assembled)) }
    ensures distinct { IdsAreDistinct (assembled_document (info_view info.now)
        (items_view items.now) (items_view footnotes.now)) →
        IfOk result (λ document. IdsAreDistinct (document_view document)) }
    // Items in plain flow, without footnotes and none too deep, become a document unless an
    // allocation fails, and in its text exactly theirs is visible.
    ensures plain { ArePlainItems limit (items_view items.now) (items_view footnotes.now) →
        FailsByMemoryAlone result }
    ensures spaces { IfOk result (λ document. SpacesAreLeft (document_view document)
        (items_view items.now) (items_view footnotes.now)) }
{
    html_document_with_head(alloc, items, info, &[], footnotes, limit)
}

/// Makes a document from items like [`html_document`], with nodes of your own in its head: a
/// stylesheet, an icon, `meta`.
///
/// Copies them to the end of the head that is made, after what comes from the information. There
/// they are nodes of the document like all others: their css becomes `style`, positions lead to
/// them, targets among them get anchors, and no other anchor gets one of their ids.
///
/// If the items have a root of their own ([`has_own_root`]), its head is theirs too: the document
/// is that of `html_document`, whose tree has neither the information nor these nodes. Without such
/// nodes it is always that (`laws::own_heads`). Fails as `html_document` does, whatever the nodes
/// are.
///
/// ```
/// use typst_html::{DocumentInfo, HtmlElement, HtmlNode, HtmlOptions, attr, tag};
/// use typst_html::{html, html_document_with_head};
///
/// let alloc = rt.alloc();
/// let style = HtmlElement::new(alloc, tag::link)
///     .with_attr(attr::rel, String::from_str(alloc, "stylesheet")?)?
///     .with_attr(attr::href, String::from_str(alloc, "site.css")?)?;
/// let own = vec![in alloc; HtmlNode::Element(style)]?;
/// let info = DocumentInfo::new(alloc);
/// let document = html_document_with_head(alloc, &[], &info, &own, &[], 50)?;
/// let text = html(alloc, &document, &HtmlOptions::default(), &())?;
/// let end = r#"<link rel="stylesheet" href="site.css"></head><body></body></html>"#;
/// assert!(rt; text.as_str().ends_with(end));
/// ```
pub fn html_document_with_head(
    alloc: Global,
    items: &[Pair],
    info: &DocumentInfo,
    head: &[HtmlNode],
    footnotes: &[Pair],
    limit: usize,
) -> Result<HtmlDocument, ExportFault>
    requires some_limit { 1 ≤ limit }
    requires low_limit { limit ≤ 10000 }
    ensures made { GivesDocument document_view result
        (linked_document_with_head (info_view info.now) (map node_view head.now)
        (items_view items.now) (items_view footnotes.now))
        (items_document_faults limit (items_view items.now) (items_view footnotes.now)) }
    ensures anchors { IfOk result (λ document. AnchorsAreFirstIds (document_view document)) }
    ensures shown { IfOk result (λ document. KnownAnchorsAreShown (document_view document)) }
    ensures serves { IfOk result (λ document. KnownAnchorsServe (document_view document)) }
    ensures unseen { let assembled = assembled_document_with_head (info_view info.now)
        (map node_view head.now) (items_view items.now) (items_view footnotes.now) in
        IfOk result (λ document.
        HaveSameAtoms (document_root (document_view document)) (document_root assembled)) }
    ensures distinct { IdsAreDistinct (assembled_document_with_head (info_view info.now)
        (map node_view head.now) (items_view items.now) (items_view footnotes.now)) →
        IfOk result (λ document. IdsAreDistinct (document_view document)) }
    // Items in plain flow, without footnotes and none too deep, become a document unless an
    // allocation fails. Exactly their text is visible in its body, whatever is in the head, and in
    // its text if no node of the head is raw or a frame.
    ensures plain { ArePlainItems limit (items_view items.now) (items_view footnotes.now) →
        FailsByMemoryAlone result }
    ensures visible { IfOk result (λ document. SpacesAreShown (document_view document)
        (items_view items.now) (items_view footnotes.now)) }
    ensures spaces { AreReadable (nodes_view head.now) →
        IfOk result (λ document. SpacesAreLeft (document_view document)
        (items_view items.now) (items_view footnotes.now)) }
{
    let document = document_without_anchors(alloc, items, info, head, footnotes, limit)?;
    Ok(with_anchors(alloc, document)?)
}

/// Adds anchors for the locations that links lead to. Does not look at the tree if there are none.
fn with_anchors(alloc: Global, mut document: HtmlDocument) -> Result<HtmlDocument, AllocError>
    ensures made { IfOk result (λ made.
        document_view made ≡ document_with_anchors (document_view document)) }
    ensures distinct { IdsAreDistinct (document_view document) →
        IfOk result (λ made. IdsAreDistinct (document_view made)) }
{
    let targets = document.introspector().link_targets()?;
    if targets.is_empty() {
        document
            .introspector_mut()
            .set_anchors(BTreeMap::new(alloc));
        return Ok(document);
    }
    let (mut made, anchors) = with_link_anchors(alloc, document, &targets)?;
    made.introspector_mut().set_anchors(anchors);
    Ok(made)
}

/// Makes a document from items, information about it and footnotes, without anchors.
///
/// Converts items and footnotes like [`convert_to_nodes`] at block level, the items at depth 0, the
/// footnotes at depth 1. An `html` alone, tags aside, is the root as it is; a `body` alone stays
/// the body; otherwise a new `body` holds the nodes and then those of the footnotes. A new root has
/// the language and a head with the information. Finally writes the css of all elements into their
/// attributes `style`.
///
/// Fails if an allocation fails, or with the first of these: items too deep for the limit, which is
/// from 1 to 10,000 (`is_depth_limit`); an `html` or `body` among other nodes; footnotes beside an
/// `html` or `body` of the document's own; footnotes too deep.
///
/// Positions lead to the elements that hold the tags, as [`HtmlDocument::new`] says. For items in
/// plain flow, without footnotes, exactly their text is visible in the body once white space has
/// collapsed.
///
/// ```
/// use typst_html::{DocumentInfo, HtmlElem, Item, Pair, html_document_for_bundle, tag};
///
/// let alloc = rt.alloc();
/// let paragraph = HtmlElem::new(alloc, tag::p);
/// let items = vec![in alloc; Pair::from(Item::Element(paragraph))]?;
/// let info = DocumentInfo::new(alloc);
/// let document = html_document_for_bundle(alloc, &items, &info, &[], 50)?;
/// assert!(rt; document.root().tag == tag::html);
/// assert_eq!(rt; document.root().children.len(), 2); // a head, and a body with the paragraph
/// ```
pub fn html_document_for_bundle(
    alloc: Global,
    items: &[Pair],
    info: &DocumentInfo,
    footnotes: &[Pair],
    limit: usize,
) -> Result<HtmlDocument, ExportFault>
    requires some_limit { 1 ≤ limit }
    requires low_limit { limit ≤ 10000 }
    ensures made { GivesDocument document_view result
        (assembled_document (info_view info.now) (items_view items.now) (items_view footnotes.now))
        (items_document_faults limit (items_view items.now) (items_view footnotes.now)) }
    ensures leads { IfOk result (λ document. PositionsLead (document_view document)) }
    // If items are in plain flow, without footnotes, exactly their text is visible.
    ensures spaces { IfOk result (λ document. SpacesAreLeft (document_view document)
        (items_view items.now) (items_view footnotes.now)) }
{
    document_without_anchors(alloc, items, info, &[], footnotes, limit)
}

/// Makes the document of items, with nodes of its head, without anchors.
fn document_without_anchors(
    alloc: Global,
    items: &[Pair],
    info: &DocumentInfo,
    head: &[HtmlNode],
    footnotes: &[Pair],
    limit: usize,
) -> Result<HtmlDocument, ExportFault>
    requires some_limit { 1 ≤ limit }
    requires low_limit { limit ≤ 10000 }
    ensures made { GivesDocument document_view result
        (assembled_document_with_head (info_view info.now) (map node_view head.now)
        (items_view items.now) (items_view footnotes.now))
        (items_document_faults limit (items_view items.now) (items_view footnotes.now)) }
    ensures leads { IfOk result (λ document. PositionsLead (document_view document)) }
{
    let content = converted(alloc, items, 0, limit)?;
    document_around(alloc, content, info, head, footnotes, limit)
}

/// Returns whether the items have their own root: an `html` alone among their nodes, tags aside.
///
/// Their documents then have that root as it is, so that neither the information nor nodes for the
/// head are in the tree; no call refuses that. This call checks it, at the cost of making and
/// dropping the items' nodes. Fails if an allocation fails, or with the first fault of making the
/// document without footnotes.
/// document without footnotes.
///
/// ```
/// use typst_html::{HtmlElem, Item, Pair, has_own_root, tag};
///
/// let alloc = rt.alloc();
/// let own = Item::Element(HtmlElem::new(alloc, tag::html));
/// let items = vec![in alloc; Pair::from(own)]?;
/// assert!(rt; has_own_root(alloc, &items, 50)?);
/// assert!(rt; !has_own_root(alloc, &[], 50)?);
/// ```
pub fn has_own_root(alloc: Global, items: &[Pair], limit: usize) -> Result<bool, ExportFault>
    requires some_limit { 1 ≤ limit }
    requires low_limit { limit ≤ 10000 }
    ensures { GivesDocument (λ own. own) result (have_own_root (items_view items.now))
        (items_document_faults limit (items_view items.now) no_items) }
{
    let nodes = converted(alloc, items, 0, limit)?;
    have_root(&nodes)
}

fn have_root(nodes: &[HtmlNode]) -> Result<bool, ExportFault>
    ensures { GivesDocument (λ own. own) result (is_root (document_outline (nodes_view nodes.now)))
        (outline_faults (document_outline (nodes_view nodes.now)) no_items) }
{
    match document_outline(nodes)? {
        Outline::OwnHtml(_) => Ok(true),
        Outline::OwnBody | Outline::NothingOwn => Ok(false),
    }
}

/// Makes a document like [`html_document`], but moves the items' texts, attributes and css.
pub(crate) fn document_of_items(
    alloc: Global,
    items: Vec<Pair>,
    info: &DocumentInfo,
    footnotes: &[Pair],
    limit: usize,
) -> Result<HtmlDocument, ExportFault>
    requires some_limit { 1 ≤ limit }
    requires low_limit { limit ≤ 10000 }
    ensures { GivesDocument document_view result
        (linked_document (info_view info.now) (items_view items.items) (items_view footnotes.now))
        (items_document_faults limit (items_view items.items) (items_view footnotes.now)) }
{
    let content = moved(alloc, items, limit)?;
    let document = document_around(alloc, content, info, &[], footnotes, limit)?;
    Ok(with_anchors(alloc, document)?)
}

/// Makes the document around the nodes of its items, with nodes of its head, without anchors.
fn document_around(
    alloc: Global,
    content: Vec<HtmlNode>,
    info: &DocumentInfo,
    head: &[HtmlNode],
    footnotes: &[Pair],
    limit: usize,
) -> Result<HtmlDocument, ExportFault>
    requires some_limit { 1 ≤ limit }
    requires low_limit { limit ≤ 10000 }
    ensures made { GivesDocument document_view result
        (document_around (info_view info.now) (map node_view head.now)
        (nodes_view content.items) (items_view footnotes.now))
        (assembly_faults limit (nodes_view content.items) (items_view footnotes.now)) }
    ensures leads { IfOk result (λ document. PositionsLead (document_view document)) }
{
    let output = assembled(alloc, content, info, head, footnotes, limit)?;
    let output = styled(alloc, output)?;
    Ok(HtmlDocument::new(alloc, output, info.try_clone()?)?)
}

/// Converts a document's items, which move into the nodes.
fn moved(alloc: Global, items: Vec<Pair>, limit: usize) -> Result<Vec<HtmlNode>, ExportFault>
    requires some_limit { 1 ≤ limit }
    requires low_limit { limit ≤ 10000 }
    ensures { GivesDocument (λ made. nodes_view made.items) result
        (document_nodes (items_view items.items))
        (depth_faults (items_too_deep 0 limit (items_view items.items))) }
{
    let (level, whitespace) = (ConversionLevel::Block, Whitespace::Normal);
    let nodes = convert_items(alloc, items, level, whitespace, None, 0, limit)?;
    Ok(nodes)
}

fn converted(
    alloc: Global,
    items: &[Pair],
    depth: usize,
    limit: usize,
) -> Result<Vec<HtmlNode>, ExportFault>
    requires within { depth ≤ limit }
    requires some_limit { 1 ≤ limit }
    requires low_limit { limit ≤ 10000 }
    ensures { GivesDocument (λ made. nodes_view made.items) result
        (document_nodes (items_view items.now))
        (depth_faults (items_too_deep depth limit (items_view items.now))) }
{
    let (level, whitespace) = (ConversionLevel::Block, Whitespace::Normal);
    let nodes = convert_to_nodes(alloc, items, level, whitespace, None, depth, limit)?;
    Ok(nodes)
}

fn assembled(
    alloc: Global,
    content: Vec<HtmlNode>,
    info: &DocumentInfo,
    head: &[HtmlNode],
    footnotes: &[Pair],
    limit: usize,
) -> Result<HtmlOutput, ExportFault>
    requires some_limit { 1 ≤ limit }
    requires low_limit { limit ≤ 10000 }
    ensures { GivesDocument output_view result
        (assembled_output (info_view info.now) (map node_view head.now)
        (nodes_view content.items) (document_nodes (items_view footnotes.now)))
        (assembly_faults limit (nodes_view content.items) (items_view footnotes.now)) }
{
    match document_outline(&content)? {
        Outline::OwnHtml(place) => {
            refuse_footnotes(alloc, footnotes)?;
            Ok(HtmlOutput::new(content, place))
        }
        Outline::OwnBody => {
            refuse_footnotes(alloc, footnotes)?;
            Ok(html_output(alloc, info, head, content)?)
        }
        Outline::NothingOwn => {
            let notes = converted(alloc, footnotes, 1, limit)?;
            let body = body_nodes(alloc, both_nodes(content, notes)?)?;
            Ok(html_output(alloc, info, head, body)?)
        }
    }
}

/// What a document has of its own.
#[derive(Clone, Copy)]
enum Outline {
    /// Its root, at that index among the nodes.
    OwnHtml(usize),
    OwnBody,
    NothingOwn,
}

/// Returns what these nodes have of their own, and refuses an `html` or `body` among others.
fn document_outline(nodes: &[HtmlNode]) -> Result<Outline, ExportFault>
    ensures { GivesDocument outline_view result (document_outline (nodes_view nodes.now))
        (outline_faults (document_outline (nodes_view nodes.now)) no_items) }
{
    let Some((place, element)) = first_own(nodes) else {
        return Ok(Outline::NothingOwn);
    };
    if shown_count(nodes) != 1 {
        return Err(ExportFault::NotAlone {
            tag: element.tag.try_clone()?,
            span: element.span,
        });
    }
    if is_named_html(element) {
        Ok(Outline::OwnHtml(place))
    } else {
        Ok(Outline::OwnBody)
    }
}

/// Returns the first `html` or `body`, and its index.
fn first_own(nodes: &[HtmlNode]) -> Option<(usize, &HtmlElement)>
    ensures { option_map own_view result ≡ first_own (nodes_view nodes.now) }
{
    for (place, node) in nodes.iter().enumerate() {
        if let Some(element) = own_element(node) {
            return Some((place, element));
        }
    }
    None
}

fn own_element(node: &HtmlNode) -> Option<&HtmlElement>
    ensures { option_map (λ element. (element_view element.now).0) result
        ≡ own_head (node_view node.now) }
{
    match node {
        HtmlNode::Element(element) if is_own(element) => Some(element),
        _ => None,
    }
}

#[tactic(auto, unfolding(html_names_core::specs::Tables::known_tags))]
fn is_own(element: &HtmlElement) -> bool
    ensures { result ≡ is_own (element_view element.now).0 }
{
    is_named_html(element) || element.tag == tag::body
}

/// Returns the number of nodes other than tags.
fn shown_count(nodes: &[HtmlNode]) -> usize
    ensures { result ≡ shown_count (nodes_view nodes.now) }
{
    let mut count = 0;
    for node in nodes {
        if !node.is_tag() {
            count += 1;
        }
    }
    count
}

fn refuse_footnotes(alloc: Global, footnotes: &[Pair]) -> Result<(), ExportFault>
    ensures { Passes result (note_faults (item_spans (items_view footnotes.now))) }
{
    if footnotes.is_empty() {
        return Ok(());
    }
    Err(ExportFault::Footnotes {
        spans: item_spans(alloc, footnotes)?,
    })
}

fn item_spans(alloc: Global, items: &[Pair]) -> Result<Vec<Span>, AllocError>
    ensures { IfOk result (λ spans. spans_view spans.items ≡ item_spans (items_view items.now)) }
{
    let mut spans = Vec::new(alloc);
    for pair in items {
        spans.push(pair.item.span())?;
    }
    Ok(spans)
}

fn both_nodes(
    mut content: Vec<HtmlNode>,
    mut notes: Vec<HtmlNode>,
) -> Result<Vec<HtmlNode>, AllocError>
    ensures { IfOk result (λ both. nodes_view both.items
        ≡ both_nodes (nodes_view content.items) (nodes_view notes.items)) }
{
    content.append(&mut notes)?;
    Ok(content)
}

#[tactic(auto, unfolding(html_names_core::specs::Tables::known_tags))]
fn body_nodes(alloc: Global, content: Vec<HtmlNode>) -> Result<Vec<HtmlNode>, AllocError>
    ensures { IfOk result (λ made.
        nodes_view made.items ≡ node (body_node (nodes_view content.items)) none) }
{
    let body = HtmlElement::new(alloc, tag::body).with_children(content);
    let mut made = Vec::new(alloc);
    made.push(HtmlNode::Element(body))?;
    Ok(made)
}

#[tactic(auto, unfolding(html_names_core::specs::Tables::known_tags, html_names_core::specs::Tables::known_attrs))]
fn html_output(
    alloc: Global,
    info: &DocumentInfo,
    head: &[HtmlNode],
    mut content: Vec<HtmlNode>,
) -> Result<HtmlOutput, AllocError>
    ensures { IfOk result (λ output. output_view output ≡ html_output
        (info_view info.now) (map node_view head.now) (nodes_view content.items)) }
{
    let mut children = vec![in alloc; head_node(alloc, info, head)?]?;
    children.append(&mut content)?;
    let html = HtmlElement::new(alloc, tag::html)
        .with_attr(attr::lang, lang_text(alloc, &info.locale)?)?
        .with_children(children);
    let nodes = vec![in alloc; HtmlNode::Element(html)]?;
    Ok(HtmlOutput::new(nodes, 0))
}

/// Writes the css of each element of the root into its attribute `style`.
fn styled(alloc: Global, mut output: HtmlOutput) -> Result<HtmlOutput, AllocError>
    ensures { IfOk result (λ made. output_view made ≡ styled_root (output_view output)) }
{
    let root = output.root_mut();
    let bare = mem::replace(root, HtmlElement::new(alloc, tag::html));
    *root = with_inline_styles(alloc, bare)?;
    Ok(output)
}
