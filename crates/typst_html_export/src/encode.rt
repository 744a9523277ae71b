//! Writing documents.

ghost use Rattle.std.specs.Prelude.{◌≡◌, ◌≤◌, true, false, Some, IfErr, IfOk, OnOk, map};
ghost use Rattle.html_dom_tree.specs.{FrameFree.{ElementIsFrameFree}, PlainTree.{element_normal}};
ghost use Rattle.html_dom_tree.specs.Views.{text_view, element_view, node_view, nodes_view};
ghost use Rattle.html_dom_document.specs.{Documents.{document_root}, Views.{document_view, info_view}};
ghost use Rattle.typst_html_encode.specs.{Endings.{Gives}, ExportFaults.{document_faults}, FaultViews.{IsFirstView}, HtmlTexts.{IsHtmlOf}};
ghost use Rattle.typst_html_encode.specs.{Indented.{element_layout, ElementEndsWell}, Reader.{read}, Text.{document_text}};
ghost use Rattle.html_anchors.specs.{DistinctIds.{GivenLinksLeadToOne, IdsAreDistinct}, FoundAnchors.{LiveLinksLead}};
ghost use Rattle.html_anchors.specs.{GivenLinks.{AnchorsAreTexts, GivenLinksLead, links_without}, Links.{document_links_left}};
ghost use Rattle.html_flow_convert.specs.Views.{items_view};
ghost use Rattle.typst_html_spaces.specs.CleanItems.{are_clean_items};
ghost use Rattle.typst_html_export.specs.{Assembled.{assembled_document}, Assembles.{GivesDocument, FailsByMemoryAlone}};
ghost use Rattle.typst_html_export.specs.CleanInfo.{is_clean_info};
ghost use Rattle.typst_html_export.specs.Exported.{export_faults, export_faults_with_head, export_linked_faults, export_linked_text, export_text, export_text_with_head, linked_root, linked_root_with_head, resolved_document, resolved_root, root_faults};
ghost use Rattle.typst_html_export.specs.{HeadNodes.{HeadIsClean, HeadIsReadable}, Linked.{linked_document}};
ghost use Rattle.typst_html_export.specs.ReadLinks.{GivenLinksLeadWhenRead, DocumentIsReadable};
ghost use Rattle.typst_html_export.specs.SpacesInDocuments.{ArePlainItems, SpacesAreSeen};

use crate::document::{document_of_items, html_document, html_document_with_head};
use html_anchors::document_with_links;
use html_dom_document::{DocumentInfo, HtmlDocument};
use html_dom_tree::{HtmlElement, HtmlNode};
use html_flow_convert::Pair;
use html_names_core::tag;
use std::alloc::Global;
use std::mem;
use typst_html_encode::{ExportFault, FrameWriter, HtmlOptions, html_in_bundle, html_of};

/// Returns the HTML text of a document: that of its root, as [`html_in_bundle`] writes it.
///
/// Succeeds exactly if nothing is wrong with the root, and otherwise fails with the first fault; an
/// allocation may fail before either. [`html_in_bundle`] says what the text reads as.
///
/// ```
/// use typst_html::{DocumentInfo, HtmlElem, HtmlOptions, Item, Pair};
/// use typst_html::{html, html_document, tag};
///
/// let alloc = rt.alloc();
/// let own = Item::Element(HtmlElem::new(alloc, tag::html));
/// let items = vec![in alloc; Pair::from(own)]?;
/// let document = html_document(alloc, &items, &DocumentInfo::new(alloc), &[], 50)?;
/// let text = html(alloc, &document, &HtmlOptions { pretty: true }, &())?;
/// assert_eq!(rt; text.as_str(), "<!DOCTYPE html>\n<html></html>\n");
/// ```
pub fn html<F: FrameWriter>(
    alloc: Global,
    document: &HtmlDocument,
    options: &HtmlOptions,
    frames: &F,
) -> Result<String, ExportFault>
    // The text, or the first fault.
    ensures makes { Gives result
        (document_text (F.drawing frames.now) options.now (document_root (document_view document.now)))
        (document_faults (F.drawing frames.now) options.now
        (document_root (document_view document.now))) }

    // What the text of a root without frames reads as.
    ensures reads_back { let root = document_root (document_view document.now) in
        options.now.pretty ≡ false → ElementIsFrameFree root →
        IfOk result (λ text. read (text_view text) ≡ Some (element_normal root)) }
    ensures reads_indented { let root = document_root (document_view document.now) in
        options.now.pretty ≡ true → ElementIsFrameFree root → ElementEndsWell true root →
        IfOk result (λ text. read (text_view text) ≡ Some (element_normal (element_layout root))) }
{
    html_in_bundle(alloc, document.root(), options, frames)
}

/// Returns the HTML text of items, with information about their document and with footnotes: that
/// of their document with anchors.
///
/// [`html_document`] makes the document, and [`html`] writes it. `limit` is from 1 to 10,000. Fails
/// if an allocation fails, or with the first fault of making the document or, if there is none, of
/// writing its tree.
///
/// For items in plain flow, without footnotes and none too deep, the document is always made unless
/// an allocation fails, and once white space has collapsed exactly their text is visible in the
/// body that is read. If, further, all texts, values, roles and labels, and the texts of `info`,
/// have only text characters, and no void element has a body, there is no fault.
///
/// ```
/// use typst_html::{DocumentInfo, HtmlOptions, Item, Pair, Span, export};
///
/// let alloc = rt.alloc();
/// let text = Item::Text(String::from_str(alloc, "High water")?, Span(1));
/// let items = vec![in alloc; Pair::from(text)]?;
/// let mut info = DocumentInfo::new(alloc);
/// info.title = Some(String::from_str(alloc, "Tides")?);
/// let options = HtmlOptions { pretty: true };
/// let html = export(alloc, &items, &info, &[], 50, &options, &())?;
/// assert!(rt; html.as_str().contains("\n    <title>Tides</title>\n"));
/// assert!(rt; html.as_str().contains("<body>High water</body>"));
/// ```
pub fn export<F: FrameWriter>(
    alloc: Global,
    items: &[Pair],
    info: &DocumentInfo,
    footnotes: &[Pair],
    limit: usize,
    options: &HtmlOptions,
    frames: &F,
) -> Result<String, ExportFault>
    requires some_limit { 1 ≤ limit }
    requires low_limit { limit ≤ 10000 }
    ensures makes { GivesDocument text_view result
        (export_text (F.drawing frames.now) options.now
        (info_view info.now) (items_view items.now) (items_view footnotes.now))
        (export_faults limit (F.drawing frames.now) options.now
        (info_view info.now) (items_view items.now) (items_view footnotes.now)) }

    // If no allocation fails, items in plain flow are refused only for faults of their document's
    // tree, and clean ones with clean information are not refused. Once white space has collapsed,
    // exactly their text is visible.
    ensures plain { ArePlainItems limit (items_view items.now) (items_view footnotes.now) →
        IfErr result (λ e. IsFirstView e (root_faults (F.drawing frames.now) options.now (linked_root
        (info_view info.now) (items_view items.now) (items_view footnotes.now)))) }
    ensures clean { ArePlainItems limit (items_view items.now) (items_view footnotes.now) →
        are_clean_items (items_view items.now) ≡ true → is_clean_info (info_view info.now) ≡ true →
        FailsByMemoryAlone result }
    ensures spaces { IfOk result (λ text. SpacesAreSeen (text_view text)
        (items_view items.now) (items_view footnotes.now)) }
{
    export_with_head(alloc, items, info, &[], footnotes, limit, options, frames)
}

/// Returns the HTML text of items like [`export`], with nodes of your own in its head: a
/// stylesheet, an icon, `meta`.
///
/// [`html_document_with_head`] makes the document, and [`html`] writes it. Fails as `export` does,
/// and for faults of writing in these nodes too.
///
/// What `export` says of items in plain flow holds here too. Their text is visible whatever
/// elements are in the head, a `style` or `script` too, if no node there is a frame and, in pretty
/// text, no `style` or `script` ends in its own closing tag but for the last character (`</style`).
/// Clean items with clean information are written if the head's nodes are elements and texts alone,
/// without a tag or a frame, and have no fault of their own once css is in `style`.
///
/// ```
/// use typst_html::{DocumentInfo, HtmlElement, HtmlNode, HtmlOptions};
/// use typst_html::{attr, export_with_head, tag};
///
/// let alloc = rt.alloc();
/// let style = HtmlElement::new(alloc, tag::link)
///     .with_attr(attr::rel, String::from_str(alloc, "stylesheet")?)?
///     .with_attr(attr::href, String::from_str(alloc, "site.css")?)?;
/// let own = vec![in alloc; HtmlNode::Element(style)]?;
/// let (info, options) = (DocumentInfo::new(alloc), HtmlOptions::default());
/// let html = export_with_head(alloc, &[], &info, &own, &[], 50, &options, &())?;
/// let end = r#"<link rel="stylesheet" href="site.css"></head><body></body></html>"#;
/// assert!(rt; html.as_str().ends_with(end));
/// ```
pub fn export_with_head<F: FrameWriter>(
    alloc: Global,
    items: &[Pair],
    info: &DocumentInfo,
    head: &[HtmlNode],
    footnotes: &[Pair],
    limit: usize,
    options: &HtmlOptions,
    frames: &F,
) -> Result<String, ExportFault>
    requires some_limit { 1 ≤ limit }
    requires low_limit { limit ≤ 10000 }
    ensures makes { GivesDocument text_view result
        (export_text_with_head (F.drawing frames.now) options.now (info_view info.now)
        (map node_view head.now) (items_view items.now) (items_view footnotes.now))
        (export_faults_with_head limit (F.drawing frames.now) options.now (info_view info.now)
        (map node_view head.now) (items_view items.now) (items_view footnotes.now)) }

    // If no allocation fails, items in plain flow are refused only for faults of their document's
    // tree, and clean ones with clean information and a clean head are not refused. If the head can
    // be read, exactly their text is visible once white space has collapsed.
    ensures plain { ArePlainItems limit (items_view items.now) (items_view footnotes.now) →
        IfErr result (λ e. IsFirstView e (root_faults (F.drawing frames.now) options.now
        (linked_root_with_head (info_view info.now) (map node_view head.now)
        (items_view items.now) (items_view footnotes.now)))) }
    ensures clean { ArePlainItems limit (items_view items.now) (items_view footnotes.now) →
        are_clean_items (items_view items.now) ≡ true → is_clean_info (info_view info.now) ≡ true →
        HeadIsClean (F.drawing frames.now) options.now (nodes_view head.now) →
        FailsByMemoryAlone result }
    ensures spaces { HeadIsReadable options.now (nodes_view head.now) →
        IfOk result (λ text. SpacesAreSeen (text_view text)
        (items_view items.now) (items_view footnotes.now)) }

    // What the text of a root without frames reads as.
    ensures reads_back { let root = linked_root_with_head (info_view info.now)
        (map node_view head.now) (items_view items.now) (items_view footnotes.now) in
        options.now.pretty ≡ false → ElementIsFrameFree root →
        IfOk result (λ text. read (text_view text) ≡ Some (element_normal root)) }
    ensures reads_indented { let root = linked_root_with_head (info_view info.now)
        (map node_view head.now) (items_view items.now) (items_view footnotes.now) in
        options.now.pretty ≡ true → ElementIsFrameFree root → ElementEndsWell true root →
        IfOk result (λ text. read (text_view text) ≡ Some (element_normal (element_layout root))) }
{
    let document = html_document_with_head(alloc, items, info, head, footnotes, limit)?;
    html_of_made(alloc, document, options, frames)
}

/// Returns the HTML text of items with links that lead: that of their document with anchors, once
/// its links are resolved.
///
/// [`html_document`] makes the document, [`resolve_links`](html_anchors::resolve_links) sets the
/// `href` of its links, and [`html`] writes it. A link is an `a` without an `href` that stands
/// after a start tag with a destination; its `href` becomes that of the destination's anchor.
/// Fails as [`export`] does.
///
/// Each link that got an `href` leads: the fragment that a browser takes from it indicates its
/// destination's anchor, in the tree and, if the text reads back as [`html_in_bundle`] says, in the
/// text as read; if the tree's own ids differ, exactly one of them is that name. A link to whose
/// destination nothing leads gets none. [`dead_links`](html_anchors::dead_links) reports it for
/// the document, and with it each link whose `href` leads nowhere in a browser: all if a `base`
/// leads them elsewhere, and those to anchors in a `template`. Spaces stay and clean items are
/// written, as by `export`.
///
/// ```
/// use typst_html::{DocumentInfo, HtmlElem, HtmlOptions, Item, Location};
/// use typst_html::{export_linked, push_located, tag};
///
/// let alloc = rt.alloc();
/// let (mut items, info) = (Vec::new(alloc), DocumentInfo::new(alloc));
/// let link = Item::Element(HtmlElem::new(alloc, tag::a));
/// let heading = Item::Element(HtmlElem::new(alloc, tag::h2));
/// let label = Some(String::from_str(alloc, "cool")?);
/// push_located(&mut items, Location(1), None, Some(Location(7)), link)?;
/// push_located(&mut items, Location(7), label, None, heading)?;
/// let html = export_linked(alloc, &items, &info, &[], 50, &HtmlOptions::default(), &())?;
/// let body = r##"<body><a href="#cool"></a><h2 id="cool"></h2></body></html>"##;
/// assert!(rt; html.as_str().ends_with(body));
/// ```
pub fn export_linked<F: FrameWriter>(
    alloc: Global,
    items: &[Pair],
    info: &DocumentInfo,
    footnotes: &[Pair],
    limit: usize,
    options: &HtmlOptions,
    frames: &F,
) -> Result<String, ExportFault>
    requires some_limit { 1 ≤ limit }
    requires low_limit { limit ≤ 10000 }
    ensures makes { GivesDocument text_view result
        (export_linked_text (F.drawing frames.now) options.now
        (info_view info.now) (items_view items.now) (items_view footnotes.now))
        (export_linked_faults limit (F.drawing frames.now) options.now
        (info_view info.now) (items_view items.now) (items_view footnotes.now)) }

    // Spaces stay, and clean items are written, as by `export`.
    ensures plain { ArePlainItems limit (items_view items.now) (items_view footnotes.now) →
        IfErr result (λ e. IsFirstView e (root_faults (F.drawing frames.now) options.now
        (resolved_root (info_view info.now) (items_view items.now) (items_view footnotes.now)))) }
    ensures clean { ArePlainItems limit (items_view items.now) (items_view footnotes.now) →
        are_clean_items (items_view items.now) ≡ true → is_clean_info (info_view info.now) ≡ true →
        FailsByMemoryAlone result }
    ensures spaces { IfOk result (λ text. SpacesAreSeen (text_view text)
        (items_view items.now) (items_view footnotes.now)) }

    // Each link that got an `href` leads a browser, unless `dead_links` reports it of the document;
    // it leads among all names of the tree, and of the text as it is read, and the names that they
    // may lead to are texts. The other links are those to whose destination no `href` leads.
    ensures live { let info = info_view info.now in
        let items = items_view items.now in let notes = items_view footnotes.now in
        OnOk result (LiveLinksLead (linked_document info items notes)
        (resolved_document info items notes)) }
    ensures leads { let info = info_view info.now in
        let items = items_view items.now in let notes = items_view footnotes.now in
        OnOk result (GivenLinksLead (linked_document info items notes)
        (resolved_document info items notes)) }
    ensures read { let info = info_view info.now in
        let items = items_view items.now in let notes = items_view footnotes.now in
        DocumentIsReadable options.now (resolved_document info items notes) →
        IfOk result (λ text. GivenLinksLeadWhenRead (linked_document info items notes)
        (resolved_document info items notes) (text_view text)) }
    ensures texts { let info = info_view info.now in
        let items = items_view items.now in let notes = items_view footnotes.now in
        OnOk result (AnchorsAreTexts (linked_document info items notes).introspector.anchor) }
    ensures left { let info = info_view info.now in
        let items = items_view items.now in let notes = items_view footnotes.now in
        OnOk result (links_without (resolved_root info items notes).1
        ≡ document_links_left (linked_document info items notes)) }

    // If the ids of the tree differ before it has anchors, all of the written tree do, and each of
    // these links leads to a name that only one place has.
    ensures distinct { let info = info_view info.now in
        let items = items_view items.now in let notes = items_view footnotes.now in
        IdsAreDistinct (assembled_document info items notes) →
        OnOk result (IdsAreDistinct (resolved_document info items notes)) }
    ensures one { let info = info_view info.now in
        let items = items_view items.now in let notes = items_view footnotes.now in
        IdsAreDistinct (assembled_document info items notes) →
        OnOk result (GivenLinksLeadToOne (linked_document info items notes)
        (resolved_document info items notes)) }
{
    let made = html_document(alloc, items, info, footnotes, limit)?;
    let document = document_with_links(alloc, made)?;
    html_of_made(alloc, document, options, frames)
}

/// Consumes items and returns their HTML text, as [`export`] writes it, but moves the texts,
/// attributes and css that that call copies.
///
/// Drops the items, even if they are refused. To mend refused items, pass a borrow to [`export`].
pub fn export_items<F: FrameWriter>(
    alloc: Global,
    items: Vec<Pair>,
    info: &DocumentInfo,
    footnotes: &[Pair],
    limit: usize,
    options: &HtmlOptions,
    frames: &F,
) -> Result<String, ExportFault>
    requires some_limit { 1 ≤ limit }
    requires low_limit { limit ≤ 10000 }
    ensures { GivesDocument text_view result
        (export_text (F.drawing frames.now) options.now
        (info_view info.now) (items_view items.items) (items_view footnotes.now))
        (export_faults limit (F.drawing frames.now) options.now
        (info_view info.now) (items_view items.items) (items_view footnotes.now)) }
{
    let document = document_of_items(alloc, items, info, footnotes, limit)?;
    html_of_made(alloc, document, options, frames)
}

/// Consumes a document and returns its HTML text, as [`html`] writes it.
fn html_of_made<F: FrameWriter>(
    alloc: Global,
    document: HtmlDocument,
    options: &HtmlOptions,
    frames: &F,
) -> Result<String, ExportFault>
    ensures { IsHtmlOf (F.drawing frames.now) options.now
        (document_root (document_view document)) result }
{
    html_of(alloc, root_of(alloc, document), options, frames)
}

fn root_of(alloc: Global, mut document: HtmlDocument) -> HtmlElement
    ensures { element_view result ≡ document_root (document_view document) }
{
    mem::replace(document.root_mut(), HtmlElement::new(alloc, tag::html))
}
