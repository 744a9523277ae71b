//! The HTML text of documents with information about them, footnotes and nodes for their heads.

ghost use Rattle.std.specs.Prelude.{◌≡◌, ◌≤◌, ◌++◌, IfOk, Some};
ghost use Rattle.serde_json.specs.View.{view};
ghost use Rattle.html_dom_document.specs.{Documents.{document_root}, Views.{document_view}};
ghost use Rattle.html_anchors.specs.{DeadLinks.{dead_links_view}, FoundAnchors.{document_dead_links}, Links.{document_with_links}};
ghost use Rattle.typst_html_encode.specs.Endings as written;
ghost use Rattle.typst_html_encode.specs.ExportFaults as writing;
ghost use Rattle.typst_html_encode.specs.FrameWriters.{no_frames};
ghost use Rattle.typst_html_encode.specs.Text as html;
ghost use Rattle.html_dom_tree.specs.Views.{text_view};
ghost use Rattle.typst_html_run.specs.Answers.{answer_to};
ghost use Rattle.typst_html_run.specs.DocumentAnswers.{document_answer, document_input_answer, spelling_faults, document_refusals, spelling_text, dead_links, dead_links_in, input_dead_links, text_given, made_document};
ghost use Rattle.typst_html_run.specs.Replies.{GivesAnswer};
ghost use Rattle.typst_html_export.specs.{Assembled.{items_document_faults}, Assembles.{GivesDocument}, Exported.{root_faults}};
ghost use Rattle.typst_html_json.specs.{Refusals.{Gives}, SpelledDocuments.{spelled_document}, Spelling.{spelling_view}};

use crate::program::fault_of;
use crate::unused::has_nodes;
use html_anchors::{DeadLink, dead_links, document_with_links};
use html_dom_document::HtmlDocument;
use html_dom_tree::HtmlElement;
use html_names_core::tag;
use serde_json::Value;
use std::alloc::Global;
use std::mem;
use typst_html_encode::{ExportFault, HtmlOptions, html_of};
use typst_html_export::{export_items, export_with_head, html_document_with_head};
use typst_html_json::{Fault, SpelledDocument, into_document, parse};

/// How a document is written.
#[derive(Clone, Copy, Debug, PartialEq, Eq)]
pub struct Settings {
    /// Whether the text is pretty-printed.
    pub pretty: bool,
    /// Whether links get the `href` of their destination.
    pub links: bool,
    /// How deep the bodies of items may be nested, from 1 to 10,000.
    pub limit: usize,
}

/// The text of a document, and its links that lead nowhere.
#[derive(Debug, Drop)]
pub struct DocumentText {
    /// The HTML text.
    pub text: String,
    /// The links that stay without an `href` because none leads to their destination, in document
    /// order ([`dead_links`](html_anchors::dead_links)). Empty if [`Settings::links`] is `false`.
    pub dead_links: Vec<DeadLink>,
}

#[tactic(auto, using(crate::proofs::FirstFaults::first_faults))]
fn spelling_text(
    alloc: Global,
    document: SpelledDocument,
    settings: &Settings,
) -> Result<DocumentText, Fault>
    requires some_limit { 1 ≤ settings.now.limit }
    requires low_limit { settings.now.limit ≤ 10000 }
    ensures text { Gives text_view (text_given result)
        (spelling_text settings.now (spelling_view document))
        (document_refusals settings.now (spelling_view document)) }
    ensures dead { IfOk result (λ made.
        dead_links_view made.dead_links.items ≡ dead_links settings.now (spelling_view document)) }
{
    match exported(alloc, document, settings) {
        Ok(made) => Ok(made),
        Err(fault) => Err(fault_of(&fault)),
    }
}

fn exported(
    alloc: Global,
    document: SpelledDocument,
    settings: &Settings,
) -> Result<DocumentText, ExportFault>
    requires some_limit { 1 ≤ settings.now.limit }
    requires low_limit { settings.now.limit ≤ 10000 }
    ensures text { GivesDocument text_view (text_given result)
        (spelling_text settings.now (spelling_view document))
        (spelling_faults settings.now (spelling_view document)) }
    ensures dead { IfOk result (λ made.
        dead_links_view made.dead_links.items ≡ dead_links settings.now (spelling_view document)) }
{
    let options = HtmlOptions {
        pretty: settings.pretty,
    };
    if settings.links {
        return linked(alloc, &document, settings.limit, &options);
    }
    let text = unlinked(alloc, document, settings.limit, &options);
    with_dead_links(text, Vec::new(alloc))
}

/// Copies no item if there are no nodes for the head.
fn unlinked(
    alloc: Global,
    document: SpelledDocument,
    limit: usize,
    options: &HtmlOptions,
) -> Result<String, ExportFault>
    requires some_limit { 1 ≤ limit }
    requires low_limit { limit ≤ 10000 }
    ensures { let s = spelling_view document in GivesDocument text_view result
        (html.document_text no_frames options.now (document_root (made_document s)))
        (items_document_faults limit s.items s.footnotes
        ++ root_faults no_frames options.now (document_root (made_document s))) }
{
    let SpelledDocument {
        info,
        items,
        footnotes,
        head,
    } = document;
    if has_nodes(&head) {
        return export_with_head(alloc, &items, &info, &head, &footnotes, limit, options, &());
    }
    export_items(alloc, items, &info, &footnotes, limit, options, &())
}

fn with_dead_links(
    text: Result<String, ExportFault>,
    dead_links: Vec<DeadLink>,
) -> Result<DocumentText, ExportFault>
    ensures text { text_given result ≡ text }
    ensures dead { IfOk result (λ made.
        dead_links_view made.dead_links.items ≡ dead_links_view dead_links.items) }
{
    match text {
        Ok(text) => Ok(DocumentText { text, dead_links }),
        Err(fault) => Err(fault),
    }
}

fn linked(
    alloc: Global,
    document: &SpelledDocument,
    limit: usize,
    options: &HtmlOptions,
) -> Result<DocumentText, ExportFault>
    requires some_limit { 1 ≤ limit }
    requires low_limit { limit ≤ 10000 }
    ensures text { let s = spelling_view document.now in
        let root = document_root (document_with_links (made_document s)) in
        GivesDocument text_view (text_given result)
        (html.document_text no_frames options.now root)
        (items_document_faults limit s.items s.footnotes ++ root_faults no_frames options.now root) }
    ensures dead { IfOk result (λ made. dead_links_view made.dead_links.items
        ≡ document_dead_links (made_document (spelling_view document.now))) }
{
    let SpelledDocument {
        info,
        items,
        footnotes,
        head,
    } = document;
    let made = html_document_with_head(alloc, items, info, head, footnotes, limit)?;
    let dead = dead_links(alloc, &made)?;
    let document = document_with_links(alloc, made)?;
    with_dead_links(html_of_made(alloc, document, options), dead)
}

/// Returns the HTML text of a document, which it consumes.
fn html_of_made(
    alloc: Global,
    mut document: HtmlDocument,
    options: &HtmlOptions,
) -> Result<String, ExportFault>
    ensures { let root = document_root (document_view document) in written.Gives result
        (html.document_text no_frames options.now root)
        (writing.document_faults no_frames options.now root) }
{
    let root = mem::replace(document.root_mut(), HtmlElement::new(alloc, tag::html));
    html_of(alloc, root, options, &())
}

fn spelled_text(alloc: Global, value: Value, settings: &Settings) -> Result<DocumentText, Fault>
    requires some_limit { 1 ≤ settings.now.limit }
    requires low_limit { settings.now.limit ≤ 10000 }
    ensures text { GivesAnswer (text_given result)
        (answer_to (document_answer settings.now) (spelled_document (view value))) }
    ensures dead { IfOk result (λ made. dead_links_view made.dead_links.items
        ≡ dead_links_in settings.now (Some (spelled_document (view value)))) }
{
    let document = into_document(alloc, value)?;
    spelling_text(alloc, document, settings)
}

/// Returns the HTML text of the document that an input spells, which is one JSON object.
///
/// Its members are the texts `title`, `description`, `lang` and `region`, the lists of texts
/// `authors` and `keywords`, the lists `items` and `footnotes`, which are those of a run, and
/// `head`, a list of nodes of a tree, which are put at the end of the document's head. Each may be
/// left out, except the `lang` of a `region`. An input that spells something else, or that has any
/// other member, is bad. If the object itself is wrong, the place is 0, before the first list. The
/// lists are numbered from 1, through the items, then the footnotes, then the head, in whatever
/// order these members stand. Of two members of one name the last counts.
///
/// Items and footnotes have more forms than those of a run: an element may have css, a start a
/// label (`["start", n, dest, label]`), an item a role (`["role", role, item]`), and locations may
/// have names (`["place", name]`, `["link", name]`) instead of numbers.
///
/// The text is that of [`export_with_head`](typst_html_export::export_with_head). If the settings
/// ask for links, they get their `href` as by [`export_linked`](typst_html_export::export_linked),
/// and the result lists the links that lead nowhere. Names are refused before other faults.
///
/// ```
/// use typst_html_run::{Settings, text_of_document};
/// use typst_html::{Location, Span};
///
/// let alloc = rt.alloc();
/// let input = br#"{"title":"Tides","lang":"de","region":"AT",
///     "items":[["text","Ebbe"],["start",1,9],["el","a",[],[]]]}"#;
/// let settings = Settings { pretty: false, links: true, limit: 50 };
/// let made = text_of_document(alloc, input, &settings)?;
/// assert!(rt; made.text.as_str().contains(r#"<html lang="de-AT">"#));
/// assert!(rt; made.text.as_str().contains("<title>Tides</title>"));
/// assert!(rt; made.text.as_str().ends_with("<body>Ebbe<a></a></body></html>"));
/// assert_eq!(rt; made.dead_links.len(), 1); // nothing starts 9
/// for link in &made.dead_links {
///     assert!(rt; link.span == Span(3) && link.dest == Location(9));
/// }
/// ```
pub fn text_of_document(
    alloc: Global,
    input: &[u8],
    settings: &Settings,
) -> Result<DocumentText, Fault>
    requires some_limit { 1 ≤ settings.now.limit }
    requires low_limit { settings.now.limit ≤ 10000 }
    ensures text { GivesAnswer (text_given result) (document_input_answer settings.now input.now) }
    ensures dead { IfOk result (λ made.
        dead_links_view made.dead_links.items ≡ input_dead_links settings.now input.now) }
{
    let value = parse(alloc, input)?;
    spelled_text(alloc, value, settings)
}
