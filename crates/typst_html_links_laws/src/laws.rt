//! Laws of the dead fragments and the repeated ids of a tree whose links are given an `href`, and of
//! documents that are made of items. The contract of each function consists of laws; the functions
//! do nothing.

ghost use Rattle.html_dom_document.specs.Views.{document_view};
ghost use Rattle.typst_html_links_laws.specs.LinkedChecks.{LinksAddNoDeadFragment, LinksRepeatNoId, LinksStaySound, ResolvedStaySound};
ghost use Rattle.typst_html_links_laws.specs.SoundLinks.{ExportedLinksAreSound, MadeLinksAreSound, NoHyperlinkIsMade};

use html_dom_document::HtmlDocument;

/// New `href`s, as `resolve_links` adds them, add no dead fragment if each leads to a place of the
/// tree: the dead fragments of the new tree are exactly those of the old one, and so there are none
/// if no link had an `href` before. The repeated ids stay the same in any case.
#[tactic(auto, using(crate::proofs::LinkedChecks::links_add_no_dead_fragment, crate::proofs::LinkedChecks::links_repeat_no_id))]
pub fn given_links_lead()
    ensures dead { LinksAddNoDeadFragment }
    ensures repeated { LinksRepeatNoId }
{}

/// Resolving the links of a document, as a pure value whose anchors are texts, adds no dead
/// fragment and no repeated id, under the conditions of [`links_stay_sound`].
pub fn resolved_links_lead()
    ensures { ResolvedStaySound }
{}

/// Resolving the links of a document adds no dead fragment if the anchors that its introspector
/// knows are places, as those of `html_document` are unless they stand in a `template`. The
/// repeated ids stay the same in any case, and there are none if all ids of the document differ.
pub fn links_stay_sound(document: &HtmlDocument)
    ensures { LinksStaySound (document_view document.now) }
{
    let _document = document;
}

/// If no `a` or `area` among items and footnotes, at any depth, has an `href`, none in the tree of
/// their document has one, with its styles and its anchors.
pub fn no_hyperlink_is_made()
    ensures { NoHyperlinkIsMade }
{}

/// If no `a` or `area` among items and footnotes has an `href`, the tree of their document, as
/// `export_linked` writes it once links are resolved, has no dead fragment, provided that its
/// anchors are texts (`texts` of `export_linked`) and places (none stands in a `template`): links
/// that got no `href` lead to no fragment, and `dead_links` reports them. If all names of that
/// document differ (`distinct` of `export_linked`), no id is repeated.
pub fn exported_links_are_sound()
    ensures { ExportedLinksAreSound }
{}

/// The same holds, once links are resolved, for all items from which `html_document` makes this
/// document, as its anchors are texts.
pub fn made_links_are_sound(document: &HtmlDocument)
    ensures { MadeLinksAreSound (document_view document.now) }
{
    let _document = document;
}
