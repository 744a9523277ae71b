//! The findings in a page, as JSON.

ghost use Rattle.std.specs.Prelude.{◌≡◌, IfOk};
ghost use Rattle.serde_json.specs.Written.{compact_text};
ghost use Rattle.html_dom_tree.specs.Views.{element_view};
ghost use Rattle.html_page_read.specs.PlaceViews.{text_of};
ghost use Rattle.typst_html_ffi.specs.{LongTexts.{pieces_bytes}, PageFindings.{page_findings}};

use crate::lists::{begun, ended, push_key};
use crate::misnested;
use crate::page::Page;
use html_dom_tree::HtmlElement;
use html_page_findings::{report_dead_fragments, report_repeated_ids};
use html_page_nesting::report_misnested_of;
use html_page_read::Places;
use std::alloc::{AllocError, Global};

/// Consumes a page and returns the findings in it, as a text in pieces. The nodes are freed while the
/// last list is written, and the pieces take their place.
pub(crate) fn findings_text(
    alloc: Global,
    root: HtmlElement,
    places: Places<'_>,
) -> Result<Vec<String>, AllocError>
    ensures { IfOk result (λ pieces. pieces_bytes pieces.items
        ≡ compact_text (page_findings (text_of places.entry) (element_view root))) }
{
    let page = Page {
        root: &root,
        places,
    };
    let mut text = String::new(alloc);
    text.push_str("{")?;
    push_key(alloc, &mut text, false, "dead_fragments")?;
    let list = begun(alloc, page, text, "fragment")?;
    let mut text = ended(report_dead_fragments(alloc, page.root, list)?)?;
    push_key(alloc, &mut text, true, "repeated_ids")?;
    let list = begun(alloc, page, text, "id")?;
    let mut text = ended(report_repeated_ids(alloc, page.root, list)?)?;
    push_key(alloc, &mut text, true, "misnested")?;
    let list = misnested::begun(alloc, places, text)?;
    let mut text = misnested::ended(report_misnested_of(alloc, root, list)?)?;
    text.last.push_str("}")?;
    text.into_pieces()
}
