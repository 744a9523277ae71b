//! The report on a page, or why the page is not read.

ghost use Rattle.std.specs.Prelude.{◌≡◌, ◌≤◌, IfOk};
ghost use Rattle.serde_json.specs.Written.{compact_text};
ghost use Rattle.html_dom_tree.specs.Views.{element_view};
ghost use Rattle.html_page_read.specs.PlaceViews.{text_of};
ghost use Rattle.typst_html_ffi.specs.{LongTexts.{pieces_bytes}, PageLinks.{page_links}};
ghost use Rattle.typst_html_ffi.specs.PageReports.{Report, Reports, page_report, report_by};
ghost use Rattle.typst_html_ffi.specs.PageSteps.{GivesReport, asked_data, unread_reply};

use crate::findings::findings_text;
use crate::links::links_text;
use crate::numbers::page_limit_of;
use crate::page::Page;
use crate::pieces::lone_piece;
use crate::reply::{BAD_INPUT, OUT_OF_MEMORY, REFUSED, Reply, placed, put_pieces, without_text};
use html_dom_tree::HtmlElement;
use html_page_read::{PageFault, Places, decode_page_bytes, read_page};
use std::alloc::{AllocError, Global};

/// The number of a refusal for an encoding that is not known.
const UNKNOWN_LABEL: u8 = 25;

/// What a call reports of a page.
#[derive(Clone, Copy)]
pub(crate) enum Asked {
    /// What is wrong in it.
    Findings,
    /// Its ids, names and links.
    Links,
}

pub(crate) fn reply_to_page(
    alloc: Global,
    asked: Asked,
    limit: u32,
    page: &[u8],
    output: &mut [u8],
) -> Reply
    ensures answered { Reports (report_by (asked_data asked) limit page.now)
        output.old result output.new }
    ensures kept { ¬ (result.status ≡ 0) → output.new ≡ output.old }
{
    match page_limit_of(limit) {
        Some(limit) => reply_with_report(report_of(alloc, asked, page, limit), output),
        None => without_text(BAD_INPUT, 0, 0),
    }
}

/// Returns the reply for a fault, or for a report, which it copies into the buffer if it fits.
fn reply_with_report(pieces: Result<Vec<String>, PageFault>, output: &mut [u8]) -> Reply
    ensures answered { (report : Report) → GivesReport pieces report →
        Reports report output.old result output.new }
    ensures kept { ¬ (result.status ≡ 0) → output.new ≡ output.old }
{
    match pieces {
        Ok(pieces) => put_pieces(&pieces, output),
        Err(fault) => unread_reply(fault),
    }
}

fn unread_reply(fault: PageFault) -> Reply
    ensures { result ≡ unread_reply fault }
{
    match fault {
        PageFault::OutOfMemory => without_text(OUT_OF_MEMORY, 0, 0),
        PageFault::UnknownLabel { place, .. } => placed(REFUSED, UNKNOWN_LABEL, place),
        PageFault::NotText { place } => placed(BAD_INPUT, 0, place),
        PageFault::Refused { refusal, place } => placed(REFUSED, refusal.number(), place),
    }
}

/// Decodes a page, reads it and returns the report on it.
fn report_of(
    alloc: Global,
    asked: Asked,
    page: &[u8],
    limit: usize,
) -> Result<Vec<String>, PageFault>
    requires some_limit { 1 ≤ limit }
    requires low_limit { limit ≤ 10000 }
    ensures { GivesReport result (page_report (asked_data asked) page.now limit) }
{
    let page = decode_page_bytes(alloc, page)?;
    let text = page.text.as_str();
    let (root, _) = read_page(alloc, text, limit)?;
    Ok(asked_text(alloc, asked, root, Places::new(text))?)
}

fn asked_text(
    alloc: Global,
    asked: Asked,
    root: HtmlElement,
    places: Places<'_>,
) -> Result<Vec<String>, AllocError>
    ensures { IfOk result (λ pieces. pieces_bytes pieces.items
        ≡ compact_text (asked_data asked (text_of places.entry) (element_view root))) }
{
    match asked {
        Asked::Findings => findings_text(alloc, root, places),
        Asked::Links => {
            let root = &root;
            links_pieces(alloc, Page { root, places })
        }
    }
}

fn links_pieces(alloc: Global, page: Page<'_>) -> Result<Vec<String>, AllocError>
    ensures { let page = page.entry in IfOk result (λ pieces. pieces_bytes pieces.items
        ≡ compact_text (page_links (text_of page.places) (element_view page.root.now))) }
{
    let text = links_text(alloc, page)?;
    lone_piece(alloc, text)
}
