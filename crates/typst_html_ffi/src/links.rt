//! What links between pages need to know of a page, as JSON.

ghost use Rattle.std.specs.Prelude.{◌≡◌, string_bytes, IfOk};
ghost use Rattle.serde_json.specs.Written.{compact_text};
ghost use Rattle.html_dom_tree.specs.Views.{element_view};
ghost use Rattle.html_page_read.specs.PlaceViews.{text_of};
ghost use Rattle.typst_html_ffi.specs.PageLinks.{page_links};

use crate::lists::{begun, ended, push_key};
use crate::page::Page;
use html_page_findings::{Wanted, report_texts};
use std::alloc::{AllocError, Global};

pub(crate) fn links_text(alloc: Global, page: Page<'_>) -> Result<String, AllocError>
    ensures { let page = page.entry in IfOk result (λ text. string_bytes text
        ≡ compact_text (page_links (text_of page.places) (element_view page.root.now))) }
{
    let mut text = String::new(alloc);
    text.push_str("{")?;
    push_key(alloc, &mut text, false, "ids")?;
    let list = begun(alloc, page, text, "id")?;
    let mut text = ended(report_texts(alloc, page.root, Wanted::LinkedIds, list)?)?;
    push_key(alloc, &mut text, true, "names")?;
    let list = begun(alloc, page, text, "name")?;
    let mut text = ended(report_texts(alloc, page.root, Wanted::LinkedNames, list)?)?;
    push_key(alloc, &mut text, true, "links")?;
    let list = begun(alloc, page, text, "href")?;
    let mut text = ended(report_texts(alloc, page.root, Wanted::Hrefs, list)?)?;
    text.push_str("}")?;
    Ok(text)
}
