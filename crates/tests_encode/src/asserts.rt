//! Written texts, and assertions about them.

use html_dom_tree::{HtmlElement, Span};
use html_names_core::HtmlTag;
use std::alloc::Global;
use std::test::Fail;
use tests_asserts::{TestResult, Tester, assert_text};
use tests_reading::reads_back;
use tests_samples::text_of;
use typst_html_encode::{FrameWriter, HtmlOptions, html_in_bundle};

/// Asserts the result of writing the element: what follows the document type, which is read back,
/// or a fault with its fields.
pub(crate) fn assert_answer<F: FrameWriter>(
    rt: &impl Tester,
    root: &HtmlElement,
    pretty: bool,
    frames: &F,
    wanted: &str,
) -> TestResult {
    let options = HtmlOptions { pretty };
    match html_in_bundle(rt.alloc(), root, &options, frames) {
        Ok(text) => {
            assert!(rt; reads_back(rt.alloc(), root, &options, &text), "{text}");
            assert_text(text.strip_prefix("<!DOCTYPE html>").unwrap_or(""), wanted)
        }
        Err(fault) => assert_text(&format!(in rt.alloc(); "{fault:?}")?, wanted),
    }
}

/// Returns an element with span 1, whose texts have the spans 2, 3 and so on.
pub(crate) fn element(alloc: Global, name: &str, texts: &[&str]) -> Result<HtmlElement, Fail> {
    let mut element = HtmlElement::new(alloc, HtmlTag::intern(alloc, name)?).spanned(Span(1));
    for (span, text) in (2u64..).zip(texts) {
        element.children.push(text_of(alloc, text, span)?)?;
    }
    Ok(element)
}
