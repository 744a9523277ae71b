//! Documents with nodes of the caller's in the head.

use html_dom_document::DocumentInfo;
use html_dom_tree::{HtmlElement, HtmlNode, Location};
use html_flow_convert::{Item, push_located};
use html_names_core::tag;
use std::alloc::{AllocError, Global};
use tests_asserts::TestResult;
use tests_samples::{css_of, id_of};
use typst_html_encode::HtmlOptions;
use typst_html_export::{export_with_head, html_document_with_head};

/// Returns a `link` with css and that `id`.
fn link_of(alloc: Global, id: &str) -> Result<HtmlElement, AllocError> {
    Ok(HtmlElement {
        attrs: id_of(alloc, id)?,
        css: css_of(alloc, "color", "red")?,
        ..HtmlElement::new(alloc, tag::link)
    })
}

/// The css of a `link` is written, and no anchor gets its id.
#[test]
fn own_nodes(rt: HostRuntime) -> TestResult {
    let alloc = rt.alloc();
    let head = vec![in alloc; HtmlNode::Element(link_of(alloc, "loc-1")?)]?;
    let (mut items, place) = (Vec::new(alloc), Location(7));
    push_located(&mut items, place, None, Some(place), Item::Hole)?;
    let mut info = DocumentInfo::new(alloc);
    info.title = Some(String::from_str(alloc, "Tides")?);
    let document = html_document_with_head(alloc, &items, &info, &head, &[], 50)?;
    let anchor = document.introspector().anchor(place);
    assert_eq!(rt; anchor.expect(&rt, "an anchor").as_str(), "loc-2");
    let options = HtmlOptions::default();
    let html = export_with_head(alloc, &items, &info, &head, &[], 50, &options, &())?;
    let link = r#"<title>Tides</title><link id="loc-1" style="color: red"></head>"#;
    assert!(rt; html.as_str().contains(link));
    Ok(())
}
