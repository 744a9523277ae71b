//! Frames: their ids and anchors count as ids of elements. The rows of `tests_rows` show those of
//! documents of items.

use html_anchors::ids_are_distinct;
use html_dom_document::DocumentInfo;
use html_dom_tree::{Frame, HtmlElement, HtmlFrame, HtmlNode, Span};
use html_names_core::{attr, tag};
use html_page_findings::{dead_fragments, repeated_ids};
use html_values_css::Abs;
use std::alloc::{AllocError, Global};
use tests_asserts::{TestResult, assert_debug};
use tests_samples::{id_of, point};
use typst_html_export::html_document;

fn frame_of(alloc: Global, id: &str, anchor: &str) -> Result<HtmlFrame, AllocError> {
    let (picture, items) = (1, Vec::new(alloc));
    let zero = Abs::from_millionths(0);
    Ok(HtmlFrame {
        id: Some(String::from_str(alloc, id)?),
        anchors: vec![in alloc; (point(0, 0), String::from_str(alloc, anchor)?)]?,
        ..HtmlFrame::new(alloc, Frame { picture, items }, zero, Span(1))
    })
}

/// The `id` of a frame, its anchor, and whether both differ from each other and from the `id` `a`
/// of an element.
static FRAMES: [(&str, &str, bool); 4] = [
    ("b", "c", true),
    ("a", "c", false),
    ("b", "a", false),
    ("b", "b", false),
];

#[test]
fn ids_of_frames_count(rt: HostRuntime) -> TestResult {
    let alloc = rt.alloc();
    for (id, anchor, wanted) in &FRAMES {
        let mut document = html_document(alloc, &[], &DocumentInfo::new(alloc), &[], 50)?;
        let mut paragraph = HtmlElement::new(alloc, tag::p);
        paragraph.attrs = id_of(alloc, "a")?;
        let children = &mut document.root_mut().children;
        children.push(HtmlNode::Element(paragraph))?;
        children.push(HtmlNode::Frame(frame_of(alloc, id, anchor)?))?;
        assert!(rt;
            ids_are_distinct(alloc, &document)? == *wanted,
            "{id} {anchor}"
        );
    }
    Ok(())
}

/// Returns a `p` with that `id` around a link to that name, and then a frame with the `id` `a` and
/// an anchor with the name `b`.
fn framed(alloc: Global, id: &str, href: &str) -> Result<HtmlElement, AllocError> {
    let href = String::from_str(alloc, href)?;
    let link = HtmlElement::new(alloc, tag::a).with_attr(attr::href, href)?;
    let mut root = HtmlElement::new(alloc, tag::p).with_child(HtmlNode::Element(link))?;
    root.attrs = id_of(alloc, id)?;
    Ok(root.with_child(HtmlNode::Frame(frame_of(alloc, "a", "b")?))?)
}

#[test]
fn frames_have_ids(rt: HostRuntime) -> TestResult {
    let alloc = rt.alloc();
    for (href, wanted) in [("#a", "[]"), ("#b", "[]"), ("#c", "[([0], \"c\")]")] {
        let mut dead = Vec::new(alloc);
        for link in dead_fragments(alloc, &framed(alloc, "", href)?)? {
            dead.push((link.path, link.fragment))?;
        }
        assert_debug(alloc, &dead, wanted)?;
    }
    for (id, wanted) in [
        ("a", "[([1], \"a\")]"),
        ("b", "[([1], \"b\")]"),
        ("c", "[]"),
    ] {
        let mut repeated = Vec::new(alloc);
        for place in repeated_ids(alloc, &framed(alloc, id, "")?)? {
            repeated.push((place.path, place.id))?;
        }
        assert_debug(alloc, &repeated, wanted)?;
    }
    Ok(())
}
