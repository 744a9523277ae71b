//! Tests of flat trees, copies, positions and documents.

use html_dom_document::HtmlIntrospector;
use html_dom_flat::{FlatNode, FlatTree};
use html_dom_tree::{HtmlElement, HtmlNode, Location, Point, Span};
use html_names_core::{attr, tag};
use html_page_findings::element_at;
use html_values_css::Abs;
use std::collections::BTreeMap;
use std::test::Fail;
use tests_asserts::{TestResult, assert_debug, assert_number, assert_text};
use tests_samples::{document_of, html_frame_of, nested, start};

/// A list of attributes has room for these alone.
#[test]
fn flat_attributes(rt: HostRuntime) -> TestResult {
    let list = HtmlElement::new(rt.alloc(), tag::ul)
        .with_attr(attr::class, String::new(rt.alloc()))?
        .with_attr(attr::id, String::new(rt.alloc()))?;
    match FlatTree::from_element(rt.alloc(), &list)?.nodes().first() {
        Some(FlatNode::Element(list)) => assert_number(list.attrs.capacity(), 2),
        _ => Err(Fail::new("no element")),
    }
}

/// The tree has 5,000 elements in one another, and a tag in the last one.
#[test]
fn deep_trees(rt: HostRuntime) -> TestResult {
    let alloc = rt.alloc();
    let inner = HtmlElement::new(alloc, tag::a).spanned(Span(3));
    let root = nested(
        alloc,
        inner.with_child(HtmlNode::from(start(1, None)))?,
        4_999,
    )?;
    assert!(rt; root.try_clone()? == root);
    assert_number(FlatTree::from_element(alloc, &root)?.to_nodes()?.len(), 1)?;
    let found = element_at(&root, &Vec::from_elem(alloc, 0, 4_999)?);
    assert!(rt; found.is_some_and(|element| element.span == Span(3)));
    assert!(rt; element_at(&root, &Vec::from_elem(alloc, 0, 5_000)?).is_none());
    let known = HtmlIntrospector::new(alloc, &[HtmlNode::from(root)])?;
    assert_number(
        known
            .position(Location(1))
            .expect(&rt, "a position")
            .path()
            .len(),
        5_001,
    )
}

/// A group does not move its items.
#[test]
fn tags_in_frames_have_points_and_targets(rt: HostRuntime) -> TestResult {
    let (alloc, frame) = (rt.alloc(), html_frame_of(rt.alloc())?);
    let known = HtmlIntrospector::new(alloc, &[HtmlNode::from(frame)])?;
    let (x, y) = (Abs::from_millionths(1), Abs::from_millionths(2));
    let position = known.position(Location(1)).expect(&rt, "a position");
    assert!(rt; position.path() == [0].as_slice() && position.point() == Some(Point { x, y }));
    assert_debug(alloc, &known.link_targets()?, "{Location(2), Location(3)}")?;
    assert_debug(alloc, known.frame_link_targets(), "{Location(3)}")
}

/// Positions stay when the root changes.
#[test]
fn changed_documents(rt: HostRuntime) -> TestResult {
    let (alloc, mut document) = (rt.alloc(), document_of(rt.alloc())?);
    let mut anchors = BTreeMap::new(alloc);
    anchors.insert(Location(1), String::from_str(alloc, "loc-1")?)?;
    document.introspector_mut().set_anchors(anchors);
    document.root_mut().children = Vec::new(alloc);
    document.info_mut().title = None;
    let copy = document.try_clone()?;
    assert!(rt; copy.root().children.is_empty() && copy.info().title.is_none());
    assert!(rt; copy.nodes().get(1) == Some(copy.root_node()));
    let (known, place) = (copy.introspector(), Location(1));
    assert!(rt; known.position(place).expect(&rt, "a position").path() == [0, 1, 0].as_slice());
    assert_text(known.anchor(place).expect(&rt, "an anchor"), "loc-1")
}
