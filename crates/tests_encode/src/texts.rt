//! Texts with the flag `pre_span`, and the text of a deep tree.

use crate::asserts::{assert_answer, element};
use html_dom_tree::HtmlElement;
use html_names_core::tag;
use tests_asserts::{TestResult, assert_number};
use tests_reading::reads_back;
use tests_samples::nested;
use typst_html_encode::{HtmlOptions, html_in_bundle};

/// An element and its texts, and the result of writing it.
type Row = (&'static str, &'static [&'static str], &'static str);

/// Elements with the flag: each character of their texts is a reference, by a name or a number. A
/// carriage return and a noncharacter have none. The flag may be forged on `pre` and on raw text.
static KEPT: [Row; 6] = [
    ("p", &["a"], "<p>&#x61;</p>"),
    (
        "p",
        &["&<>\"' \t\u{10fffd}"],
        "<p>&amp;&lt;&gt;&quot;&apos;&#x20;&#x9;&#x10fffd;</p>",
    ),
    (
        "p",
        &["&<>\"' \t\u{10ffff}"],
        "Unencodable { c: '\\u{10ffff}', span: Span(2) }",
    ),
    ("p", &["a", "\r"], "Unencodable { c: '\\r', span: Span(3) }"),
    ("pre", &["\nx"], "<pre>\n&#xa;&#x78;</pre>"),
    ("script", &["a<b"], "<script>a<b</script>"),
];

#[test]
fn texts_with_the_flag(rt: HostRuntime) -> TestResult {
    for (name, texts, wanted) in &KEPT {
        let mut root = element(rt.alloc(), name, texts)?;
        root.pre_span = true;
        assert_answer(&rt, &root, false, &(), wanted)?;
    }
    Ok(())
}

/// For 5,000 nested `div`s there are 15 characters for the document type, and 5 and 6 for each
/// element's tags. Pretty text adds a line feed after each line, and 2 spaces a level before it:
/// the n-th element from outside has level n - 1, and all but the innermost have two lines.
#[test]
fn elements_5000_deep(rt: HostRuntime) -> TestResult {
    let root = nested(rt.alloc(), HtmlElement::new(rt.alloc(), tag::div), 4_999)?;
    for (pretty, length) in [(false, 55_015), (true, 55_015 + 10_000 + 49_980_002)] {
        let options = HtmlOptions { pretty };
        let text = html_in_bundle(rt.alloc(), &root, &options, &())?;
        assert!(rt; reads_back(rt.alloc(), &root, &options, &text));
        assert_number(text.len(), length)?;
    }
    Ok(())
}
