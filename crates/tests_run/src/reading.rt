//! Texts that are hostile to the reader: one of the greatest depth, each beginning of a page, and a
//! page with one character replaced.

use std::alloc::Global;
use std::process::Abort;
use tests_asserts::TestResult;
use tests_reading::{reads_again, reads_same};
use typst_html::{HtmlElement, Place, ReadFault, read_html};

/// The greatest depth of elements.
const DEEPEST: usize = 10_000;

#[test]
fn the_deepest_text_is_read(rt: HostRuntime) -> TestResult {
    let alloc = rt.alloc();
    let mut page = String::from_str(alloc, "<!DOCTYPE html>")?;
    page.push_str(&"<p>".repeat(alloc, DEEPEST)?)?;
    page.push_str(&"</p>".repeat(alloc, DEEPEST)?)?;
    assert!(rt; reads_same(alloc, &page));
    Ok(())
}

#[test]
fn texts_without_the_document_type_are_not_read(rt: HostRuntime) {
    for (text, offset) in [
        ("", 0),
        ("<p></p>", 1),
        ("<!doctype html><p></p>", 2),
        (" <!DOCTYPE html><p></p>", 0),
        ("<!DOCTYPE htm", 13),
        ("<!DOCTYPE htm\u{141}>", 13),
    ] {
        let place = Place {
            offset,
            line: 1,
            column: offset.saturating_add(1),
        };
        let read = read_html(rt.alloc(), text, 50);
        assert!(rt; read == Err(ReadFault::Syntax { place }), "{text}");
    }
}

/// A page, with white space after it.
const PAGE: &str = concat!(
    "<!DOCTYPE html>\n<html lang=\"en\"><head><meta charset=\"utf-8\">",
    "<title>Salt &amp; vinegar &lt; pepper</title>",
    "<style>p > em { color: red }\n.a::before { content: \"</b>\" }</style>",
    "<script>if (a < b && c > d) { f(\"</scrip\", '</style>'); }\n// </scripts </script</script>",
    "</head><body class=\"a b\" data-own=\"1 < 2 &amp; &quot;3&quot;\" hidden>",
    "<h1 id=\"über\">Überraschung, 東京 &#x20;&#x9; naïve</h1>\n",
    "<pre>\n\n  two lines\n  kept</pre><textarea>\na &lt;/textarea> b</textarea>",
    "<p>Two eggs, <em>boiled</em>; see <a href=\"#loc-1\" class=\"ref\">below</a>.<br>",
    "<img src=\"x.png\" alt=\"&#xe9;\"><wbr>end</p>",
    "<ul><li>one</li><li>two <strong><code>x</code></strong></li><li></li></ul>",
    "<table><tbody><tr><td>1</td><td colspan=\"2\">2</td></tr></tbody></table>",
    "<my-element own-attr a<=\"<>'\">😀</my-element><P></P><1x></1x>",
    "<math><mspace width=\"1em\"/><mi>x</mi><mprescripts/></math>",
    "<section><h2>More</h2><p>a  b&#xa;c</p><hr><p>&apos;&gt;</p></section>",
    "<div><div><div><div><div><span>six</span></div></div></div></div></div>",
    "</body></html>\n\t\r \n",
);

/// Returns whether the text is white space that may stand after the root.
fn is_blank(text: &str) -> bool {
    text.chars().all(|c| matches!(c, '\t' | '\n' | '\r' | ' '))
}

fn tree_of(rt: &impl Abort, alloc: Global, text: &str) -> Option<HtmlElement> {
    match read_html(alloc, text, 50) {
        Ok(root) => Some(root),
        Err(fault) => {
            assert!(rt; matches!(fault, ReadFault::Syntax { .. }), "{text}");
            None
        }
    }
}

/// Asserts that the beginning of the page is read exactly if only white space is missing, and then
/// as the whole page's tree.
fn assert_cut(rt: &impl Abort, alloc: Global, before: &str, behind: &str, whole: &HtmlElement) {
    match tree_of(rt, alloc, before) {
        None => assert!(rt; !is_blank(behind), "{before}"),
        Some(read) => assert!(rt; is_blank(behind) && read == *whole, "{before}"),
    }
}

#[test]
fn beginnings_of_a_page(rt: HostRuntime) {
    let whole = tree_of(&rt, rt.alloc(), PAGE).expect(&rt, "a tree");
    assert!(rt; reads_again(rt.alloc(), PAGE));
    for at in 0..=PAGE.len() {
        if let (Some(before), Some(behind)) = (PAGE.get(..at), PAGE.get(at..)) {
            assert_cut(&rt, rt.alloc(), before, behind, &whole);
        }
    }
}

/// Asserts that the page with one character replaced is read, if at all, as a tree whose text reads
/// the same again.
fn assert_changed(rt: &impl Abort, alloc: Global, before: &str, c: char, behind: &str) {
    let page = format!(in alloc; "{before}{c}{behind}").expect(rt, "memory for a page");
    let is_read = tree_of(rt, alloc, &page).is_some();
    assert!(rt; !is_read || reads_again(alloc, &page), "{page}");
}

fn assert_each_changed(rt: &impl Abort, alloc: Global, c: char) {
    for at in 0..PAGE.len() {
        let behind = PAGE.get(at.saturating_add(1)..);
        if let (Some(before), Some(behind)) = (PAGE.get(..at), behind) {
            assert_changed(rt, alloc, before, c, behind);
        }
    }
}

#[test]
fn a_page_with_a_letter_more(rt: HostRuntime) {
    assert_each_changed(&rt, rt.alloc(), 'x');
}

#[test]
fn a_page_with_a_tag_more(rt: HostRuntime) {
    assert_each_changed(&rt, rt.alloc(), '<');
}

#[test]
fn a_page_with_a_reference_more(rt: HostRuntime) {
    assert_each_changed(&rt, rt.alloc(), '&');
}

#[test]
fn a_page_with_a_quote_more(rt: HostRuntime) {
    assert_each_changed(&rt, rt.alloc(), '"');
}
