//! Reading of texts, and the visible text of a page that was read.

use html_dom_tree::HtmlElement;
use html_page_text::page_text;
use std::alloc::{AllocError, Global};
use tests_asserts::TestResult;
use tests_failing_alloc::{refuses, refuses_lent};
use typst_html_read::{ReadFault, read_html};

/// A text with names of the author's own, attributes, references, raw texts, and nested elements.
const PAGE: &str = concat!(
    "<!DOCTYPE html>\n<div id=\"x &amp; y\" own=\"1\" hidden>one &lt; two &#xe9;<my-own>three</my-own>",
    "<pre>\n\nfour</pre><script>if (a < b) { f('</scrip'); }</script><br><mspace width=\"1em\"/>",
    "<ul><li>five</li><li><em class=\"c\">six</em></li></ul>seven</div>\n",
);

fn has(root: HtmlElement, attrs: usize, children: usize) -> bool {
    root.attrs.0.len() == attrs && root.children.len() == children
}

/// Returns whether reading stops at that offset of a text, in bytes.
fn ends_at(alloc: Global, text: &str, offset: usize) -> Result<bool, ReadFault> {
    match read_html(alloc, text, 9) {
        Err(ReadFault::Syntax { place }) => Ok(place.offset == offset),
        Err(fault) => Err(fault),
        Ok(_) => Ok(false),
    }
}

/// The text before the place where reading stops takes memory too.
#[test]
fn texts(rt: HostRuntime) -> TestResult {
    let (alloc, wrong) = (rt.alloc(), "<!DOCTYPE html><p class=\"a\">b<i>c</i></b>");
    refuses(
        alloc,
        || read_html(alloc, PAGE, 9).map(|root| has(root, 3, 8)),
    )?;
    refuses(alloc, || ends_at(alloc, wrong, 39))
}

/// A text with spaces and ignorable characters, objects and line breaks, in blocks.
const SHOWN: &str = concat!(
    "<!DOCTYPE html><html><body><p>a \u{200b} b<br><img></p><pre> c</pre>d</body></html>",
);

#[test]
fn pages(rt: HostRuntime) -> TestResult {
    let alloc = rt.alloc();
    let root = read_html(alloc, SHOWN, 9)?;
    refuses_lent(
        alloc,
        root,
        |root: &mut HtmlElement| -> Result<bool, AllocError> {
            page_text(alloc, root).map(|page| page.parts().len() == 8)
        },
    )
}
