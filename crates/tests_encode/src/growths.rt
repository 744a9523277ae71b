//! Texts of trees, plain and pretty, when growths of memory are refused.

use html_dom_tree::HtmlElement;
use tests_asserts::TestResult;
use tests_failing_alloc::refuses_lent;
use tests_frames::OneText;
use tests_samples::element_of;
use typst_html_encode::{HtmlOptions, html_in_bundle};

#[test]
fn texts_of_trees(rt: HostRuntime) -> TestResult {
    let (alloc, frames) = (rt.alloc(), OneText::new(rt.alloc())?);
    for pretty in [false, true] {
        let options = HtmlOptions { pretty };
        refuses_lent(alloc, element_of(alloc)?, |root: &mut HtmlElement| {
            html_in_bundle(alloc, root, &options, &frames).map(|text| !text.is_empty())
        })?;
    }
    Ok(())
}
