//! A writer of frames of one's own.

ghost use Rattle.std.specs.Prelude.{Some};
ghost use Rattle.html_names.specs.Texts.{text_view};

use std::alloc::Global;
use typst_html::{FrameFault, FrameWriter, HtmlFrame};

/// Writes one text for every frame.
#[derive(Drop)]
struct OneText {
    text: String,
}

impl FrameWriter for OneText {
    ghost drawing = { λ writer frame pretty. Some (text_view writer.text) };

    fn write(
        &self,
        _alloc: Global,
        _frame: &HtmlFrame,
        _pretty: bool,
    ) -> Result<String, FrameFault> {
        Ok(self.text.clone()?)
    }
}

#[test]
fn a_frame_is_its_writers_text(rt: HostRuntime) -> tests_asserts::TestResult {
    use typst_html::{Abs, Frame, HtmlElement, HtmlNode, HtmlOptions, Span, html_in_bundle, tag};
    let (alloc, items) = (rt.alloc(), Vec::new(rt.alloc()));
    let (size, text) = (Abs::from_millionths(1), String::from_str(alloc, "<svg/>")?);
    let frame = HtmlFrame::new(alloc, Frame { picture: 1, items }, size, Span(2));
    let root = HtmlElement::new(alloc, tag::div).with_child(HtmlNode::from(frame))?;
    let html = html_in_bundle(alloc, &root, &HtmlOptions::default(), &OneText { text })?;
    tests_asserts::assert_text(&html, "<!DOCTYPE html><div><svg/></div>")
}
