//! The guide's example of frames.

ghost use Rattle.html_names.specs.Texts.{text_view};
ghost use Rattle.std.specs.Prelude.{Some};

use std::alloc::Global;
use typst_html::{
    Abs, DocumentInfo, ExportFault, Frame, FrameElem, FrameFault, FrameWriter, HtmlFrame,
    HtmlOptions, Item, Pair, Span, export,
};

/// Writes each frame as the same picture.
#[derive(Drop)]
struct Picture {
    svg: String,
}

impl FrameWriter for Picture {
    // What contracts say of a text with frames: which text a frame has, in plain and pretty writing.
    ghost drawing = { λ writer frame pretty. Some (text_view writer.svg) };

    fn write(&self, _: Global, _frame: &HtmlFrame, _pretty: bool) -> Result<String, FrameFault> {
        Ok(self.svg.clone()?)
    }
}

fn drawing(alloc: Global) -> Result<String, ExportFault> {
    let frame = FrameElem {
        frame: Frame {
            picture: 1,
            items: Vec::new(alloc),
        }, // `picture` is a number of your own
        text_size: Abs::from_millionths(11_000_000),
        span: Span(4),
    };
    let items = vec![in alloc; Pair::from(Item::Frame(frame))]?;
    let writer = Picture {
        svg: String::from_str(alloc, "<svg/>")?,
    };
    export(
        alloc,
        &items,
        &DocumentInfo::new(alloc),
        &[],
        50,
        &HtmlOptions::default(),
        &writer,
    )
}

#[test]
fn a_drawing(rt: HostRuntime) {
    let html = drawing(rt.alloc()).expect(&rt, "a page");
    assert!(rt; html.as_str().ends_with("<body><svg/></body></html>"));
}
