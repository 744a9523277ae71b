//! Writing trees with frames.

ghost use Rattle.std.specs.Prelude.{◌==◌, Some, None, chars, if◌then◌else◌};
ghost use Rattle.typst_html_encode.specs.FrameWriters.{picture_of};

use crate::asserts::{assert_answer, element};
use html_dom_tree::{Frame, FrameItem, HtmlElement, HtmlFrame, HtmlNode, Location, Span, Tag};
use html_values_css::Abs;
use std::alloc::{AllocError, Global};
use std::test::Fail;
use tests_asserts::{TestResult, Tester};
use tests_samples::point;
use typst_html_encode::{FrameFault, FrameWriter};

/// A writer with one text for pretty and another for plain writing, which refuses the pictures with
/// one number, and has no memory for those with another.
#[derive(Clone, Copy)]
struct TwoTexts<'a> {
    plain: &'a str,
    pretty: &'a str,
    refused: u64,
    too_large: u64,
}

impl FrameWriter for TwoTexts<'_> {
    ghost drawing = { λ writer frame pretty.
        if picture_of frame.inner == writer.refused then None
        else Some (if pretty then chars writer.pretty.now else chars writer.plain.now) };

    fn write(&self, alloc: Global, frame: &HtmlFrame, pretty: bool) -> Result<String, FrameFault> {
        if frame.inner.picture == self.refused {
            return Err(FrameFault::Refused);
        }
        if frame.inner.picture == self.too_large {
            return Err(FrameFault::OutOfMemory);
        }
        Ok(String::from_str(alloc, if pretty { self.pretty } else { self.plain })?)
    }
}

/// A writer that has a text for each picture.
const WRITER: TwoTexts<'static> = TwoTexts {
    plain: "<g>\n</g>",
    pretty: "<a>\r\n  b\n</a>\n",
    refused: 0,
    too_large: 0,
};

/// Returns an element with span 1 and that many frames, with the pictures 1, 2 and so on, and the
/// spans 3, 5 and so on. Each holds a tag and a link that are not written.
fn with_frames(alloc: Global, name: &str, count: u8) -> Result<HtmlElement, Fail> {
    let (mut element, location) = (element(alloc, name, &[])?, Location(7));
    for picture in 1..=u64::from(count) {
        let tag = FrameItem::Tag(Tag::End { location });
        let link = FrameItem::Link(Some(location));
        let items = vec![in alloc; (point(0, 0), tag), (point(0, 0), link)]?;
        let (size, span) = (Abs::from_millionths(11_000_000), Span(1 + 2 * picture));
        let frame = HtmlFrame::new(alloc, Frame { picture, items }, size, span);
        element.children.push(HtmlNode::from(frame))?;
    }
    Ok(element)
}

/// Asserts the result of writing an element and that many frames.
fn assert_frames<F: FrameWriter>(
    rt: &impl Tester,
    (name, count, pretty): (&str, u8, bool),
    frames: &F,
    wanted: &str,
) -> TestResult {
    assert_answer(
        rt,
        &with_frames(rt.alloc(), name, count)?,
        pretty,
        frames,
        wanted,
    )
}

/// Whether pretty writing is on, an element and its number of frames, and its text. Each line of a
/// frame has the indent of its level, and a last line feed is dropped. If pretty writing is off
/// inside an element, it is off for the writer of a frame too.
static TEXTS: [(bool, &str, u8, &str); 5] = [
    (false, "div", 1, "<div><g>\n</g></div>"),
    (false, "pre", 2, "<pre><g>\n</g><g>\n</g></pre>"),
    (true, "div", 1, "\n<div>\n  <a>\n    b\n  </a>\n</div>\n"),
    (
        true,
        "div",
        2,
        "\n<div>\n  <a>\n    b\n  </a><a>\n    b\n  </a>\n</div>\n",
    ),
    (true, "span", 1, "\n<span><g>\n</g></span>\n"),
];

#[test]
fn frames_are_their_writers_texts(rt: HostRuntime) -> TestResult {
    for (pretty, name, count, wanted) in &TEXTS {
        assert_frames(&rt, (name, *count, *pretty), &WRITER, wanted)?;
    }
    Ok(())
}

/// An element and its number of frames, the picture that is refused, and the result. A frame is no
/// text, and it is a child: such faults are reported before the frame is written.
static REFUSED: [(&str, u8, u64, &str); 6] = [
    ("div", 2, 2, "FrameRefused { span: Span(5) }"),
    ("span", 3, 3, "FrameRefused { span: Span(7) }"),
    ("script", 2, 1, "RawChild { span: Span(3) }"),
    ("title", 2, 1, "RawChild { span: Span(3) }"),
    ("style", 2, 1, "RawChild { span: Span(3) }"),
    ("br", 1, 1, "VoidChildren { span: Span(1) }"),
];

/// A writer may also have no memory, or refuse all frames.
#[test]
fn frames_are_refused(rt: HostRuntime) -> TestResult {
    for pretty in [false, true] {
        for (name, count, refused, wanted) in &REFUSED {
            let refused = *refused;
            assert_frames(
                &rt,
                (name, *count, pretty),
                &TwoTexts { refused, ..WRITER },
                wanted,
            )?;
        }
        let div = ("div", 2, pretty);
        assert_frames(
            &rt,
            div,
            &TwoTexts {
                too_large: 2,
                ..WRITER
            },
            "OutOfMemory",
        )?;
        assert_frames(&rt, div, &(), "FrameRefused { span: Span(3) }")?;
    }
    Ok(())
}

/// Returns the line that many times with a text behind it, and then once more.
fn lines(alloc: Global, line: &str, count: usize, between: &str) -> Result<String, AllocError> {
    let mut text = format!(in alloc; "{line}{between}")?.repeat(alloc, count)?;
    text.push_str(line)?;
    Ok(text)
}

/// The texts are a few lines of a million letters, and many short lines.
#[test]
fn long_texts_of_frames(rt: HostRuntime) -> TestResult {
    let (alloc, long) = (rt.alloc(), lines(rt.alloc(), "x", 999_999, "")?);
    for (line, count) in [(long.as_str(), 2), ("<g/>", 99_999)] {
        let plain = lines(alloc, line, count, "\n")?;
        let pretty = lines(alloc, line, count, "\n  ")?;
        let writer = TwoTexts {
            plain: &plain,
            pretty: &plain,
            ..WRITER
        };
        let wanted = format!(in alloc; "<div>{plain}{plain}</div>")?;
        assert_frames(&rt, ("div", 2, false), &writer, &wanted)?;
        let wanted = format!(in alloc; "\n<div>\n  {pretty}{pretty}\n</div>\n")?;
        assert_frames(&rt, ("div", 2, true), &writer, &wanted)?;
    }
    Ok(())
}
