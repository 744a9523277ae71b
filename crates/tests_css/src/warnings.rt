//! The warnings of values, and those that a sink receives.

use html_values_css::{CssWriter, Paint, Properties, ToCss, Warning, WarningSink};
use std::alloc::{AllocError, Global};
use tests_asserts::{TestResult, Tester, assert_text};

fn assert_warned(rt: &impl Tester, warnings: &[Warning], wanted: &[Warning]) {
    assert_eq!(rt; warnings, wanted);
}

fn assert_inline(alloc: Global, properties: &Properties, wanted: &str) -> TestResult {
    assert_text(&properties.to_inline().to_string(alloc)?, wanted)
}

/// A sink that refuses a warning when it holds `room` of them.
#[derive(Drop)]
struct Shelf {
    taken: Vec<Warning>,
    room: usize,
}

impl WarningSink for Shelf {
    ghost use Rattle.std.specs.Prelude.{◌≡◌, None};
    ghost use Rattle.html_values_css.specs.Sink.{KeepsWarning};

    ghost warnings = { λ shelf. shelf.taken.items };

    ghost emit_gives = { λ old warning result new. KeepsWarning old.taken.items warning result new.taken.items };

    ghost borrow = { λ _. None };

    fn emit(&mut self, warning: Warning) -> Result<(), AllocError> {
        if self.taken.len() >= self.room {
            return Err(AllocError);
        }
        self.taken.push(warning)?;
        Ok(())
    }
}

fn empty_shelf(alloc: Global, room: usize) -> Shelf {
    let taken = Vec::new(alloc);
    Shelf { taken, room }
}

#[derive(Drop)]
struct Pair(Paint, Paint);

impl ToCss for Pair {
    ghost use Rattle.std.specs.Prelude.{◌++◌};
    ghost use Rattle.html_values_css.specs.Paints.{paint_text, paint_warnings};

    ghost text = { λ pair. paint_text pair.0 ++ paint_text pair.1 };

    ghost warnings = { λ pair. paint_warnings pair.0 ++ paint_warnings pair.1 };

    fn emit<S: WarningSink>(&self, out: &mut CssWriter<S>) -> Result<(), AllocError> {
        out.emit(&self.0)?;
        out.emit(&self.1)
    }
}

#[test]
fn a_gradient_and_a_tiling_have_no_text(rt: HostRuntime) -> TestResult {
    let mut warnings = Vec::new(rt.alloc());
    for paint in [Paint::Gradient, Paint::Tiling] {
        let css = paint.to_css(rt.alloc(), &mut warnings)?;
        assert_text(&css, "")?;
    }
    assert_warned(&rt, &warnings, &[Warning::Gradient, Warning::Tiling]);
    Ok(())
}

/// A sink receives all warnings in order, up to the first that it refuses.
#[test]
fn sinks_refuse_what_they_have_no_room_for(rt: HostRuntime) {
    let both = [Warning::Tiling, Warning::Gradient];
    for room in 0..=2usize {
        let mut sink = empty_shelf(rt.alloc(), room);
        let css = Pair(Paint::Tiling, Paint::Gradient).to_css(rt.alloc(), &mut sink);
        let wanted = if room == 2 { Some("") } else { None };
        assert!(rt; css.ok().as_deref() == wanted);
        assert_warned(&rt, &sink.taken, &both[..room]);
    }
}

#[test]
fn a_builder_reports_a_sink_that_refuses(rt: HostRuntime) -> TestResult {
    let mut sink = empty_shelf(rt.alloc(), 1);
    let mut builder = Properties::build(rt.alloc(), &mut sink);
    builder.push("color", &"red")?;
    let both = Pair(Paint::Tiling, Paint::Gradient);
    assert!(rt; builder.push("color", &both).is_err());
    assert_inline(rt.alloc(), &builder.finish(), "color: red")?;
    assert_warned(&rt, &sink.taken, &[Warning::Tiling]);
    Ok(())
}

#[test]
fn with_returns_the_builder_where_the_sink_refuses(rt: HostRuntime) -> TestResult {
    let mut sink = empty_shelf(rt.alloc(), 0);
    let builder = Properties::build(rt.alloc(), &mut sink).with("color", &"red")?;
    let refused = builder.with("color", &Paint::Gradient).err();
    let back = refused.expect(&rt, "no room").back;
    assert_inline(rt.alloc(), &back.finish(), "color: red")?;
    assert!(rt; sink.taken.is_empty());
    Ok(())
}

#[test]
fn with_passes_each_warning_once(rt: HostRuntime) -> TestResult {
    let mut sink = empty_shelf(rt.alloc(), 2);
    let both = Pair(Paint::Gradient, Paint::Tiling);
    let builder = Properties::build(rt.alloc(), &mut sink).with("color", &both)?;
    assert!(rt; builder.finish().as_slice().is_empty());
    assert_warned(&rt, &sink.taken, &[Warning::Gradient, Warning::Tiling]);
    Ok(())
}

#[test]
fn a_caller_may_fail(rt: HostRuntime) -> TestResult {
    let mut warnings = Vec::new(rt.alloc());
    let mut out = CssWriter::new(rt.alloc(), &mut warnings);
    out.write("a")?;
    out.fail(Warning::Tiling)?;
    out.write("b")?;
    assert!(rt; out.failed());
    assert_text(out.text(), "ab")?;
    drop(out);
    assert_warned(&rt, &warnings, &[Warning::Tiling]);
    Ok(())
}

#[test]
fn texts_of_warnings(rt: HostRuntime) -> TestResult {
    let (gradient, tiling) = (Warning::Gradient, Warning::Tiling);
    assert_text(
        &gradient.to_string(rt.alloc())?,
        "gradient was ignored during HTML export",
    )?;
    assert_text(
        &tiling.to_string(rt.alloc())?,
        "tiling was ignored during HTML export",
    )
}
