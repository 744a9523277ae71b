//! Css texts of quantities, sums, calls, colours, displays and of a caller's own values, sinks of
//! their warnings, and maps of properties, when growths of memory are refused.

use html_names_core::Refused;
use html_names_core::property::Display;
use html_values_css::{
    Abs, Angle, CalcPart, CssWriter, Em, Length, Paint, Properties, PropertiesBuilder, Property,
    Ratio, Rel, Rgba, Separator, ToCss, Warning, WarningSink,
};
use std::alloc::{AllocError, Global};
use tests_asserts::{TestResult, assert_text};
use tests_failing_alloc::{
    Made, refuses, refuses_copy, refuses_given, refuses_kept, refuses_lent, refuses_pushed,
};

/// The number of letters that fill the text of a writer that got them one by one after an `ä`.
const FULL: usize = 30;

/// The number of warnings that fill a list made for them.
const MOST_WARNINGS: usize = 32;

/// Asserts that a call on a sink without room for another warning is refused at first.
fn assert_warns<R: Made, F: Fn(&mut Vec<Warning>) -> Result<R, AllocError>>(
    alloc: Global,
    call: F,
) -> TestResult
    requires { F.IsAlwaysCallable call }
{
    refuses_lent(alloc, vec![in alloc; Warning::Tiling; MOST_WARNINGS]?, call)
}

/// Asserts that a call on a writer with room for that many letters is refused at first, leaves what
/// was written before, and then ends with the expected text.
fn assert_written<F: Fn(&mut CssWriter<()>) -> Result<(), AllocError>>(
    alloc: Global,
    room: usize,
    wanted: &str,
    call: F,
) -> TestResult
    requires { F.IsAlwaysCallable call }
{
    let mut out = CssWriter::new(alloc, ());
    out.write("ä")?;
    for _ in room..FULL {
        out.write("x")?;
    }
    let held = String::from_str(alloc, out.text())?;
    let is_kept = |out: &CssWriter<()>| out.text().starts_with(held.as_str());
    let is_appended = |out: &mut CssWriter<()>| -> Result<bool, AllocError>
        requires { F.IsAlwaysCallable call }
    {
        call(out)?;
        Ok(out.text().ends_with(wanted) && !out.failed())
    };
    refuses_kept(alloc, out, is_kept, is_appended)
}

/// Asserts that the text of a value without warnings is refused at first, on its own and on a
/// writer, and is then the expected one.
fn assert_value<V: ToCss>(alloc: Global, value: &V, wanted: &str) -> TestResult {
    assert_warns(alloc, |sink| {
        let css = value.to_css(alloc, sink)?;
        Ok(css.as_str() == wanted && sink.len() == MOST_WARNINGS)
    })?;
    assert_written(alloc, 0, wanted, |out| out.emit(value))
}

/// Lengths in millionths of a point, and their texts: four decimals, rounded half away from zero.
const POINTS: [(i64, &str); 8] = [
    (-10, "0pt"),
    (-50, "-0.0001pt"),
    (50, "0.0001pt"),
    (49, "0pt"),
    (-2_000_000, "-2pt"),
    (12_345_678, "12.3457pt"),
    (1_000_000_000_000_000, "1000000000pt"),
    (-1_000_000_000_000_000, "-1000000000pt"),
];

#[test]
fn points_are_rounded_half_away_from_zero(rt: HostRuntime) -> TestResult {
    for (millionths, text) in POINTS {
        let abs = Abs::try_from_millionths(millionths).expect(&rt, "a number in range");
        assert!(rt; abs.millionths() == millionths);
        assert_value(rt.alloc(), &abs, text)?;
    }
    Ok(())
}

/// Ratios have two decimals, angles and ems four.
#[test]
fn quantities(rt: HostRuntime) -> TestResult {
    let alloc = rt.alloc();
    assert_value(alloc, &Ratio::from_millionths(333_350), "33.34%")?;
    assert_value(alloc, &Ratio::from_millionths(1_234_567), "123.46%")?;
    assert_value(alloc, &Angle::from_millionths(90_000_050), "90.0001deg")?;
    assert_value(alloc, &Em::from_millionths(1_500_000), "1.5em")?;
    assert!(rt; Ratio::from_millionths(1_234_567).millionths() == 1_234_567);
    assert!(rt; Angle::from_millionths(90_000_050).millionths() == 90_000_050);
    assert!(rt; Em::from_millionths(-1).millionths() == -1);
    Ok(())
}

#[test]
fn parts_of_a_sum_speak_of_one_number(rt: HostRuntime) {
    assert!(rt; Abs::from_millionths(0).is_zero());
    assert!(rt; !Em::from_millionths(1).is_zero());
    assert!(rt; Ratio::from_millionths(-1).is_negative());
    assert!(rt; !Abs::from_millionths(0).is_negative());
    assert!(rt; Em::from_millionths(7).negated() == Em::from_millionths(-7));
    assert!(rt; Abs::from_millionths(1) < Abs::from_millionths(2));
}

/// Lengths in millionths of an em and of a point, and their texts.
const LENGTHS: [(i64, i64, &str); 5] = [
    (0, 0, "0"),
    (-500_000, 250_000, "calc(-0.5em + 0.25pt)"),
    (1_000_000, -10, "calc(1em - 0pt)"),
    (-1_500_000, 0, "-1.5em"),
    (0, 10, "0pt"),
];

/// Returns the length of that many millionths of an em and of a point.
fn length(em: i64, abs: i64) -> Option<Length> {
    let em = Em::try_from_millionths(em)?;
    let abs = Abs::try_from_millionths(abs)?;
    Some(Length { em, abs })
}

/// A sum drops parts of zero.
#[test]
fn lengths_are_sums(rt: HostRuntime) -> TestResult {
    for (em, abs, text) in LENGTHS {
        let length = length(em, abs).expect(&rt, "numbers in range");
        assert_value(rt.alloc(), &length, text)?;
    }
    let rel = Ratio::from_millionths(500_000);
    let abs = length(0, -2_000_000).expect(&rt, "numbers in range");
    assert_value(rt.alloc(), &Rel { rel, abs }, "calc(50% - 2pt)")
}

/// A value that writes two texts.
struct Twice<'a>(&'a str, &'a str);

impl ToCss for Twice<'_> {
    ghost use Rattle.std.specs.Prelude.{chars, ◌++◌, []};

    ghost text = { λ t. chars t.0.now ++ chars t.1.now };

    ghost warnings = { λ _. [] };

    fn emit<S: WarningSink>(&self, out: &mut CssWriter<S>) -> Result<(), AllocError> {
        out.write(self.0)?;
        out.write(self.1)
    }
}

/// A colour has its alpha unless it is opaque.
#[test]
fn other_values(rt: HostRuntime) -> TestResult {
    let (alloc, r, g, b, a) = (rt.alloc(), 1, 2, 3, 255);
    assert_value(alloc, &Rgba { r, g, b, a }, "#010203")?;
    let (r, g, b, a) = (255, 0, 16, 128);
    assert_value(alloc, &Paint::Solid(Rgba { r, g, b, a }), "#ff001080")?;
    assert_value(alloc, &Display::ListItem, "list-item")?;
    assert_value(alloc, &"é", "é")?;
    assert_value(alloc, &Twice("a", "b"), "ab")
}

/// Adds a colour by its name, with a slash before the last part.
fn add_colour(out: &mut CssWriter<()>) -> Result<(), AllocError> {
    let mut call = out.call("rgb", Separator::Space)?;
    call.arg(&Ratio::from_millionths(500_000))?;
    call.arg(&"20%")?;
    call.arg_with(&Ratio::from_millionths(100_000), Separator::Slash)?;
    call.finish()
}

fn add_sum(out: &mut CssWriter<()>, em: i64, is_finished: bool) -> Result<(), AllocError> {
    let mut sum = out.calc();
    sum.sum(&Em::try_from_millionths(em).ok_or(AllocError)?)?;
    sum.sum(&Abs::from_millionths(2_000_000))?;
    if is_finished { sum.finish() } else { Ok(()) }
}

#[test]
fn pieces_are_appended(rt: HostRuntime) -> TestResult {
    let mut out = CssWriter::new(rt.alloc(), ());
    out.write("ä ")?;
    add_sum(&mut out, 0, true)?;
    add_colour(&mut out)?;
    assert_text(out.text(), "ä 2ptrgb(50% 20% / 10%)")
}

/// Writes several pieces, each with room only for those before it. A sum of one part is not
/// wrapped, and an unfinished one stays open.
#[test]
fn writers_and_sinks(rt: HostRuntime) -> TestResult {
    let alloc = rt.alloc();
    assert_written(alloc, 0, "ä text", |out| out.write("ä text"))?;
    assert_written(alloc, 0, "2pt", |out| add_sum(out, 0, true))?;
    for room in 0..10 {
        assert_written(alloc, room, "rgb(50% 20% / 10%)", add_colour)?;
        assert_written(alloc, room, "calc(0.5em + 2pt)", |out| {
            add_sum(out, 500_000, true)
        })?;
        assert_written(alloc, room, "calc(1em + 2pt", |out| {
            add_sum(out, 1_000_000, false)
        })?;
    }
    assert_warns(alloc, |sink| {
        Paint::Gradient.to_css(alloc, sink).map(|_| ())
    })?;
    assert_warns(alloc, |sink| {
        CssWriter::new(alloc, sink).fail(Warning::Gradient)
    })?;
    assert_warns(alloc, |sink| sink.emit(Warning::Gradient))?;
    assert_warns(alloc, |sink| {
        Properties::build(alloc, sink).push("color", &Paint::Gradient)
    })
}

/// Returns a map of a colour and a width.
fn map_of(alloc: Global) -> Result<Properties, AllocError> {
    let map = Properties::new(alloc).with("color", String::from_str(alloc, "red")?)?;
    Ok(map.with("width", String::from_str(alloc, "2pt")?)?)
}

#[test]
fn maps(rt: HostRuntime) -> TestResult {
    let alloc = rt.alloc();
    refuses(alloc, || -> Result<bool, AllocError> {
        Ok(Properties::with_capacity(alloc, 2)?.as_slice().is_empty())
    })?;
    let (map, value) = (map_of(alloc)?, String::from_str(alloc, "1em")?);
    refuses_pushed(alloc, map, value, |map: &mut Properties, value| {
        map.push("top", value)
    })?;
    let given = (map_of(alloc)?, String::from_str(alloc, "1em")?);
    refuses_given(alloc, given, |(map, value)| {
        map.with("top", value).map(|_| ())
    })?;
    refuses_copy(alloc, map_of(alloc)?, Properties::try_clone)?;
    let name = String::from_str(alloc, "color")?;
    let value = String::from_str(alloc, "red")?;
    refuses_copy(alloc, Property { name, value }, Property::try_clone)
}

/// A builder with a colour, if it was returned.
type Started = Option<PropertiesBuilder<()>>;

fn started(alloc: Global) -> Result<Started, AllocError> {
    Ok(Some(Properties::build(alloc, ()).with("color", &"red")?))
}

fn is_there(started: &Started) -> bool {
    started.is_some()
}

/// Returns whether the map has a colour and a width.
fn is_built(builder: PropertiesBuilder<()>) -> bool {
    matches!(
        builder.finish().as_slice(),
        [one, two] if one.name.as_str() == "color"
            && one.value.as_str() == "red"
            && two.name.as_str() == "width"
            && two.value.as_str() == "2pt"
    )
}

fn goes_on(started: &mut Started) -> Result<bool, AllocError> {
    let mut builder = started.take().ok_or(AllocError)?;
    match builder.push("width", &Abs::from_millionths(2_000_000)) {
        Ok(()) => Ok(is_built(builder)),
        Err(AllocError) => {
            *started = Some(builder);
            Err(AllocError)
        }
    }
}

fn is_passed_on(started: &mut Started) -> Result<bool, AllocError> {
    let builder = started.take().ok_or(AllocError)?;
    match builder.with("width", &Abs::from_millionths(2_000_000)) {
        Ok(builder) => Ok(is_built(builder)),
        Err(Refused { back }) => {
            *started = Some(back);
            Err(AllocError)
        }
    }
}

#[test]
fn builders(rt: HostRuntime) -> TestResult {
    let alloc = rt.alloc();
    refuses_kept(alloc, started(alloc)?, is_there, goes_on)?;
    refuses_kept(alloc, started(alloc)?, is_there, is_passed_on)
}
