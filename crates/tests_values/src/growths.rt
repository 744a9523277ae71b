//! Values of attributes: their texts, and the results of casts, when growths of memory are refused.

use html_values::civil::date;
use html_values::{
    AttrType, AutoValue, CastFault, Datetime, Dir, Duration, HorizontalDir, IconSize,
    ImageCandidate, IntoAttr, ListType, Moment, NativeType, NoneUndefined, NoneValue, OnOffBool,
    Rgba, Str, TrueFalseBool, Value, YesNoBool,
};
use std::alloc::{AllocError, Global};
use std::num::{NonZeroI64, NonZeroU64};
use tests_asserts::TestResult;
use tests_failing_alloc::{refuses, refuses_given};

#[rattlefmt::skip]
const RED: Rgba = Rgba { r: 255, g: 0, b: 16, a: 128 };

/// Asserts that the value's text is refused at first, and is then the expected one.
fn assert_text<V: IntoAttr>(alloc: Global, value: &V, wanted: &str) -> TestResult {
    refuses(alloc, || -> Result<bool, AllocError> {
        Ok(value.into_attr(alloc)?.as_str() == wanted)
    })
}

#[test]
fn texts_of_words(rt: HostRuntime) -> TestResult {
    let alloc = rt.alloc();
    assert_text(alloc, &NoneValue, "none")?;
    assert_text(alloc, &NoneUndefined, "undefined")?;
    assert_text(alloc, &AutoValue, "auto")?;
    assert_text(alloc, &TrueFalseBool(true), "true")?;
    assert_text(alloc, &YesNoBool(true), "yes")?;
    assert_text(alloc, &OnOffBool(true), "on")?;
    assert_text(alloc, &Dir::LTR, "ltr")?;
    assert_text(alloc, &Dir::RTL, "rtl")?;
    assert_text(alloc, &Dir::TTB, "ttb")?;
    assert_text(alloc, &Dir::BTT, "btt")?;
    assert_text(alloc, &HorizontalDir::LTR, "ltr")?;
    assert_text(alloc, &HorizontalDir::RTL, "rtl")
}

#[test]
fn texts_of_numbers(rt: HostRuntime) -> TestResult {
    let alloc = rt.alloc();
    assert_text(alloc, &-12i64, "-12")?;
    assert_text(alloc, &i64::MIN, "-9223372036854775808")?;
    assert_text(alloc, &0u64, "0")?;
    assert_text(alloc, &u64::MAX, "18446744073709551615")?;
    assert_text(alloc, &NonZeroI64::new(-7).ok_or("zero")?, "-7")?;
    assert_text(alloc, &NonZeroU64::new(7).ok_or("zero")?, "7")?;
    let (width, height) = (16, 0);
    assert_text(alloc, &IconSize { width, height }, "16x0")?;
    for (src, width, wanted) in [(",é", 480, ",é 480w"), ("x.png", 0, "x.png")] {
        let (src, width) = (String::from_str(alloc, src)?, NonZeroU64::new(width));
        assert_text(alloc, &ImageCandidate { src, width }, wanted)?;
    }
    Ok(())
}

#[test]
fn other_texts(rt: HostRuntime) -> TestResult {
    let alloc = rt.alloc();
    assert_text(alloc, &Str(String::from_str(alloc, "<a b")?), "<a b")?;
    assert_text(alloc, &'é', "é")?;
    assert_text(alloc, &RED, "#ff001080")?;
    assert_text(alloc, &Duration(694_861), "1w 1d 1h 1m 1s")?;
    let day = Datetime::new(Moment::Date(date(2024, 2, 9)))?;
    assert_text(alloc, &day, "2024-02-09")
}

/// Asserts that a cast of the value is refused at first, and then returns that text.
fn assert_cast(alloc: Global, attr_type: &AttrType, value: &Value, wanted: &str) -> TestResult {
    refuses(alloc, || -> Result<bool, CastFault> {
        let text = attr_type.cast(alloc, value)?;
        Ok(text.is_some_and(|text| text.as_str() == wanted))
    })
}

fn assert_native(alloc: Global, native: NativeType, value: Value, wanted: &str) -> TestResult {
    assert_cast(alloc, &AttrType::Native(native), &value, wanted)
}

/// Types, values that take no memory, and the texts that casts of these to those return.
const CASTS: [(NativeType, Value, &str); 12] = [
    (NativeType::NoValue, Value::None, "none"),
    (NativeType::NoneUndefined, Value::None, "undefined"),
    (NativeType::Auto, Value::Auto, "auto"),
    (NativeType::TrueFalse, Value::Bool(false), "false"),
    (NativeType::YesNo, Value::Bool(false), "no"),
    (NativeType::OnOff, Value::Bool(false), "off"),
    (NativeType::Int, Value::Int(-1), "-1"),
    (NativeType::NonNegativeInt, Value::Int(0), "0"),
    (NativeType::PositiveInt, Value::Int(1), "1"),
    (NativeType::Duration, Value::Duration(59), "59s"),
    (NativeType::Color, Value::Color(RED), "#ff001080"),
    (NativeType::HorizontalDir, Value::Dir(Dir::LTR), "ltr"),
];

#[test]
fn casts(rt: HostRuntime) -> TestResult {
    for (native_type, value, wanted) in CASTS {
        assert_native(rt.alloc(), native_type, value, wanted)?;
    }
    Ok(())
}

fn text_of(alloc: Global, text: &str) -> Result<Value, AllocError> {
    Ok(Value::Str(String::from_str(alloc, text)?))
}

#[test]
fn casts_of_parts(rt: HostRuntime) -> TestResult {
    let alloc = rt.alloc();
    assert_native(alloc, NativeType::Str, text_of(alloc, "ab")?, "ab")?;
    assert_native(alloc, NativeType::Char, text_of(alloc, "é")?, "é")?;
    let day = Value::Datetime(Moment::Date(date(2024, 2, 9)));
    assert_native(alloc, NativeType::Datetime, day, "2024-02-09")?;
    let size = Value::Array(vec![in alloc; Value::Int(16), Value::Int(16)]?);
    assert_native(alloc, NativeType::IconSize, size, "16x16")?;
    let (src, width) = (String::from_str(alloc, "x.png")?, Some(480));
    let image = Value::Image { src, width };
    assert_native(alloc, NativeType::ImageCandidate, image, "x.png 480w")
}

/// Casts to one of several texts, to one of several types, and to a list.
#[test]
fn casts_of_several(rt: HostRuntime) -> TestResult {
    let alloc = rt.alloc();
    let (a, b) = (String::from_str(alloc, "a")?, String::from_str(alloc, "b")?);
    let texts = AttrType::Strings(vec![in alloc; a, b]?);
    assert_cast(alloc, &texts, &text_of(alloc, "b")?, "b")?;
    let (int, auto) = (
        AttrType::Native(NativeType::Int),
        AttrType::Native(NativeType::Auto),
    );
    let union = AttrType::Union(vec![in alloc; int, auto]?);
    assert_cast(alloc, &union, &Value::Auto, "auto")?;
    let text = AttrType::Native(NativeType::Str);
    let list = AttrType::List(ListType::new(alloc, text, ',', false)?);
    let array = Value::Array(vec![in alloc; text_of(alloc, "a")?, text_of(alloc, "b")?]?);
    assert_cast(alloc, &list, &array, "a, b")
}

#[test]
fn lists_of_numbers(rt: HostRuntime) -> TestResult {
    let alloc = rt.alloc();
    refuses_given(alloc, AttrType::Native(NativeType::Int), |inner| {
        if inner.has_presence() {
            return Ok(false);
        }
        ListType::new(alloc, inner, ',', false).map(|_| true)
    })
}
