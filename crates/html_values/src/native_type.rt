//! Types of attributes that accept values of one kind, and how each casts a value to a text.

ghost use Rattle.std.specs.Int.NonZero.{non_zero_u64_get};
ghost use Rattle.std.specs.Prelude.{◌≡◌, IfOk, IfErr, None, Some, length, slice_index, ◌-◌, ◌==◌, [], ◌∷◌, chars, option_map};
ghost use Rattle.html_names_core.specs.Texts.{text_view};
ghost use Rattle.html_values.specs.AttrTexts.{horizontal_text, size_text};
ghost use Rattle.html_values.specs.Casts.{candidate_answer, GivesCast, Finds, horizontal, icon_size, image, int_of, is_bad_source, native_cast, native_castable, natural, one_char, positive, text_answer, gives};
ghost use Rattle.html_values.specs.Values.{array_value, auto_value, bool_value, color_value, datetime_value, dir_value, duration_value, image_value, int_value, none_value, str_value, value_view, values_view};
ghost use Rattle.html_values_css.specs.declared.cast_fault.CastFault.TheVariants.{NumberRange, WrongKind};

use crate::duration::Duration;
use crate::image::{IconSize, ImageCandidate};
use crate::into_attr::IntoAttr;
use crate::moment::{Datetime, Moment};
use crate::value::Value;
use crate::words::{
    AutoValue, HorizontalDir, NoneEmpty, NoneUndefined, NoneValue, OnOffBool, TrueFalseBool,
    YesNoBool,
};
use html_values_css::{CastFault, Dir};
use std::alloc::Global;
use std::num::NonZeroU64;

/// A type of attribute whose values each have one kind.
#[derive(Clone, Copy, Debug, PartialEq, Eq)]
pub enum NativeType {
    /// None, written `none`.
    NoValue,
    /// None, written as the empty text.
    NoneEmpty,
    /// None, written `undefined`.
    NoneUndefined,
    /// Auto, written `auto`.
    Auto,
    /// A Boolean, written `true` or `false`.
    TrueFalse,
    /// A Boolean, written `yes` or `no`.
    YesNo,
    /// A Boolean, written `on` or `off`.
    OnOff,
    /// A whole number.
    Int,
    /// A whole number from 0 on.
    NonNegativeInt,
    /// A whole number from 1 on.
    PositiveInt,
    /// A text.
    Str,
    /// A text of one character.
    Char,
    /// A date, a time, or both, whose year, if any, is from 1 to 9999.
    Datetime,
    /// A span of time.
    Duration,
    /// A colour.
    Color,
    /// A direction from left to right or from right to left.
    HorizontalDir,
    /// An array of two whole numbers from 0 on: a width and a height.
    IconSize,
    /// An image.
    ImageCandidate,
}

impl NativeType {
    pub(crate) fn castable(self, value: &Value) -> bool
        ensures { result ≡ native_castable self (value_view value.now) }
    {
        match self {
            NativeType::NoValue | NativeType::NoneEmpty | NativeType::NoneUndefined => {
                matches!(value, Value::None)
            }
            NativeType::Auto => matches!(value, Value::Auto),
            NativeType::TrueFalse | NativeType::YesNo | NativeType::OnOff => {
                matches!(value, Value::Bool(_))
            }
            NativeType::Int | NativeType::NonNegativeInt | NativeType::PositiveInt => {
                matches!(value, Value::Int(_))
            }
            NativeType::Str | NativeType::Char => matches!(value, Value::Str(_)),
            NativeType::Datetime => matches!(value, Value::Datetime(_)),
            NativeType::Duration => matches!(value, Value::Duration(_)),
            NativeType::Color => matches!(value, Value::Color(_)),
            NativeType::HorizontalDir => matches!(value, Value::Dir(_)),
            NativeType::IconSize => matches!(value, Value::Array(_)),
            NativeType::ImageCandidate => matches!(value, Value::Image { .. }),
        }
    }

    pub(crate) fn cast(self, alloc: Global, value: &Value) -> Result<String, CastFault>
        ensures { GivesCast text_answer result (native_cast self (value_view value.now)) }
    {
        match value {
            Value::None => self.cast_none(alloc),
            Value::Auto => match self {
                NativeType::Auto => Ok(AutoValue.into_attr(alloc)?),
                _ => Err(CastFault::WrongKind),
            },
            Value::Bool(on) => self.cast_bool(alloc, *on),
            Value::Int(n) => self.cast_int(alloc, *n),
            Value::Str(text) => self.cast_str(alloc, text),
            Value::Color(color) => match self {
                NativeType::Color => Ok(color.into_attr(alloc)?),
                _ => Err(CastFault::WrongKind),
            },
            Value::Datetime(moment) => self.cast_datetime(alloc, moment),
            Value::Duration(seconds) => match self {
                NativeType::Duration => Ok(Duration(*seconds).into_attr(alloc)?),
                _ => Err(CastFault::WrongKind),
            },
            Value::Dir(dir) => self.cast_dir(alloc, *dir),
            Value::Image { src, width } => self.cast_image(alloc, src, *width),
            Value::Array(items) => self.cast_array(alloc, items),
        }
    }

    fn cast_none(self, alloc: Global) -> Result<String, CastFault>
        ensures { GivesCast text_answer result (native_cast self none_value) }
    {
        match self {
            NativeType::NoValue => Ok(NoneValue.into_attr(alloc)?),
            NativeType::NoneEmpty => Ok(NoneEmpty.into_attr(alloc)?),
            NativeType::NoneUndefined => Ok(NoneUndefined.into_attr(alloc)?),
            _ => Err(CastFault::WrongKind),
        }
    }

    fn cast_bool(self, alloc: Global, on: bool) -> Result<String, CastFault>
        ensures { GivesCast text_answer result (native_cast self (bool_value on)) }
    {
        match self {
            NativeType::TrueFalse => Ok(TrueFalseBool(on).into_attr(alloc)?),
            NativeType::YesNo => Ok(YesNoBool(on).into_attr(alloc)?),
            NativeType::OnOff => Ok(OnOffBool(on).into_attr(alloc)?),
            _ => Err(CastFault::WrongKind),
        }
    }

    fn cast_int(self, alloc: Global, n: i64) -> Result<String, CastFault>
        ensures { GivesCast text_answer result (native_cast self (int_value n)) }
    {
        match self {
            NativeType::Int => Ok(n.into_attr(alloc)?),
            NativeType::NonNegativeInt => Ok(natural(n)?.into_attr(alloc)?),
            NativeType::PositiveInt => Ok(positive(n)?.into_attr(alloc)?),
            _ => Err(CastFault::WrongKind),
        }
    }

    fn cast_str(self, alloc: Global, text: &String) -> Result<String, CastFault>
        ensures { GivesCast text_answer result (native_cast self (str_value (text_view text.now))) }
    {
        match self {
            NativeType::Str => Ok(text.clone()?),
            NativeType::Char => Ok(only_char(text.as_str())?.into_attr(alloc)?),
            _ => Err(CastFault::WrongKind),
        }
    }

    fn cast_datetime(self, alloc: Global, moment: &Moment) -> Result<String, CastFault>
        ensures { GivesCast text_answer result (native_cast self (datetime_value moment.now)) }
    {
        match self {
            NativeType::Datetime => Ok(Datetime::new(*moment)?.into_attr(alloc)?),
            _ => Err(CastFault::WrongKind),
        }
    }

    fn cast_dir(self, alloc: Global, dir: Dir) -> Result<String, CastFault>
        ensures { GivesCast text_answer result (native_cast self (dir_value dir)) }
    {
        match self {
            NativeType::HorizontalDir => Ok(horizontal(dir)?.into_attr(alloc)?),
            _ => Err(CastFault::WrongKind),
        }
    }

    fn cast_image(
        self,
        alloc: Global,
        src: &String,
        width: Option<i64>,
    ) -> Result<String, CastFault>
        ensures { GivesCast text_answer result
            (native_cast self (image_value (text_view src.now) width)) }
    {
        match self {
            NativeType::ImageCandidate => Ok(candidate(src, width)?.into_attr(alloc)?),
            _ => Err(CastFault::WrongKind),
        }
    }

    fn cast_array(self, alloc: Global, items: &[Value]) -> Result<String, CastFault>
        ensures { GivesCast text_answer result
            (native_cast self (array_value (values_view items.now))) }
    {
        match self {
            NativeType::IconSize => Ok(icon_size(items)?.into_attr(alloc)?),
            _ => Err(CastFault::WrongKind),
        }
    }
}

fn natural(n: i64) -> Result<u64, CastFault>
    ensures { Finds (λ made. made) NumberRange result (natural n) }
{
    match u64::try_from(n) {
        Ok(n) => Ok(n),
        Err(_) => Err(CastFault::NumberRange),
    }
}

fn positive(n: i64) -> Result<NonZeroU64, CastFault>
    ensures { Finds non_zero_u64_get NumberRange result (positive n) }
{
    match NonZeroU64::new(natural(n)?) {
        Some(n) => Ok(n),
        None => Err(CastFault::NumberRange),
    }
}

fn only_char(text: &str) -> Result<char, CastFault>
    ensures { GivesCast (λ c. gives (c ∷ [])) result (one_char (chars text.now)) }
{
    let mut characters = text.chars();
    match (characters.next(), characters.next()) {
        (Some(c), None) => Ok(c),
        _ => Err(CastFault::NotOneChar),
    }
}

fn horizontal(dir: Dir) -> Result<HorizontalDir, CastFault>
    ensures { GivesCast (λ made. gives (horizontal_text made)) result (horizontal dir) }
{
    match dir {
        Dir::LTR => Ok(HorizontalDir::LTR),
        Dir::RTL => Ok(HorizontalDir::RTL),
        Dir::TTB | Dir::BTT => Err(CastFault::VerticalDir),
    }
}

fn integer(value: &Value) -> Result<i64, CastFault>
    ensures { Finds (λ n. n) WrongKind result (int_of (value_view value.now)) }
{
    match value {
        Value::Int(n) => Ok(*n),
        _ => Err(CastFault::WrongKind),
    }
}

fn icon_size(items: &[Value]) -> Result<IconSize, CastFault>
    ensures { GivesCast (λ size. gives (size_text size.width size.height)) result
        (icon_size (values_view items.now)) }
{
    let [width, height] = items else {
        return Err(CastFault::WrongKind);
    };
    let width = integer(width)?;
    let height = integer(height)?;
    Ok(IconSize {
        width: natural(width)?,
        height: natural(height)?,
    })
}

#[tactic(auto, using(html_names_core::proofs::EndChars::empty_chars))]
fn is_empty(src: &str) -> bool
    ensures { result ≡ (length (chars src.now) == 0) }
{
    src.is_empty()
}

#[tactic(auto, using(crate::proofs::Commas::first_comma))]
fn begins_with_comma(src: &str) -> bool
    ensures { result ≡ (slice_index (chars src.now) 0 == 44) }
{
    src.starts_with(',')
}

#[tactic(auto, using(crate::proofs::Commas::last_comma))]
fn ends_with_comma(src: &str) -> bool
    ensures { result ≡ (slice_index (chars src.now) (length (chars src.now) - 1) == 44) }
{
    src.ends_with(',')
}

/// Returns whether a text is empty, or begins or ends with a comma.
fn is_bad_source(src: &str) -> bool
    ensures { result ≡ is_bad_source (chars src.now) }
{
    is_empty(src) || begins_with_comma(src) || ends_with_comma(src)
}

fn candidate(src: &String, width: Option<i64>) -> Result<ImageCandidate, CastFault>
    ensures { GivesCast candidate_answer result (image (text_view src.now) width) }
{
    let width = match width {
        Some(n) => Some(positive(n)?),
        None => None,
    };
    if is_bad_source(src.as_str()) {
        return Err(CastFault::BadImageSource);
    }
    Ok(ImageCandidate {
        src: src.clone()?,
        width,
    })
}
