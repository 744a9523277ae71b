//! Laws of this crate's types, as contracts of functions: what `==` tests. The laws of css values
//! are in [`css`]; the type of quantities and its units are beside it.

ghost use Rattle.std.specs.Prelude.{◌≡◌, ◌↔◌, IsTrue};
ghost use Rattle.html_names_core.specs.Texts.{text_view};
ghost use Rattle.html_values.specs.{AttrTexts.{image_candidate_view}, Moments.{moment_view}};

use crate::duration::Duration;
use crate::image::{IconSize, ImageCandidate};
use crate::into_attr::Str;
use crate::moment::{Datetime, Moment};
use crate::native_type::NativeType;
use crate::words::{
    AutoValue, HorizontalDir, NoneEmpty, NoneUndefined, NoneValue, OnOffBool, TrueFalseBool,
    YesNoBool,
};
use html_values_css::CastFault;
pub use html_values_css::{Degrees, Ems, Points, Quantity, Unit, Whole, laws as css};

/// Faults of casts are equal if they are the same.
pub fn equal_cast_faults(a: CastFault, b: CastFault) -> bool
    ensures { IsTrue result ↔ (a ≡ b) }
{
    a == b
}

/// Native types are equal if they are the same.
pub fn equal_native_types(a: NativeType, b: NativeType) -> bool
    ensures { IsTrue result ↔ (a ≡ b) }
{
    a == b
}

/// Moments are equal if they are of one kind, with the same day, time or both.
pub fn equal_moments(a: Moment, b: Moment) -> bool
    ensures { IsTrue result ↔ (moment_view a ≡ moment_view b) }
{
    a == b
}

/// Values of `Datetime` are equal if their moments are.
pub fn equal_datetimes(a: Datetime, b: Datetime) -> bool
    ensures { IsTrue result ↔ (moment_view a.moment ≡ moment_view b.moment) }
{
    a == b
}

/// Spans of time are equal if their seconds are.
pub fn equal_durations(a: Duration, b: Duration) -> bool
    ensures { IsTrue result ↔ (a.0 ≡ b.0) }
{
    a == b
}

/// Texts are equal if their characters are.
pub fn equal_strs(a: &Str, b: &Str) -> bool
    ensures { IsTrue result ↔ (text_view a.now.0 ≡ text_view b.now.0) }
{
    a == b
}

/// Sizes of icons are equal if both numbers are.
pub fn equal_icon_sizes(a: IconSize, b: IconSize) -> bool
    ensures { IsTrue result ↔ (a ≡ b) }
{
    a == b
}

/// Image candidates are equal if their sources and widths are.
pub fn equal_image_candidates(a: &ImageCandidate, b: &ImageCandidate) -> bool
    ensures { IsTrue result ↔ (image_candidate_view a.now ≡ image_candidate_view b.now) }
{
    a == b
}

/// Booleans written `true` and `false` are equal if they are the same.
pub fn equal_true_false(a: TrueFalseBool, b: TrueFalseBool) -> bool
    ensures { IsTrue result ↔ (a.0 ≡ b.0) }
{
    a == b
}

/// Booleans written `yes` and `no` are equal if they are the same.
pub fn equal_yes_no(a: YesNoBool, b: YesNoBool) -> bool
    ensures { IsTrue result ↔ (a.0 ≡ b.0) }
{
    a == b
}

/// Booleans written `on` and `off` are equal if they are the same.
pub fn equal_on_off(a: OnOffBool, b: OnOffBool) -> bool
    ensures { IsTrue result ↔ (a.0 ≡ b.0) }
{
    a == b
}

/// Horizontal directions are equal if they are the same.
pub fn equal_horizontal_dirs(a: HorizontalDir, b: HorizontalDir) -> bool
    ensures { IsTrue result ↔ (a ≡ b) }
{
    a == b
}

/// Every `none` is equal to every other.
pub fn equal_none_values(a: NoneValue, b: NoneValue) -> bool
    ensures { IsTrue result }
{
    a == b
}

/// Every none written as the empty text is equal to every other.
pub fn equal_none_empties(a: NoneEmpty, b: NoneEmpty) -> bool
    ensures { IsTrue result }
{
    a == b
}

/// Every `undefined` is equal to every other.
pub fn equal_none_undefineds(a: NoneUndefined, b: NoneUndefined) -> bool
    ensures { IsTrue result }
{
    a == b
}

/// Every `auto` is equal to every other.
pub fn equal_auto_values(a: AutoValue, b: AutoValue) -> bool
    ensures { IsTrue result }
{
    a == b
}
