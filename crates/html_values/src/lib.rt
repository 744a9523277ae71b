//! Typed values of attributes: their texts, and the types of attributes that cast values of a
//! document to texts; also the css values of `html_values_css`, and the civil dates and times in a
//! [`Moment`], as [`civil`].
//!
//! ```
//! use html_values::{Datetime, Duration, IntoAttr, Moment, civil};
//!
//! let alloc = rt.alloc();
//! let day = Datetime::new(Moment::Date(civil::date(2024, 2, 9)))?;
//! assert_eq!(rt; day.into_attr(alloc)?.as_str(), "2024-02-09");
//! let time = Duration(694_861).into_attr(alloc)?;
//! assert_eq!(rt; time.as_str(), "1w 1d 1h 1m 1s");
//! ```
//!
//! In contracts a text is a list of characters.
#![tactic(auto)]

mod attr_type;
mod cast;
mod duration;
mod image;
mod into_attr;
pub mod laws;
mod moment;
mod native_type;
mod text;
mod value;
mod words;

pub use attr_type::{AttrType, ListType};
pub use duration::Duration;
pub use html_values_css::{
    Abs, Angle, Calc, CalcPart, Call, CastFault, CssWriter, Dir, Em, Inline, Length, Paint,
    Properties, PropertiesBuilder, Property, Ratio, Rel, Rgba, Separator, ToCss, Warning,
    WarningSink,
};
pub use image::{IconSize, ImageCandidate};
pub use into_attr::{IntoAttr, Str};
pub use jiff::civil;
pub use moment::{Datetime, Moment};
pub use native_type::NativeType;
pub use value::Value;
pub use words::{
    AutoValue, HorizontalDir, NoneEmpty, NoneUndefined, NoneValue, OnOffBool, TrueFalseBool,
    YesNoBool,
};
