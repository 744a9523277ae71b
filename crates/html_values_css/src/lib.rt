//! Css values: quantities, colours, their texts, and maps of properties; and the faults of casts,
//! which the layers above report too. A part of html_values, which re-exports these names.
//!
//! In contracts a text is a list of characters, and a quantity a whole number of millionths.
//!
//! ```
//! use html_values::{Abs, Em, Length, Paint, ToCss, Warning};
//!
//! let em = Em::from_millionths(1_500_000);
//! let abs = Abs::from_millionths(-2_000_000);
//! let mut warnings = Vec::new(rt.alloc());
//! let width = Length { em, abs }.to_css(rt.alloc(), &mut warnings)?;
//! assert_eq!(rt; width.as_str(), "calc(1.5em - 2pt)");
//! let none = Paint::Gradient.to_css(rt.alloc(), &mut warnings)?;
//! assert!(rt; none.is_empty() && warnings.as_slice() == [Warning::Gradient].as_slice());
//! ```
#![tactic(auto)]

mod builder;
mod calc;
mod call;
mod cast_fault;
mod direction;
mod fixed;
mod inline;
pub mod laws;
mod length;
mod paint;
mod properties;
mod property;
mod property_list;
mod quantity;
mod sink;
mod to_css;
mod writer;

pub use builder::PropertiesBuilder;
pub use calc::{Calc, CalcPart};
pub use call::{Call, Separator};
pub use cast_fault::CastFault;
pub use direction::Dir;
pub use inline::Inline;
pub use length::{Length, Rel};
pub use paint::{Paint, Rgba};
pub use properties::Properties;
pub use property::Property;
pub use quantity::{Abs, Angle, Degrees, Em, Ems, Points, Quantity, Ratio, Unit, Whole};
pub use sink::{Warning, WarningSink};
pub use to_css::ToCss;
pub use writer::CssWriter;
