//! Laws of this crate's types, as contracts of functions: what `==` tests.

ghost use Rattle.std.specs.Prelude.{◌≡◌, ◌↔◌, IsTrue};

use crate::convert::{ConversionLevel, Whitespace};
pub use html_flow_faults::laws::{equal_construct_faults, equal_flow_faults};

/// Treatments of white space are equal if they are the same.
pub fn equal_whitespaces(a: Whitespace, b: Whitespace) -> bool
    ensures { IsTrue result ↔ (a ≡ b) }
{
    a == b
}

/// Levels are equal if they are the same.
pub fn equal_conversion_levels(a: ConversionLevel, b: ConversionLevel) -> bool
    ensures { IsTrue result ↔ (a ≡ b) }
{
    a == b
}
