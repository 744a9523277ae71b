//! Laws of this crate's types, as contracts of functions.

ghost use Rattle.std.specs.Prelude.{◌≡◌, ◌↔◌, IsTrue};

use crate::property::Display;
use crate::{NameFault, Refused};

/// Displays are equal if they are the same.
pub fn equal_displays(a: Display, b: Display) -> bool
    ensures { IsTrue result ↔ (a ≡ b) }
{
    a == b
}

/// Faults of names are equal if they are the same variant with the same character.
pub fn equal_name_faults(a: NameFault, b: NameFault) -> bool
    ensures { IsTrue result ↔ (a ≡ b) }
{
    a == b
}

/// Two `Refused` are equal if the values in `back` are.
pub fn equal_refused<T: PartialEq>(a: &Refused<T>, b: &Refused<T>) -> bool
    ensures { result ≡ T.eq a.now.back b.now.back }
{
    a == b
}
