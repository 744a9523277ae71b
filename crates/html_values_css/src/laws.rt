//! Laws of all css values. The contract of each function is a law.

ghost use Rattle.html_values_css.specs.{Lengths.{LengthValue, Nearest, RelValue}, Properties.{property_view}};
ghost use Rattle.html_values_css.specs.{PropertyLaws.{AnyOrder, PushSets, RemoveClears, ValuesDecide}, Sink.{GivenVector, HandsBegin}};
ghost use Rattle.html_values_css.specs.Sums.{SumWritten};
ghost use Rattle.std.specs.Prelude.{◌≡◌, ◌↔◌, IsTrue};

use crate::{
    Dir, Length, Paint, Properties, Property, Quantity, Rel, Rgba, Separator, Warning, WarningSink,
};

/// A push sets the value of its name, and no other value.
#[tactic(auto, using(crate::proofs::Pushes::push_sets))]
pub fn push_sets()
    ensures { PushSets }
{}

/// The values of the names determine the list of properties.
#[tactic(auto, using(crate::proofs::Pushes::values_decide))]
pub fn values_decide()
    ensures { ValuesDecide }
{}

/// After a remove, the name has no value, and the others keep theirs.
#[tactic(auto, using(crate::proofs::Pushes::remove_clears))]
pub fn remove_clears()
    ensures { RemoveClears }
{}

/// Pushing distinct names in any order makes the same properties and the same text.
#[tactic(auto, using(crate::proofs::Pushes::any_order))]
pub fn any_order()
    ensures { AnyOrder }
{}

/// The css text of a length equals, unit by unit, its parts, each rounded to four decimals.
#[tactic(auto, using(crate::proofs::Worth::length_value))]
pub fn length_value()
    ensures { LengthValue }
{}

/// The css text of a relative length equals, unit by unit, its parts, each rounded: the ratio to
/// two decimals of a percent, the others to four decimals.
#[tactic(auto, using(crate::proofs::Worth::rel_value))]
pub fn rel_value()
    ensures { RelValue }
{}

/// A quantity is rounded to the nearest hundred of its millionths, a half away from zero.
pub fn rounds_to_nearest()
    ensures { Nearest }
{}

/// A sum that is written part by part has its text.
#[tactic(auto, using(crate::proofs::Summing::sums))]
pub fn sum_is_written()
    ensures { SumWritten }
{}

/// A vector that receives warnings has them at its end, in order.
#[tactic(auto, using(crate::proofs::Giving::given_vector))]
pub fn given_vector()
    ensures { GivenVector }
{}

/// After a call that passes warnings to a sink, the sink's list begins as before, and a sink that
/// is a borrow is the same borrow.
pub fn hands_begin<S: WarningSink>(_sink: &S)
    ensures { HandsBegin S.warnings S.borrow S.emit_gives }
{}

/// Quantities of one unit are equal if their numbers are.
pub fn equal_quantities<U: Copy + PartialEq>(a: Quantity<U>, b: Quantity<U>) -> bool
    ensures { IsTrue result ↔ (a ≡ b) }
{
    a == b
}

/// Lengths are equal if all their fields are.
pub fn equal_lengths(a: Length, b: Length) -> bool
    ensures { IsTrue result ↔ (a ≡ b) }
{
    a == b
}

/// Relative lengths are equal if all their fields are.
pub fn equal_rels(a: Rel, b: Rel) -> bool
    ensures { IsTrue result ↔ (a ≡ b) }
{
    a == b
}

/// Colours are equal if all their fields are.
pub fn equal_colours(a: Rgba, b: Rgba) -> bool
    ensures { IsTrue result ↔ (a ≡ b) }
{
    a == b
}

/// Paints are equal if all their fields are.
pub fn equal_paints(a: Paint, b: Paint) -> bool
    ensures { IsTrue result ↔ (a ≡ b) }
{
    a == b
}

/// Directions are equal if they are the same.
pub fn equal_directions(a: Dir, b: Dir) -> bool
    ensures { IsTrue result ↔ (a ≡ b) }
{
    a == b
}

/// Warnings are equal if they are the same.
pub fn equal_warnings(a: Warning, b: Warning) -> bool
    ensures { IsTrue result ↔ (a ≡ b) }
{
    a == b
}

/// Separators are equal if they are the same.
pub fn equal_separators(a: Separator, b: Separator) -> bool
    ensures { IsTrue result ↔ (a ≡ b) }
{
    a == b
}

/// Properties are equal if their names and values are.
pub fn equal_property(a: &Property, b: &Property) -> bool
    ensures { IsTrue result ↔ (property_view a.now ≡ property_view b.now) }
{
    a == b
}

/// Property maps are equal if their lists of names and values are.
pub fn equal_properties(a: &Properties, b: &Properties) -> bool
    ensures { IsTrue result ↔ (a.now ≡ b.now) }
{
    a == b
}
