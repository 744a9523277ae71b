//! Laws of this crate's definitions, as contracts of functions: the locations of footnotes.

ghost use Rattle.std.specs.Prelude.{◌<◌, ◌≤◌, ◌^◌};
ghost use Rattle.html_flow_lists.specs.NoteLaws.{AreDifferent, AreHigh};

/// The locations of a note and of its mark are above 2^63; no place whose location is counted from
/// 1 up has one there. No list is as long as the number required here.
pub fn note_locations_are_high(number: u64)
    requires some { 1 ≤ number }
    requires few { number < 2 ^ 59 }
    ensures { AreHigh number }
{}

/// The locations of notes and of their marks are all different.
pub fn note_locations_differ(number: u64, other: u64)
    requires few { number < 2 ^ 59 }
    requires few_others { other < 2 ^ 59 }
    ensures { AreDifferent number other }
{}
