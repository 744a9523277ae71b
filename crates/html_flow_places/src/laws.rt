//! Laws of names of places, as contracts of functions.

ghost use Rattle.std.specs.Prelude.{◌≡◌, ◌↔◌, bytes_eq, chars, IsTrue, IfOk, OnErr, OnOk, false};
ghost use Rattle.html_names_core.specs.Names.{stands_in};
ghost use Rattle.html_names_table.specs.NameTables.{with_name};
ghost use Rattle.html_flow_places.specs.NamedLocations.{LocatesBoth};

use crate::NamedPlaces;
use std::alloc::AllocError;

/// Two names have the same location exactly if they are equal.
#[tactic(auto, using(crate::proofs::NamedLocations::equal_locations))]
pub fn equal_name_locations(places: &mut NamedPlaces, a: &str, b: &str) -> Result<bool, AllocError>
    ensures locations { IfOk result (λ same. IsTrue same ↔ (chars a.now ≡ chars b.now)) }
    ensures names { LocatesBoth result (chars a.now) (chars b.now) places.old places.new }
{
    Ok(places.location(a)? == places.location(b)?)
}

/// A location stays when another name gets one.
#[tactic(auto, using(crate::proofs::NamedLocations::stays))]
pub fn name_location_stays(
    places: &mut NamedPlaces,
    given: &str,
    other: &str,
) -> Result<bool, AllocError>
    ensures locations { IfOk result (λ same. IsTrue same) }
    ensures names { LocatesBoth result (chars given.now) (chars other.now) places.old places.new }
{
    let location = places.location(given)?;
    places.location(other)?;
    Ok(places.location(given)? == location)
}

/// The name at the location of a name is that name.
pub fn name_at_location(places: &mut NamedPlaces, given: &str) -> Result<bool, AllocError>
    ensures locations { IfOk result (λ same. IsTrue same) }
    ensures names { OnOk result (places.new ≡ with_name places.old (chars given.now)) }
    ensures absent { OnErr result (stands_in places.old (chars given.now) ≡ false) }
    ensures kept { OnErr result (places.new ≡ places.old) }
{
    let location = places.location(given)?;
    match places.name(location) {
        Some(name) => Ok(same_text(name, given)),
        None => Ok(false),
    }
}

#[tactic(auto, using(html_names_core::proofs::Lists::in_characters))]
fn same_text(a: &str, b: &str) -> bool
    ensures { result ≡ bytes_eq (chars a.now) (chars b.now) }
{
    a == b
}
