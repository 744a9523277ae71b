//! Maps and sets of locations.

ghost use Rattle.std.specs.Prelude.{◌≡◌, ℕ, ◌==◌, ◌||◌, [], ◌∷◌, IfOk, OnOk};
ghost use Rattle.html_dom_tree.specs.Attributes.{or_else};
ghost use Rattle.html_dom_document.specs.Introspectors.{position_in, location_text, has_location};
ghost use Rattle.html_dom_document.specs.Places.{first_position, is_destination, is_among};
ghost use Rattle.html_dom_document.specs.Records.{place_view, places_view, locations_view};

use crate::placed_tag::PlacedTag;
use crate::position::HtmlPosition;
use html_dom_tree::Location;
use std::alloc::{AllocError, Global};
use std::collections::{BTreeMap, BTreeSet};

pub(crate) fn first_positions(
    alloc: Global,
    places: Vec<PlacedTag>,
) -> Result<BTreeMap<Location, HtmlPosition>, AllocError>
    ensures { IfOk result (λ positions. (location : ℕ) →
        position_in positions location ≡ first_position (places_view places.items) location) }
{
    let mut positions = BTreeMap::new(alloc);
    for place in places {
        add_position(&mut positions, place)?;
    }
    Ok(positions)
}

fn add_position(
    positions: &mut BTreeMap<Location, HtmlPosition>,
    place: PlacedTag,
) -> Result<(), AllocError>
    ensures { OnOk result ((location : ℕ) → position_in positions.new location
        ≡ or_else (position_in positions.old location)
        (first_position (place_view place ∷ []) location)) }
{
    if !positions.contains_key(&place.location) {
        positions.insert(place.location, place.position)?;
    }
    Ok(())
}

fn add(locations: &mut BTreeSet<Location>, location: Location) -> Result<(), AllocError>
    ensures { OnOk result ((other : ℕ) →
        has_location locations.new other ≡ (has_location locations.old other || (location.0 == other))) }
{
    locations.insert(location)?;
    Ok(())
}

pub(crate) fn destinations(
    alloc: Global,
    places: &[PlacedTag],
) -> Result<BTreeSet<Location>, AllocError>
    ensures { IfOk result (λ locations. (location : ℕ) →
        has_location locations location ≡ is_destination (places_view places.now) location) }
{
    let mut locations = BTreeSet::new(alloc);
    for place in places {
        if let Some(dest) = place.dest {
            add(&mut locations, dest)?;
        }
    }
    Ok(locations)
}

pub(crate) fn location_set(
    alloc: Global,
    list: &[Location],
) -> Result<BTreeSet<Location>, AllocError>
    ensures { IfOk result (λ locations. (location : ℕ) →
        has_location locations location ≡ is_among (locations_view list.now) location) }
{
    let mut locations = BTreeSet::new(alloc);
    for location in list {
        add(&mut locations, *location)?;
    }
    Ok(locations)
}

pub(crate) fn add_all(
    locations: &mut BTreeSet<Location>,
    others: &BTreeSet<Location>,
) -> Result<(), AllocError>
    ensures { OnOk result ((location : ℕ) →
        has_location locations.new location ≡ (has_location locations.old location || has_location others.now location)) }
{
    for location in others {
        add(locations, *location)?;
    }
    Ok(())
}

pub(crate) fn copy_set(locations: &BTreeSet<Location>) -> Result<BTreeSet<Location>, AllocError>
    ensures { IfOk result (λ copy. (location : ℕ) →
        has_location copy location ≡ has_location locations.now location) }
{
    locations.clone()
}

pub(crate) fn copy_positions(
    positions: &BTreeMap<Location, HtmlPosition>,
) -> Result<BTreeMap<Location, HtmlPosition>, AllocError>
    ensures { IfOk result (λ copy. (location : ℕ) →
        position_in copy location ≡ position_in positions.now location) }
{
    let copy = positions.clone()?;
    Ok(copy)
}

pub(crate) fn copy_texts(
    texts: &BTreeMap<Location, String>,
) -> Result<BTreeMap<Location, String>, AllocError>
    ensures { IfOk result (λ copy. (location : ℕ) →
        location_text copy location ≡ location_text texts.now location) }
{
    let copy = texts.clone()?;
    Ok(copy)
}
