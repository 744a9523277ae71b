//! The map from names of places to locations, which appends places and links to a list of items.

ghost use Rattle.std.specs.Prelude.{◌≡◌, ◌+◌, ◌≤◌, ◌++◌, [], chars, false, vec_len, vec_capacity, option_map, OnErr, OnOk, IfErr, IfOk};
ghost use Rattle.html_names_core.specs.Names.{stands_in};
ghost use Rattle.html_names_table.specs.NameTables.{with_name};
ghost use Rattle.html_flow_convert.specs.Views.{elem_view, pairs_view};
ghost use Rattle.html_flow_places.specs.HeldLocations.{Puts};
ghost use Rattle.html_flow_places.specs.NamedLocations.{GivesLocation, location_in, name_of, place_items, link_items};

use html_dom_tree::Location;
use html_flow_convert::{HtmlElem, Item, Pair, push_located_reserved};
use html_names_core::Refused;
use std::alloc::{AllocError, Global};
use std::collections::BTreeMap;
use std::fmt;
use std::marker::Model;

/// Maps the names of places to locations, so that a converter of documents needs no map of its own:
/// each name gets the next location, from 1 on, when it is first requested, and keeps it. So a link
/// may come before the place that it leads to.
///
/// A name is that of the place to which a link leads: what html_dom's `place_in` returns for its
/// `href`, or `decoded_fragment` where the names of places are not known. It is the label of its
/// place, so an element without an `id` gets it as its `id` if a link leads there.
///
/// A document that has locations of its own too must not use these. No name has `Location(0)`,
/// which each link gets.
///
/// In contracts it is the list of names, in the order of their locations.
///
/// ```
/// use html_dom::Location;
/// use html_flow::NamedPlaces;
///
/// let mut places = NamedPlaces::new(rt.alloc());
/// assert!(rt; places.location("tides")? == Location(1));
/// assert!(rt; places.location("the moon")? == Location(2));
/// assert!(rt; places.location("tides")? == Location(1));
/// assert_eq!(rt; places.name(Location(2)), Some("the moon"));
/// assert_eq!(rt; places.name(Location(3)), None);
/// ```
#[derive(Drop)]
pub struct NamedPlaces {
    names: Vec<String>,
    locations: BTreeMap<String, Location>,
}

impl Model for NamedPlaces {
    ghost use Rattle.std.specs.Prelude.{ℕ, List};

    ghost Value = { List (List ℕ) };

    ghost use Rattle.html_names_core.specs.Texts.{texts_view};
    ghost use Rattle.html_flow_places.specs.HeldLocations.{IsLocating};

    ghost view = { λ p. texts_view p.names.items };

    ghost invariant = { λ p. IsLocating p.locations (texts_view p.names.items) };
}

impl NamedPlaces {
    /// Creates a map in which no name has a location yet. Allocates nothing.
    pub fn new(alloc: Global) -> NamedPlaces
        ensures { result ≡ [] }
    {
        NamedPlaces {
            names: Vec::new(alloc),
            locations: BTreeMap::new(alloc),
        }
    }

    /// Returns the location of a name: the one that it has, or else the next.
    ///
    /// If an allocation fails, the names are unchanged. A name that has a location needs no
    /// allocation.
    ///
    /// Takes the time of a search in an ordered map.
    pub fn location(&mut self, name: &str) -> Result<Location, AllocError>
        ensures { GivesLocation result (chars name.now) self.old self.new }
    {
        if let Some(location) = self.locations.get(name) {
            return Ok(*location);
        }
        self.add(name)
    }

    fn add(&mut self, name: &str) -> Result<Location, AllocError>
        requires { stands_in self.old (chars name.now) ≡ false }
        ensures { GivesLocation result (chars name.now) self.old self.new }
    {
        let alloc = *self.names.allocator();
        self.names.push(String::from_str(alloc, name)?)?;
        let location = Location(self.names.len() as u64);
        if let Err(fault) = put(&mut self.locations, alloc, name, location) {
            self.names.pop();
            return Err(fault);
        }
        Ok(location)
    }

    /// Returns the name with that location, if there is one.
    ///
    /// Takes constant time.
    pub fn name(&self, location: Location) -> Option<&str>
        ensures { option_map (λ name. chars name.now) result ≡ name_of self.now location.0 }
    {
        let number = location.0.checked_sub(1)?;
        Some(self.names.get(number as usize)?.as_str())
    }

    /// Appends an element as the place of that name, between two tags that locate it:
    /// `push_located` with the name's location, the name as the label, from which its anchor is
    /// named, and no destination. If an allocation fails, list and names are unchanged, and the
    /// error holds the element.
    ///
    /// ```
    /// use html_dom::Location;
    /// use html_flow::{HtmlElem, NamedPlaces};
    /// use html_names::tag;
    ///
    /// let alloc = rt.alloc();
    /// let (mut places, mut items) = (NamedPlaces::new(alloc), Vec::new(alloc));
    /// let heading = HtmlElem::new(alloc, tag::h2).with_text(alloc, "Tides")?;
    /// places.push_place(&mut items, "tides", heading)?;
    /// assert_eq!(rt; items.len(), 3);
    /// assert_eq!(rt; places.name(Location(1)), Some("tides"));
    /// ```
    pub fn push_place(
        &mut self,
        items: &mut Vec<Pair>,
        name: &str,
        element: HtmlElem,
    ) -> Result<(), Refused<HtmlElem>>
        ensures ok { OnOk result (pairs_view items.new.items ≡ pairs_view items.old.items
            ++ place_items self.old (chars name.now) (elem_view element)) }
        ensures names { OnOk result (self.new ≡ with_name self.old (chars name.now)) }
        ensures kept { OnErr result
            ((pairs_view items.new.items ≡ pairs_view items.old.items) × (self.new ≡ self.old)) }
        ensures back { IfErr result (λ refused. refused.back ≡ element) }
    {
        let Ok(label) = String::from_str(*self.names.allocator(), name) else {
            return Err(Refused { back: element });
        };
        let Ok(location) = location_with_room(self, items, name) else {
            return Err(Refused { back: element });
        };
        let item = Item::Element(element);
        push_located_reserved(items, location, Some(label), None, item);
        Ok(())
    }

    /// Appends an element as a link to the place of that name, between two tags that locate it:
    /// `push_located` with `Location(0)`, no label, and the name's location as the destination. If
    /// an allocation fails, list and names are unchanged, and the error holds the element.
    ///
    /// ```
    /// use html_flow::{HtmlElem, NamedPlaces};
    /// use html_names::tag;
    ///
    /// let alloc = rt.alloc();
    /// let (mut places, mut items) = (NamedPlaces::new(alloc), Vec::new(alloc));
    /// let link = HtmlElem::new(alloc, tag::a).with_text(alloc, "See below")?;
    /// places.push_link(&mut items, "tides", link)?;
    /// places.push_place(&mut items, "tides", HtmlElem::new(alloc, tag::h2))?; // where it leads
    /// assert_eq!(rt; items.len(), 6);
    /// ```
    pub fn push_link(
        &mut self,
        items: &mut Vec<Pair>,
        name: &str,
        element: HtmlElem,
    ) -> Result<(), Refused<HtmlElem>>
        ensures ok { OnOk result (pairs_view items.new.items ≡ pairs_view items.old.items
            ++ link_items self.old (chars name.now) (elem_view element)) }
        ensures names { OnOk result (self.new ≡ with_name self.old (chars name.now)) }
        ensures kept { OnErr result
            ((pairs_view items.new.items ≡ pairs_view items.old.items) × (self.new ≡ self.old)) }
        ensures back { IfErr result (λ refused. refused.back ≡ element) }
    {
        let Ok(destination) = location_with_room(self, items, name) else {
            return Err(Refused { back: element });
        };
        let item = Item::Element(element);
        push_located_reserved(items, Location(0), None, Some(destination), item);
        Ok(())
    }
}

/// Returns the location of a name, as `NamedPlaces::location` does, and makes room in a list for
/// the three items of a place or a link. If an allocation fails, list and names are unchanged.
pub fn location_with_room(
    places: &mut NamedPlaces,
    items: &mut Vec<Pair>,
    name: &str,
) -> Result<Location, AllocError>
    ensures location { IfOk result (λ l. l.0 ≡ location_in places.old (chars name.now)) }
    ensures names { OnOk result (places.new ≡ with_name places.old (chars name.now)) }
    ensures kept { OnErr result (places.new ≡ places.old) }
    ensures items { items.new.items ≡ items.old.items }
    ensures room { OnOk result (vec_len items.new + 3 ≤ vec_capacity items.new) }
{
    items.reserve(3)?;
    places.location(name)
}

/// Sets the location of the name. If an allocation fails, each name keeps the one that it had.
fn put(
    locations: &mut BTreeMap<String, Location>,
    alloc: Global,
    name: &str,
    location: Location,
) -> Result<(), AllocError>
    ensures { Puts result locations.old locations.new name.now location }
{
    locations.insert(String::from_str(alloc, name)?, location)?;
    Ok(())
}

/// `NamedPlaces`
impl fmt::Debug for NamedPlaces {
    ghost use Rattle.std.specs.Prelude.{codes, Some};

    ghost debug_output = { λ _. Some (codes "NamedPlaces") };

    fn fmt<W: fmt::Write>(&self, f: &mut fmt::Formatter<W>) -> fmt::Result {
        write!(f, "NamedPlaces")
    }
}
