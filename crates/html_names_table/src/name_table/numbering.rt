//! The numbers of the names of one kind.

ghost use Rattle.std.specs.Prelude.{◌≡◌, ◌<◌, ◌^◌, ◌∷◌, ◌++◌, [], ℕ, length, map, false, chars, OnOk, OnErr, IfErr};
ghost use Rattle.html_names_core.specs.Names.{stands_in};
ghost use Rattle.html_names_table.specs.NameTables.{Numbers, IsNumbered, name_at, number_where, with_name};
ghost use Rattle.html_names_table.specs.{Numberings.{known_number, PutsKnown, IsNumbering}, OwnNumbers.{IsOwnNumbering}};

use super::numbered::Numbered;
use super::own_numbers::OwnNumbers;
use html_names_core::Refused;
use std::alloc::{AllocError, Global};
use std::marker::Model;

/// Names of one kind that have a number, in the order of their numbers.
///
/// In contracts it is their texts. The number of a known name is found by its place, that of
/// another by its text.
#[derive(Drop)]
pub(crate) struct Numbering<N: Numbered> {
    kept: Vec<N>,
    known: Vec<Option<usize>>,
    own: OwnNumbers,
}

impl<N: Numbered> Model for Numbering<N> {
    ghost use Rattle.std.specs.Prelude.{ℕ, List, map};

    ghost Value = { List (List ℕ) };

    ghost use Rattle.html_names_table.specs.Numberings.{IsNumbering};

    ghost view = { λ t. map N.text t.kept.items };

    ghost invariant = { λ t. IsNumbering N.known t.known.items t.own (map N.text t.kept.items) };
}

impl<N: Numbered> Numbering<N> {
    pub(crate) fn new(alloc: Global) -> Numbering<N>
        ensures { result ≡ [] }
    {
        Numbering {
            kept: Vec::new(alloc),
            known: Vec::new(alloc),
            own: OwnNumbers::new(alloc),
        }
    }

    /// Returns the number of a name: its own if it has one, otherwise the next.
    #[inline(always)]
    pub(crate) fn number(&mut self, name: &N) -> Result<usize, AllocError>
        ensures { Numbers result self.old self.new (N.text name.now) self.old self.new
            (with_name self.old (N.text name.now)) }
    {
        if let Some(number) = self.number_of(name) {
            return Ok(number);
        }
        Ok(self.add(name.copy()?)?)
    }

    /// Consumes a name and returns its number, as `number` does.
    #[inline(always)]
    pub(crate) fn insert(&mut self, name: N) -> Result<usize, Refused<N>>
        ensures number { Numbers result self.old self.new (N.text name) self.old self.new
            (with_name self.old (N.text name)) }
        ensures back { IfErr result (λ refused. refused.back ≡ name) }
    {
        if let Some(number) = self.number_of(&name) {
            return Ok(number);
        }
        self.add(name)
    }

    #[inline(always)]
    fn number_of(&self, name: &N) -> Option<usize>
        ensures { result ≡ number_where self.now (N.text name.now) }
    {
        match name.place() {
            Some(place) => number_at(&self.known, place),
            None => self.find(name.as_str()),
        }
    }

    #[inline(never)]
    fn find(&self, text: &str) -> Option<usize>
        requires { stands_in N.known (chars text.now) ≡ false }
        ensures { result ≡ number_where self.now (chars text.now) }
    {
        let number = self.own.slot_number(text);
        if number < self.kept.len() && self.kept[number].as_str() == text {
            return Some(number);
        }
        self.own.rest_number(text)
    }

    fn add(&mut self, name: N) -> Result<usize, Refused<N>>
        requires { stands_in self.old (N.text name) ≡ false }
        ensures number { Numbers result self.old self.new (N.text name) self.old self.new
            (with_name self.old (N.text name)) }
        ensures back { IfErr result (λ refused. refused.back ≡ name) }
    {
        let number = self.kept.len();
        if self.kept.reserve(1).is_err() {
            return Err(Refused { back: name });
        }
        match number_next(&mut self.known, &mut self.own, &self.kept, &name) {
            Ok(()) => {
                self.kept.push_reserved(name);
                Ok(number)
            }
            Err(AllocError) => Err(Refused { back: name }),
        }
    }

    /// Returns how many names have a number.
    pub(crate) fn len(&self) -> usize
        ensures count { result ≡ length self.now }
        ensures numbered { IsNumbered self.now }
    {
        self.kept.len()
    }

    /// Returns the name with this number.
    pub(crate) fn at(&self, number: usize) -> &N
        requires { number < length self.now }
        ensures { N.text result.now ≡ name_at self.now number }
    {
        &self.kept[number]
    }
}

/// Sets the number of a new name, which is the next.
fn number_next<N: Numbered>(
    known: &mut Vec<Option<usize>>,
    own: &mut OwnNumbers,
    kept: &[N],
    name: &N,
) -> Result<(), AllocError>
    requires new { stands_in (map N.text kept.now) (N.text name.now) ≡ false }
    requires was { IsNumbering N.known known.old.items own.old (map N.text kept.now) }
    ensures next { OnOk result (IsNumbering N.known known.new.items own.new
        (map N.text kept.now ++ N.text name.now ∷ [])) }
    ensures kept { OnErr result (IsNumbering N.known known.new.items own.new
        (map N.text kept.now)) }
{
    match name.place() {
        Some(place) => put_known(known, place, kept.len()),
        None => {
            if own.are_few(kept.len()) {
                widen(own, kept)?;
            }
            own.put(name.as_str(), kept.len())
        }
    }
}

#[inline(always)]
fn number_at(known: &[Option<usize>], place: u8) -> Option<usize>
    ensures { result ≡ known_number known.now place }
{
    match known.get(place as usize) {
        Some(number) => *number,
        None => None,
    }
}

/// Sets the number of a known name. If an allocation fails, each name keeps its number.
fn put_known(known: &mut Vec<Option<usize>>, place: u8, number: usize) -> Result<(), AllocError>
    ensures { PutsKnown result known.old.items known.new.items place number }
{
    let place = place as usize;
    make_room(known, place)?;
    known[place] = Some(number);
    Ok(())
}

fn make_room(known: &mut Vec<Option<usize>>, place: usize) -> Result<(), AllocError>
    requires { place < 2 ^ 8 }
    ensures room { OnOk result (place < length known.new.items) }
    ensures same { (p : ℕ) → known_number known.new.items p ≡ known_number known.old.items p }
{
    if known.len() <= place {
        known.resize(place + 1, None)?;
    }
    Ok(())
}

/// Finds a slot for each of the names anew, among twice as many. If an allocation fails, nothing
/// changes.
fn widen<N: Numbered>(own: &mut OwnNumbers, kept: &[N]) -> Result<(), AllocError>
    requires all { IsNumbered (map N.text kept.now) }
    requires was { IsOwnNumbering N.known own.old (map N.text kept.now) }
    ensures { IsOwnNumbering N.known own.new (map N.text kept.now) }
{
    let mut wider = own.wider()?;
    for (number, name) in kept.iter().enumerate() {
        if name.place().is_none() {
            wider.put(name.as_str(), number)?;
        }
    }
    *own = wider;
    Ok(())
}
