//! Numbers of texts in slots that a hash selects, and in an ordered map where texts collide.

ghost use Rattle.std.specs.{BTreeMap.{get_by_text}, Prelude.{◌≡◌, ◌+◌, ◌*◌, ◌-◌, ◌%◌, ◌^◌, bit_and, bit_xor, IfOk}};
ghost use Rattle.html_names_table.specs.OwnNumbers.{slot_of, slot_number, HoldsNoText, PutsText};

use std::alloc::{AllocError, Global};
use std::collections::BTreeMap;

/// The number in a free slot.
const NO_NUMBER: usize = usize::MAX;

/// The fewest slots for each name.
const SLOTS_PER_NAME: usize = 4;

/// How many slots the first name makes.
const FIRST_SLOTS: usize = 16;

/// What each byte of a text multiplies the hash by.
const FACTOR: usize = 0x0100_0193;

/// The numbers of names that are not known. A hash of its text selects a slot for each name, which
/// holds the number of the first name that took it. The other names that have the slot are in an
/// ordered map. The hash has no secret, but names that are chosen to share a slot cost no more than
/// the map does.
#[derive(Drop)]
pub(crate) struct OwnNumbers {
    /// None, or a power of two.
    slots: Vec<usize>,
    rest: BTreeMap<String, usize>,
}

impl OwnNumbers {
    pub(crate) fn new(alloc: Global) -> OwnNumbers
        ensures { HoldsNoText result }
    {
        OwnNumbers {
            slots: Vec::new(alloc),
            rest: BTreeMap::new(alloc),
        }
    }

    /// Returns the number in the slot of a text: one that no name has if the slot is free.
    pub(crate) fn slot_number(&self, text: &str) -> usize
        ensures { result ≡ slot_number self.now text.now }
    {
        match self.slots.get(slot_of(text, self.slots.len())) {
            Some(number) => *number,
            None => 0,
        }
    }

    /// Returns the number of a text that is in the map.
    pub(crate) fn rest_number(&self, text: &str) -> Option<usize>
        ensures { result ≡ get_by_text self.now.rest text.now }
    {
        self.rest.get(text).copied()
    }

    /// Returns whether there are too few slots for so many names and one more.
    pub(crate) fn are_few(&self, names: usize) -> bool {
        self.slots.len() / SLOTS_PER_NAME <= names
    }

    /// Returns the numbers of no names, with twice as many slots.
    pub(crate) fn wider(&self) -> Result<OwnNumbers, AllocError>
        ensures { IfOk result (λ wider. HoldsNoText wider) }
    {
        let alloc = *self.slots.allocator();
        let mut slots = Vec::new(alloc);
        slots.resize(
            self.slots.len().saturating_mul(2).max(FIRST_SLOTS),
            NO_NUMBER,
        )?;
        Ok(OwnNumbers {
            slots,
            rest: BTreeMap::new(alloc),
        })
    }

    /// Sets the number of a text that has none, where the other texts have lower numbers.
    pub(crate) fn put(&mut self, text: &str, number: usize) -> Result<(), AllocError>
        ensures { PutsText result self.old self.new text.now number }
    {
        let slot = slot_of(text, self.slots.len());
        if slot < self.slots.len() && self.slots[slot] >= number {
            self.slots[slot] = number;
            return Ok(());
        }
        let text = String::from_str(*self.slots.allocator(), text)?;
        self.rest.insert(text, number)?;
        Ok(())
    }
}

/// Returns the slot of a text among so many slots.
#[tactic(auto, unfolding(crate::specs::OwnNumbers::slot_of))]
fn slot_of(text: &str, count: usize) -> usize
    ensures { result ≡ slot_of text.now count }
{
    let hash = text.bytes().fold(
        0,
        |hash: usize, byte| (hash ^ byte as usize).wrapping_mul(FACTOR),
    );
    hash & count.saturating_sub(1)
}
