//! The set of kinds that the name of an element has, by its place in a table.

ghost use Rattle.std.specs.Prelude.{◌≡◌, chars, map};
ghost use Rattle.html_names_core.specs.Held.{IsLookup};
ghost use Rattle.html_page_names.specs.Kinds.{IsKindsOf, has};

use crate::kind::Kind;
use crate::kind_table::{KIND_BITS, NAMES, STARTS};
use html_names_core::lookup::place_in;

/// The kinds of a name.
#[derive(Clone, Copy, Debug)]
pub struct Kinds {
    bits: u64,
}

impl Kinds {
    /// Returns whether that kind is one of them.
    pub fn has(self, kind: Kind) -> bool
        ensures { result ≡ has self kind }
    {
        self.bits & kind.bit() != 0
    }
}

#[tactic(auto, using(crate::proofs::KindTable::names_ascii, crate::proofs::KindTable::names_started))]
fn place_of(name: &str) -> Option<u8>
    ensures { IsLookup (map (λ n. n.now) NAMES) (chars name.now) result }
{
    place_in(&NAMES, &STARTS, name)
}

/// Returns the kinds of the name of an element, as it stands in the page's tree.
///
/// ```
/// use html_page_names::{Kind, kinds_of};
///
/// let kinds = kinds_of("h2");
/// assert!(rt; kinds.has(Kind::Heading));
/// assert!(rt; !kinds.has(Kind::Formatting));
/// assert!(rt; !kinds_of("my-card").has(Kind::Special));
/// ```
#[tactic(auto, using(crate::proofs::KindTable::of_known, crate::proofs::KindTable::of_unknown, crate::proofs::KindTable::names_long))]
pub fn kinds_of(name: &str) -> Kinds
    ensures { IsKindsOf (chars name.now) result }
{
    match place_of(name) {
        Some(place) => Kinds {
            bits: KIND_BITS[place as usize],
        },
        None => Kinds { bits: 0 },
    }
}
