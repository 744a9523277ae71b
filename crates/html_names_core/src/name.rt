//! The representation of a name: the index of a known one, or the text of any other.

ghost use Rattle.std.specs.Prelude.{◌≡◌, OnErr, IfOk, length, chars, IsTrue, None};
ghost use Rattle.html_names_core.specs.{Names.{texts, are_ascii}, Tables.{tag_count}};

use crate::property::Display;
use crate::table::{DISPLAYS, KINDS};
use std::alloc::{AllocError, Global};

#[derive(Drop)]
pub(crate) enum Name {
    /// The index of a known name in its table.
    Known(u8),
    /// The text of another name.
    Own(String),
}

impl Name {
    ghost use Rattle.html_names_core.specs.ByNumber.{name_has, name_display};
    ghost use Rattle.html_names_core.specs.Held.{held_text, IsWithin, IsMade, same_held, IsOwn, IsCopy};

    #[tactic(auto, using(crate::proofs::Held::known_text))]
    pub(crate) fn as_str(&self, table: &'static [&'static str]) -> &str
        requires ascii { IsTrue (are_ascii (texts table.now)) }
        requires within { IsWithin (length table.now) self.now }
        ensures { chars result.now ≡ held_text (texts table.now) self.now }
    {
        match self {
            Name::Known(place) => table[*place as usize],
            Name::Own(text) => text.as_str(),
        }
    }

    /// Creates the name with this text, from the index if there is one, otherwise from the text.
    pub(crate) fn make(alloc: Global, place: Option<u8>, text: &str) -> Result<Name, AllocError>
        ensures name { IfOk result (IsMade place (chars text.now)) }
        ensures memory { OnErr result (place ≡ None) }
    {
        match place {
            Some(place) => Ok(Name::Known(place)),
            None => Ok(Name::Own(String::from_str(alloc, text)?)),
        }
    }

    #[inline(always)]
    pub(crate) fn is_same(&self, other: &Name) -> bool
        ensures { result ≡ same_held self.now other.now }
    {
        match (self, other) {
            (Name::Known(place), Name::Known(other_place)) => *place == *other_place,
            (Name::Own(text), Name::Own(other_text)) => text.as_str() == other_text.as_str(),
            (Name::Known(_), Name::Own(_)) => false,
            (Name::Own(_), Name::Known(_)) => false,
        }
    }

    pub(crate) fn try_clone(&self) -> Result<Name, AllocError>
        ensures copy { IfOk result (λ name. IsCopy name self.now) }
        ensures memory { OnErr result (IsOwn self.now) }
    {
        match self {
            Name::Known(place) => Ok(Name::Known(*place)),
            Name::Own(text) => Ok(Name::Own(text.clone()?)),
        }
    }

    /// Returns whether it is the name of a known tag of this kind.
    pub(crate) fn is_of(&self, kind: u32) -> bool
        requires { IsWithin tag_count self.now }
        ensures { result ≡ name_has kind self.now }
    {
        match self {
            Name::Known(place) => KINDS[*place as usize] & kind != 0,
            Name::Own(_) => false,
        }
    }

    pub(crate) fn display(&self) -> Option<Display>
        requires { IsWithin tag_count self.now }
        ensures { result ≡ name_display self.now }
    {
        match self {
            Name::Known(place) => DISPLAYS[*place as usize],
            Name::Own(_) => None,
        }
    }
}
