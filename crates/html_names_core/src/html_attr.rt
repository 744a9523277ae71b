//! Attribute names, and the rule for their characters (HTML Standard 13.1.2.3).

ghost use Rattle.std.specs.List.{find, list_any};
ghost use Rattle.std.specs.Prelude.{◌≡◌, bytes_eq, chars, IfOk, IfErr, OnErr, IsTrue, false, not, option_to_list, None};
ghost use Rattle.html_names_core.specs.{Held.{IsLookup}, NameFaults.{Gives, OnOutOfMemory}, Names.{attr_fault, is_ascii}};
ghost use Rattle.std.specs.Cmp as cmp;
ghost use Rattle.std.specs.{Cmp.{on_equiv, on_per}, Cmp.Lexicographic.{nat_list_eq_equiv}};
ghost use Rattle.html_names_core.specs.{Characters.{IsOf, is_attr_char}, Tables.{known_attrs, is_known_attr}};

use crate::charsets::is_valid_in_attribute_name;
use crate::fault::NameFault;
use crate::lookup::place_in;
use crate::name::Name;
use crate::table::{ATTR_STARTS, ATTRS};
use std::alloc::{AllocError, Global};
use std::fmt;
use std::hash::{Hash, Hasher};
use std::marker::Model;

/// An attribute name. Two names are equal if their texts are.
///
/// In contracts it is its text, a list of characters.
#[derive(Drop)]
pub struct HtmlAttr {
    pub(crate) name: Name,
}

impl Model for HtmlAttr {
    ghost use Rattle.std.specs.Prelude.{ℕ, List};

    ghost Value = { List ℕ };

    ghost use Rattle.html_names_core.specs.{Characters.{is_attr_char}, Held.{held_text, IsHeld}, Tables.{known_attrs, attr_count}};

    ghost view = { λ t. held_text known_attrs t.name };

    ghost invariant = { λ t. IsHeld attr_count known_attrs is_attr_char t.name };
}

fn first_bad(text: &str) -> Option<char>
    ensures { result ≡ find (λ c. not (is_attr_char c)) (chars text.now) }
{
    text.chars().find(|c| !is_valid_in_attribute_name(*c))
}

#[tactic(auto, using(crate::proofs::Faults::attr_tests))]
fn fault_of(text: &str) -> Option<NameFault>
    ensures { result ≡ attr_fault (chars text.now) }
{
    if text.is_empty() {
        return Some(NameFault::EmptyAttr);
    }
    if let Some(c) = first_bad(text) {
        return Some(NameFault::BadAttrChar(c));
    }
    None
}

fn place_of(text: &str) -> Option<u8>
    ensures { IsLookup known_attrs (chars text.now) result }
{
    place_in(&ATTRS, &ATTR_STARTS, text)
}

#[tactic(auto, using(crate::proofs::Known::attr_faultless))]
fn fault_at(place: Option<u8>, text: &str) -> Option<NameFault>
    requires { IsLookup known_attrs (chars text.now) place }
    ensures { result ≡ attr_fault (chars text.now) }
{
    match place {
        Some(_) => None,
        None => fault_of(text),
    }
}

impl HtmlAttr {
    /// Creates the attribute name with this text. Fails with the first fault of the text: it is
    /// empty, or a character is not valid in an attribute name (HTML Standard 13.1.2.3).
    ///
    /// A known name takes no memory.
    ///
    /// ```
    /// use html_names::{HtmlAttr, NameFault, attr};
    ///
    /// let alloc = rt.alloc();
    /// assert!(rt; HtmlAttr::intern(alloc, "href")? == attr::href);
    /// assert_eq!(rt; HtmlAttr::intern(alloc, "data-x")?.resolve(), "data-x");
    /// let fault = HtmlAttr::intern(alloc, "a b").err();
    /// assert!(rt; fault == Some(NameFault::BadAttrChar(' ')));
    /// ```
    #[tactic(auto, using(crate::proofs::Faults::valid_attr))]
    pub fn intern(alloc: Global, text: &str) -> Result<HtmlAttr, NameFault>
        ensures name { let name = chars text.now in
            Gives result name (option_to_list (attr_fault name)) }
        // An allocation can fail only for a name that is valid and not known.
        ensures memory { let name = chars text.now in
            IfErr result (λ fault. OnOutOfMemory fault
            ((attr_fault name ≡ None) × (is_known_attr name ≡ false))) }
    {
        let place = place_of(text);
        if let Some(fault) = fault_at(place, text) {
            return Err(fault);
        }
        Ok(HtmlAttr::make(alloc, place, text)?)
    }

    /// Creates the attribute name with this text. The text must be valid: not empty, and of ASCII
    /// characters that are valid in an attribute name. Fails only if an allocation fails.
    ///
    /// A known name takes no memory.
    #[tactic(auto, using(crate::proofs::Faults::constants))]
    pub fn constant(alloc: Global, text: &str) -> Result<HtmlAttr, AllocError>
        requires ascii { IsTrue (is_ascii text.now) }
        requires valid { IsOf is_attr_char text.now }
        ensures name { IfOk result (λ attr. attr ≡ text.now) }
        ensures memory { OnErr result (is_known_attr text.now ≡ false) }
    {
        HtmlAttr::make(alloc, place_of(text), text)
    }

    fn make(alloc: Global, place: Option<u8>, text: &str) -> Result<HtmlAttr, AllocError>
        requires place { IsLookup known_attrs (chars text.now) place }
        requires valid { IsOf is_attr_char (chars text.now) }
        ensures name { IfOk result (λ attr. attr ≡ chars text.now) }
        ensures memory { OnErr result (is_known_attr (chars text.now) ≡ false) }
    {
        Ok(HtmlAttr {
            name: Name::make(alloc, place, text)?,
        })
    }

    /// Returns a copy of the name. Fails only if an allocation fails. A known name takes no memory.
    pub fn try_clone(&self) -> Result<HtmlAttr, AllocError>
        ensures copy { IfOk result (λ attr. attr ≡ self.now) }
        ensures memory { OnErr result (is_known_attr self.now ≡ false) }
    {
        Ok(HtmlAttr {
            name: self.name.try_clone()?,
        })
    }

    /// Returns the name's text: not empty, and of characters that are valid in an attribute name.
    #[tactic(auto, using(crate::proofs::Held::attr_texts, crate::proofs::Held::attr_valid))]
    pub fn resolve(&self) -> &str
        ensures text { chars result.now ≡ self.now }
        ensures valid { IsOf is_attr_char self.now }
    {
        self.name.as_str(&ATTRS)
    }

    /// Returns the index of the name in the table of known names, if it is one of them.
    #[inline(always)]
    #[tactic(auto, using(crate::proofs::Held::attr_long))]
    pub fn known_place(&self) -> Option<u8>
        ensures { IsLookup known_attrs self.now result }
    {
        match &self.name {
            Name::Known(place) => Some(*place),
            Name::Own(_) => None,
        }
    }
}

#[tactic(auto, using(crate::proofs::Same::attr_same))]
impl PartialEq for HtmlAttr {
    ghost eq = { λ x y. bytes_eq x y };

    ghost laws = { on_per (λ x. x) (cmp.partial_equiv_from_equiv nat_list_eq_equiv) };

    #[inline(always)]
    fn eq(&self, other: &Self) -> bool {
        self.name.is_same(&other.name)
    }
}

impl Eq for HtmlAttr {
    ghost laws = { on_equiv (λ x. x) nat_list_eq_equiv };
}

#[tactic(auto, using(crate::proofs::Lists::in_characters))]
impl Hash for HtmlAttr {
    ghost use Rattle.std.specs.Hash as fed;
    ghost use Rattle.std.{proofs.Common.{rules}, specs.Cmp.Rules.{hashing}};
    ghost use lib.Utf8.{encodes};

    ghost hash_input = { λ name. fed.str (encodes name) };

    ghost respects_eq = { Prim.search (hashing, rules) };

    fn hash<H: Hasher>(&self, state: &mut H) {
        self.resolve().hash(state);
    }
}

/// Writes the text of the name: `href`.
#[tactic(auto, using(crate::proofs::Lists::in_characters))]
impl fmt::Display for HtmlAttr {
    ghost use Rattle.std.specs.Prelude.{Some};
    ghost use lib.Utf8.{encodes};

    ghost output = { λ name. Some (encodes name) };

    fn fmt<W: fmt::Write>(&self, f: &mut fmt::Formatter<W>) -> fmt::Result {
        f.write_str(self.resolve())
    }
}

/// Writes the text of the name: `href`.
#[tactic(auto, using(crate::proofs::Lists::in_characters))]
impl fmt::Debug for HtmlAttr {
    ghost use Rattle.std.specs.Prelude.{Some};
    ghost use lib.Utf8.{encodes};

    ghost debug_output = { λ name. Some (encodes name) };

    fn fmt<W: fmt::Write>(&self, f: &mut fmt::Formatter<W>) -> fmt::Result {
        let name = self.resolve();
        f.write_str(name)
    }
}
