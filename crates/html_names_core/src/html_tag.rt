//! Tag names, and the rules for their characters and for the names of custom elements.

ghost use Rattle.std.specs.List.{find, list_any};
ghost use Rattle.std.specs.Prelude.{◌≡◌, ◌<◌, bytes_eq, chars, IfOk, IfErr, OnErr, false, not, option_to_list, slice_index, None};
ghost use Rattle.html_names_core.specs.{Held.{IsLookup}, NameFaults.{Gives, OnOutOfMemory}, Names.{tag_fault, custom_fault, is_reserved}};
ghost use Rattle.std.specs.Cmp as cmp;
ghost use Rattle.std.specs.{Cmp.{on_equiv, on_per}, Cmp.Lexicographic.{nat_list_eq_equiv}};
ghost use Rattle.html_names_core.specs.{Characters.{IsOf, is_tag_char, is_hyphen, is_lower, is_capital}, Tables.{known_tags, is_known_tag}};

use crate::charsets::is_valid_in_tag_name;
use crate::fault::NameFault;
use crate::lookup::{is_one_of, place_in};
use crate::name::Name;
use crate::table::{RESERVED_TAG, TAG_STARTS, TAGS};
use std::alloc::{AllocError, Global};
use std::fmt;
use std::hash::{Hash, Hasher};
use std::marker::Model;

/// A tag name. Two names are equal if their texts are.
///
/// In contracts it is its text, a list of characters.
#[derive(Drop)]
pub struct HtmlTag {
    pub(crate) name: Name,
}

impl Model for HtmlTag {
    ghost use Rattle.std.specs.Prelude.{ℕ, List};

    ghost Value = { List ℕ };

    ghost use Rattle.html_names_core.specs.{Characters.{is_tag_char}, Held.{held_text, IsHeld}, Tables.{known_tags, tag_count}};

    ghost view = { λ t. held_text known_tags t.name };

    ghost invariant = { λ t. IsHeld tag_count known_tags is_tag_char t.name };
}

/// The names that HTML reserves for SVG and MathML. No custom element may have one of them.
const RESERVED: [&str; 8] = [
    "annotation-xml",
    "color-profile",
    "font-face",
    "font-face-src",
    "font-face-uri",
    "font-face-format",
    "font-face-name",
    "missing-glyph",
];

fn first_bad(text: &str) -> Option<char>
    ensures { result ≡ find (λ c. not (is_tag_char c)) (chars text.now) }
{
    text.chars().find(|c| !is_valid_in_tag_name(*c))
}

fn has_hyphen(text: &str) -> bool
    ensures { result ≡ list_any is_hyphen (chars text.now) }
{
    text.chars().any(|c| c == '-')
}

fn has_capital(text: &str) -> bool
    ensures { result ≡ list_any is_capital (chars text.now) }
{
    text.chars().any(|c| c.is_ascii_uppercase())
}

fn starts_lower(text: &str) -> bool
    ensures { result ≡ is_lower (slice_index (chars text.now) 0) }
{
    match text.chars().next() {
        Some(c) => c.is_ascii_lowercase(),
        None => false,
    }
}

#[tactic(auto, unfolding(crate::specs::Names::is_reserved))]
fn is_reserved(text: &str) -> bool
    ensures { result ≡ is_reserved (chars text.now) }
{
    is_one_of(&RESERVED, text)
}

/// Returns the first fault of a name with a hyphen, if it has one.
fn custom_fault(text: &str) -> Option<NameFault>
    ensures { result ≡ custom_fault (chars text.now) }
{
    if !starts_lower(text) {
        return Some(NameFault::CustomStart);
    }
    if has_capital(text) {
        return Some(NameFault::CustomCapital);
    }
    if is_reserved(text) {
        return Some(NameFault::Reserved);
    }
    None
}

#[tactic(auto, using(crate::proofs::Faults::tag_tests))]
fn fault_of(text: &str) -> Option<NameFault>
    ensures { result ≡ tag_fault (chars text.now) }
{
    if text.is_empty() {
        return Some(NameFault::EmptyTag);
    }
    if let Some(c) = first_bad(text) {
        return Some(NameFault::BadTagChar(c));
    }
    if has_hyphen(text) {
        return custom_fault(text);
    }
    None
}

fn place_of(text: &str) -> Option<u8>
    ensures { IsLookup known_tags (chars text.now) result }
{
    place_in(&TAGS, &TAG_STARTS, text)
}

#[tactic(auto, using(crate::proofs::Known::tag_faultless))]
fn fault_at(place: Option<u8>, text: &str) -> Option<NameFault>
    requires { IsLookup known_tags (chars text.now) place }
    ensures { result ≡ tag_fault (chars text.now) }
{
    match place {
        Some(place) if place != RESERVED_TAG => None,
        _ => fault_of(text),
    }
}

impl HtmlTag {
    /// Creates the tag name with this text. Fails with the first fault of the text: it is empty, a
    /// character is not valid in a tag name (HTML Standard 13.1.2), or a name with a hyphen does
    /// not begin with a lowercase ASCII letter, contains an uppercase one or is reserved (HTML
    /// Standard 4.13.2).
    ///
    /// A known name takes no memory.
    ///
    /// ```
    /// use html_names::{HtmlTag, NameFault};
    ///
    /// let alloc = rt.alloc();
    /// assert_eq!(rt; HtmlTag::intern(alloc, "my-card")?.resolve(), "my-card");
    /// let fault = HtmlTag::intern(alloc, "a_b").err();
    /// assert!(rt; fault == Some(NameFault::BadTagChar('_')));
    /// let fault = HtmlTag::intern(alloc, "My-card").err();
    /// assert!(rt; fault == Some(NameFault::CustomStart));
    /// ```
    #[tactic(auto, using(crate::proofs::Faults::valid_tag))]
    pub fn intern(alloc: Global, text: &str) -> Result<HtmlTag, NameFault>
        ensures name { let name = chars text.now in
            Gives result name (option_to_list (tag_fault name)) }
        // An allocation can fail only for a name that is valid and not known.
        ensures memory { let name = chars text.now in
            IfErr result (λ fault. OnOutOfMemory fault
            ((tag_fault name ≡ None) × (is_known_tag name ≡ false))) }
    {
        let place = place_of(text);
        if let Some(fault) = fault_at(place, text) {
            return Err(fault);
        }
        Ok(HtmlTag::make(alloc, place, text)?)
    }

    /// Creates the tag name with this text. The text must be valid: not empty, and of characters
    /// that are valid in a tag name. Fails only if an allocation fails.
    ///
    /// Unlike `intern`, it accepts reserved names and any name with a hyphen.
    ///
    /// A known name takes no memory.
    #[tactic(auto, using(crate::proofs::Faults::constants))]
    pub fn constant(alloc: Global, text: &str) -> Result<HtmlTag, AllocError>
        requires { IsOf is_tag_char text.now }
        ensures name { IfOk result (λ tag. tag ≡ text.now) }
        ensures memory { OnErr result (is_known_tag text.now ≡ false) }
    {
        HtmlTag::make(alloc, place_of(text), text)
    }

    fn make(alloc: Global, place: Option<u8>, text: &str) -> Result<HtmlTag, AllocError>
        requires place { IsLookup known_tags (chars text.now) place }
        requires valid { IsOf is_tag_char (chars text.now) }
        ensures name { IfOk result (λ tag. tag ≡ chars text.now) }
        ensures memory { OnErr result (is_known_tag (chars text.now) ≡ false) }
    {
        Ok(HtmlTag {
            name: Name::make(alloc, place, text)?,
        })
    }

    /// Returns a copy of the name. Fails only if an allocation fails. A known name takes no memory.
    pub fn try_clone(&self) -> Result<HtmlTag, AllocError>
        ensures copy { IfOk result (λ tag. tag ≡ self.now) }
        ensures memory { OnErr result (is_known_tag self.now ≡ false) }
    {
        Ok(HtmlTag {
            name: self.name.try_clone()?,
        })
    }

    /// Returns the name's text: not empty, and of characters that are valid in a tag name.
    #[tactic(auto, using(crate::proofs::Held::tag_texts, crate::proofs::Held::tag_valid))]
    pub fn resolve(&self) -> &str
        ensures text { chars result.now ≡ self.now }
        ensures valid { IsOf is_tag_char self.now }
    {
        self.name.as_str(&TAGS)
    }

    /// Returns the index of the name in the table of known names, if it is one of them.
    #[inline(always)]
    #[tactic(auto, using(crate::proofs::Held::tag_long))]
    pub fn known_place(&self) -> Option<u8>
        ensures { IsLookup known_tags self.now result }
    {
        match &self.name {
            Name::Known(place) => Some(*place),
            Name::Own(_) => None,
        }
    }
}

#[tactic(auto, using(crate::proofs::Same::tag_same))]
impl PartialEq for HtmlTag {
    ghost eq = { λ x y. bytes_eq x y };

    ghost laws = { on_per (λ x. x) (cmp.partial_equiv_from_equiv nat_list_eq_equiv) };

    #[inline(always)]
    fn eq(&self, other: &Self) -> bool {
        self.name.is_same(&other.name)
    }
}

impl Eq for HtmlTag {
    ghost laws = { on_equiv (λ x. x) nat_list_eq_equiv };
}

#[tactic(auto, using(crate::proofs::Lists::in_characters))]
impl Hash for HtmlTag {
    ghost use Rattle.std.specs.Hash as fed;
    ghost use Rattle.std.{proofs.Common.{rules}, specs.Cmp.Rules.{hashing}};
    ghost use lib.Utf8.{encodes};

    ghost hash_input = { λ name. fed.str (encodes name) };

    ghost respects_eq = { Prim.search (hashing, rules) };

    fn hash<H: Hasher>(&self, state: &mut H) {
        self.resolve().hash(state);
    }
}

/// Writes the name as a start tag: `<h2>`.
#[tactic(auto, using(crate::proofs::Lists::in_characters))]
impl fmt::Display for HtmlTag {
    ghost use Rattle.std.specs.Prelude.{codes, ◌++◌, Some};
    ghost use lib.Utf8.{encodes};

    ghost output = { λ name. Some (codes "<" ++ encodes name ++ codes ">") };

    fn fmt<W: fmt::Write>(&self, f: &mut fmt::Formatter<W>) -> fmt::Result {
        let text = self.resolve();
        write!(f, "<{text}>")
    }
}

/// Writes the name as a start tag: `<h2>`.
#[tactic(auto, using(crate::proofs::Lists::in_characters))]
impl fmt::Debug for HtmlTag {
    ghost use Rattle.std.specs.Prelude.{codes, ◌++◌, Some};
    ghost use lib.Utf8.{encodes};

    ghost debug_output = { λ name. Some (codes "<" ++ encodes name ++ codes ">") };

    fn fmt<W: fmt::Write>(&self, f: &mut fmt::Formatter<W>) -> fmt::Result {
        let name = self.resolve();
        write!(f, "<{name}>")
    }
}
