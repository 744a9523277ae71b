//! Helpers to read and extend texts, and to copy and compare texts and optional texts.

ghost use Rattle.std.specs.Prelude.{◌≡◌, ◌↔◌, ◌++◌, ◌∷◌, [], IsTrue, IfOk, MatchOption, OnOk, chars};
ghost use Rattle.html_dom_tree.specs.Views.{text_view, optional_text_view};

use std::alloc::{AllocError, Global};
use std::mem;

/// Clears a text.
#[tactic(auto, using(std::proofs::StrCases::chars_of_empty))]
pub fn empty(text: &mut String)
    ensures { text_view text.new ≡ [] }
{
    text.clear();
}

/// Appends a character.
pub fn add(text: &mut String, c: char) -> Result<(), AllocError>
    ensures { OnOk result (text_view text.new ≡ text_view text.old ++ c ∷ []) }
{
    text.push(c)?;
    Ok(())
}

/// Appends a text.
pub fn add_text(text: &mut String, more: &str) -> Result<(), AllocError>
    ensures { OnOk result (text_view text.new ≡ text_view text.old ++ chars more.now) }
{
    text.push_str(more)?;
    Ok(())
}

/// Replaces a text with one character.
pub fn begin(text: &mut String, c: char) -> Result<(), AllocError>
    ensures { OnOk result (text_view text.new ≡ c ∷ []) }
{
    empty(text);
    add(text, c)
}

/// Takes a text and leaves an empty one in its place.
#[tactic(auto, using(std::proofs::StrCases::chars_of_empty))]
pub fn take(alloc: Global, text: &mut String) -> String
    ensures taken { text_view result ≡ text_view text.old }
    ensures left { text_view text.new ≡ [] }
{
    mem::replace(text, String::new(alloc))
}

/// Returns the first character of a text and the rest.
pub fn split_first(text: &str) -> Option<(char, &str)>
    ensures { MatchOption result (chars text.now ≡ [])
        (λ x. chars text.now ≡ x.0 ∷ chars x.1.now) }
{
    let mut left = text.chars();
    match left.next() {
        None => None,
        Some(first) => Some((first, left.as_str())),
    }
}

/// Returns a copy of a text, if there is one. Fails only if an allocation fails.
pub fn copy_optional_text(text: &Option<String>) -> Result<Option<String>, AllocError>
    ensures { IfOk result (λ copy. optional_text_view copy ≡ optional_text_view text.now) }
{
    match text {
        Some(text) => Ok(Some(text.clone()?)),
        None => Ok(None),
    }
}

pub(crate) fn same_text(a: &String, b: &String) -> bool
    ensures { IsTrue result ↔ (text_view a.now ≡ text_view b.now) }
{
    *a == *b
}

pub(crate) fn same_optional_text(a: &Option<String>, b: &Option<String>) -> bool
    ensures { IsTrue result ↔ (optional_text_view a.now ≡ optional_text_view b.now) }
{
    match (a, b) {
        (None, None) => true,
        (Some(a), Some(b)) => same_text(a, b),
        _ => false,
    }
}
