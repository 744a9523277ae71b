//! Character references (HTML Standard 13.2.5.72 to 13.2.5.80).

ghost use Rattle.std.specs.Prelude.{◌≡◌, ◌≤◌, ◌++◌, ◌∷◌, IfOk, IsTrue, OnOk, chars, option_to_list};
ghost use Rattle.html_dom_tree.specs.Views.{text_view};
ghost use Rattle.html_names_core.specs.Names.{is_ascii};
ghost use Rattle.html_page_read.specs.PageReferences as references;
ghost use Rattle.html_page_read.specs.PageReaderViews.{resolved_of};
ghost use Rattle.html_page_tree.specs.PageBodies as bodies;

use crate::legacy::longest_legacy;
use crate::number::{error_of, number_of, numbered_char};
use html_dom_tree::text::{add, add_text, split_first};
use html_page_names::named_reference;
use html_page_stack::PageError;
use std::alloc::{AllocError, Global};

pub(crate) fn is_letter(c: char) -> bool
    ensures { result ≡ references.is_letter c }
{
    c.is_ascii_alphabetic()
}

fn is_alphanumeric(c: char) -> bool
    ensures { result ≡ references.is_alphanumeric c }
{
    c.is_ascii_alphanumeric()
}

fn is_x(c: char) -> bool
    ensures { result ≡ references.is_x c }
{
    matches!(c, 'x' | 'X')
}

/// Returns whether the character belongs to the reference after `&#` and these characters.
fn continues_number(since: &str, c: char) -> bool
    ensures { result ≡ references.continues_number (chars since.now) c }
{
    match split_first(since) {
        None => c.is_ascii_digit() || is_x(c),
        Some((first, _)) => {
            if is_x(first) {
                c.is_ascii_hexdigit()
            } else {
                c.is_ascii_digit()
            }
        }
    }
}

/// Returns whether the character belongs to the reference after `&` and these characters.
pub(crate) fn continues(since: &str, c: char) -> bool
    ensures { result ≡ references.continues (chars since.now) c }
{
    match split_first(since) {
        None => is_alphanumeric(c) || c == '#',
        Some((first, rest)) => {
            if first == '#' {
                continues_number(rest, c)
            } else {
                is_alphanumeric(c)
            }
        }
    }
}

/// The characters of a reference, and its errors.
#[derive(Drop)]
pub(crate) struct Resolved {
    pub(crate) text: String,
    /// Whether the `;` after it belongs to it.
    pub(crate) takes_end: bool,
    /// The error that no `;` is after it, or an error of its name.
    pub(crate) missing: Option<PageError>,
    /// An error of its number.
    pub(crate) error: Option<PageError>,
}

fn is_end(behind: Option<char>) -> bool
    ensures { result ≡ references.is_end behind }
{
    behind == Some(';')
}

/// Returns the error that the `;` is missing, unless it is there.
fn missing_end(behind: Option<char>) -> Option<PageError>
    ensures { result ≡ references.missing_end behind }
{
    if is_end(behind) {
        None
    } else {
        Some(PageError::MissingSemicolonAfterCharacterReference)
    }
}

/// Appends the one or two characters of a name.
fn add_value(text: &mut String, value: (char, Option<char>)) -> Result<(), AllocError>
    ensures { OnOk result (text_view text.new
        ≡ text_view text.old ++ (value.0 ∷ option_to_list value.1)) }
{
    add(text, value.0)?;
    match value.1 {
        Some(second) => add(text, second),
        None => Ok(()),
    }
}

/// Resolves a reference that stands for itself.
#[tactic(auto, using(std::proofs::StrCases::chars_of_empty))]
fn itself(alloc: Global, since: &str, error: Option<PageError>) -> Result<Resolved, AllocError>
    ensures { IfOk result (λ found. resolved_of found ≡ references.itself error (chars since.now)) }
{
    let mut text = String::new(alloc);
    add(&mut text, '&')?;
    add_text(&mut text, since)?;
    Ok(Resolved {
        text,
        takes_end: false,
        missing: error,
        error: None,
    })
}

/// Resolves a reference to the character of a number.
#[tactic(auto, using(std::proofs::StrCases::chars_of_empty))]
fn numbered(alloc: Global, number: u32, behind: Option<char>) -> Result<Resolved, AllocError>
    ensures { IfOk result (λ found. resolved_of found ≡ references.numbered number behind) }
{
    let mut text = String::new(alloc);
    add(&mut text, numbered_char(number))?;
    Ok(Resolved {
        text,
        takes_end: is_end(behind),
        missing: missing_end(behind),
        error: error_of(number),
    })
}

/// Resolves a reference by number. `since` is all of it, and `digits` those of the number.
fn resolve_number(
    alloc: Global,
    base: u32,
    since: &str,
    digits: &str,
    behind: Option<char>,
) -> Result<Resolved, AllocError>
    requires some { 1 ≤ base }
    requires few { base ≤ 16 }
    ensures { IfOk result (λ found. resolved_of found
        ≡ references.resolved_number base (chars since.now) (chars digits.now) behind) }
{
    match split_first(digits) {
        None => {
            let error = PageError::AbsenceOfDigitsInNumericCharacterReference;
            itself(alloc, since, Some(error))
        }
        Some(_) => numbered(alloc, number_of(base, digits), behind),
    }
}

fn resolve_digits(
    alloc: Global,
    since: &str,
    digits: &str,
    behind: Option<char>,
) -> Result<Resolved, AllocError>
    ensures { IfOk result (λ found. resolved_of found
        ≡ references.resolved_digits (chars since.now) (chars digits.now) behind) }
{
    match split_first(digits) {
        None => resolve_number(alloc, 10, since, digits, behind),
        Some((first, rest)) => {
            if is_x(first) {
                resolve_number(alloc, 16, since, rest, behind)
            } else {
                resolve_number(alloc, 10, since, digits, behind)
            }
        }
    }
}

#[tactic(auto, using(std::proofs::StrCases::chars_of_empty))]
/// Resolves a name that may lack its `;`.
fn resolve_legacy(
    alloc: Global,
    in_value: bool,
    since: &str,
    behind: Option<char>,
) -> Result<Resolved, AllocError>
    requires { IsTrue (is_ascii since.now) }
    ensures { IfOk result (λ found. resolved_of found
        ≡ references.resolved_legacy in_value (chars since.now) behind
        (references.longest_legacy 6 (chars since.now))) }
{
    let Some(found) = longest_legacy(6, since) else {
        let error = if is_end(behind) {
            Some(PageError::UnknownNamedCharacterReference)
        } else {
            None
        };
        return itself(alloc, since, error);
    };
    if in_value && found.is_followed(behind) {
        return itself(alloc, since, None);
    }
    let mut text = String::new(alloc);
    add_value(&mut text, found.value)?;
    add_text(&mut text, found.rest)?;
    Ok(Resolved {
        text,
        takes_end: false,
        missing: Some(PageError::MissingSemicolonAfterCharacterReference),
        error: None,
    })
}

#[tactic(auto, using(std::proofs::StrCases::chars_of_empty))]
fn resolve_name(
    alloc: Global,
    in_value: bool,
    since: &str,
    behind: Option<char>,
) -> Result<Resolved, AllocError>
    requires { IsTrue (is_ascii since.now) }
    ensures { IfOk result (λ found. resolved_of found
        ≡ references.resolved_named in_value (chars since.now) behind) }
{
    let value = if is_end(behind) {
        named_reference(since)
    } else {
        None
    };
    let Some(value) = value else {
        return resolve_legacy(alloc, in_value, since, behind);
    };
    let mut text = String::new(alloc);
    add_value(&mut text, value)?;
    Ok(Resolved {
        text,
        takes_end: true,
        missing: None,
        error: None,
    })
}

#[tactic(auto, unfolding(crate::specs::PageReferences::resolved))]
/// Resolves a reference from the characters after `&`, and the one after them.
pub(crate) fn resolve(
    alloc: Global,
    in_value: bool,
    since: &str,
    behind: Option<char>,
) -> Result<Resolved, AllocError>
    requires { IsTrue (is_ascii since.now) }
    ensures { IfOk result (λ found. resolved_of found
        ≡ references.resolved in_value (chars since.now) behind) }
{
    match split_first(since) {
        None => itself(alloc, since, None),
        Some((first, rest)) => {
            if first == '#' {
                resolve_digits(alloc, since, rest, behind)
            } else {
                resolve_name(alloc, in_value, since, behind)
            }
        }
    }
}
