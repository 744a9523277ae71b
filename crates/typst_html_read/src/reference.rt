//! Character references.

ghost use Rattle.std.specs.{List.{list_all}, Prelude.{◌≡◌, ◌==◌, ◌∷◌, ◌++◌, [], chars, slice_index, IfOk, OnOk, true, nat_lt}};
ghost use Rattle.std.specs.Str.Parse.{digits_value};
ghost use Rattle.html_dom_tree.specs.Views.{text_view};
ghost use Rattle.typst_html_encode.specs.References as definition;
ghost use Rattle.typst_html_read.specs.BegunReferences as begun;

use html_dom_tree::text::add;
use html_text::begins;
use std::alloc::{AllocError, Global};

/// Returns the character whose number has exactly this spelling in small hexadecimal digits, unless
/// it is U+0000.
fn numbered(alloc: Global, digits: &str) -> Result<Option<char>, AllocError>
    ensures { IfOk result (λ found. found ≡ definition.numbered_char (chars digits.now)) }
{
    let Ok(number) = u32::from_str_radix(digits, 16) else {
        return Ok(None);
    };
    let Some(c) = char::from_u32(number) else {
        return Ok(None);
    };
    if number == 0 {
        return Ok(None);
    }
    let spelling = format!(in alloc; "{number:x}")?;
    if spelling.as_str() == digits {
        Ok(Some(c))
    } else {
        Ok(None)
    }
}

/// Returns the character that a reference stands for, by its text between `&` and `;`.
pub(crate) fn reference(alloc: Global, words: &str) -> Result<Option<char>, AllocError>
    ensures { IfOk result (λ found. found ≡ definition.reference (chars words.now)) }
{
    Ok(match words {
        "amp" => Some('&'),
        "lt" => Some('<'),
        "gt" => Some('>'),
        "quot" => Some('"'),
        "apos" => Some('\''),
        "#x20" => Some(' '),
        _ => match words.strip_prefix("#x") {
            Some(digits) => numbered(alloc, digits)?,
            None => None,
        },
    })
}

fn is_small_digit(c: char) -> bool
    ensures { result ≡ begun.is_small_digit c }
{
    matches!(c, '0'..='9' | 'a'..='f')
}

fn are_small_digits(text: &str) -> bool
    ensures { result ≡ list_all begun.is_small_digit (chars text.now) }
{
    text.chars().all(|c| is_small_digit(c))
}

fn begins_zero(text: &str) -> bool
    ensures { result ≡ (slice_index (chars text.now) 0 == 48) }
{
    match text.chars().next() {
        Some(c) => c == '0',
        None => false,
    }
}

/// Returns whether the number of these digits is at most U+10FFFF, or whether there are none.
fn is_number_of_char(digits: &str) -> bool
    requires { list_all begun.is_small_digit (chars digits.now) ≡ true }
    ensures { result ≡ nat_lt (digits_value 16 (chars digits.now)) 0x11_0000 }
{
    if digits.is_empty() {
        return true;
    }
    match u32::from_str_radix(digits, 16) {
        Ok(number) => number < 0x11_0000,
        Err(_) => false,
    }
}

/// Returns whether the number of a character begins with these digits, of which there may be none.
#[tactic(auto, unfolding(crate::specs::BegunReferences::begins_digits))]
fn begins_digits(digits: &str) -> bool
    ensures { result ≡ begun.begins_digits (chars digits.now) }
{
    if !are_small_digits(digits) {
        return false;
    }
    if begins_zero(digits) {
        return false;
    }
    is_number_of_char(digits)
}

/// Returns whether a text is `#x` followed by digits that the number of a character begins with.
fn begins_number(text: &str) -> bool
    ensures { result ≡ begun.begins_number (chars text.now) }
{
    match text.strip_prefix("#x") {
        Some(digits) => begins_digits(digits),
        None => false,
    }
}

/// Returns whether a reference begins with `&` followed by this text.
#[tactic(auto, unfolding(crate::specs::BegunReferences::begins_reference))]
fn begins_reference(text: &str) -> bool
    ensures { result ≡ begun.begins_reference (chars text.now) }
{
    begins("amp", text)
        || begins("lt", text)
        || begins("gt", text)
        || begins("quot", text)
        || begins("apos", text)
        || begins("#x", text)
        || begins_number(text)
}

/// Appends a character to the text since `&`, and returns whether a reference begins so.
pub(crate) fn extend(since: &mut String, c: char) -> Result<bool, AllocError>
    ensures since { OnOk result (text_view since.new ≡ text_view since.old ++ c ∷ []) }
    ensures begins { IfOk result (λ begins.
        begins ≡ begun.begins_reference (text_view since.old ++ c ∷ [])) }
{
    add(since, c)?;
    Ok(begins_reference(since.as_str()))
}
