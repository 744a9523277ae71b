//! Words of ASCII among bytes, in any ASCII case.

ghost use Rattle.std.specs.{Char.{to_ascii_lowercase}, Option.{option_copied}, Prelude.{◌≡◌, map}};
ghost use Rattle.html_page_encoding.specs.Classes as classes;

use crate::class::split_first;

/// Returns whether the bytes are a word in lowercase, in any ASCII case.
pub(crate) fn is_word(word: &str, bytes: &[u8]) -> bool
    requires { map to_ascii_lowercase word.now ≡ word.now }
    ensures { result ≡ classes.is_word word.now bytes.now }
{
    bytes.eq_ignore_ascii_case(word.as_bytes())
}

/// Returns the bytes behind the word in lowercase with which these begin, in any ASCII case.
pub(crate) fn behind_word<'a>(word: &str, bytes: &'a [u8]) -> Option<&'a [u8]>
    requires { map to_ascii_lowercase word.now ≡ word.now }
    ensures { option_copied result ≡ classes.behind_word word.now bytes.now }
{
    if bytes.len() < word.len() {
        return None;
    }
    let (front, rest) = bytes.split_at(word.len());
    if is_word(word, front) {
        Some(rest)
    } else {
        None
    }
}

/// Returns the bytes behind the text with which these begin.
#[tactic(auto, unfolding(crate::specs::Classes::behind_bytes))]
fn behind_bytes<'a>(text: &str, bytes: &'a [u8]) -> Option<&'a [u8]>
    ensures { option_copied result ≡ classes.behind_bytes text.now bytes.now }
{
    bytes.strip_prefix(text.as_bytes())
}

/// Returns the bytes behind the first place where the text stands.
pub(crate) fn behind_first<'a>(text: &str, bytes: &'a [u8]) -> Option<&'a [u8]>
    ensures { option_copied result ≡ classes.behind_first text.now bytes.now }
{
    let mut rest = bytes;
    while let Some((_, later)) = split_first(rest) {
        if let Some(behind) = behind_bytes(text, rest) {
            return Some(behind);
        }
        rest = later;
    }
    None
}
