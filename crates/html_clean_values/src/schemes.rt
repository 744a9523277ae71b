//! The schemes of URLs.

ghost use Rattle.std.specs.{Char.{is_ascii_alphabetic}, List.{filter}, Prelude.{◌≡◌, ◌∷◌, ◌<◌, [], MatchOption, chars, is_some, length}};
ghost use Rattle.html_links.specs.{Indicated.{is_kept}, Scripts.{past_blanks}};
ghost use Rattle.html_clean_values.specs.{SchemeTests.{BeginsKept, begins_with, is_colon, is_letter_of, scheme_rest_is}, Urls.{is_scheme_char, scheme_at, scheme_rest}};

use html_dom_tree::text::split_first;

/// Returns the text after leading controls and spaces.
pub(crate) fn past_blanks(text: &str) -> &str
    ensures { chars result.now ≡ past_blanks (chars text.now) }
{
    let mut left = text;
    while let Some((c, rest)) = split_first(left) {
        if c > ' ' {
            return left;
        }
        left = rest;
    }
    left
}

/// Returns the first character that a URL keeps, and the text after it.
fn first_kept(text: &str) -> Option<(char, &str)>
    ensures { MatchOption result (filter is_kept (chars text.now) ≡ [])
        (λ x. BeginsKept (chars text.now) x.0 (chars x.1.now)) }
{
    let mut left = text;
    while let Some((c, rest)) = split_first(left) {
        if !matches!(c, '\t' | '\n' | '\r') {
            return Some((c, rest));
        }
        left = rest;
    }
    None
}

fn is_scheme_char(c: char) -> bool
    ensures { result ≡ is_scheme_char c }
{
    c.is_ascii_alphanumeric() || matches!(c, '+' | '-' | '.')
}

/// Returns whether the characters of a scheme and then a colon begin the text.
fn has_scheme_rest(url: &str) -> bool
    ensures { result ≡ is_some (scheme_rest (filter is_kept (chars url.now))) }
{
    let mut left = url;
    while let Some((c, rest)) = first_kept(left) {
        if c == ':' {
            return true;
        }
        if !is_scheme_char(c) {
            return false;
        }
        left = rest;
    }
    false
}

fn begins_with_letter(url: &str) -> bool
    ensures { result ≡ begins_with is_ascii_alphabetic (filter is_kept (chars url.now)) }
{
    match first_kept(url) {
        Some((c, _)) => c.is_ascii_alphabetic(),
        None => false,
    }
}

/// Returns whether a URL, without blanks before it, has a scheme.
pub(crate) fn has_scheme(url: &str) -> bool
    ensures { result ≡ is_some (scheme_at (filter is_kept (chars url.now))) }
{
    begins_with_letter(url) && has_scheme_rest(url)
}

fn begins_with_colon(url: &str) -> bool
    ensures { result ≡ begins_with is_colon (filter is_kept (chars url.now)) }
{
    match first_kept(url) {
        Some((c, _)) => c == ':',
        None => false,
    }
}

/// Returns whether a character of a URL is that character of a scheme, which is in small letters.
fn is_letter_of(expected: char, c: char) -> bool
    ensures { result ≡ is_letter_of expected c }
{
    is_scheme_char(c) && expected == c.to_ascii_lowercase()
}

/// Returns whether the characters of the URL, in small letters, are those of the scheme, and then a
/// colon.
pub(crate) fn is_scheme_rest(scheme: &str, url: &str) -> bool
    ensures { result ≡ scheme_rest_is (chars scheme.now) (filter is_kept (chars url.now)) }
{
    let mut left = url;
    for expected in scheme.chars() {
        let Some((c, rest)) = first_kept(left) else {
            return false;
        };
        if !is_letter_of(expected, c) {
            return false;
        }
        left = rest;
    }
    begins_with_colon(left)
}
