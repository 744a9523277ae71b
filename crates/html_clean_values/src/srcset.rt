//! The URLs of a `srcset`.

ghost use Rattle.std.specs.Prelude.{◌≡◌, [], ◌≤◌, MatchOption, chars, length};
ghost use Rattle.html_names_core.specs.Texts.{texts_view};
ghost use Rattle.html_clean_values.specs.{Srcsets.{Between, Descriptors, TakesUrl, behind_url, behind_char, ends_candidate, ends_in_comma, is_separator, urls_from}, Urls.{srcset_is_allowed}};

use crate::urls::url_is_allowed;
use crate::words::cut_word;
use html_dom_tree::text::split_first;

fn is_separator(c: char) -> bool
    ensures { result ≡ is_separator c }
{
    c.is_ascii_whitespace() || c == ','
}

/// Returns the URL of the first image candidate, with the commas at its end, and the text after it.
fn next_url(srcset: &str) -> Option<(&str, &str)>
    ensures { MatchOption result (urls_from Between (chars srcset.now) ≡ [])
        (λ x. TakesUrl (chars srcset.now) (chars x.0.now) (chars x.1.now)) }
{
    let mut left = srcset;
    while let Some((c, rest)) = split_first(left) {
        if !is_separator(c) {
            return Some(cut_word(left));
        }
        left = rest;
    }
    None
}

/// Returns whether a character among descriptors ends their candidate.
fn ends_candidate(in_parentheses: bool, c: char) -> bool
    ensures { result ≡ ends_candidate in_parentheses c }
{
    !in_parentheses && c == ','
}

/// Returns whether the next character stands in parentheses of a descriptor.
fn behind_char(in_parentheses: bool, c: char) -> bool
    ensures { result ≡ behind_char in_parentheses c }
{
    match c {
        '(' => true,
        ')' => false,
        _ => in_parentheses,
    }
}

/// Returns the text after the descriptors of an image candidate.
fn past_descriptors(text: &str) -> &str
    ensures urls { urls_from Between (chars result.now) ≡ urls_from Descriptors (chars text.now) }
    ensures shorter { length (chars result.now) ≤ length (chars text.now) }
{
    let mut left = text;
    let mut in_parentheses = false;
    while let Some((c, rest)) = split_first(left) {
        if ends_candidate(in_parentheses, c) {
            return rest;
        }
        in_parentheses = behind_char(in_parentheses, c);
        left = rest;
    }
    left
}

fn ends_in_comma(url: &str) -> bool
    ensures { result ≡ ends_in_comma (chars url.now) }
{
    url.ends_with(',')
}

/// Returns the text after an image candidate, given its URL and the text after that.
fn past_candidate<'a>(url: &str, rest: &'a str) -> &'a str
    ensures urls { urls_from Between (chars result.now)
        ≡ urls_from (behind_url (chars url.now)) (chars rest.now) }
    ensures shorter { length (chars result.now) ≤ length (chars rest.now) }
{
    if ends_in_comma(url) {
        rest
    } else {
        past_descriptors(rest)
    }
}

/// Returns whether the URL of each image candidate of a `srcset` is allowed, as
/// [`url_is_allowed`](crate::url_is_allowed) says (HTML Standard 4.8.4.3, "parse a srcset
/// attribute"). Descriptors, such as `2x`, may be anything.
///
/// ```
/// use html_clean_values::srcset_is_allowed;
///
/// let alloc = rt.alloc();
/// let schemes = vec![in alloc; String::from_str(alloc, "https")?]?;
/// assert!(rt; srcset_is_allowed(&schemes, true, "https://a.example/b 2x, c 100w"));
/// assert!(rt; !srcset_is_allowed(&schemes, true, "a,b, data:c"));
/// ```
#[tactic(auto, unfolding(crate::specs::Urls::srcset_is_allowed))]
pub fn srcset_is_allowed(schemes: &[String], relative: bool, srcset: &str) -> bool
    ensures { result ≡ srcset_is_allowed (texts_view schemes.now) relative (chars srcset.now) }
{
    let mut left = srcset;
    while let Some((url, rest)) = next_url(left) {
        // The commas at its end, which are no part of it, change nothing of its scheme.
        if !url_is_allowed(schemes, relative, url) {
            return false;
        }
        left = past_candidate(url, rest);
    }
    true
}
