//! Addresses that a browser runs instead of opening them.

ghost use Rattle.std.specs.{List.{filter}, Prelude.{◌≡◌, ◌∷◌, [], MatchOption, chars}};
ghost use Rattle.html_links.specs.{Indicated.{is_kept}, Scripts.{begins, href_is_script, past_blanks}};

use crate::indicated::{is_control_or_space, is_dropped};
use html_dom_tree::text::split_first;

/// Returns whether an `href` is a script to a browser: whether its scheme, in any ASCII case, is
/// `javascript:`, `vbscript:` or `data:`, whose pages run scripts of their own. Ignores controls
/// and spaces before it, and tabs, line feeds and carriage returns in it, as the URL Standard (4.4)
/// does. Drop such links if you make a page from untrusted input. Other attributes that hold
/// URLs (`src`, `action`, ..) can be checked in the same way.
///
/// ```
/// use html_dom::href_is_script;
///
/// assert!(rt; href_is_script(" java\nScript:alert(1)"));
/// assert!(rt; !href_is_script("/javascript:"));
/// ```
pub fn href_is_script(href: &str) -> bool
    ensures { result ≡ href_is_script (chars href.now) }
{
    let url = past_blanks(href);
    begins("javascript:", url) || begins("data:", url) || begins("vbscript:", url)
}

/// Returns the text after leading controls and spaces.
pub(crate) fn past_blanks(text: &str) -> &str
    ensures { chars result.now ≡ past_blanks (chars text.now) }
{
    let mut left = text;
    while let Some((c, rest)) = split_first(left) {
        if !is_control_or_space(c) {
            return left;
        }
        left = rest;
    }
    left
}

/// Returns the first character that a URL keeps, and the text after it.
fn first_kept(text: &str) -> Option<(char, &str)>
    ensures { MatchOption result (filter is_kept (chars text.now) ≡ [])
        (λ x. filter is_kept (chars text.now) ≡ x.0 ∷ filter is_kept (chars x.1.now)) }
{
    let mut left = text;
    while let Some((c, rest)) = split_first(left) {
        if !is_dropped(c) {
            return Some((c, rest));
        }
        left = rest;
    }
    None
}

/// Returns whether a URL, without the characters that it drops, begins with `small`, in any ASCII
/// case.
fn begins(small: &str, url: &str) -> bool
    ensures { result ≡ begins (chars small.now) (filter is_kept (chars url.now)) }
{
    let mut left = url;
    for expected in small.chars() {
        let Some((c, rest)) = first_kept(left) else {
            return false;
        };
        if c.to_ascii_lowercase() != expected {
            return false;
        }
        left = rest;
    }
    true
}
