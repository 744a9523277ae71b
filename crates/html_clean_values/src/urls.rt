//! Which URLs are allowed, by their schemes.

ghost use Rattle.std.specs.{List.{filter}, Prelude.{◌≡◌, chars}};
ghost use Rattle.html_names_core.specs.Texts.{texts_view};
ghost use Rattle.html_links.specs.Indicated.{is_kept};
ghost use Rattle.html_clean_values.specs.{SchemeTests.{one_is_scheme}, Urls.{url_is_allowed, urls_are_allowed}};

use crate::schemes::{has_scheme, is_scheme_rest, past_blanks};
use crate::words::next_word;

/// Returns whether the scheme of a URL that has one is one of these.
#[tactic(auto, unfolding(crate::specs::SchemeTests::one_is_scheme))]
fn has_one_of(schemes: &[String], url: &str) -> bool
    ensures { result ≡ one_is_scheme (texts_view schemes.now) (filter is_kept (chars url.now)) }
{
    for scheme in schemes {
        if is_scheme_rest(scheme.as_str(), url) {
            return true;
        }
    }
    false
}

/// Returns whether a URL has one of these schemes, which are in small letters, or has no scheme and
/// `relative` is true. The scheme is what a browser takes for it (URL Standard 4.4): in any ASCII
/// case, behind controls and spaces, and with tabs, line feeds and carriage returns in it, which a
/// browser drops. A URL such as `//a.example/` has none: it takes the scheme of its page.
///
/// ```
/// use html_clean_values::url_is_allowed;
///
/// let alloc = rt.alloc();
/// let schemes = vec![in alloc; String::from_str(alloc, "https")?]?;
/// assert!(rt; url_is_allowed(&schemes, false, "HTTPS://a.example/"));
/// assert!(rt; !url_is_allowed(&schemes, true, " java\nscript:alert(1)"));
/// assert!(rt; url_is_allowed(&schemes, true, "/a/javascript:b"));
/// ```
pub fn url_is_allowed(schemes: &[String], relative: bool, url: &str) -> bool
    ensures { result ≡ url_is_allowed (texts_view schemes.now) relative (chars url.now) }
{
    let begin = past_blanks(url);
    if has_scheme(begin) {
        has_one_of(schemes, begin)
    } else {
        relative
    }
}

/// Returns whether each URL of a text is allowed, as [`url_is_allowed`] says, where white space
/// separates them, as in `ping` of links.
///
/// ```
/// use html_clean_values::urls_are_allowed;
///
/// let alloc = rt.alloc();
/// let schemes = vec![in alloc; String::from_str(alloc, "https")?]?;
/// assert!(rt; urls_are_allowed(&schemes, true, "https://a.example/ b"));
/// assert!(rt; !urls_are_allowed(&schemes, true, "https://a.example/ data:b"));
/// ```
#[tactic(auto, unfolding(crate::specs::Urls::urls_are_allowed))]
pub fn urls_are_allowed(schemes: &[String], relative: bool, text: &str) -> bool
    ensures { result ≡ urls_are_allowed (texts_view schemes.now) relative (chars text.now) }
{
    let mut left = text;
    while let Some((url, rest)) = next_word(left) {
        if !url_is_allowed(schemes, relative, url) {
            return false;
        }
        left = rest;
    }
    true
}
