//! The spelling of a name after the `#` of an `href`.

ghost use Rattle.std.specs.Prelude.{◌≡◌, chars, option_map, None, IfOk};
ghost use Rattle.percent_encoding.specs.Percent.{percent_encode};
ghost use Rattle.html_names_core.specs.Texts.{text_view};
ghost use Rattle.html_links.specs.Spellings.{encoding, href_to, href_with, is_any, is_in_colon_set, is_in_fragment_set, is_in_name_set, is_left, leading_spelling, name_encoding, plain_spelling, unless_place};
ghost use Rattle.html_links.specs.UsedNames.{used_in};

use crate::directives::has_directive;
use crate::names::is_used;
use html_names_core::text_writer::TextWriter;
use percent_encoding::{AsciiSet, CONTROLS, ascii_set, utf8_percent_encode};
use std::alloc::{AllocError, Global};
use std::collections::BTreeSet;

/// The fragment percent-encode set (URL Standard 1.3), which a browser encodes.
const FRAGMENT: AsciiSet = ascii_set!(CONTROLS.add(b' ').add(b'"').add(b'<').add(b'>').add(b'`'));

/// The fragment percent-encode set and `%`, so that decoding restores what was encoded.
const NAME: AsciiSet = ascii_set!(FRAGMENT.add(b'%'));

/// The same and `:`, so that no directive is left.
const COLON: AsciiSet = ascii_set!(NAME.add(b':'));

const ANY: AsciiSet = AsciiSet { mask: !0 };

/// Returns an `href` to a place of the same page by its name: `#`, and the name as it is, if a
/// browser leaves it so, or else with the fragment percent-encode set of the URL Standard (1.3) and
/// `%` encoded, and `:` too if the name contains `:~:`, from which on a browser drops a fragment (URL
/// Fragment Text Directives). It leads to the place unless another place has that spelling as its
/// own name.
/// Appended to the address of another page, it leads to a place there. Fails only if an allocation
/// fails.
///
/// The call does not know the tree. If one place is named `a b` and another `a%20b`, `#a%20b` leads
/// to the latter, since a browser looks for a fragment as it is before it decodes it (HTML Standard
/// 7.4.6.3). `resolve_links`, which knows the tree, then chooses another spelling.
///
/// ```
/// use html_dom::href_to;
///
/// let alloc = rt.alloc();
/// assert_eq!(rt; href_to(alloc, "salt")?.as_str(), "#salt");
/// assert_eq!(rt; href_to(alloc, "5% salt")?.as_str(), "#5%25%20salt");
/// ```
pub fn href_to(alloc: Global, name: &str) -> Result<String, AllocError>
    ensures { IfOk result (λ text. text_view text ≡ href_to (chars name.now)) }
{
    let spelling = plain_spelling(alloc, name)?;
    href_with(alloc, spelling.as_str())
}

/// Returns an `href` that leads to a place by its name, given the names of all places of its tree,
/// if one does: the one of [`href_to`], or another where a place has that spelling as its own name.
/// Fails only if an allocation fails.
pub fn leading_href(
    alloc: Global,
    places: &BTreeSet<String>,
    name: &str,
) -> Result<Option<String>, AllocError>
    ensures { IfOk result (λ href. option_map text_view href
        ≡ option_map href_with (leading_spelling (used_in places.now) (chars name.now))) }
{
    match leading_spelling(alloc, places, name)? {
        Some(spelling) => Ok(Some(href_with(alloc, spelling.as_str())?)),
        None => Ok(None),
    }
}

/// Joins `#` and a fragment.
fn href_with(alloc: Global, fragment: &str) -> Result<String, AllocError>
    ensures { IfOk result (λ href. text_view href ≡ href_with (chars fragment.now)) }
{
    let mut href = TextWriter::new(alloc);
    href.push('#')?;
    href.push_str(fragment)?;
    Ok(href.into_string())
}

fn is_in_fragment_set(c: char) -> bool
    ensures { result ≡ is_in_fragment_set c }
{
    c > '~' || FRAGMENT.contains(c as u8)
}

/// Returns whether a browser leaves a name as it is.
fn is_left(name: &str) -> bool
    ensures { result ≡ is_left (chars name.now) }
{
    for c in name.chars() {
        if is_in_fragment_set(c) {
            return false;
        }
    }
    !has_directive(name)
}

/// Encodes each byte that is in the set or no ASCII as `%` and two hexadecimal digits.
fn encoding(alloc: Global, text: &str, set: AsciiSet) -> Result<String, AllocError>
    ensures { IfOk result (λ made. text_view made ≡ percent_encode set text.now) }
{
    let mut made = String::new(alloc);
    utf8_percent_encode(text, set).append_to(&mut made)?;
    Ok(made)
}

/// Encodes what a browser would.
pub(crate) fn fragment_encoding(alloc: Global, text: &str) -> Result<String, AllocError>
    ensures { IfOk result (λ made.
        text_view made ≡ encoding is_in_fragment_set (chars text.now)) }
{
    encoding(alloc, text, FRAGMENT)
}

fn encoding_with_colons(alloc: Global, name: &str) -> Result<String, AllocError>
    ensures { IfOk result (λ made. text_view made ≡ encoding is_in_name_set (chars name.now)) }
{
    encoding(alloc, name, NAME)
}

fn encoding_without_colons(alloc: Global, name: &str) -> Result<String, AllocError>
    ensures { IfOk result (λ made. text_view made ≡ encoding is_in_colon_set (chars name.now)) }
{
    encoding(alloc, name, COLON)
}

/// Encodes what a browser would, and `%`; `:` only where else a directive would be left.
#[tactic(auto, unfolding(crate::specs::Spellings::name_encoding))]
fn name_encoding(alloc: Global, name: &str) -> Result<String, AllocError>
    ensures { IfOk result (λ made. text_view made ≡ name_encoding (chars name.now)) }
{
    let plain = encoding_with_colons(alloc, name)?;
    if has_directive(plain.as_str()) {
        encoding_without_colons(alloc, name)
    } else {
        Ok(plain)
    }
}

fn full_encoding(alloc: Global, name: &str) -> Result<String, AllocError>
    ensures { IfOk result (λ made. text_view made ≡ encoding is_any (chars name.now)) }
{
    encoding(alloc, name, ANY)
}

#[tactic(auto, unfolding(crate::specs::Spellings::plain_spelling))]
fn plain_spelling(alloc: Global, name: &str) -> Result<String, AllocError>
    ensures { IfOk result (λ made. text_view made ≡ plain_spelling (chars name.now)) }
{
    if is_left(name) {
        String::from_str(alloc, name)
    } else {
        name_encoding(alloc, name)
    }
}

fn unless_place(places: &BTreeSet<String>, spelling: String) -> Option<String>
    ensures { option_map text_view result
        ≡ unless_place (used_in places.now) (text_view spelling) None }
{
    if is_used(places, &spelling) {
        None
    } else {
        Some(spelling)
    }
}

#[tactic(auto, unfolding(crate::specs::Spellings::leading_spelling))]
fn leading_spelling(
    alloc: Global,
    places: &BTreeSet<String>,
    name: &str,
) -> Result<Option<String>, AllocError>
    ensures { IfOk result (λ made. option_map text_view made
        ≡ leading_spelling (used_in places.now) (chars name.now)) }
{
    if is_left(name) {
        return Ok(Some(String::from_str(alloc, name)?));
    }
    let spelling = name_encoding(alloc, name)?;
    if !is_used(places, &spelling) {
        return Ok(Some(spelling));
    }
    Ok(unless_place(places, full_encoding(alloc, name)?))
}
