//! The place to which an `href` to a fragment of its own page leads in a browser.

ghost use Rattle.std.specs.Prelude.{◌≡◌, chars, option_map, option_to_list, string_bytes, IfOk};
ghost use Rattle.html_names_core.specs.Texts.{text_view};
ghost use Rattle.html_links.specs.Indicated.{behind_hash, decoded_fragments, decoded_name, decoding, fragments_in, if_place, indicated_name, is_control_or_space, is_dropped, is_top, leads, leads_to_top, place_in, unless_empty, url_end, url_fragment};
ghost use Rattle.html_links.specs.UsedNames.{used_in};

use crate::directives::without_directive;
use crate::names::is_used;
use crate::spellings::fragment_encoding;
use html_names_core::text_writer::TextWriter;
use percent_encoding::percent_decode;
use std::alloc::{AllocError, Global};
use std::collections::BTreeSet;

/// Returns the fragment of an `href` to its own page, as a browser takes it (URL Standard 4.4): the
/// text after the `#` with which it begins, up to a directive (`:~:`, URL Fragment Text
/// Directives). Ignores controls and spaces at both ends, and tabs, line feeds and carriage returns
/// anywhere. `#` alone and `#:~:text=t`, which lead to the top of the page, have none. The fragment
/// is not decoded: [`place_in`] returns the name to which it leads. Fails only if an allocation
/// fails.
///
/// ```
/// use html_dom::fragment_in;
///
/// let alloc = rt.alloc();
/// let fragment = fragment_in(alloc, " #a\n b ")?;
/// assert!(rt; fragment.is_some_and(|fragment| fragment.as_str() == "a b"));
/// assert!(rt; fragment_in(alloc, "other.html#a")?.is_none());
/// ```
pub fn fragment_in(alloc: Global, href: &str) -> Result<Option<String>, AllocError>
    ensures { IfOk result (λ fragment.
        option_to_list (option_map text_view fragment) ≡ fragments_in (chars href.now)) }
{
    let Some(fragment) = behind_hash(href) else {
        return Ok(None);
    };
    let end = url_end(alloc, fragment)?;
    unless_empty(alloc, without_directive(end.as_str()))
}

/// Returns the name of the place to which an `href` leads in a browser, given the names of the
/// places of its page (HTML Standard 7.4.6.3): the fragment as it is
/// ([`fragment_in`], with the fragment percent-encode set encoded), if a place has that name, or
/// else the percent-decoded fragment, with U+FFFD for bytes that are not UTF-8, if one has that.
/// Returns `None` if the `href` leads to another page, to the top of this one (`#`, or `#top` in
/// any ASCII case, if no place has that name) or nowhere ([`fragment_leads`]).
///
/// Takes time linear in the length of the `href`, and logarithmic in the number of names. Fails
/// only if an allocation fails.
///
/// ```
/// use html_dom::place_in;
/// use std::collections::BTreeSet;
///
/// let alloc = rt.alloc();
/// let mut names = BTreeSet::new(alloc);
/// names.insert(String::from_str(alloc, "café")?)?;
/// names.insert(String::from_str(alloc, "100%25")?)?;
/// let name = place_in(alloc, "#caf%C3%A9", &names)?;
/// assert_eq!(rt; name.as_deref(), Some("café"));
/// let name = place_in(alloc, "#100%25", &names)?;
/// assert_eq!(rt; name.as_deref(), Some("100%25"));
/// assert!(rt; place_in(alloc, "#top", &names)?.is_none());
/// ```
pub fn place_in(
    alloc: Global,
    href: &str,
    names: &BTreeSet<String>,
) -> Result<Option<String>, AllocError>
    ensures { IfOk result (λ name.
        option_map text_view name ≡ place_in (used_in names.now) (chars href.now)) }
{
    match fragment_in(alloc, href)? {
        Some(fragment) => indicated_name(alloc, names, fragment.as_str()),
        None => Ok(None),
    }
}

/// Returns the percent-decoded fragment of an `href` ([`fragment_in`]), with U+FFFD for bytes that
/// are not UTF-8: the name to which it leads, unless a place has the fragment as it is as its name
/// or the `href` leads to the top. [`place_in`], which knows the names, decides that. Returns `None`
/// if the `href` has no fragment. Fails only if an allocation fails.
///
/// ```
/// use html_dom::decoded_fragment;
///
/// let alloc = rt.alloc();
/// assert_eq!(rt; decoded_fragment(alloc, "#a%20b")?.as_deref(), Some("a b"));
/// assert!(rt; decoded_fragment(alloc, "#")?.is_none());
/// ```
pub fn decoded_fragment(alloc: Global, href: &str) -> Result<Option<String>, AllocError>
    ensures { IfOk result (λ name.
        option_to_list (option_map text_view name) ≡ decoded_fragments (chars href.now)) }
{
    match fragment_in(alloc, href)? {
        Some(fragment) => Ok(Some(decoded_name(alloc, fragment.as_str())?)),
        None => Ok(None),
    }
}

/// Returns whether a fragment leads to a place of its page, or to the top, in a browser (HTML
/// Standard 7.4.6.3), given the names of the places. The document's URL drops a directive (`:~:` and
/// all after it) and encodes the fragment by the fragment percent-encode set; the browser then
/// looks for a place with that text as its name, or else with the text to which it decodes, with
/// U+FFFD for bytes that are not UTF-8. The empty fragment leads to the top of the page; so does
/// `top`, in any ASCII case, if no place has that name. Fails only if an allocation fails.
///
/// ```
/// use typst_html::{HtmlElement, attr, fragment_leads, place_names, tag};
///
/// let alloc = rt.alloc();
/// let id = String::from_str(alloc, "a b")?;
/// let root = HtmlElement::new(alloc, tag::p).with_attr(attr::id, id)?;
/// let places = place_names(alloc, &root)?;
/// assert!(rt; fragment_leads(alloc, &places, "a%20b")?);
/// assert!(rt; fragment_leads(alloc, &places, "a b:~:text=t")?);
/// assert!(rt; !fragment_leads(alloc, &places, "b")?);
/// ```
#[tactic(auto, unfolding(crate::specs::Indicated::leads))]
pub fn fragment_leads(
    alloc: Global,
    places: &BTreeSet<String>,
    fragment: &str,
) -> Result<bool, AllocError>
    ensures { IfOk result (λ leading. leading ≡ leads (used_in places.now) (chars fragment.now)) }
{
    match indicated_name(alloc, places, fragment)? {
        Some(_) => Ok(true),
        None => leads_to_top(alloc, fragment),
    }
}

pub(crate) fn is_control_or_space(c: char) -> bool
    ensures { result ≡ is_control_or_space c }
{
    c <= ' '
}

/// Returns whether a URL drops a character.
pub(crate) fn is_dropped(c: char) -> bool
    ensures { result ≡ is_dropped c }
{
    matches!(c, '\t' | '\n' | '\r')
}

/// Returns the text after the `#` with which an `href` begins, past blanks.
fn behind_hash(href: &str) -> Option<&str>
    ensures { option_map (λ text. chars text.now) result ≡ behind_hash (chars href.now) }
{
    let mut left = href.chars();
    while let Some(c) = left.next() {
        if c == '#' {
            return Some(left.as_str());
        }
        if !is_control_or_space(c) {
            return None;
        }
    }
    None
}

fn url_end(alloc: Global, text: &str) -> Result<TextWriter, AllocError>
    ensures { IfOk result (λ end. end ≡ url_end (chars text.now)) }
{
    let mut end = TextWriter::new(alloc);
    let mut blanks = TextWriter::new(alloc);
    for c in text.chars() {
        if is_dropped(c) {
            continue;
        }
        if is_control_or_space(c) {
            blanks.push(c)?;
        } else {
            end.push_str(blanks.as_str())?;
            end.push(c)?;
            blanks = TextWriter::new(alloc);
        }
    }
    Ok(end)
}

fn unless_empty(alloc: Global, text: &str) -> Result<Option<String>, AllocError>
    ensures { IfOk result (λ some.
        option_to_list (option_map text_view some) ≡ unless_empty (chars text.now)) }
{
    if text.is_empty() {
        Ok(None)
    } else {
        Ok(Some(String::from_str(alloc, text)?))
    }
}

/// Returns a fragment as the URL of the document has it.
fn url_fragment(alloc: Global, fragment: &str) -> Result<String, AllocError>
    ensures text { IfOk result (λ text. text_view text ≡ url_fragment (chars fragment.now)) }
    ensures bytes { IfOk result (λ text. string_bytes text ≡ url_fragment (chars fragment.now)) }
{
    fragment_encoding(alloc, without_directive(fragment))
}

fn decoding(alloc: Global, url_fragment: &str) -> Result<String, AllocError>
    ensures { IfOk result (λ text. string_bytes text ≡ decoding url_fragment.now) }
{
    let decoded = percent_decode(url_fragment.as_bytes()).decode_utf8_lossy(alloc)?;
    decoded.into_owned(alloc)
}

fn decoded_name(alloc: Global, fragment: &str) -> Result<String, AllocError>
    ensures { IfOk result (λ name. text_view name ≡ decoded_name (chars fragment.now)) }
{
    let fragment = url_fragment(alloc, fragment)?;
    decoding(alloc, fragment.as_str())
}

/// Returns the name of the place to which a fragment leads, if it leads to one.
#[tactic(auto, unfolding(crate::specs::Indicated::indicated_name))]
fn indicated_name(
    alloc: Global,
    places: &BTreeSet<String>,
    fragment: &str,
) -> Result<Option<String>, AllocError>
    ensures { IfOk result (λ name. option_map text_view name
        ≡ indicated_name (used_in places.now) (chars fragment.now)) }
{
    let as_it_is = url_fragment(alloc, fragment)?;
    if as_it_is.is_empty() {
        return Ok(None);
    }
    if is_used(places, &as_it_is) {
        return Ok(Some(as_it_is));
    }
    let decoded = decoding(alloc, as_it_is.as_str())?;
    Ok(if_place(places, decoded))
}

/// Returns the name, if a place has it.
fn if_place(places: &BTreeSet<String>, name: String) -> Option<String>
    ensures { option_map text_view result ≡ if_place (used_in places.now) (text_view name) }
{
    if is_used(places, &name) {
        Some(name)
    } else {
        None
    }
}

/// Returns whether a fragment that indicates no place leads to the top of the page.
fn leads_to_top(alloc: Global, fragment: &str) -> Result<bool, AllocError>
    ensures { IfOk result (λ leading.
        leading ≡ leads_to_top (url_fragment (chars fragment.now))) }
{
    let fragment = url_fragment(alloc, fragment)?;
    if fragment.is_empty() {
        return Ok(true);
    }
    let decoded = decoding(alloc, fragment.as_str())?;
    Ok(is_top(decoded.as_str()))
}

fn is_top(text: &str) -> bool
    ensures { result ≡ is_top text.now }
{
    text.eq_ignore_ascii_case("top")
}
