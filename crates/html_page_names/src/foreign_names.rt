//! Names in SVG and MathML that get their capitals back after all letters were made lowercase (HTML
//! Standard 13.2.6.1 and 13.2.6.5).

ghost use Rattle.std.specs.{List.{list_any}, Prelude.{◌≡◌, [], bytes_eq, chars, map, IfOk, IsTrue}};
ghost use Rattle.html_names_core.specs.{Characters.{is_capital}, Names.{texts, are_ascii, rises}, Starts.{are_starts}};
ghost use Rattle.html_page_names.specs.Capitals.{IsWithCapitals, are_names};
ghost use Rattle.html_page_names.specs.ForeignNames.{keeps_case, lowered, svg_names, svg_attrs, math_attrs, with_capitals, is_encoding, is_font_attr, is_html_encoding};

use crate::foreign_table::{
    MATH_ATTR_STARTS, MATH_ATTRS, SMALL_MATH_ATTRS, SMALL_SVG_ATTRS, SMALL_SVG_TAGS,
    SVG_ATTR_STARTS, SVG_ATTRS, SVG_TAG_STARTS, SVG_TAGS,
};
use html_names_core::lookup::{is_one_of, place_in};
use html_names_core::{HtmlAttr, HtmlTag};
use std::alloc::{AllocError, Global};

/// Returns the name of the table that is this one in lowercase.
fn name_in(
    small: &[&'static str],
    starts: &[u8; 27],
    names: &[&'static str],
    name: &str,
) -> Option<&'static str>
    requires ascii { IsTrue (are_ascii (texts small.now)) }
    requires starts { IsTrue (are_starts starts.now (texts small.now)) }
    requires rises { IsTrue (rises (texts small.now)) }
    requires small { texts small.now ≡ map lowered (texts names.now) }
    requires valid { IsTrue (are_names (texts names.now)) }
    ensures { IsWithCapitals (texts names.now) (chars name.now) result }
{
    let place = place_in(small, starts, name)?;
    Some(names[usize::from(place)])
}

fn svg_tag_name(name: &str) -> Option<&'static str>
    ensures { IsWithCapitals svg_names (chars name.now) result }
{
    name_in(&SMALL_SVG_TAGS, &SVG_TAG_STARTS, &SVG_TAGS, name)
}

fn svg_attr_name(name: &str) -> Option<&'static str>
    ensures { IsWithCapitals svg_attrs (chars name.now) result }
{
    name_in(&SMALL_SVG_ATTRS, &SVG_ATTR_STARTS, &SVG_ATTRS, name)
}

fn math_attr_name(name: &str) -> Option<&'static str>
    ensures { IsWithCapitals math_attrs (chars name.now) result }
{
    name_in(&SMALL_MATH_ATTRS, &MATH_ATTR_STARTS, &MATH_ATTRS, name)
}

fn has_capital(name: &str) -> bool
    ensures { result ≡ list_any is_capital (chars name.now) }
{
    name.chars().any(|c| c.is_ascii_uppercase())
}

/// Returns whether a parser leaves the name as it is, if it gives these names their capitals.
#[tactic(auto, unfolding(crate::specs::ForeignNames::keeps_case), using(crate::proofs::Capitals::loses_case, crate::proofs::Capitals::keeps_small_case))]
fn keeps_case_in(
    small: &[&'static str],
    starts: &[u8; 27],
    names: &[&'static str],
    name: &str,
) -> bool
    requires ascii { IsTrue (are_ascii (texts small.now)) }
    requires starts { IsTrue (are_starts starts.now (texts small.now)) }
    requires names { IsTrue (are_ascii (texts names.now)) }
    requires small { texts small.now ≡ map lowered (texts names.now) }
    ensures { result ≡ keeps_case (texts names.now) (chars name.now) }
{
    if has_capital(name) {
        return is_one_of(names, name);
    }
    match place_in(small, starts, name) {
        Some(_) => false,
        None => true,
    }
}

/// Returns whether the tokenizer leaves the name of an element or attribute of HTML as it is.
#[tactic(auto, unfolding(crate::specs::ForeignNames::keeps_case, html_names_core::specs::Names::stands_in))]
pub fn keeps_case(name: &str) -> bool
    ensures { result ≡ keeps_case [] (chars name.now) }
{
    !has_capital(name)
}

/// Returns whether a parser leaves the name of an element of SVG as it is: a name with capitals is
/// one of SVG's, and one without is none of these in lowercase.
pub fn svg_tag_keeps_case(name: &str) -> bool
    ensures { result ≡ keeps_case svg_names (chars name.now) }
{
    keeps_case_in(&SMALL_SVG_TAGS, &SVG_TAG_STARTS, &SVG_TAGS, name)
}

/// Returns whether a parser leaves the name of an attribute of SVG as it is.
pub fn svg_attr_keeps_case(name: &str) -> bool
    ensures { result ≡ keeps_case svg_attrs (chars name.now) }
{
    keeps_case_in(&SMALL_SVG_ATTRS, &SVG_ATTR_STARTS, &SVG_ATTRS, name)
}

/// Returns whether a parser leaves the name of an attribute of MathML as it is.
pub fn math_attr_keeps_case(name: &str) -> bool
    ensures { result ≡ keeps_case math_attrs (chars name.now) }
{
    keeps_case_in(&SMALL_MATH_ATTRS, &MATH_ATTR_STARTS, &MATH_ATTRS, name)
}

/// Returns the tag of SVG that is this one in lowercase, or the tag itself if there is none.
///
/// ```
/// use html_names::HtmlTag;
/// use html_page_names::svg_tag;
///
/// let alloc = rt.alloc();
/// let tag = svg_tag(alloc, HtmlTag::intern(alloc, "clippath")?)?;
/// assert_eq!(rt; tag.resolve(), "clipPath");
/// let tag = svg_tag(alloc, HtmlTag::intern(alloc, "rect")?)?;
/// assert_eq!(rt; tag.resolve(), "rect");
/// ```
pub fn svg_tag(alloc: Global, tag: HtmlTag) -> Result<HtmlTag, AllocError>
    ensures { IfOk result (λ made. made ≡ with_capitals svg_names tag) }
{
    match svg_tag_name(tag.resolve()) {
        Some(name) => HtmlTag::constant(alloc, name),
        None => Ok(tag),
    }
}

/// Returns the attribute of SVG that is this one in lowercase, or itself if there is none.
///
/// ```
/// use html_names::HtmlAttr;
/// use html_page_names::svg_attr;
///
/// let alloc = rt.alloc();
/// let attr = svg_attr(alloc, HtmlAttr::intern(alloc, "viewbox")?)?;
/// assert_eq!(rt; attr.resolve(), "viewBox");
/// ```
pub fn svg_attr(alloc: Global, attr: HtmlAttr) -> Result<HtmlAttr, AllocError>
    ensures { IfOk result (λ made. made ≡ with_capitals svg_attrs attr) }
{
    match svg_attr_name(attr.resolve()) {
        Some(name) => HtmlAttr::constant(alloc, name),
        None => Ok(attr),
    }
}

/// Returns the attribute of MathML that is this one in lowercase, or itself if there is none.
///
/// ```
/// use html_names::HtmlAttr;
/// use html_page_names::math_attr;
///
/// let alloc = rt.alloc();
/// let attr = math_attr(alloc, HtmlAttr::intern(alloc, "definitionurl")?)?;
/// assert_eq!(rt; attr.resolve(), "definitionURL");
/// ```
pub fn math_attr(alloc: Global, attr: HtmlAttr) -> Result<HtmlAttr, AllocError>
    ensures { IfOk result (λ made. made ≡ with_capitals math_attrs attr) }
{
    match math_attr_name(attr.resolve()) {
        Some(name) => HtmlAttr::constant(alloc, name),
        None => Ok(attr),
    }
}

/// Returns whether a `font` with this attribute closes SVG and MathML (HTML Standard 13.2.6.5).
///
/// ```
/// use html_names::attr;
/// use html_page_names::is_font_attr;
///
/// assert!(rt; is_font_attr(&attr::color));
/// assert!(rt; !is_font_attr(&attr::class));
/// ```
#[tactic(auto, unfolding(crate::specs::ForeignNames::is_font_attr))]
pub fn is_font_attr(attr: &HtmlAttr) -> bool
    ensures { result ≡ is_font_attr attr.now }
{
    is_one_of(&["color", "face", "size"], attr.resolve())
}

/// Returns whether the attribute names an `annotation-xml`'s media type (HTML Standard 13.2.6).
///
/// ```
/// use html_names::HtmlAttr;
/// use html_page_names::is_encoding;
///
/// let alloc = rt.alloc();
/// assert!(rt; is_encoding(&HtmlAttr::intern(alloc, "encoding")?));
/// ```
#[tactic(auto, unfolding(crate::specs::ForeignNames::is_encoding))]
pub fn is_encoding(attr: &HtmlAttr) -> bool
    ensures { result ≡ is_encoding attr.now }
{
    is_one_of(&["encoding"], attr.resolve())
}

/// Returns whether the value is a media type of HTML for the content of an `annotation-xml`, in any
/// ASCII case.
///
/// ```
/// use html_page_names::is_html_encoding;
///
/// assert!(rt; is_html_encoding("Text/HTML"));
/// assert!(rt; !is_html_encoding("MathML-Content"));
/// ```
pub fn is_html_encoding(value: &str) -> bool
    ensures { result ≡ is_html_encoding (lowered (chars value.now)) }
{
    is_same_lowered(value, "application/xhtml+xml") || is_same_lowered(value, "text/html")
}

/// Returns whether the name in lowercase is the other one.
///
/// ```
/// use html_page_names::is_same_lowered;
///
/// assert!(rt; is_same_lowered("clipPath", "clippath"));
/// assert!(rt; !is_same_lowered("clippath", "clipPath"));
/// ```
#[tactic(auto, using(crate::proofs::Lowered::same_lowered))]
pub fn is_same_lowered(name: &str, lowered_name: &str) -> bool
    ensures { result ≡ bytes_eq (lowered (chars name.now)) (chars lowered_name.now) }
{
    are_same_lowered(name.as_bytes(), lowered_name.as_bytes())
}

fn are_same_lowered(bytes: &[u8], lowered_bytes: &[u8]) -> bool
    ensures { result ≡ bytes_eq (lowered bytes.now) lowered_bytes.now }
{
    if bytes.len() != lowered_bytes.len() {
        return false;
    }
    for (place, byte) in bytes.iter().enumerate() {
        if byte.to_ascii_lowercase() != lowered_bytes[place] {
            return false;
        }
    }
    true
}
