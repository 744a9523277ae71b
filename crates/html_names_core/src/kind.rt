//! Tests for kinds of elements. Each kind is a set of names.

ghost use Rattle.std.specs.Prelude.{◌≡◌};
ghost use Rattle.html_names_core.specs.Kinds as kinds;

use crate::html_tag::HtmlTag;
use crate::property::Display;
use crate::table::{
    EMBEDDED, ESCAPABLE_RAW, FLOW_BESIDE_PHRASING, FOREIGN_SELF_CLOSING, HEADING, INTERACTIVE,
    LINE_BREAK, MATHML, METADATA, NOT_PALPABLE, PHRASING, RAW, REPLACED, SCRIPT_SUPPORTING,
    SECTIONING, TOKEN, VOID,
};

/// Returns whether the element is void: it has no content and no end tag (HTML Standard 13.1.2).
#[tactic(auto, using(crate::proofs::ByTable::void_by_table))]
pub fn is_void(tag: &HtmlTag) -> bool
    ensures { result ≡ kinds.is_void tag.now }
{
    tag.name.is_of(VOID)
}

/// Returns whether the element is a raw text element (HTML Standard 13.1.2).
#[tactic(auto, using(crate::proofs::ByTable::raw_by_table))]
pub fn is_raw(tag: &HtmlTag) -> bool
    ensures { result ≡ kinds.is_raw tag.now }
{
    tag.name.is_of(RAW)
}

/// Returns whether the element is an escapable raw text element (HTML Standard 13.1.2).
#[tactic(auto, using(crate::proofs::ByTable::escapable_raw_by_table))]
pub fn is_escapable_raw(tag: &HtmlTag) -> bool
    ensures { result ≡ kinds.is_escapable_raw tag.now }
{
    tag.name.is_of(ESCAPABLE_RAW)
}

/// Returns whether the element is a foreign one that is written self-closing.
#[tactic(auto, using(crate::proofs::ByTable::foreign_self_closing_by_table))]
pub fn is_foreign_self_closing(tag: &HtmlTag) -> bool
    ensures { result ≡ kinds.is_foreign_self_closing tag.now }
{
    tag.name.is_of(FOREIGN_SELF_CLOSING)
}

/// Returns whether the element is metadata content (HTML Standard 3.2.5.2.1).
#[tactic(auto, using(crate::proofs::ByTable::metadata_content_by_table))]
pub fn is_metadata_content(tag: &HtmlTag) -> bool
    ensures { result ≡ kinds.is_metadata_content tag.now }
{
    tag.name.is_of(METADATA)
}

/// Returns whether the element is sectioning content (HTML Standard 3.2.5.2.3).
#[tactic(auto, using(crate::proofs::ByTable::sectioning_content_by_table))]
pub fn is_sectioning_content(tag: &HtmlTag) -> bool
    ensures { result ≡ kinds.is_sectioning_content tag.now }
{
    tag.name.is_of(SECTIONING)
}

/// Returns whether the element is heading content (HTML Standard 3.2.5.2.4).
#[tactic(auto, using(crate::proofs::ByTable::heading_content_by_table))]
pub fn is_heading_content(tag: &HtmlTag) -> bool
    ensures { result ≡ kinds.is_heading_content tag.now }
{
    tag.name.is_of(HEADING)
}

/// Returns whether the element is phrasing content (HTML Standard 3.2.5.2.5).
#[tactic(auto, using(crate::proofs::ByTable::phrasing_content_by_table))]
pub fn is_phrasing_content(tag: &HtmlTag) -> bool
    ensures { result ≡ kinds.is_phrasing_content tag.now }
{
    tag.name.is_of(PHRASING)
}

/// Returns whether the element is embedded content (HTML Standard 3.2.5.2.6).
#[tactic(auto, using(crate::proofs::ByTable::embedded_content_by_table))]
pub fn is_embedded_content(tag: &HtmlTag) -> bool
    ensures { result ≡ kinds.is_embedded_content tag.now }
{
    tag.name.is_of(EMBEDDED)
}

/// Returns whether the element is interactive content (HTML Standard 3.2.5.2.7).
#[tactic(auto, using(crate::proofs::ByTable::interactive_content_by_table))]
pub fn is_interactive_content(tag: &HtmlTag) -> bool
    ensures { result ≡ kinds.is_interactive_content tag.now }
{
    tag.name.is_of(INTERACTIVE)
}

/// Returns whether the element is a script-supporting element (HTML Standard 3.2.5.2.9).
#[tactic(auto, using(crate::proofs::ByTable::script_supporting_element_by_table))]
pub fn is_script_supporting_element(tag: &HtmlTag) -> bool
    ensures { result ≡ kinds.is_script_supporting_element tag.now }
{
    tag.name.is_of(SCRIPT_SUPPORTING)
}

/// Returns whether the element is replaced, that is, a single object for CSS.
#[tactic(auto, using(crate::proofs::ByTable::replaced_by_table))]
pub fn is_replaced(tag: &HtmlTag) -> bool
    ensures { result ≡ kinds.is_replaced tag.now }
{
    tag.name.is_of(REPLACED)
}

/// Returns whether the element is one of MathML.
#[tactic(auto, using(crate::proofs::ByTable::mathml_by_table))]
pub fn is_mathml(tag: &HtmlTag) -> bool
    ensures { result ≡ kinds.is_mathml tag.now }
{
    tag.name.is_of(MATHML)
}

/// Returns whether the element is a token element of MathML, which contains text directly.
#[tactic(auto, using(crate::proofs::ByTable::token_by_table))]
pub fn is_token(tag: &HtmlTag) -> bool
    ensures { result ≡ kinds.is_token tag.now }
{
    tag.name.is_of(TOKEN)
}

/// Returns whether the element is foreign, as the elements of MathML are (HTML Standard 13.1.2).
pub fn is_foreign(tag: &HtmlTag) -> bool
    ensures { result ≡ kinds.is_foreign tag.now }
{
    is_mathml(tag)
}

#[tactic(auto, using(crate::proofs::ByTable::flow_beside_phrasing_by_table))]
fn is_flow_beside_phrasing(tag: &HtmlTag) -> bool
    ensures { result ≡ kinds.is_flow_beside_phrasing tag.now }
{
    tag.name.is_of(FLOW_BESIDE_PHRASING)
}

#[tactic(auto, using(crate::proofs::ByTable::not_palpable_by_table))]
fn is_not_palpable(tag: &HtmlTag) -> bool
    ensures { result ≡ kinds.is_not_palpable tag.now }
{
    tag.name.is_of(NOT_PALPABLE)
}

/// Returns whether the element is flow content (HTML Standard 3.2.5.2.2).
pub fn is_flow_content(tag: &HtmlTag) -> bool
    ensures { result ≡ kinds.is_flow_content tag.now }
{
    is_phrasing_content(tag) || is_flow_beside_phrasing(tag)
}

/// Returns whether the element is palpable content (HTML Standard 3.2.5.2.8).
pub fn is_palpable_content(tag: &HtmlTag) -> bool
    ensures { result ≡ kinds.is_palpable_content tag.now }
{
    is_flow_content(tag) && !is_not_palpable(tag)
}

/// Returns whether a browser removes white space beside the element's tags when it lays out the
/// page: whether its default display makes a border, or it is `br`.
pub fn is_whitespace_collapsing(tag: &HtmlTag) -> bool
    ensures { result ≡ kinds.is_whitespace_collapsing tag.now }
{
    is_line_break(tag) || Display::default_for(tag).is_some_and(|display| display.is_border())
}

#[tactic(auto, using(crate::proofs::ByTable::line_break_by_table))]
fn is_line_break(tag: &HtmlTag) -> bool
    ensures { result ≡ kinds.is_line_break tag.now }
{
    tag.name.is_of(LINE_BREAK)
}

/// Returns whether the element can be part of a paragraph that is formed from neighbouring nodes:
/// whether it is phrasing content and not hidden by default.
pub fn should_group_into_pars(tag: &HtmlTag) -> bool
    ensures { result ≡ kinds.should_group_into_pars tag.now }
{
    is_phrasing_content(tag) && Display::default_for(tag) != Some(Display::None)
}
