//! One declaration.

ghost use Rattle.std.specs.{Char.{to_ascii_lowercase}, Prelude.{◌≡◌, ◌&&◌, [], IfOk, Some, bytes_eq, chars, map}};
ghost use Rattle.html_names_core.specs.{Names.{stands_in}, Texts.{text_view, texts_view}};
ghost use Rattle.html_clean_styles.specs.Styles.{declaration, declared, is_plain, written};

use crate::cut::cut_colon;
use crate::space::squeezed;
use crate::value::is_plain;
use html_dom_tree::text::split_first;
use html_names_core::text_writer::TextWriter;
use std::alloc::{AllocError, Global};

/// Returns a text in small ASCII letters.
fn small(alloc: Global, text: &str) -> Result<String, AllocError>
    ensures { IfOk result (λ made. text_view made ≡ map to_ascii_lowercase (chars text.now)) }
{
    let mut made = TextWriter::new(alloc);
    let mut left = text;
    while let Some((c, rest)) = split_first(left) {
        made.push(c.to_ascii_lowercase())?;
        left = rest;
    }
    Ok(made.into_string())
}

fn same(a: &String, b: &String) -> bool
    ensures { result ≡ bytes_eq (text_view a.now) (text_view b.now) }
{
    *a == *b
}

#[tactic(auto, unfolding(html_names_core::specs::Names::stands_in))]
fn stands_in(properties: &[String], name: &String) -> bool
    ensures { result ≡ stands_in (texts_view properties.now) (text_view name.now) }
{
    for property in properties {
        if same(property, name) {
            return true;
        }
    }
    false
}

/// Returns whether a declaration stays.
fn stays(properties: &[String], name: &String, value: &str) -> bool
    ensures { result ≡ (stands_in (texts_view properties.now) (text_view name.now)
        && is_plain (chars value.now)) }
{
    stands_in(properties, name) && is_plain(value)
}

/// Writes a declaration in its one form if it stays, and else nothing.
fn written(
    alloc: Global,
    properties: &[String],
    name: &String,
    value: &str,
) -> Result<String, AllocError>
    ensures { IfOk result (λ made. text_view made
        ≡ written (texts_view properties.now) (text_view name.now) (chars value.now)) }
{
    let mut made = TextWriter::new(alloc);
    if !stays(properties, name, value) {
        return Ok(made.into_string());
    }
    made.push_str(name.as_str())?;
    made.push_ascii(": ")?;
    made.push_str(value)?;
    Ok(made.into_string())
}

/// Writes the declaration with these texts before its `:` and behind it.
fn declared(
    alloc: Global,
    properties: &[String],
    before: &str,
    behind: &str,
) -> Result<String, AllocError>
    ensures { IfOk result (λ made. text_view made
        ≡ declared (texts_view properties.now) (Some (chars before.now, chars behind.now))) }
{
    let squeezed_name = squeezed(alloc, before)?;
    let name = small(alloc, squeezed_name.as_str())?;
    let value = squeezed(alloc, behind)?;
    written(alloc, properties, &name, value.as_str())
}

#[tactic(auto, using(std::proofs::StrCases::chars_of_empty))]
fn nothing(alloc: Global) -> String
    ensures { text_view result ≡ [] }
{
    String::new(alloc)
}

/// Writes what stays of the text between two `;`.
pub(crate) fn declaration(
    alloc: Global,
    properties: &[String],
    piece: &str,
) -> Result<String, AllocError>
    ensures { IfOk result (λ made.
        text_view made ≡ declaration (texts_view properties.now) (chars piece.now)) }
{
    match cut_colon(piece) {
        Some((before, behind)) => declared(alloc, properties, before, behind),
        None => Ok(nothing(alloc)),
    }
}
