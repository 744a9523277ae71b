//! The escaping of texts and values.

ghost use Rattle.std.specs.Prelude.{◌≡◌, ◌<◌, ◌++◌, ◌∷◌, [], true, false, OnOk, IfOk, IfSome, chars};
ghost use Rattle.html_names_core.specs.Characters.{is_text_char};
ghost use Rattle.typst_html_encode.specs.{Endings.{Adds}, ExportFaults.{is_bad, is_reference, char_faults, text_faults}};
ghost use Rattle.typst_html_encode.specs.{PlainStretches.{is_plain, PassesPlain, WritesUpTo}, References.{reference_to}};
ghost use Rattle.typst_html_encode.specs.Text.{stands_as_is, char_text, escaped_text};

use crate::fault::ExportFault;
use crate::stretch::past_passed;
use html_dom_tree::Span;
use html_names_core::charsets::{
    is_valid_in_attribute_value, is_valid_in_normal_element_text, is_w3c_text_char,
};
use html_names_core::text_writer::TextWriter;
use std::alloc::AllocError;

/// The ways to write the characters of a text.
#[derive(Clone, Copy, PartialEq, Eq)]
pub(crate) enum Escaping {
    /// An ordinary text: a character that cannot stand in one is written as a reference.
    Text,
    /// A text whose characters are all written as references. A carriage return in it is refused.
    Reference,
    /// The value of an attribute: a character that cannot stand in one is written as a reference.
    Value,
    /// Raw text, which is written as it is.
    Raw,
}

/// A table of the ASCII characters: the sum of 1 if the character is written as it is in a text, 2
/// in a value, and 4 in raw text.
static PLAIN: [u8; 128] = [
    0, 0, 0, 0, 0, 0, 0, 0, 0, 7, 7, 0, 7, 7, 0, 0, 0, 0, 0, 0, 0, 0, 0, 0, 0, 0, 0, 0, 0, 0, 0, 0,
    7, 7, 5, 7, 7, 7, 4, 7, 7, 7, 7, 7, 7, 7, 7, 7, 7, 7, 7, 7, 7, 7, 7, 7, 7, 7, 7, 7, 6, 7, 7, 7,
    7, 7, 7, 7, 7, 7, 7, 7, 7, 7, 7, 7, 7, 7, 7, 7, 7, 7, 7, 7, 7, 7, 7, 7, 7, 7, 7, 7, 7, 7, 7, 7,
    7, 7, 7, 7, 7, 7, 7, 7, 7, 7, 7, 7, 7, 7, 7, 7, 7, 7, 7, 7, 7, 7, 7, 7, 7, 7, 7, 7, 7, 7, 7, 0,
];

/// Returns whether the ASCII character can be written.
fn is_text_byte(byte: u8) -> bool
    requires { byte < 128 }
    ensures { result ≡ is_text_char byte }
{
    PLAIN[byte as usize] & 4 != 0
}

fn is_text_char(c: char) -> bool
    ensures { result ≡ is_text_char c }
{
    if c.is_ascii() {
        is_text_byte(c as u8)
    } else {
        is_w3c_text_char(c)
    }
}

fn is_bad(escaping: Escaping, c: char) -> bool
    ensures { result ≡ is_bad escaping c }
{
    !is_text_char(c) || (matches!(escaping, Escaping::Reference) && c == '\r')
}

#[tactic(auto, unfolding(crate::specs::References::numeric), using(crate::proofs::BlankReferences::reference_steps))]
fn write_reference(out: &mut TextWriter, c: char) -> Result<(), AllocError>
    ensures { OnOk result (out.new ≡ out.old ++ reference_to c) }
{
    match c {
        ' ' => out.push_ascii("&#x20;"),
        '\t' => out.push_ascii("&#x9;"),
        '&' => out.push_ascii("&amp;"),
        '<' => out.push_ascii("&lt;"),
        '>' => out.push_ascii("&gt;"),
        '"' => out.push_ascii("&quot;"),
        '\'' => out.push_ascii("&apos;"),
        _ => {
            out.push_ascii("&#x")?;
            out.push_hex(u32::from(c))?;
            out.push(';')
        }
    }
}

fn stands_as_is(escaping: Escaping, c: char) -> bool
    ensures { result ≡ stands_as_is escaping c }
{
    match escaping {
        Escaping::Text => is_valid_in_normal_element_text(c),
        Escaping::Reference => false,
        Escaping::Value => is_valid_in_attribute_value(c),
        Escaping::Raw => true,
    }
}

/// Returns whether the ASCII character can be written, and is written as it is.
fn is_plain_byte(escaping: Escaping, byte: u8) -> bool
    requires { byte < 128 }
    ensures { result ≡ is_plain escaping byte }
{
    let ways = PLAIN[byte as usize];
    match escaping {
        Escaping::Text => ways & 1 != 0,
        Escaping::Reference => false,
        Escaping::Value => ways & 2 != 0,
        Escaping::Raw => ways & 4 != 0,
    }
}

/// Returns whether the character can be written, and is written as it is.
fn is_plain(escaping: Escaping, c: char) -> bool
    ensures { result ≡ is_plain escaping c }
{
    if c.is_ascii() {
        is_plain_byte(escaping, c as u8)
    } else {
        stands_as_is(escaping, c) && !is_bad(escaping, c)
    }
}

#[tactic(auto, using(crate::proofs::Stretches::plain_chars))]
fn write_char(
    out: &mut TextWriter,
    escaping: Escaping,
    c: char,
    span: Span,
) -> Result<(), ExportFault>
    ensures { Adds result out.old out.new (char_text escaping c) (char_faults escaping span.0 c) }
{
    if is_bad(escaping, c) {
        return Err(ExportFault::Unencodable { c, span });
    }
    if is_plain(escaping, c) {
        out.push(c)?;
    } else {
        write_reference(out, c)?;
    }
    Ok(())
}

/// Returns the rest of the text from its first character on that cannot be written, or is not
/// written as it is. Passes many bytes at a time.
#[inline(never)]
fn past_plain(escaping: Escaping, text: &str) -> &str
    requires { is_reference escaping ≡ false }
    ensures { PassesPlain escaping text.now result.now }
{
    let mut rest = past_passed(escaping, text);
    let mut left = rest.chars();
    while let Some(c) = left.next() {
        if !is_plain(escaping, c) {
            return rest;
        }
        rest = past_passed(escaping, left.as_str());
        left = rest.chars();
    }
    rest
}

/// Writes the characters up to the first that cannot be written, or is not written as it is, and
/// returns the rest of the text from that one on.
#[inline(always)]
fn write_plain<'a>(
    out: &mut TextWriter,
    escaping: Escaping,
    text: &'a str,
) -> Result<&'a str, AllocError>
    ensures { IfOk result (λ rest. WritesUpTo escaping out.old out.new text.now rest.now) }
{
    if matches!(escaping, Escaping::Reference) {
        return Ok(text);
    }
    let rest = past_plain(escaping, text);
    out.push_str(&text[..text.len() - rest.len()])?;
    Ok(rest)
}

/// Returns whether the text begins with an ASCII character that cannot be written, or is not written
/// as it is.
fn begins_with_other(escaping: Escaping, text: &str) -> bool {
    match text.as_bytes().first() {
        Some(byte) => *byte < 128 && !is_plain_byte(escaping, *byte),
        None => false,
    }
}

/// Does what [`write_plain`] does, but looks at one byte first, since such characters often follow
/// one another.
#[inline(always)]
fn write_next_plain<'a>(
    out: &mut TextWriter,
    escaping: Escaping,
    text: &'a str,
) -> Result<&'a str, AllocError>
    ensures { IfOk result (λ rest. WritesUpTo escaping out.old out.new text.now rest.now) }
{
    if begins_with_other(escaping, text) {
        return Ok(text);
    }
    write_plain(out, escaping, text)
}

/// Returns the ASCII character that is the whole text, if it can be written, and is written as it
/// is.
#[inline(always)]
fn lone_plain(escaping: Escaping, text: &str) -> Option<u8>
    ensures { IfSome result (λ byte.
        (chars text.now ≡ byte ∷ []) × (is_plain escaping byte ≡ true)) }
{
    match text.as_bytes() {
        [byte] if *byte < 128 && is_plain_byte(escaping, *byte) => Some(*byte),
        _ => None,
    }
}

/// Writes a text. Most texts have no character that is written as a reference, and are written in
/// one piece.
#[inline(always)]
pub(crate) fn write_text(
    out: &mut TextWriter,
    escaping: Escaping,
    text: &str,
    span: Span,
) -> Result<(), ExportFault>
    ensures { Adds result out.old out.new
        (escaped_text escaping (chars text.now))
        (text_faults escaping span.0 (chars text.now)) }
{
    if let Some(byte) = lone_plain(escaping, text) {
        out.push(byte as char)?;
        return Ok(());
    }
    let rest = write_plain(out, escaping, text)?;
    if rest.is_empty() {
        return Ok(());
    }
    write_rest(out, escaping, rest, span)
}

/// Writes a text, one by one the characters that cannot be written or are not written as they are.
#[inline(never)]
fn write_rest(
    out: &mut TextWriter,
    escaping: Escaping,
    text: &str,
    span: Span,
) -> Result<(), ExportFault>
    ensures { Adds result out.old out.new
        (escaped_text escaping (chars text.now))
        (text_faults escaping span.0 (chars text.now)) }
{
    let mut rest = text;
    loop {
        let mut left = rest.chars();
        let Some(c) = left.next() else {
            return Ok(());
        };
        write_char(out, escaping, c, span)?;
        rest = write_next_plain(out, escaping, left.as_str())?;
    }
}
