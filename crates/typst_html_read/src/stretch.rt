//! Reading stretches of characters that are only appended to a text, a value, a name or a
//! reference.

ghost use Rattle.std.specs.Prelude.{◌≡◌, ◌<◌, ◌++◌, [], chars, IfOk, true};
ghost use Rattle.html_dom_tree.specs.Views.{text_view};
ghost use Rattle.html_names_core.specs.Characters.{is_tag_char};
ghost use Rattle.typst_html_read.specs.{ReaderViews.{reader_state}, Stretches.{Adds, all_grow, continues, is_plain, ReadsOn, Splits}};

use crate::reader::{Mode, Reader};
use html_dom_tree::text::add_text;
use html_text::cut_tag_name;
use std::alloc::AllocError;

fn is_plain(end: u8, byte: u8) -> bool
    ensures { result ≡ is_plain end byte }
{
    byte != end && byte != b'&'
}

/// Splits a text before its first `&` or `end`.
fn split_plain(end: u8, text: &str) -> (&str, &str)
    requires { end < 128 }
    ensures { Splits (is_plain end) (chars text.now) (chars result.0.now) (chars result.1.now) }
{
    let bytes = text.as_bytes();
    let mut at = 0;
    while at < bytes.len() && is_plain(end, bytes[at]) {
        at += 1;
    }
    text.split_at(at)
}

/// Splits a text before its first character that a tag name cannot have.
fn split_name(text: &str) -> (&str, &str)
    ensures { Splits is_tag_char (chars text.now) (chars result.0.now) (chars result.1.now) }
{
    cut_tag_name(text)
}

/// Splits a text after the name or number of one of the most frequent references, if it begins
/// with one.
fn split_reference(text: &str) -> (&str, &str)
    ensures parts { chars text.now ≡ chars result.0.now ++ chars result.1.now }
    ensures begins { all_grow continues [] (chars result.0.now) ≡ true }
{
    if let Some(rest) = text.strip_prefix("amp") {
        return ("amp", rest);
    }
    if let Some(rest) = text.strip_prefix("lt") {
        return ("lt", rest);
    }
    if let Some(rest) = text.strip_prefix("gt") {
        return ("gt", rest);
    }
    if let Some(rest) = text.strip_prefix("#x20") {
        return ("#x20", rest);
    }
    ("", text)
}

/// Appends the characters before the first `&` or `end`, and returns the rest.
fn add_plain<'a>(read: &mut String, end: u8, text: &'a str) -> Result<&'a str, AllocError>
    requires { end < 128 }
    ensures { IfOk result (λ rest. Adds (λ _. is_plain end) (text_view read.old) (text_view read.new)
        (chars text.now) (chars rest.now)) }
{
    let (front, rest) = split_plain(end, text);
    if front.is_empty() {
        return Ok(rest);
    }
    add_text(read, front)?;
    Ok(rest)
}

/// Appends the characters of tag names that a text begins with, and returns the rest.
fn add_name<'a>(read: &mut String, text: &'a str) -> Result<&'a str, AllocError>
    ensures { IfOk result (λ rest. Adds (λ _. is_tag_char) (text_view read.old) (text_view read.new)
        (chars text.now) (chars rest.now)) }
{
    let (front, rest) = split_name(text);
    add_text(read, front)?;
    Ok(rest)
}

/// Appends the name or number of a frequent reference that a text begins with, unless part of a
/// reference has been read, and returns the rest.
fn add_reference<'a>(since: &mut String, text: &'a str) -> Result<&'a str, AllocError>
    ensures { IfOk result (λ rest. Adds continues (text_view since.old) (text_view since.new)
        (chars text.now) (chars rest.now)) }
{
    if !since.is_empty() {
        return Ok(text);
    }
    let (front, rest) = split_reference(text);
    add_text(since, front)?;
    Ok(rest)
}

impl Reader {
    /// Reads at once the characters at the beginning of a text that would each only be appended to
    /// a text, a value, a name or a reference, and returns the rest.
    pub(crate) fn read_stretch<'a>(&mut self, text: &'a str) -> Result<&'a str, AllocError>
        ensures { IfOk result (λ rest.
            ReadsOn (reader_state self.old) (reader_state self.new) (chars text.now) (chars rest.now)) }
    {
        match self.mode {
            Mode::Content => add_plain(&mut self.text, b'<', text),
            Mode::Value => add_plain(&mut self.text, b'"', text),
            Mode::StartName => add_name(&mut self.word, text),
            Mode::AttrName => add_name(&mut self.word, text),
            Mode::Reference => add_reference(&mut self.word, text),
            Mode::ValueReference => add_reference(&mut self.word, text),
            _ => Ok(text),
        }
    }
}
