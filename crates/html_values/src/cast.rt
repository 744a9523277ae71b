//! Functions that casts share.

ghost use Rattle.std.specs.{List.{flat_map, join_by, list_any}, Prelude.{◌≡◌, ◌++◌, ◌==◌, chars, IfOk, IfErr, OnOk, Ok, Err}};
ghost use Rattle.std.specs.Str.{bytes_eq};
ghost use Rattle.html_names_core.specs.{Names.{stands_in}, Texts.{text_view, texts_view}};
ghost use Rattle.html_values.specs.Attributes.{IsText};
ghost use Rattle.html_values.specs.Casts.{option_answer, list_separator_text, item_answer, gives, GivesCast, text_answer, text_result, item_text, strings_cast};
ghost use Rattle.html_values.specs.Values.{value_view};

use crate::text::empty;
use crate::value::Value;
use html_names_core::text_writer::TextWriter;
use html_values_css::CastFault;
use std::alloc::{AllocError, Global};

#[tactic(auto, unfolding(html_names_core::specs::Names::stands_in))]
pub(crate) fn is_among(text: &str, texts: &[String]) -> bool
    ensures { result ≡ stands_in (texts_view texts.now) (chars text.now) }
{
    for allowed in texts {
        if is_same(allowed.as_str(), text) {
            return true;
        }
    }
    false
}

#[tactic(auto, using(html_names_core::proofs::Lists::in_characters))]
fn is_same(a: &str, b: &str) -> bool
    ensures { result ≡ bytes_eq (chars a.now) (chars b.now) }
{
    *a == *b
}

pub(crate) fn allowed_text(texts: &[String], value: &Value) -> Result<String, CastFault>
    ensures { GivesCast text_answer result
        (strings_cast (texts_view texts.now) (value_view value.now)) }
{
    match value {
        Value::Str(text) => {
            if is_among(text.as_str(), texts) {
                Ok(text.clone()?)
            } else {
                Err(CastFault::NotInStrings)
            }
        }
        _ => Err(CastFault::WrongKind),
    }
}

pub(crate) fn text_or_empty(alloc: Global, made: Option<String>) -> String
    ensures { item_answer (option_answer made) ≡ text_answer result }
{
    match made {
        Some(text) => text,
        None => empty(alloc),
    }
}

fn holds(text: &str, separator: char) -> bool
    ensures { result ≡ list_any (λ c. c == separator) (chars text.now) }
{
    text.chars().any(|c| c == separator)
}

pub(crate) fn without_separator(text: String, separator: char) -> Result<String, CastFault>
    ensures { item_text separator (text_answer text) ≡ text_result result }
{
    if holds(text.as_str(), separator) {
        return Err(CastFault::SeparatorInItem);
    }
    Ok(text)
}

/// Appends the separator, and a space after a comma.
fn push_separator(text: &mut TextWriter, separator: char) -> Result<(), AllocError>
    ensures { OnOk result (text.new ≡ text.old ++ list_separator_text separator) }
{
    text.push(separator)?;
    if separator == ',' {
        text.push(' ')?;
    }
    Ok(())
}

pub(crate) fn join(alloc: Global, texts: &[String], separator: char) -> Result<String, AllocError>
    ensures { IsText result (join_by (λ t. t) (list_separator_text separator) (texts_view texts.now)) }
{
    let mut text = TextWriter::new(alloc);
    if let [first, others @ ..] = texts {
        text.push_str(first.as_str())?;
        push_others(&mut text, others, separator)?;
    }
    Ok(text.into_string())
}

fn push_others(text: &mut TextWriter, others: &[String], separator: char) -> Result<(), AllocError>
    ensures { OnOk result (text.new ≡ text.old
        ++ flat_map (λ t. list_separator_text separator ++ t) (texts_view others.now)) }
{
    for other in others {
        push_separator(text, separator)?;
        text.push_str(other.as_str())?;
    }
    Ok(())
}
