//! The label of an encoding in an XML declaration (HTML Standard 13.2.3.2, "get an XML encoding").

ghost use Rattle.std.specs.{List.{list_any}, Option.{option_copied}, Prelude.{◌≡◌}};
ghost use Rattle.html_page_encoding.specs.Classes.{has};
ghost use Rattle.html_page_encoding.specs.Views.{part_view, parts_view};
ghost use Rattle.html_page_encoding.specs.XmlLabels as xml;
ghost use Rattle.html_page_encoding.specs.declared.class.Class.TheVariants as class;

use crate::class::{Class, split};
use crate::content::quoted_label;
use crate::label::{part_in, stripped};
use crate::part::Part;
use crate::word::behind_first;

/// Returns the XML declaration with which a page begins, without its `>`.
#[tactic(auto, unfolding(crate::specs::XmlLabels::declaration))]
fn declaration(bytes: &[u8]) -> Option<&[u8]>
    ensures { option_copied result ≡ xml.declaration bytes.now }
{
    if !bytes.starts_with(b"<?xml") {
        return None;
    }
    let (text, behind) = split(Class::Except(b'>'), bytes);
    if behind.is_empty() { None } else { Some(text) }
}

/// Returns the label in quotes with which the bytes begin.
fn quote_read(bytes: &[u8]) -> Option<Part<'_>>
    ensures { parts_view result ≡ xml.quote_read bytes.now }
{
    match bytes {
        [quote @ (b'"' | b'\''), rest @ ..] => quoted_label(*quote, rest),
        _ => None,
    }
}

/// Returns the label behind a `=`.
fn value_read(bytes: &[u8]) -> Option<Part<'_>>
    ensures { parts_view result ≡ xml.value_read bytes.now }
{
    match bytes {
        [b'=', rest @ ..] => {
            let (_, quoted) = split(Class::Control, rest);
            quote_read(quoted)
        }
        _ => None,
    }
}

fn has_control(text: &[u8]) -> bool
    ensures { result ≡ list_any (has class.Control) text.now }
{
    text.iter().any(|byte| Class::Control.has(*byte))
}

/// Returns a label that has no white space and no controls.
fn plain<'a>(label: Part<'a>) -> Option<Part<'a>>
    ensures { parts_view result ≡ xml.plain (part_view label.entry) }
{
    if has_control(label.text) {
        None
    } else {
        Some(label)
    }
}

/// Returns the label in a declaration.
#[tactic(auto, unfolding(crate::specs::XmlLabels::declared_label))]
fn declared_label(text: &[u8]) -> Option<Part<'_>>
    ensures { parts_view result ≡ xml.declared_label text.now }
{
    let rest = behind_first("encoding", text)?;
    let (_, value) = split(Class::Control, rest);
    plain(value_read(value)?)
}

/// Returns the label in the XML declaration with which the bytes begin.
#[tactic(auto, unfolding(crate::specs::XmlLabels::xml_label))]
pub(crate) fn xml_label(bytes: &[u8]) -> Option<Part<'_>>
    ensures { parts_view result ≡ xml.xml_label bytes.now }
{
    let text = declaration(bytes)?;
    let left = bytes.len();
    let label = declared_label(text)?;
    stripped(part_in(Part { text, left }, label))
}
