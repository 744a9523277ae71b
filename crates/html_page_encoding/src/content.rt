//! The label of an encoding in the value of `content` (HTML Standard, "algorithm for extracting a
//! character encoding from a meta element").

ghost use Rattle.std.specs.{Option.{option_copied}, Prelude.{◌≡◌, length}};
ghost use Rattle.html_page_encoding.specs.Classes.{behind, front};
ghost use Rattle.html_page_encoding.specs.ContentLabels as labels;
ghost use Rattle.html_page_encoding.specs.Views.{parts_view};
ghost use Rattle.html_page_encoding.specs.declared.class.Class.TheVariants as class;

use crate::class::{Class, split, split_first};
use crate::part::Part;
use crate::word::behind_word;

/// Returns a label that ends with a quote, if the quote is there.
pub(crate) fn quoted_label(quote: u8, bytes: &[u8]) -> Option<Part<'_>>
    ensures { parts_view result ≡ labels.quoted_label (front (class.Except quote) bytes.now)
        (length bytes.now) (behind (class.Except quote) bytes.now) }
{
    let (text, behind) = split(Class::Except(quote), bytes);
    let left = bytes.len();
    match behind {
        [] => None,
        [_, ..] => Some(Part { text, left }),
    }
}

/// Returns the label with which the bytes begin.
fn label_read(bytes: &[u8]) -> Option<Part<'_>>
    ensures { parts_view result ≡ labels.label_read bytes.now }
{
    match bytes {
        [] => None,
        [quote @ (b'"' | b'\''), rest @ ..] => quoted_label(*quote, rest),
        _ => {
            let (text, _) = split(Class::Label, bytes);
            let left = bytes.len();
            Some(Part { text, left })
        }
    }
}

/// Returns the bytes behind a `=` and white space.
fn behind_equals(bytes: &[u8]) -> Option<&[u8]>
    ensures { option_copied result ≡ labels.behind_equals bytes.now }
{
    match bytes {
        [b'=', rest @ ..] => {
            let (_, value) = split(Class::Space, rest);
            Some(value)
        }
        _ => None,
    }
}

/// Returns the bytes behind `charset` and `=`, with white space around it, if these begin so.
#[tactic(auto, unfolding(crate::specs::ContentLabels::behind_charset))]
fn behind_charset(bytes: &[u8]) -> Option<&[u8]>
    ensures { option_copied result ≡ labels.behind_charset bytes.now }
{
    let rest = behind_word("charset", bytes)?;
    let (_, rest) = split(Class::Space, rest);
    behind_equals(rest)
}

/// Returns the label behind the first `charset` with a `=`.
pub(crate) fn content_label(content: &[u8]) -> Option<Part<'_>>
    ensures { parts_view result ≡ labels.content_label content.now }
{
    let mut rest = content;
    while let Some((_, later)) = split_first(rest) {
        if let Some(label) = behind_charset(rest) {
            return label_read(label);
        }
        rest = later;
    }
    None
}
