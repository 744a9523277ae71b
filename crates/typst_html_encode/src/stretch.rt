//! Stretches of a text that are written as they are, found by its bytes.

ghost use Rattle.std.specs.Prelude.{◌≡◌, false};
ghost use Rattle.typst_html_encode.specs.{ExportFaults.{is_reference}, PlainStretches.{Selects, PassesPlain}};

use crate::escape::Escaping;
use html_text::split_front;

/// A table of bytes: the sum of 1 if texts of ordinary elements are written as they are as far as
/// they have this byte, 2 for values, and 4 for raw texts. The bytes that are not ASCII are those
/// after the first of a character, and the first of the characters U+00C0 to U+EFFF.
static PASSED: [u8; 256] = [
    0, 0, 0, 0, 0, 0, 0, 0, 0, 7, 7, 0, 7, 7, 0, 0, 0, 0, 0, 0, 0, 0, 0, 0, 0, 0, 0, 0, 0, 0, 0, 0,
    7, 7, 5, 7, 7, 7, 4, 7, 7, 7, 7, 7, 7, 7, 7, 7, 7, 7, 7, 7, 7, 7, 7, 7, 7, 7, 7, 7, 6, 7, 7, 7,
    7, 7, 7, 7, 7, 7, 7, 7, 7, 7, 7, 7, 7, 7, 7, 7, 7, 7, 7, 7, 7, 7, 7, 7, 7, 7, 7, 7, 7, 7, 7, 7,
    7, 7, 7, 7, 7, 7, 7, 7, 7, 7, 7, 7, 7, 7, 7, 7, 7, 7, 7, 7, 7, 7, 7, 7, 7, 7, 7, 7, 7, 7, 7, 0,
    7, 7, 7, 7, 7, 7, 7, 7, 7, 7, 7, 7, 7, 7, 7, 7, 7, 7, 7, 7, 7, 7, 7, 7, 7, 7, 7, 7, 7, 7, 7, 7,
    7, 7, 7, 7, 7, 7, 7, 7, 7, 7, 7, 7, 7, 7, 7, 7, 7, 7, 7, 7, 7, 7, 7, 7, 7, 7, 7, 7, 7, 7, 7, 7,
    0, 0, 0, 7, 7, 7, 7, 7, 7, 7, 7, 7, 7, 7, 7, 7, 7, 7, 7, 7, 7, 7, 7, 7, 7, 7, 7, 7, 7, 7, 7, 7,
    7, 7, 7, 7, 7, 7, 7, 7, 7, 7, 7, 7, 7, 7, 7, 0, 0, 0, 0, 0, 0, 0, 0, 0, 0, 0, 0, 0, 0, 0, 0, 0,
];

/// Returns the number that selects the bytes that are passed in such a text.
fn way_of(escaping: Escaping) -> u8
    ensures { Selects escaping result }
{
    match escaping {
        Escaping::Text => 1,
        Escaping::Reference => 0,
        Escaping::Value => 2,
        Escaping::Raw => 4,
    }
}

/// Returns the rest of the text from its first byte on that `PASSED` does not have. Every character
/// before it can be written, and is written as it is.
///
/// Takes time for each byte that it passes. Tests four bytes at a time.
pub(crate) fn past_passed(escaping: Escaping, text: &str) -> &str
    requires { is_reference escaping ≡ false }
    ensures { PassesPlain escaping text.now result.now }
{
    split_front(&PASSED, way_of(escaping), text).1
}
