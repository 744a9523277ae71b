//! The characters of windows-1252 (Encoding Standard, "index windows-1252").

ghost use Rattle.std.specs.Prelude.{◌≡◌, IfOk, map};
ghost use Rattle.html_names_core.specs.Texts.{text_view};
ghost use Rattle.html_page_encoding.specs.Windows as windows;

use html_names_core::text_writer::TextWriter;
use std::alloc::{AllocError, Global};

/// The characters of the bytes 0x80 to 0x9f, or U+0000 for a byte that is the number of its
/// character.
#[rattlefmt::skip]
static WINDOWS: [char; 32] = [
    '\u{20ac}', '\0', '\u{201a}', '\u{192}', '\u{201e}', '\u{2026}', '\u{2020}', '\u{2021}',
    '\u{2c6}', '\u{2030}', '\u{160}', '\u{2039}', '\u{152}', '\0', '\u{17d}', '\0',
    '\0', '\u{2018}', '\u{2019}', '\u{201c}', '\u{201d}', '\u{2022}', '\u{2013}', '\u{2014}',
    '\u{2dc}', '\u{2122}', '\u{161}', '\u{203a}', '\u{153}', '\0', '\u{17e}', '\u{178}',
];

/// Returns the character of a byte of windows-1252.
pub fn windows_char(byte: u8) -> char
    ensures { result ≡ windows.windows_char byte }
{
    if !(0x80..0xa0).contains(&byte) {
        return char::from(byte);
    }
    let found = WINDOWS[usize::from(byte - 0x80)];
    if found == '\0' {
        char::from(byte)
    } else {
        found
    }
}

/// Returns the text of bytes of windows-1252.
pub(crate) fn windows_text(alloc: Global, bytes: &[u8]) -> Result<String, AllocError>
    ensures { IfOk result (λ text. text_view text ≡ map windows.windows_char bytes.now) }
{
    let mut text = TextWriter::new(alloc);
    for byte in bytes {
        text.push(windows_char(*byte))?;
    }
    Ok(text.into_string())
}

/// Returns the text of which each character has the number of a byte.
pub(crate) fn text_of_bytes(alloc: Global, bytes: &[u8]) -> Result<String, AllocError>
    ensures { IfOk result (λ text. text_view text ≡ bytes.now) }
{
    let mut text = TextWriter::new(alloc);
    for byte in bytes {
        text.push(char::from(*byte))?;
    }
    Ok(text.into_string())
}
