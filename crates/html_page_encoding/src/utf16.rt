//! Text in UTF-16.

ghost use Rattle.std.specs.Prelude.{◌≡◌, ◌<◌, ℕ, Err, MatchOption, length};
ghost use Rattle.html_page_encoding.specs.{Answers.{Decodes}, Decoded.{unit, utf16_from}, Units.{HasNoUnit, StartsChar, StartsUnit, pair_char}};

use crate::class::split_first;
use crate::fault::EncodingFault;
use html_names_core::text_writer::TextWriter;
use std::alloc::Global;

/// Returns the unit of two bytes.
fn unit(big: bool, first: u8, second: u8) -> u16
    ensures { result ≡ unit big first second }
{
    let (first, second) = (u16::from(first), u16::from(second));
    if big {
        first * 0x100 + second
    } else {
        second * 0x100 + first
    }
}

/// Returns the first unit, and the bytes behind it.
fn first_unit(big: bool, bytes: &[u8]) -> Option<(u16, &[u8])>
    ensures { MatchOption result (HasNoUnit big bytes.now)
        (λ x. StartsUnit big bytes.now x.0 x.1.now) }
{
    let (first, behind) = split_first(bytes)?;
    let (second, rest) = split_first(behind)?;
    Some((unit(big, first, second), rest))
}

/// Returns the character of two surrogates, if they are partners.
fn pair_char(high: u16, low: u16) -> Option<char>
    ensures { result ≡ pair_char high low }
{
    if !matches!(high, 0xd800..0xdc00) || !matches!(low, 0xdc00..0xe000) {
        return None;
    }
    let (high, low) = (u32::from(high - 0xd800), u32::from(low - 0xdc00));
    char::from_u32(0x1_0000 + high * 0x400 + low)
}

/// Returns the first character, and the bytes behind it.
fn first_char(big: bool, bytes: &[u8]) -> Option<(char, &[u8])>
    requires { 0 < length bytes.now }
    ensures { MatchOption result ((place : ℕ) → utf16_from big place bytes.now ≡ Err place)
        (λ x. StartsChar big bytes.now x.0 x.1.now) }
{
    let (high, behind) = first_unit(big, bytes)?;
    if let Some(c) = char::from_u32(u32::from(high)) {
        return Some((c, behind));
    }
    let (low, rest) = first_unit(big, behind)?;
    let c = pair_char(high, low)?;
    Some((c, rest))
}

/// Returns the text of bytes of UTF-16, of which the high byte of each unit comes first if they are
/// `big`.
pub(crate) fn utf16_text(alloc: Global, big: bool, bytes: &[u8]) -> Result<String, EncodingFault>
    ensures { Decodes result (utf16_from big 0 bytes.now) }
{
    let mut text = TextWriter::new(alloc);
    let mut rest = bytes;
    while !rest.is_empty() {
        let Some((c, behind)) = first_char(big, rest) else {
            let place = bytes.len() - rest.len();
            return Err(EncodingFault::NotText { place });
        };
        text.push(c)?;
        rest = behind;
    }
    Ok(text.into_string())
}
