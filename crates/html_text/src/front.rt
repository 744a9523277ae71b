//! Texts split behind the characters of a class at their front, which are found by their bytes.

ghost use Rattle.std.specs.Prelude.{◌≡◌, ◌+◌, ◌≤◌, ◌&&◌, get_or, length};
ghost use Rattle.html_names_core.specs.Characters.{is_tag_char};
ghost use Rattle.html_text.specs.Fronts.{CutsAll, SplitsFront, StopsBetween, has_byte, is_common, is_name_char};

/// A table of bytes: the sum of 1 for the common characters, 2 for those of the names of tags, and
/// 4 for those of names in small letters. Bytes after the first of a character have all three, so
/// that a front ends where a character does.
static FRONTS: [u8; 256] = [
    0, 0, 0, 0, 0, 0, 0, 0, 0, 0, 0, 0, 0, 0, 0, 0, 0, 0, 0, 0, 0, 0, 0, 0, 0, 0, 0, 0, 0, 0, 0, 0,
    1, 1, 0, 1, 1, 1, 0, 1, 1, 1, 1, 1, 1, 7, 1, 1, 7, 7, 7, 7, 7, 7, 7, 7, 7, 7, 1, 1, 0, 1, 1, 1,
    1, 3, 3, 3, 3, 3, 3, 3, 3, 3, 3, 3, 3, 3, 3, 3, 3, 3, 3, 3, 3, 3, 3, 3, 3, 3, 3, 1, 1, 1, 1, 1,
    1, 7, 7, 7, 7, 7, 7, 7, 7, 7, 7, 7, 7, 7, 7, 7, 7, 7, 7, 7, 7, 7, 7, 7, 7, 7, 7, 1, 1, 1, 1, 0,
    7, 7, 7, 7, 7, 7, 7, 7, 7, 7, 7, 7, 7, 7, 7, 7, 7, 7, 7, 7, 7, 7, 7, 7, 7, 7, 7, 7, 7, 7, 7, 7,
    7, 7, 7, 7, 7, 7, 7, 7, 7, 7, 7, 7, 7, 7, 7, 7, 7, 7, 7, 7, 7, 7, 7, 7, 7, 7, 7, 7, 7, 7, 7, 7,
    0, 0, 0, 0, 0, 0, 0, 0, 0, 0, 0, 0, 0, 0, 0, 0, 0, 0, 0, 0, 0, 0, 0, 0, 0, 0, 0, 0, 0, 0, 0, 0,
    0, 0, 0, 0, 0, 0, 0, 0, 0, 0, 0, 0, 0, 0, 0, 0, 0, 0, 0, 0, 0, 0, 0, 0, 0, 0, 0, 0, 0, 0, 0, 0,
];

/// Returns whether the table has the byte under that bit.
fn has_byte(table: &[u8; 256], bit: u8, byte: u8) -> bool
    ensures { result ≡ has_byte table.now bit byte }
{
    table[byte as usize] & bit != 0
}

fn has_four(table: &[u8; 256], bit: u8, bytes: &[u8], at: usize) -> bool
    requires { at + 4 ≤ length bytes.now }
    ensures { result ≡ (has_byte table.now bit (get_or bytes.now at 0)
        && (has_byte table.now bit (get_or bytes.now (at + 1) 0)
        && (has_byte table.now bit (get_or bytes.now (at + 2) 0)
        && has_byte table.now bit (get_or bytes.now (at + 3) 0)))) }
{
    has_byte(table, bit, bytes[at])
        && has_byte(table, bit, bytes[at + 1])
        && has_byte(table, bit, bytes[at + 2])
        && has_byte(table, bit, bytes[at + 3])
}

/// Splits a text before its first byte that the table does not have under that bit.
///
/// Takes time for each byte of the front. Tests four bytes at a time.
pub fn split_front<'a>(table: &[u8; 256], bit: u8, text: &'a str) -> (&'a str, &'a str)
    requires { StopsBetween (has_byte table.now bit) }
    ensures { SplitsFront (has_byte table.now bit) text.now result.0.now result.1.now }
{
    let bytes = text.as_bytes();
    let mut at = 0;
    while bytes.len() - at >= 4 && has_four(table, bit, bytes, at) {
        at += 4;
    }
    while at < bytes.len() && has_byte(table, bit, bytes[at]) {
        at += 1;
    }
    text.split_at(at)
}

/// Splits a text after its leading common characters, which are visible ASCII and the space,
/// without `"`, `&` and `<`. In a value, and in a text that is not written as character references
/// alone, they stand for themselves, both read and written.
pub fn cut_common(text: &str) -> (&str, &str)
    ensures { CutsAll is_common text.now result.0.now result.1.now }
{
    split_front(&FRONTS, 1, text)
}

/// Splits a text after its leading characters of the names of tags.
pub fn cut_tag_name(text: &str) -> (&str, &str)
    ensures { CutsAll is_tag_char text.now result.0.now result.1.now }
{
    split_front(&FRONTS, 2, text)
}

/// Splits a text after its leading lowercase letters, digits and `-`.
pub fn cut_name(text: &str) -> (&str, &str)
    ensures { CutsAll is_name_char text.now result.0.now result.1.now }
{
    split_front(&FRONTS, 4, text)
}
