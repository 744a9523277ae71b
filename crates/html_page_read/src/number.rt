//! Character references by number (HTML Standard 13.2.5.80).

ghost use Rattle.std.specs.{Char.{digit_value}, Prelude.{◌≡◌, ◌≤◌, chars, min}, Str.Parse.{digits_value}};
ghost use Rattle.html_names_core.specs.Characters as class;
ghost use Rattle.html_page_read.specs.PageReferences as references;
ghost use Rattle.html_page_tree.specs.PageBodies.{is_space};

use html_page_encoding::windows_char;
use html_page_stack::PageError;

const CARRIAGE_RETURN: u32 = 13;

/// A number above those of all characters.
const TOO_HIGH: u32 = 0x11_0000;

fn digit_value(c: char) -> u32
    ensures { result ≡ digit_value c }
{
    match c.to_digit(36) {
        Some(value) => value,
        None => 36,
    }
}

/// Returns the number of these digits, if it is that of a character, or else some number above.
pub(crate) fn number_of(base: u32, digits: &str) -> u32
    requires some { 1 ≤ base }
    requires few { base ≤ 16 }
    ensures { result ≡ min (digits_value base (chars digits.now)) 0x11_0000 }
{
    let mut number = 0;
    for c in digits.chars() {
        number = (number * base + digit_value(c)).min(TOO_HIGH);
    }
    number
}

pub(crate) fn numbered_char(number: u32) -> char
    ensures { result ≡ references.numbered_char number }
{
    if number == 0 {
        return '\u{fffd}';
    }
    if let Ok(byte) = u8::try_from(number) {
        return windows_char(byte);
    }
    match char::from_u32(number) {
        Some(c) => c,
        None => '\u{fffd}',
    }
}

fn is_surrogate(number: u32) -> bool
    ensures { result ≡ references.is_surrogate number }
{
    matches!(number, 0xd800..=0xdfff)
}

fn is_noncharacter(number: u32) -> bool
    ensures { result ≡ class.is_noncharacter number }
{
    matches!(number, 0xfdd0..=0xfdef) || number % 0x1_0000 >= 0xfffe
}

fn is_control(number: u32) -> bool
    ensures { result ≡ class.is_control number }
{
    number < 0x20 || matches!(number, 0x7f..=0x9f)
}

fn is_space_number(number: u32) -> bool
    ensures { result ≡ is_space number }
{
    matches!(number, 9 | 10 | 12 | 13 | 32)
}

/// Returns the error that a number is.
pub(crate) fn error_of(number: u32) -> Option<PageError>
    ensures { result ≡ references.number_error number }
{
    if number == 0 {
        Some(PageError::NullCharacterReference)
    } else if number > 0x10_ffff {
        Some(PageError::CharacterReferenceOutsideUnicodeRange)
    } else if is_surrogate(number) {
        Some(PageError::SurrogateCharacterReference)
    } else if is_noncharacter(number) {
        Some(PageError::NoncharacterCharacterReference)
    } else if number == CARRIAGE_RETURN || is_control(number) && !is_space_number(number) {
        Some(PageError::ControlCharacterReference)
    } else {
        None
    }
}
