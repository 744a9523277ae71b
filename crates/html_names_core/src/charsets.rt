//! Classes of characters: those of HTML Standard 13.1.2, and this project's table of characters
//! that are invisible by default.

ghost use Rattle.std.specs.Prelude.{◌≡◌};
ghost use Rattle.html_names_core.specs.Characters as class;

/// Returns whether the character is valid in a tag name: an ASCII letter, a digit or `-`.
pub fn is_valid_in_tag_name(c: char) -> bool
    ensures { result ≡ class.is_tag_char c }
{
    c.is_ascii_alphanumeric() || c == '-'
}

/// Returns whether the character is valid in an attribute name: none of U+0000, space, `"`, `'`,
/// `>`, `/` and `=`, no control and no noncharacter.
pub fn is_valid_in_attribute_name(c: char) -> bool
    ensures { result ≡ class.is_attr_char c }
{
    !matches!(c, '\0' | ' ' | '"' | '\'' | '>' | '/' | '=') && !is_control(c) && !is_noncharacter(c)
}

/// Returns whether the character is a text character: no noncharacter, and no control except tab,
/// line feed, form feed and carriage return.
pub fn is_w3c_text_char(c: char) -> bool
    ensures { result ≡ class.is_text_char c }
{
    !is_noncharacter(c) && (!is_control(c) || matches!(c, '\t' | '\n' | '\u{c}' | '\r'))
}

/// Returns whether the character is valid unescaped in a double-quoted attribute value: a text
/// character other than `&` and `"`.
pub fn is_valid_in_attribute_value(c: char) -> bool
    ensures { result ≡ class.is_value_char c }
{
    is_w3c_text_char(c) && c != '&' && c != '"'
}

/// Returns whether the character is valid unescaped in the text of an ordinary element: a text
/// character other than `&` and `<`.
pub fn is_valid_in_normal_element_text(c: char) -> bool
    ensures { result ≡ class.is_element_text_char c }
{
    is_w3c_text_char(c) && c != '&' && c != '<'
}

/// Returns whether the character is invisible by default (this project's table).
#[rattlefmt::skip]
#[tactic(auto, unfolding(crate::specs::Characters::is_ignorable))]
pub fn is_default_ignorable(c: char) -> bool
    ensures { result ≡ class.is_ignorable c }
{
    matches!(
        c,
        '\u{ad}' | '\u{34f}' | '\u{61c}' | '\u{115f}'..='\u{1160}' | '\u{17b4}'..='\u{17b5}'
            | '\u{180b}'..='\u{180f}' | '\u{200b}'..='\u{200f}' | '\u{202a}'..='\u{202e}'
            | '\u{2060}'..='\u{206f}' | '\u{3164}' | '\u{fe00}'..='\u{fe0f}' | '\u{feff}'
            | '\u{ffa0}' | '\u{fff0}'..='\u{fff8}' | '\u{1bca0}'..='\u{1bca3}'
            | '\u{1d173}'..='\u{1d17a}' | '\u{e0000}'..='\u{e0fff}'
    )
}

/// Returns whether the character is a control: U+0000 to U+001F and U+007F to U+009F.
fn is_control(c: char) -> bool
    ensures { result ≡ class.is_control c }
{
    matches!(c, '\0'..='\u{1f}' | '\u{7f}'..='\u{9f}')
}

/// Returns whether the character is a noncharacter: from U+FDD0 to U+FDEF, or a code point that
/// ends in FFFE or FFFF.
fn is_noncharacter(c: char) -> bool
    ensures { result ≡ class.is_noncharacter c }
{
    matches!(c, '\u{fdd0}'..='\u{fdef}') || c as u32 % 0x1_0000 >= 0xfffe
}
