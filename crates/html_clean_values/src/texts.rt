//! Texts that a browser reads as they are.

ghost use Rattle.std.specs.Prelude.{◌≡◌, IfOk, chars};
ghost use Rattle.html_names_core.specs.Texts.{text_view};
ghost use Rattle.html_clean_values.specs.Replaced as values;

use html_names_core::charsets::is_w3c_text_char;
use html_names_core::text_writer::TextWriter;
use std::alloc::{AllocError, Global};

/// Returns the character that stays of a character.
#[tactic(auto, unfolding(crate::specs::Replaced::replaced_char))]
fn replaced_char(c: char) -> char
    ensures { result ≡ values.replaced_char c }
{
    if c == '\r' {
        '\n'
    } else if is_w3c_text_char(c) {
        c
    } else {
        '\u{fffd}'
    }
}

/// Returns a text that a browser reads as it is written: each carriage return becomes a line feed,
/// as in the input stream of a page (HTML Standard 13.2.3.5), and each character that is no text
/// character, such as a control or a noncharacter, becomes U+FFFD. The others stay. Fails only if
/// an allocation fails.
///
/// ```
/// use html_clean_values::replaced;
///
/// let text = replaced(rt.alloc(), "a\r\0b")?;
/// assert_eq!(rt; text.as_str(), "a\n\u{fffd}b");
/// ```
pub fn replaced(alloc: Global, text: &str) -> Result<String, AllocError>
    ensures { IfOk result (λ made. text_view made ≡ values.replaced (chars text.now)) }
{
    let mut made = TextWriter::new(alloc);
    for c in text.chars() {
        made.push(replaced_char(c))?;
    }
    Ok(made.into_string())
}
