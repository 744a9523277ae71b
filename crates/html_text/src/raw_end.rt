//! The end of the text of a raw element.

ghost use Rattle.std.specs.{Char.{to_ascii_lowercase}, Prelude.{◌≡◌, ◌↔◌, ◌<◌, ◌≤◌, IsTrue, MatchOption, false, chars, length, map}};
ghost use Rattle.html_names_core.specs.{Characters.{IsOf, is_tag_char}, Names.{is_ascii}};
ghost use Rattle.html_text.specs.ClosingTags as ending;
ghost use Rattle.html_text.specs.RawEnds.{EndsAt, ends_in, ends_raw};

use crate::closing::is_tag_end;

/// Returns whether these bytes are a closing tag of that name, in any ASCII case, without its last
/// character.
fn is_closing(name: &[u8], end: &[u8]) -> bool
    requires { 2 ≤ length end.now }
    ensures { IsTrue result ↔ (map to_ascii_lowercase end.now ≡ ending.closing name.now) }
{
    end[0] == b'<' && end[1] == b'/' && end[2..].eq_ignore_ascii_case(name)
}

/// Returns the byte index at which the closing tag begins, and whether the tag is exact up to its
/// last character. Returns `None` unless the text followed by the character ends in such a tag.
pub fn end_of(name: &str, text: &str, c: char) -> Option<(usize, bool)>
    requires { IsOf is_tag_char (chars name.now) }
    ensures { MatchOption result
        (ends_raw (chars name.now) (chars text.now) c ≡ false)
        (EndsAt (chars name.now) text.now c) }
{
    if !is_tag_end(c) {
        return None;
    }
    let closing = name.len() + 2;
    if text.len() < closing {
        return None;
    }
    let length = text.len() - closing;
    let end = &text.as_bytes()[length..];
    if !is_closing(name.as_bytes(), end) {
        return None;
    }
    Some((length, &end[2..] == name.as_bytes()))
}

/// Returns whether a text ends in a word, in any ASCII case. The word is ASCII and has no capitals.
pub fn ends_in(word: &str, text: &str) -> bool
    requires some { 0 < length word.now }
    requires ascii { IsTrue (is_ascii word.now) }
    requires small { map to_ascii_lowercase word.now ≡ word.now }
    ensures { result ≡ ends_in word.now (chars text.now) }
{
    let (word, text) = (word.as_bytes(), text.as_bytes());
    word.len() <= text.len() && text[text.len() - word.len()..].eq_ignore_ascii_case(word)
}
