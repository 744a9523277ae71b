//! Closing tags in a raw text, which would end it.

ghost use Rattle.std.specs.{Char.{to_ascii_lowercase}, Prelude.{◌≡◌, ◌∷◌, chars, map}};
ghost use Rattle.html_text.specs.ClosingTags as ending;

/// Returns whether a closing tag's name ends before the character.
#[tactic(auto, unfolding(crate::specs::ClosingTags::is_tag_end))]
pub fn is_tag_end(c: char) -> bool
    ensures { result ≡ ending.is_tag_end c }
{
    matches!(c, '\t' | '\n' | '\u{c}' | '\r' | ' ' | '>' | '/')
}

/// Returns whether the text begins with the name, in any ASCII case, followed by a character that
/// ends the name of a tag.
fn begins_with_name(name: &str, text: &str) -> bool
    ensures { result ≡ ending.begins_closing (map to_ascii_lowercase (chars name.now)) (chars text.now) }
{
    let mut left = text.chars();
    for expected in name.chars() {
        let Some(c) = left.next() else {
            return false;
        };
        if c.to_ascii_lowercase() != expected.to_ascii_lowercase() {
            return false;
        }
    }
    match left.next() {
        Some(end) => is_tag_end(end),
        None => false,
    }
}

/// Returns whether `<` followed by the text begins with the closing tag of an element of that name.
fn closes(name: &str, text: &str) -> bool
    ensures { result ≡ ending.begins_closing (ending.closing (chars name.now)) (60 ∷ chars text.now) }
{
    let mut left = text.chars();
    match left.next() {
        Some(c) => c == '/' && begins_with_name(name, left.as_str()),
        None => false,
    }
}

/// Returns whether the text contains the closing tag of an element of that name, in any ASCII case,
/// with the character behind its name.
pub fn holds_closing(name: &str, text: &str) -> bool
    ensures { result ≡ ending.holds_closing (chars name.now) (chars text.now) }
{
    let mut left = text;
    while let Some((_, after)) = left.split_once('<') {
        if closes(name, after) {
            return true;
        }
        left = after;
    }
    false
}
