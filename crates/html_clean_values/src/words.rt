//! The words of a text.

ghost use Rattle.std.specs.{Char.{is_ascii_whitespace}, List.{after_first, before_first}, Prelude.{◌≡◌, ◌∷◌, ◌<◌, [], MatchOption, chars, length}};
ghost use Rattle.html_clean_values.specs.Words.{TakesWord, words};

use html_dom_tree::text::split_first;

/// Splits a text around its first white space.
pub(crate) fn cut_word(text: &str) -> (&str, &str)
    ensures word { chars result.0.now ≡ before_first is_ascii_whitespace (chars text.now) }
    ensures rest { chars result.1.now ≡ after_first is_ascii_whitespace (chars text.now) }
{
    match text.split_once(|c: char| c.is_ascii_whitespace()) {
        Some(parts) => parts,
        None => (text, ""),
    }
}

/// Returns the first word of a text, and the text after it.
pub(crate) fn next_word(text: &str) -> Option<(&str, &str)>
    ensures { MatchOption result (words (chars text.now) ≡ [])
        (λ x. TakesWord (chars text.now) (chars x.0.now) (chars x.1.now)) }
{
    let mut left = text;
    while let Some((c, rest)) = split_first(left) {
        if !c.is_ascii_whitespace() {
            return Some(cut_word(left));
        }
        left = rest;
    }
    None
}
