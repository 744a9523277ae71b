//! Values of declarations.

ghost use Rattle.std.specs.Prelude.{◌≡◌, ◌+◌, ◌^◌, ◌<◌, IsTrue, chars};
ghost use Rattle.html_names_core.specs.Names.{is_ascii};
ghost use Rattle.html_clean_styles.specs.Styles.{begins, begins_call, depth_behind, is_mark, is_plain, is_plain_from, is_word_char};

use html_dom_tree::text::split_first;
use html_names_core::charsets::is_valid_in_tag_name;

#[tactic(auto, unfolding(crate::specs::Styles::begins))]
fn begins_text(small: &str, text: &str) -> bool
    ensures { result ≡ begins (chars small.now) (chars text.now) }
{
    let mut left = text;
    let mut expected = small;
    while let Some((letter, later)) = split_first(expected) {
        let Some((c, rest)) = split_first(left) else {
            return false;
        };
        if c.to_ascii_lowercase() != letter {
            return false;
        }
        expected = later;
        left = rest;
    }
    true
}

/// Returns whether a text begins with `small`, in any ASCII case.
#[tactic(auto, using(html_names_core::proofs::Lists::chars_ascii))]
fn begins(small: &str, text: &str) -> bool
    requires { IsTrue (is_ascii small.now) }
    ensures { result ≡ begins small.now (chars text.now) }
{
    begins_text(small, text)
}

/// Returns whether a text begins with a call of a function that a value may have.
#[tactic(auto, unfolding(crate::specs::Styles::begins_call))]
fn begins_call(text: &str) -> bool
    ensures { result ≡ begins_call (chars text.now) }
{
    begins("rgb(", text)
        || begins("rgba(", text)
        || begins("hsl(", text)
        || begins("hsla(", text)
        || begins("calc(", text)
}

#[tactic(auto, unfolding(crate::specs::Styles::is_mark))]
fn is_mark(c: char) -> bool
    ensures { result ≡ is_mark c }
{
    matches!(c, ' ' | '#' | '%' | ',' | '.')
}

#[tactic(auto, unfolding(crate::specs::Styles::is_word_char))]
fn is_word_char(c: char) -> bool
    ensures { result ≡ is_word_char c }
{
    is_valid_in_tag_name(c)
}

/// Returns the number of calls that are open behind a character that is in no word, if it may stand
/// there. `word` is the text from the word before it on.
#[tactic(auto, unfolding(crate::specs::Styles::depth_behind))]
fn depth_behind(c: char, word: &str, depth: usize) -> Option<usize>
    requires { depth + 1 < 2 ^ 64 }
    ensures { result ≡ depth_behind c (chars word.now) depth }
{
    if is_mark(c) {
        return Some(depth);
    }
    if c == '(' && begins_call(word) {
        return Some(depth + 1);
    }
    if c == ')' && depth > 0 {
        return Some(depth - 1);
    }
    None
}

/// Returns whether each character of a text may stand in a value, and the parentheses are those of
/// calls and balanced.
fn is_plain_text(text: &str) -> bool
    ensures { result ≡ is_plain_from (chars text.now) 0 (chars text.now) }
{
    let mut word = text;
    let mut left = text;
    let mut depth = 0;
    while let Some((c, rest)) = split_first(left) {
        left = rest;
        if is_word_char(c) {
            continue;
        }
        let Some(behind) = depth_behind(c, word, depth) else {
            return false;
        };
        depth = behind;
        word = rest;
    }
    depth == 0
}

/// Returns whether a value stays.
#[tactic(auto, unfolding(crate::specs::Styles::is_plain))]
pub(crate) fn is_plain(value: &str) -> bool
    ensures { result ≡ is_plain (chars value.now) }
{
    match split_first(value) {
        Some(_) => is_plain_text(value),
        None => false,
    }
}
