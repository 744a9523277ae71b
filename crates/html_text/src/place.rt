//! Places in a text.

ghost use Rattle.std.specs.{Char.{len_utf8}, List.{common_prefix_len}, Prelude.{◌≡◌, ◌+◌, ◌^◌, ◌<◌, ◌==◌, chars}};
ghost use Rattle.html_text.specs.Places.{next_place, place_at};

use std::fmt;

/// A place in a text.
#[derive(Clone, Copy, Debug, PartialEq, Eq, Hash)]
pub struct Place {
    /// The number of bytes of the text before it.
    pub offset: usize,
    /// Its line, counted from 1. In a text that `read_html` reads, only a line feed ends a line; a
    /// carriage return is a character like others.
    pub line: usize,
    /// Its column, counted from 1: the number of characters of the line before it, plus one.
    pub column: usize,
}

/// Formats the place as `line:column`, as in `3:14`.
impl fmt::Display for Place {
    ghost use Rattle.std.specs.{Fmt.{decimal}, Prelude.{◌++◌, codes, Some}};

    ghost output = { λ place. Some (decimal place.line ++ (codes ":" ++ decimal place.column)) };

    fn fmt<W: fmt::Write>(&self, f: &mut fmt::Formatter<W>) -> fmt::Result {
        write!(f, "{}:{}", self.line, self.column)
    }
}

fn next_place(place: Place, c: char) -> Place
    requires offset { place.offset + len_utf8 c < 2 ^ 64 }
    requires line { place.line + 1 < 2 ^ 64 }
    requires column { place.column + 1 < 2 ^ 64 }
    ensures { result ≡ next_place place c }
{
    let offset = place.offset + c.len_utf8();
    if c == '\n' {
        Place {
            offset,
            line: place.line + 1,
            column: 1,
        }
    } else {
        Place {
            offset,
            line: place.line,
            column: place.column + 1,
        }
    }
}

/// Returns the place after that many characters of a text, or the end of the text if it has fewer.
pub fn place_at(text: &str, count: usize) -> Place
    ensures { result ≡ place_at (chars text.now) count }
{
    let mut place = Place {
        offset: 0,
        line: 1,
        column: 1,
    };
    let mut rest = text;
    for done in 0..count {
        let mut left = rest.chars();
        let Some(c) = left.next() else {
            return place;
        };
        place = next_place(place, c);
        rest = left.as_str();
    }
    place
}

/// Returns the number of characters at the beginning of both the word and the text, up to the first
/// that differs.
pub fn common_length(word: &str, text: &str) -> usize
    ensures { result ≡ common_prefix_len ◌==◌ (chars word.now) (chars text.now) }
{
    let mut count = 0;
    let mut left = text.chars();
    for expected in word.chars() {
        let Some(c) = left.next() else {
            return count;
        };
        if c != expected {
            return count;
        }
        count += 1;
    }
    count
}
