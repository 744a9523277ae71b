//! Places in a page.

ghost use Rattle.std.specs.{Char.{len_utf8}, Prelude.{◌≡◌, ◌+◌, ◌^◌, ◌<◌, ◌≤◌, chars}};
ghost use Rattle.html_page_read.specs.PagePlaces as places;
ghost use Rattle.html_page_read.specs.ReachedPlaces.{IsReached};

use html_text::Place;

/// Returns the place after one more character. A line feed after a carriage return ends no other
/// line, and a byte order mark at the beginning is no character of a line.
fn next_place(after_return: bool, place: Place, c: char) -> Place
    requires offset { place.offset + len_utf8 c < 2 ^ 64 }
    requires line { place.line + 1 < 2 ^ 64 }
    requires column { place.column + 1 < 2 ^ 64 }
    ensures { result ≡ places.next_place after_return place c }
{
    let offset = place.offset + c.len_utf8();
    let Place { line, column, .. } = place;
    let (line, column) = match c {
        '\n' if after_return => (line, 1),
        '\n' | '\r' => (line + 1, 1),
        '\u{feff}' if place.offset == 0 => (line, column),
        _ => (line, column + 1),
    };
    Place {
        offset,
        line,
        column,
    }
}

/// Maps the offsets of a page's characters, in bytes, to places; the spans of the elements that are
/// read are such offsets.
///
/// A line of a page ends with a line feed, a carriage return or both, in that order, and a byte
/// order mark at the beginning is no character of the first.
///
/// ```
/// use html_page::{Places, read_page};
///
/// let text = "<!DOCTYPE html>\r\n<body id=a>";
/// let (root, _) = read_page(rt.alloc(), text, 50)?;
/// let mut places = Places::new(text);
/// for child in &root.children {
///     let place = places.at(child.span().0 as usize); // the head is implied by `<body`
///     assert_eq!(rt; place.offset, 17);
///     assert_eq!(rt; place.line, 2);
///     assert_eq!(rt; place.column, 1);
/// }
/// ```
#[derive(Clone, Copy)]
pub struct Places<'a> {
    text: &'a str,
    /// The text after the last returned place.
    rest: &'a str,
    place: Place,
    after_return: bool,
    ghost reached: { IsReached text.now rest.now place after_return },
}

impl<'a> Places<'a> {
    ghost use Rattle.html_page_read.specs.PlaceViews.{text_of};

    /// Creates the places of that page.
    pub fn new(text: &'a str) -> Places<'a>
        ensures text { text_of result ≡ chars text.now }
        ensures start { result.place.offset ≡ 0 }
    {
        let place = Place {
            offset: 0,
            line: 1,
            column: 1,
        };
        Places {
            text,
            rest: text,
            place,
            after_return: false,
        }
    }

    /// Returns the place of the character at that offset in bytes. If none begins there, returns
    /// that of the next, or the end.
    ///
    /// Takes time linear in the distance from the place that was returned before, or from the
    /// beginning, if it lies before that.
    pub fn at(&mut self, offset: usize) -> Place
        ensures place { result ≡ places.place_at (text_of self.old) offset }
        ensures text { text_of self.new ≡ text_of self.old }
    {
        let begun = self.begun_before(offset);
        *self = begun.moved_to(offset);
        self.place
    }

    /// Returns the places at a point from which the offset is still ahead.
    fn begun_before(self, offset: usize) -> Places<'a>
        ensures place { result.place.offset ≤ offset }
        ensures text { text_of result ≡ text_of self.entry }
    {
        if offset < self.place.offset {
            Places::new(self.text)
        } else {
            self
        }
    }

    fn moved_to(self, offset: usize) -> Places<'a>
        requires { self.place.offset ≤ offset }
        ensures place { result.place ≡ places.place_at (text_of self.entry) offset }
        ensures text { text_of result ≡ text_of self.entry }
    {
        let Places {
            text,
            mut rest,
            mut place,
            mut after_return,
        } = self;
        while place.offset < offset {
            let mut left = rest.chars();
            let Some(c) = left.next() else {
                return Places {
                    text,
                    rest,
                    place,
                    after_return,
                };
            };
            place = next_place(after_return, place, c);
            after_return = c == '\r';
            rest = left.as_str();
        }
        Places {
            text,
            rest,
            place,
            after_return,
        }
    }
}

/// Returns the place of the character of a page at that offset in bytes.
pub(crate) fn place_at(text: &str, offset: usize) -> Place
    ensures { result ≡ places.place_at (chars text.now) offset }
{
    Places::new(text).at(offset)
}
