//! The reasons for which a page is not read.

ghost use Rattle.std.specs.Prelude.{◌≡◌};
ghost use Rattle.html_page_stack.specs.PageRefusals.{refusal_number};

use thiserror::Error;

/// Content for which a page is refused: more of it than a limit allows.
#[derive(Clone, Copy, Debug, PartialEq, Eq, Error)]
pub enum PageRefusal {
    /// An element would be deeper than the limit.
    #[error("elements are nested too deeply")]
    TooDeep,
    /// A start tag has more than 256 attributes, or those of all tags of `html` or `body` together
    /// are more.
    #[error("an element has too many attributes")]
    TooManyAttributes,
    /// Formatting elements would be made again so often that their tags take more than sixteen times
    /// the bytes before the token and 64 kB.
    #[error("too many elements are made again")]
    TooManyCopies,
}

impl PageRefusal {
    /// Returns the refusal's number: 8 for an element that is too deep, as when a tree is written,
    /// and 28 to 40 for the others.
    pub fn number(&self) -> u8
        ensures { result ≡ refusal_number self.now }
    {
        match self {
            PageRefusal::TooDeep => 8,
            PageRefusal::TooManyAttributes => 28,
            PageRefusal::TooManyCopies => 40,
        }
    }
}
