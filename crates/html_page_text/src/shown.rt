//! The visible parts of a page.

ghost use Rattle.std.specs.Prelude.{◌≡◌};
ghost use Rattle.html_page_text.specs.{PageViews.{page_text_view, parts_view}, PlainTexts.{before_edge, is_edge, part_bytes, past_edge}};

use html_names_core::HtmlTag;
use std::fmt;

/// A visible part of a page.
#[derive(Debug, PartialEq, Eq, Drop)]
pub enum Shown {
    /// Neighbouring characters: at least one, and as many as there are.
    Text(String),
    /// A replaced element, by its name: CSS treats it as one object.
    Object(HtmlTag),
    /// A line break, from a `br`.
    LineBreak,
    /// A border of blocks: a line ends before it, and one begins after it. Neighbouring borders are
    /// one edge.
    Edge,
}

impl Shown {
    fn is_edge(&self) -> bool
        ensures { result ≡ is_edge self.now }
    {
        matches!(self, Shown::Edge)
    }

    fn as_plain(&self) -> &str
        ensures { result.now ≡ part_bytes self.now }
    {
        match self {
            Shown::Text(text) => text.as_str(),
            Shown::Object(_) => "\u{fffc}",
            Shown::LineBreak => "\n",
            Shown::Edge => "\n",
        }
    }
}

/// Returns the parts without a leading edge.
fn past_edge(parts: &[Shown]) -> &[Shown]
    ensures { result.now ≡ past_edge parts.now }
{
    let Some((first, rest)) = parts.split_first() else {
        return parts;
    };
    if first.is_edge() { rest } else { parts }
}

/// Returns the parts without a trailing edge.
fn before_edge(parts: &[Shown]) -> &[Shown]
    ensures { result.now ≡ before_edge parts.now }
{
    let Some((last, rest)) = parts.split_last() else {
        return parts;
    };
    if last.is_edge() { rest } else { parts }
}

/// What is visible of a page in a browser once white space has collapsed.
#[derive(Debug, PartialEq, Eq, Drop)]
pub struct PageText {
    pub(crate) parts: Vec<Shown>,
}

impl PageText {
    /// Returns the parts, in their order on the page.
    pub fn parts(&self) -> &[Shown]
        ensures { parts_view result.now ≡ page_text_view self.now }
    {
        &self.parts
    }
}

/// Writes the page as plain text: each line break and each edge is a line feed, except a leading or
/// trailing edge, and an object is U+FFFC (object replacement character).
impl fmt::Display for PageText {
    ghost use Rattle.std.specs.Prelude.{Some};
    ghost use Rattle.html_page_text.specs.PlainTexts.{plain_text};

    ghost output = { λ page. Some (plain_text page.parts.items) };

    fn fmt<W: fmt::Write>(&self, f: &mut fmt::Formatter<W>) -> fmt::Result {
        let parts = before_edge(past_edge(&self.parts));
        for part in parts {
            f.write_str(part.as_plain())?;
        }
        Ok(())
    }
}
