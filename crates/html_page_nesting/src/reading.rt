//! How the content of an element is read.

ghost use Rattle.std.specs.Prelude.{◌≡◌};
ghost use Rattle.html_page_nesting.specs.Ancestors.{foreign_space, is_html};

/// The namespace of an element.
#[derive(Clone, Copy)]
pub enum Space {
    Html,
    Svg,
    MathMl,
}

/// The rules by which start tags in an element are read (HTML Standard 13.2.6).
#[derive(Clone, Copy)]
pub enum Reading {
    /// Those of HTML.
    AsHtml,
    /// Those of SVG.
    AsSvg,
    /// Those of MathML.
    AsMathMl,
    /// Those of HTML, except for glyphs of MathML.
    AsMathText,
    /// Those of MathML, except for `svg`.
    AsAnnotation,
}

/// The content that an element may have (HTML Standard 13.2.6.4).
#[derive(Clone, Copy)]
pub enum Place {
    /// The head and the body.
    Page,
    /// The content of a `head`.
    Head,
    /// The content of a `noscript` in a `head`.
    HeadNoscript,
    /// The parts of a table.
    Table,
    /// Rows.
    Section,
    /// Cells.
    Row,
    /// Columns.
    Columns,
    /// The content of a body, and everything else.
    Body,
}

impl Space {
    pub(crate) fn is_html(self) -> bool
        ensures { result ≡ is_html self }
    {
        matches!(self, Space::Html)
    }
}

/// Returns the namespace of an element that is not read by the rules of HTML.
pub(crate) fn foreign_space(reading: Reading) -> Space
    ensures { result ≡ foreign_space reading }
{
    match reading {
        Reading::AsSvg => Space::Svg,
        _ => Space::MathMl,
    }
}
