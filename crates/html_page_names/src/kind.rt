//! Kinds of elements that the reader of a page distinguishes.

ghost use Rattle.std.specs.Prelude.{◌≡◌, ◌<◌};
ghost use Rattle.html_page_names.specs.Kinds.{kind_place, kind_bit};

/// A kind of elements, by their names (HTML Standard 13.2.4 and 13.2.6).
#[derive(Clone, Copy, Debug)]
pub enum Kind {
    A,
    AnnotationXml,
    Body,
    Br,
    Button,
    Caption,
    Cell,
    Col,
    Colgroup,
    DescriptionPart,
    Font,
    Form,
    Head,
    Hr,
    Html,
    Image,
    Input,
    ListItem,
    Math,
    Nobr,
    Noscript,
    Optgroup,
    Option,
    P,
    Rtc,
    Ruby,
    Script,
    Select,
    Svg,
    Table,
    Template,
    Tr,
    Root,
    Frameset,
    Plaintext,
    HeadLeaf,
    EscapableRaw,
    Raw,
    ScriptOrStyle,
    HeadContent,
    NoscriptContent,
    Formatting,
    Marker,
    Leaf,
    Heading,
    ClosesInScope,
    ClosesP,
    Unformatted,
    Implied,
    Section,
    TablePart,
    Misplaced,
    Special,
    BoundsScope,
    BoundsList,
    PassedByItems,
    RubyPart,
    RubyText,
    DropsFeed,
    Breakout,
    Glyph,
    MathText,
    BarsFrameset,
    SvgHtml,
}

impl Kind {
    fn place(self) -> u64
        ensures value { result ≡ kind_place self }
        ensures bound { result < 64 }
    {
        self as u64
    }

    /// Returns its bit among those of `Kinds`.
    pub(crate) fn bit(self) -> u64
        ensures { result ≡ kind_bit self }
    {
        1 << self.place()
    }
}
