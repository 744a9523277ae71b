//! The reasons why a browser does not leave a node where it is.

ghost use Rattle.std.specs.Prelude.{◌≡◌};
ghost use Rattle.html_page_nesting.specs.MisnestingTexts.{rule_name, rule_words};

use std::fmt;

/// The reason why a browser does not leave a node where it is when it parses the written text (HTML
/// Standard 13.2). `Display` says what becomes of the node.
#[derive(Clone, Copy, Debug, PartialEq, Eq, Hash)]
pub enum Misnesting {
    /// The root is not an `html` of only a `head`, white space if any, and a `body` (13.2.6.4.2 to
    /// 13.2.6.4.6, 13.2.6.4.19): browsers add what is missing, and move the rest.
    NoPage,
    /// An element stands more than 511 elements below `body`, and not below another that does.
    /// Chromium puts it beside its parent. Its content is not checked.
    TooDeep,
    /// The name of an element does not begin with a letter (13.2.5.6), or is read in another case
    /// (13.2.5.8, 13.2.6.5).
    TagName,
    /// The name of an attribute is read in another case (13.2.5.33, 13.2.6.1).
    AttributeName,
    /// An element has two attributes of one name, and loses the second (13.2.5.33).
    RepeatedAttribute,
    /// A text or a value has a carriage return, which is read as a line feed (13.2.3.5).
    CarriageReturn,
    /// An element that is written without an end tag stays open, such as `mspace` outside MathML
    /// and `input` in it, and takes in what follows (13.2.6.4.7, 13.2.6.5).
    StaysOpen,
    /// Browsers know no end tag of a `basefont`, `bgsound`, `keygen` or `param`, and put its
    /// content after it (13.2.6.4.4, 13.2.6.4.7).
    UnreadEnd,
    /// Elements and references in `iframe`, `noembed`, `noframes` and `xmp` are read as text
    /// (13.2.6.2).
    RawText,
    /// A `script` or `style` in SVG or MathML has a `&` or `<`, which is read as the start of a
    /// reference or a tag (13.2.5.1).
    ForeignText,
    /// A line feed at the beginning of a `listing` is dropped (13.2.6.4.7); the extra one that is
    /// written in a `textarea` of SVG or MathML is kept.
    FirstLineFeed,
    /// The end tag of a `script` is read as text behind a `<script` in a `<!--` (13.2.5.26 to
    /// 13.2.5.31).
    ScriptComment,
    /// Not part of a `head`, or of a `noscript` there: the node closes it (13.2.6.4.4, 13.2.6.4.5).
    NotInHead,
    /// The node does not belong right in a `table`, a section of one or a row: it is moved before
    /// the table, or put into parts that are added (13.2.6.4.9 to 13.2.6.4.14, 13.2.6.1). Reported
    /// also for an `input` of type `hidden` and a `form`, which browsers may leave there.
    NotInTable,
    /// The node does not belong in a `colgroup`, and closes it (13.2.6.4.12).
    NotInColumns,
    /// A part of a table stands outside the part that it belongs to, and is dropped (13.2.6.4.7).
    /// Reported also for parts right in a `template`, which browsers may leave there.
    OutsideTable,
    /// No `html`, `head`, `body`, `frameset` or `frame` can stand here, and no `image` or
    /// `plaintext` anywhere: it is ignored, its attributes go to the first, it is read as `img`, or
    /// it never ends (13.2.6.4.7).
    NeverRead,
    /// A `form` in a `form` is ignored (13.2.6.4.7).
    FormInForm,
    /// The node closes the `p` around it (13.2.6.4.7).
    ClosesParagraph,
    /// The node closes the heading right around it (13.2.6.4.7).
    ClosesHeading,
    /// The node closes the `li`, `dd` or `dt` around it (13.2.6.4.7).
    ClosesItem,
    /// The node closes the `a`, `button`, `nobr` or `select` of its name around it (13.2.6.4.7).
    ClosesSame,
    /// The node closes its parent, an `option`, or an implied one in a `select` (13.2.6.4.7).
    ClosesOption,
    /// The node closes the `select` around it (13.2.6.4.7).
    ClosesSelect,
    /// The node closes the part of a `ruby` right around it (13.2.6.4.7).
    ClosesRubyPart,
    /// The node closes the `svg` or `math` around it (13.2.6.5).
    LeavesForeign,
    /// A `selectedcontent` in a `select` gets the content of the chosen `option` (4.10.10).
    Filled,
}

impl Misnesting {
    /// Returns the name of the rule, and what becomes of the node.
    #[tactic(auto, unfolding(crate::specs::MisnestingTexts::rule_texts))]
    fn texts(self) -> (&'static str, &'static str)
        ensures name { result.0.now ≡ rule_name self }
        ensures words { result.1.now ≡ rule_words self }
    {
        match self {
            Self::NoPage => ("NoPage", "is no html with a head and a body alone"),
            Self::TooDeep => ("TooDeep", "stands too deep, and is put beside its parent"),
            Self::TagName => ("TagName", "has a name that is read otherwise"),
            Self::AttributeName => (
                "AttributeName",
                "has an attribute whose name is read otherwise",
            ),
            Self::RepeatedAttribute => (
                "RepeatedAttribute",
                "has an attribute twice, and loses one",
            ),
            Self::CarriageReturn => (
                "CarriageReturn",
                "has a carriage return, which is read as a line feed",
            ),
            Self::StaysOpen => ("StaysOpen", "has no end tag here, and holds what follows"),
            Self::UnreadEnd => (
                "UnreadEnd",
                "has an end tag that is not read, and loses what it holds",
            ),
            Self::RawText => (
                "RawText",
                "holds elements or references, which are read as text",
            ),
            Self::ForeignText => (
                "ForeignText",
                "has a & or < in svg or math, which is no text there",
            ),
            Self::FirstLineFeed => (
                "FirstLineFeed",
                "begins with a line feed, which is not read as one",
            ),
            Self::ScriptComment => (
                "ScriptComment",
                "has a <script in a <!--, where its end tag is text",
            ),
            Self::NotInHead => ("NotInHead", "closes the head or noscript that it stands in"),
            Self::NotInTable => ("NotInTable", "is moved before the table that it stands in"),
            Self::NotInColumns => ("NotInColumns", "closes the colgroup that it stands in"),
            Self::OutsideTable => ("OutsideTable", "is dropped outside of its part of a table"),
            Self::NeverRead => ("NeverRead", "is ignored here, or read as another"),
            Self::FormInForm => ("FormInForm", "is ignored in a form"),
            Self::ClosesParagraph => ("ClosesParagraph", "closes the p that it stands in"),
            Self::ClosesHeading => ("ClosesHeading", "closes the heading that it stands in"),
            Self::ClosesItem => ("ClosesItem", "closes the li, dd or dt that it stands in"),
            Self::ClosesSame => ("ClosesSame", "closes the one of its name that it stands in"),
            Self::ClosesOption => (
                "ClosesOption",
                "closes the option or the part of a select that it stands in",
            ),
            Self::ClosesSelect => ("ClosesSelect", "closes the select that it stands in"),
            Self::ClosesRubyPart => (
                "ClosesRubyPart",
                "closes the part of a ruby that it stands in",
            ),
            Self::LeavesForeign => ("LeavesForeign", "closes the svg or math that it stands in"),
            Self::Filled => ("Filled", "is filled with what the chosen option holds"),
        }
    }

    /// Returns the name of the rule: `ClosesParagraph`.
    pub fn name(self) -> &'static str
        ensures { result.now ≡ rule_name self }
    {
        self.texts().0
    }

    /// Returns what becomes of the node, in English: `closes the p that it stands in`.
    pub fn words(self) -> &'static str
        ensures { result.now ≡ rule_words self }
    {
        self.texts().1
    }
}

/// Writes what becomes of the node: `closes the p that it stands in`.
impl fmt::Display for Misnesting {
    ghost use Rattle.std.specs.Prelude.{Some};
    ghost use Rattle.html_page_nesting.specs.MisnestingTexts.{rule_words};

    ghost output = { λ rule. Some (rule_words rule) };

    fn fmt<W: fmt::Write>(&self, f: &mut fmt::Formatter<W>) -> fmt::Result {
        f.write_str(self.words())
    }
}
