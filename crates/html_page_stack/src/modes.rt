//! The state of reading a page.

/// The namespace of an element that counts among the open ones.
#[derive(Clone, Copy, Debug, PartialEq, Eq)]
pub enum Space {
    Html,
    Svg,
    MathMl,
    /// It does not count: it was removed, but what is in it is open.
    Removed,
}

/// Where an element stands once it is complete.
#[derive(Clone, Copy, Debug, PartialEq, Eq)]
pub enum Destination {
    /// In the open element around it.
    Parent,
    /// In the head, which is complete already.
    Head,
    /// Nowhere: its children stand in its place.
    Replaced,
    /// In the element around the nearest table, before that table (HTML Standard 13.2.6.1, foster
    /// parenting).
    BeforeTable,
    /// Nowhere: its children stand before the nearest table.
    ReplacedBeforeTable,
}

/// The bounds of the elements that an end tag may close (HTML Standard 13.2.4.2).
#[derive(Clone, Copy, Debug, PartialEq, Eq)]
pub enum Scope {
    General,
    ListItem,
    Button,
    Table,
}

/// The insertion mode (HTML Standard 13.2.4.1).
#[derive(Clone, Copy, Debug, PartialEq, Eq)]
pub enum Mode {
    BeforeHtml,
    BeforeHead,
    InHead,
    InHeadNoscript,
    AfterHead,
    InBody,
    InText,
    InTable,
    InCaption,
    InColumns,
    InSection,
    InRow,
    InCell,
    /// That of the innermost open `template`.
    InTemplate,
    InFrameset,
    AfterFrameset,
}

/// How the content of an open `template` is read, which the first start tag in it decides that begins
/// no content of the head (HTML Standard 13.2.6.4.18).
#[derive(Clone, Copy, Debug, PartialEq, Eq)]
pub enum TemplateMode {
    /// There was none yet.
    Unset,
    Body,
    Table,
    Columns,
    Section,
    Row,
}

/// What a table does to an open `p`, which depends on the document type.
#[derive(Clone, Copy, Debug, PartialEq, Eq)]
pub enum TableRule {
    /// No document type, tag or text was read yet.
    Unseen,
    ClosesP,
    KeepsP,
}

/// What a `frameset` does, which depends on the body (HTML Standard 13.2.6.4.7, frameset-ok flag).
#[derive(Clone, Copy, Debug, PartialEq, Eq)]
pub enum FramesetRule {
    /// It is ignored in the body.
    Ignored,
    /// It takes the place of the body, which no tag began and in which nothing is shown yet.
    ReplacesBody,
    /// One has ended.
    Behind,
    /// One has ended, and `html` behind it.
    BehindHtml,
}
