//! Errors of a page from which the reader recovers.

use thiserror::Error;

/// An error of a page from which the reader recovers, as a browser does. Errors of the text have
/// names of HTML Standard 13.2.2; errors of the tree have no names there, so they have names of
/// this project.
#[derive(Clone, Copy, Debug, PartialEq, Eq, Error)]
pub enum PageError {
    #[error("abrupt-closing-of-empty-comment")]
    AbruptClosingOfEmptyComment,
    #[error("absence-of-digits-in-numeric-character-reference")]
    AbsenceOfDigitsInNumericCharacterReference,
    #[error("cdata-in-html-content")]
    CdataInHtmlContent,
    #[error("character-reference-outside-unicode-range")]
    CharacterReferenceOutsideUnicodeRange,
    #[error("control-character-reference")]
    ControlCharacterReference,
    #[error("duplicate-attribute")]
    DuplicateAttribute,
    #[error("end-tag-with-attributes")]
    EndTagWithAttributes,
    #[error("end-tag-with-trailing-solidus")]
    EndTagWithTrailingSolidus,
    #[error("eof-before-tag-name")]
    EofBeforeTagName,
    #[error("eof-in-cdata")]
    EofInCdata,
    #[error("eof-in-comment")]
    EofInComment,
    #[error("eof-in-doctype")]
    EofInDoctype,
    #[error("eof-in-script-html-comment-like-text")]
    EofInScriptHtmlCommentLikeText,
    #[error("eof-in-tag")]
    EofInTag,
    #[error("incorrectly-closed-comment")]
    IncorrectlyClosedComment,
    #[error("incorrectly-opened-comment")]
    IncorrectlyOpenedComment,
    #[error("invalid-first-character-of-tag-name")]
    InvalidFirstCharacterOfTagName,
    #[error("missing-attribute-value")]
    MissingAttributeValue,
    #[error("missing-end-tag-name")]
    MissingEndTagName,
    #[error("missing-semicolon-after-character-reference")]
    MissingSemicolonAfterCharacterReference,
    #[error("missing-whitespace-between-attributes")]
    MissingWhitespaceBetweenAttributes,
    #[error("nested-comment")]
    NestedComment,
    #[error("noncharacter-character-reference")]
    NoncharacterCharacterReference,
    #[error("null-character-reference")]
    NullCharacterReference,
    #[error("surrogate-character-reference")]
    SurrogateCharacterReference,
    #[error("unexpected-character-in-unquoted-attribute-value")]
    UnexpectedCharacterInUnquotedAttributeValue,
    #[error("unexpected-null-character")]
    UnexpectedNullCharacter,
    #[error("unexpected-question-mark-instead-of-tag-name")]
    UnexpectedQuestionMarkInsteadOfTagName,
    #[error("unexpected-solidus-in-tag")]
    UnexpectedSolidusInTag,
    #[error("unknown-named-character-reference")]
    UnknownNamedCharacterReference,
    /// No document type stands before the first tag or text.
    #[error("no document type")]
    NoDocumentType,
    /// A document type stands after the first tag, text or document type.
    #[error("a misplaced document type")]
    MisplacedDocumentType,
    /// An end tag closes no element.
    #[error("an end tag that closes nothing")]
    EndTagWithoutStart,
    /// An end tag closes elements that it doesn't name.
    #[error("an end tag over open elements")]
    EndTagOverOpenElements,
    /// An end tag names a formatting element that another tag closed.
    #[error("an end tag of an element that is closed")]
    EndTagOfClosedElement,
    /// An end tag of a formatting element moves nodes out of it.
    #[error("an end tag that moves nodes")]
    NodesAdopted,
    /// Formatting elements that other tags closed are made again.
    #[error("a formatting element that is made again")]
    FormattingReopened,
    /// A `</br>`, which is read as `<br>`.
    #[error("an end tag of br")]
    EndTagBr,
    /// A `frameset` takes the place of the body, with everything in it.
    #[error("a frameset in place of a body")]
    BodyReplaced,
    /// A text that can't stand there.
    #[error("a text that is ignored")]
    IgnoredText,
    /// A start tag whose element can't stand there.
    #[error("a start tag that is ignored")]
    IgnoredStartTag,
    /// A second `html`, `head` or `body`, without attributes that count.
    #[error("a second html, head or body")]
    SecondStartTag,
    /// A start tag whose name no element of this project can have: its content stands in its place.
    #[error("a tag whose name no element has")]
    UnknownTag,
    /// An attribute whose name no attribute of this project can have: it is left out.
    #[error("an attribute whose name no attribute has")]
    UnknownAttribute,
    /// An element of the head behind it, which is put into it.
    #[error("an element of the head behind it")]
    HeadReopened,
    /// A tag that can't stand in `svg` or `math`, and closes them.
    #[error("an element of HTML in svg or math")]
    HtmlInForeign,
    /// A second `html` or `body` with attributes, which the first gets if it lacks them.
    #[error("attributes of a second html or body")]
    MergedAttributes,
    /// An element is closed because another of its kind begins, such as an `a` in an `a`.
    #[error("an element within another of its kind")]
    NestedElement,
    /// A `noscript` in the head is closed before content that can't stand in it.
    #[error("a noscript of the head that ends early")]
    UnexpectedInNoscript,
    /// A text or a tag stands in a table, outside its cells and captions: what it makes is moved
    /// before the table (foster parenting).
    #[error("a text or a tag that is moved out of a table")]
    FosterParenting,
    /// A `form` or a hidden `input` stands in a table, outside its cells, and stays there.
    #[error("a form or a hidden input in a table")]
    UnexpectedInTable,
    /// A cell stands outside a row.
    #[error("a cell outside of a row")]
    CellWithoutRow,
    /// A cell or a caption is closed while elements in it are open.
    #[error("a cell or caption over open elements")]
    CellOverOpenElements,
    /// An `image`, which is read as `img`.
    #[error("image in place of img")]
    ImageTag,
}
