//! Markup at the beginning of a page (HTML Standard 13.2.3.2).

ghost use Rattle.std.specs.Prelude.{◌≡◌, codes, option_and_then};
ghost use Rattle.html_page_encoding.specs.{Attributes.{attributes}, Classes.{behind, behind_word}};
ghost use Rattle.html_page_encoding.specs.Prescan as prescan;
ghost use Rattle.html_page_encoding.specs.Views.{parts_view, piece_view};
ghost use Rattle.html_page_encoding.specs.declared.class.Class.TheVariants as class;

use crate::attribute::attributes;
use crate::class::{Class, split};
use crate::label::meta_label;
use crate::part::Part;
use crate::word::{behind_first, behind_word};

/// A kind of markup, by what follows its `<`.
#[derive(Clone, Copy)]
pub(crate) enum Markup {
    /// A comment.
    Comment,
    /// The start tag of a `meta`.
    Meta,
    /// Another tag.
    Tag,
    /// What the next `>` ends.
    Other,
    /// No markup.
    Text,
}

/// What the scan finds.
#[derive(Clone, Copy)]
pub(crate) enum Piece<'a> {
    /// Markup in which the scanned bytes end.
    Cut,
    /// Markup that declares no label, and these bytes behind it.
    Passed(&'a [u8]),
    /// A label.
    Declared(Part<'a>),
}

/// Returns whether the bytes begin with the name of a tag.
fn starts_name(bytes: &[u8]) -> bool
    ensures { result ≡ prescan.starts_name bytes.now }
{
    match bytes {
        [first, ..] => first.is_ascii_alphabetic(),
        [] => false,
    }
}

/// Returns whether a tag follows a `<`.
fn is_tag(bytes: &[u8]) -> bool
    ensures { result ≡ prescan.is_tag bytes.now }
{
    match bytes {
        [b'/', rest @ ..] => starts_name(rest),
        _ => starts_name(bytes),
    }
}

fn is_other(bytes: &[u8]) -> bool
    ensures { result ≡ prescan.is_other bytes.now }
{
    matches!(bytes, [b'!' | b'/' | b'?', ..])
}

fn is_meta(bytes: &[u8]) -> bool
    ensures { result ≡ prescan.is_meta bytes.now }
{
    match behind_word("meta", bytes) {
        Some([first, ..]) => Class::Gap.has(*first),
        _ => false,
    }
}

/// Returns the kind of markup that follows a `<`.
#[tactic(auto, unfolding(crate::specs::Prescan::markup_of))]
fn markup_of(bytes: &[u8]) -> Markup
    ensures { result ≡ prescan.markup_of bytes.now }
{
    if behind_word("!--", bytes).is_some() {
        Markup::Comment
    } else if is_meta(bytes) {
        Markup::Meta
    } else if is_tag(bytes) {
        Markup::Tag
    } else if is_other(bytes) {
        Markup::Other
    } else {
        Markup::Text
    }
}

fn comment_passed(bytes: &[u8]) -> Piece<'_>
    ensures { piece_view result ≡ prescan.comment_passed bytes.now }
{
    match bytes {
        [_, rest @ ..] => match behind_first("-->", rest) {
            Some(behind) => Piece::Passed(behind),
            None => Piece::Cut,
        },
        [] => Piece::Cut,
    }
}

/// Reads the start tag of a `meta`.
fn meta_passed(bytes: &[u8]) -> Piece<'_>
    ensures { piece_view result
        ≡ prescan.meta_passed (option_and_then attributes (behind_word (codes "meta") bytes.now)) }
{
    let Some(rest) = behind_word("meta", bytes) else {
        return Piece::Cut;
    };
    match attributes(rest) {
        None => Piece::Cut,
        Some((meta, behind)) => match meta_label(meta) {
            Some(label) => Piece::Declared(label),
            None => Piece::Passed(behind),
        },
    }
}

fn tag_passed(bytes: &[u8]) -> Piece<'_>
    ensures { piece_view result
        ≡ prescan.attributes_passed (attributes (behind class.Word bytes.now)) }
{
    let (_, rest) = split(Class::Word, bytes);
    match attributes(rest) {
        None => Piece::Cut,
        Some((_, behind)) => Piece::Passed(behind),
    }
}

fn other_passed(bytes: &[u8]) -> Piece<'_>
    ensures { piece_view result ≡ prescan.other_passed (behind (class.Except 62) bytes.now) }
{
    let (_, rest) = split(Class::Except(b'>'), bytes);
    match rest {
        [] => Piece::Cut,
        [_, behind @ ..] => Piece::Passed(behind),
    }
}

/// Reads the markup that follows a `<`.
#[tactic(auto, unfolding(crate::specs::Prescan::markup_passed))]
fn markup_passed(bytes: &[u8]) -> Piece<'_>
    ensures { piece_view result
        ≡ prescan.markup_passed (prescan.markup_of bytes.now) bytes.now }
{
    match markup_of(bytes) {
        Markup::Comment => comment_passed(bytes),
        Markup::Meta => meta_passed(bytes),
        Markup::Tag => tag_passed(bytes),
        Markup::Other => other_passed(bytes),
        Markup::Text => Piece::Passed(bytes),
    }
}

/// Returns what stands at the first `<`.
#[tactic(auto, unfolding(crate::specs::Prescan::next_piece))]
fn next_piece(bytes: &[u8]) -> Piece<'_>
    ensures { piece_view result ≡ prescan.next_piece bytes.now }
{
    let (_, rest) = split(Class::Except(b'<'), bytes);
    match rest {
        [] => Piece::Cut,
        [_, behind @ ..] => markup_passed(behind),
    }
}

/// Returns the label that the bytes declare, without white space around it.
pub(crate) fn scanned(bytes: &[u8]) -> Option<Part<'_>>
    ensures { parts_view result ≡ prescan.scanned bytes.now }
{
    let mut rest = bytes;
    for _ in 0..bytes.len() {
        match next_piece(rest) {
            Piece::Cut => return None,
            Piece::Passed(behind) => rest = behind,
            Piece::Declared(label) => return Some(label),
        }
    }
    None
}
