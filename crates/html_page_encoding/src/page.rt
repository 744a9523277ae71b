//! The encoding of a page, and its text.

ghost use Rattle.std.specs.Prelude.{◌≡◌, IfOk, Ok};
ghost use Rattle.html_names_core.specs.Texts.{text_view};
ghost use Rattle.html_page_encoding.specs.Answers.{
  Decodes,
  DecodesPage,
  FindsDeclared,
  FindsEncoding,
  Shares,
};
ghost use Rattle.html_page_encoding.specs.Decoded as decoded;
ghost use Rattle.html_page_encoding.specs.PageEncodings as pages;
ghost use Rattle.html_page_encoding.specs.Views.{part_view, parts_view};

use crate::encoding::{Encoding, label_encoding};
use crate::fault::EncodingFault;
use crate::markup::scanned;
use crate::part::Part;
use crate::utf16::utf16_text;
use crate::windows::{text_of_bytes, windows_text};
use crate::xml::xml_label;
use std::alloc::{AllocError, Global};
use std::str;

/// The number of bytes in which a label is looked for.
const HEAD_LENGTH: usize = 1024;

/// A page of bytes as a text.
#[derive(Debug, Drop, PartialEq, Eq)]
pub struct DecodedPage {
    /// The text. If the page has a byte order mark, U+FEFF is its first character.
    pub text: String,
    /// The encoding of the page.
    pub encoding: Encoding,
}

/// Returns the encoding that the first bytes of a page alone decide.
#[tactic(auto, unfolding(crate::specs::PageEncodings::marked))]
fn marked(page: &[u8]) -> Option<Encoding>
    ensures { result ≡ pages.marked page.now }
{
    if page.starts_with(&[0xef, 0xbb, 0xbf]) {
        Some(Encoding::Utf8)
    } else if page.starts_with(&[0xfe, 0xff]) {
        Some(Encoding::Utf16BigEndian)
    } else if page.starts_with(&[0xff, 0xfe]) {
        Some(Encoding::Utf16LittleEndian)
    } else if page.starts_with(b"<\0?\0x\0") {
        Some(Encoding::Utf16LittleEndian)
    } else if page.starts_with(b"\0<\0?\0x") {
        Some(Encoding::Utf16BigEndian)
    } else {
        None
    }
}

/// Returns the encoding of a page that declares none.
#[tactic(auto, unfolding(crate::specs::PageEncodings::guessed))]
fn guessed(page: &[u8]) -> Encoding
    ensures { result ≡ pages.guessed page.now }
{
    match str::from_utf8(page) {
        Ok(_) => Encoding::Utf8,
        Err(_) => Encoding::Windows1252,
    }
}

/// Returns the label that the bytes declare, in markup or else in an XML declaration.
#[tactic(auto, unfolding(crate::specs::PageEncodings::declared))]
fn declared(bytes: &[u8]) -> Option<Part<'_>>
    ensures { parts_view result ≡ pages.declared bytes.now }
{
    match scanned(bytes) {
        Some(label) => Some(label),
        None => xml_label(bytes),
    }
}

/// Returns the encoding with a label that is declared in so many bytes.
fn labelled(alloc: Global, length: usize, label: Part<'_>) -> Result<Encoding, EncodingFault>
    ensures { FindsEncoding result (pages.labelled length (part_view label.entry)) }
{
    match label_encoding(label.text) {
        Some(encoding) => Ok(encoding),
        None => {
            let place = length.saturating_sub(label.left);
            let label = text_of_bytes(alloc, label.text)?;
            Err(EncodingFault::UnknownLabel { label, place })
        }
    }
}

/// Returns the bytes in which a label is looked for.
fn head(page: &[u8]) -> &[u8]
    ensures { result.now ≡ pages.head page.now }
{
    if page.len() <= HEAD_LENGTH {
        return page;
    }
    &page[..HEAD_LENGTH]
}

/// Returns the encoding that a page declares, by its first bytes or by a label, if it declares one.
#[tactic(auto, unfolding(crate::specs::PageEncodings::declared_encoding, crate::specs::PageEncodings::page_encoding))]
fn declared_encoding(alloc: Global, page: &[u8]) -> Result<Option<Encoding>, EncodingFault>
    ensures { FindsDeclared result page.now }
{
    if let Some(encoding) = marked(page) {
        return Ok(Some(encoding));
    }
    let head = head(page);
    match declared(head) {
        Some(label) => Ok(Some(labelled(alloc, head.len(), label)?)),
        None => Ok(None),
    }
}

/// Returns the encoding of a page (HTML Standard 13.2.3.1, 13.2.3.2).
///
/// A byte order mark decides, or the beginning of an XML declaration in UTF-16. If there is none,
/// the first label decides that a `meta` declares among the first 1,024 bytes, or else the label of
/// an XML declaration at the beginning. The labels of UTF-16 stand for UTF-8 there, and that of
/// x-user-defined for windows-1252. A page without a label is UTF-8 if its bytes are, and
/// windows-1252 otherwise.
///
/// # Errors
///
/// - [`EncodingFault::OutOfMemory`] if an allocation fails, which only an unknown label needs.
/// - [`EncodingFault::UnknownLabel`] if the label is not known. A label of white space alone counts
///   as none.
///
/// Takes time linear in the length of the page if the page declares no encoding.
///
/// ```
/// use html_page_encoding::{Encoding, EncodingFault, encoding_of};
///
/// let alloc = rt.alloc();
/// assert_eq!(rt; encoding_of(alloc, b"<p>caf\xc3\xa9")?, Encoding::Utf8);
/// assert_eq!(rt; encoding_of(alloc, b"<p>caf\xe9")?, Encoding::Windows1252);
/// assert_eq!(rt; encoding_of(alloc, b"<meta charset=latin1>")?, Encoding::Windows1252);
///
/// let found = encoding_of(alloc, b"<meta charset=big5>");
/// let Err(EncodingFault::UnknownLabel { label, place }) = found else {
///     panic!(rt; "no label of this project");
/// };
/// assert_eq!(rt; label.as_str(), "big5");
/// assert_eq!(rt; place, 14);
/// ```
#[tactic(auto, using(crate::proofs::DeclaredEncodings::declares, crate::proofs::DeclaredEncodings::declares_none))]
pub fn encoding_of(alloc: Global, page: &[u8]) -> Result<Encoding, EncodingFault>
    ensures { FindsEncoding result (pages.page_encoding page.now) }
{
    match declared_encoding(alloc, page)? {
        Some(encoding) => Ok(encoding),
        None => Ok(guessed(page)),
    }
}

/// Returns the text of a page in UTF-8, which is the page itself.
///
/// # Errors
///
/// [`EncodingFault::NotText`] with the offset of the first byte that is no UTF-8.
pub fn utf8_text(page: &[u8]) -> Result<&str, EncodingFault>
    ensures { Shares result page.now }
{
    match str::from_utf8(page) {
        Ok(text) => Ok(text),
        Err(fault) => {
            let place = fault.valid_up_to();
            Err(EncodingFault::NotText { place })
        }
    }
}

fn utf8_copy(alloc: Global, page: &[u8]) -> Result<String, EncodingFault>
    ensures { Decodes result (decoded.utf8_text page.now) }
{
    let text = utf8_text(page)?;
    Ok(String::from_str(alloc, text)?)
}

/// Returns the text of a page in that encoding.
///
/// A byte order mark is a character of the text. In windows-1252 each byte is a character.
///
/// # Errors
///
/// - [`EncodingFault::OutOfMemory`] if an allocation fails.
/// - [`EncodingFault::NotText`] with the offset of the first byte that is no UTF-8, or of the first
///   unit of UTF-16 that is a surrogate without its partner, or of a last byte alone.
///
/// Takes time linear in the length of the page.
#[tactic(auto, unfolding(crate::specs::Decoded::decoded))]
pub fn decode(alloc: Global, encoding: Encoding, page: &[u8]) -> Result<String, EncodingFault>
    ensures { Decodes result (decoded.decoded encoding page.now) }
{
    match encoding {
        Encoding::Utf8 => utf8_copy(alloc, page),
        Encoding::Utf16LittleEndian => utf16_text(alloc, false, page),
        Encoding::Utf16BigEndian => utf16_text(alloc, true, page),
        Encoding::Windows1252 => Ok(windows_text(alloc, page)?),
    }
}

/// Returns the encoding of a page that declares none, and its text.
///
/// The bytes are looked through once, where [`guessed`] and [`decode`] do so twice.
#[tactic(auto, using(crate::proofs::Texts::utf8_page, crate::proofs::Texts::other_page))]
fn decode_guessed(alloc: Global, page: &[u8]) -> Result<DecodedPage, AllocError>
    ensures { IfOk result (λ made. pages.text_in page.now (Ok (pages.guessed page.now))
        ≡ Ok (made.encoding, text_view made.text)) }
{
    match str::from_utf8(page) {
        Ok(text) => Ok(DecodedPage {
            text: String::from_str(alloc, text)?,
            encoding: Encoding::Utf8,
        }),
        Err(_) => Ok(DecodedPage {
            text: windows_text(alloc, page)?,
            encoding: Encoding::Windows1252,
        }),
    }
}

/// Returns the encoding of a page, as [`encoding_of`] does, and its text, as [`decode`] does.
///
/// Copies a page in UTF-8, which [`utf8_text`] does not.
///
/// # Errors
///
/// Those of [`encoding_of`] and [`decode`].
///
/// ```
/// use html_page_encoding::{Encoding, decode_page};
///
/// let page = decode_page(rt.alloc(), b"<meta charset=latin1>caf\xe9")?;
/// assert_eq!(rt; page.encoding, Encoding::Windows1252);
/// assert_eq!(rt; page.text.as_str(), "<meta charset=latin1>caf\u{e9}");
/// ```
#[tactic(auto, using(crate::proofs::DeclaredEncodings::declares, crate::proofs::DeclaredEncodings::declares_none), unfolding(crate::specs::PageEncodings::page_text))]
pub fn decode_page(alloc: Global, page: &[u8]) -> Result<DecodedPage, EncodingFault>
    ensures { DecodesPage result (pages.page_text page.now) }
{
    match declared_encoding(alloc, page)? {
        Some(encoding) => {
            let text = decode(alloc, encoding, page)?;
            Ok(DecodedPage { text, encoding })
        }
        None => Ok(decode_guessed(alloc, page)?),
    }
}
