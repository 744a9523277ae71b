//! The text of a page of bytes, and the places of bytes that have none.

ghost use Rattle.std.specs.Prelude.{◌≡◌, IfOk, take};
ghost use Rattle.html_page_read.specs.BytePlaces.{byte_place, placed_fault};
ghost use Rattle.html_page_read.specs.PageAnswers.{GivesText};

use crate::fault::PageFault;
use crate::place::place_at;
use html_page_encoding::{DecodedPage, Encoding, EncodingFault, decode, decode_page, encoding_of};
use html_text::Place;
use std::alloc::{AllocError, Global};

/// Returns the first bytes of a page, or all if there are fewer.
fn front(page: &[u8], count: usize) -> &[u8]
    ensures { result.now ≡ take count page.now }
{
    if page.len() <= count {
        return page;
    }
    &page[..count]
}

/// Returns the place of a byte behind bytes that are a text in that encoding.
fn byte_place(
    alloc: Global,
    encoding: Encoding,
    page: &[u8],
    offset: usize,
) -> Result<Place, AllocError>
    ensures { IfOk result (λ place. place ≡ byte_place encoding page.now offset) }
{
    // All bytes before a fault are a text, so that only an allocation may fail.
    let Ok(text) = decode(alloc, encoding, front(page, offset)) else {
        return Err(AllocError);
    };
    let text = text.as_str();
    let Place { line, column, .. } = place_at(text, text.len());
    Ok(Place {
        offset,
        line,
        column,
    })
}

/// Returns a fault of a page of bytes, with its place.
fn placed_fault(alloc: Global, page: &[u8], fault: EncodingFault) -> Result<PageFault, AllocError>
    ensures { IfOk result (λ placed. placed ≡ placed_fault page.now fault) }
{
    match fault {
        EncodingFault::OutOfMemory => Ok(PageFault::OutOfMemory),
        EncodingFault::UnknownLabel { label, place } => {
            // Each byte before a label counts as a character.
            let place = byte_place(alloc, Encoding::Windows1252, page, place)?;
            Ok(PageFault::UnknownLabel { label, place })
        }
        EncodingFault::NotText { place } => {
            // Only the bytes of a page whose encoding is known have such a fault.
            let Ok(encoding) = encoding_of(alloc, page) else {
                return Err(AllocError);
            };
            let place = byte_place(alloc, encoding, page, place)?;
            Ok(PageFault::NotText { place })
        }
    }
}

/// Returns the text of a page of bytes, and its encoding.
///
/// The encoding is that of a byte order mark, or of the first characters of an XML declaration in
/// UTF-16, or else the one that a `meta` or an XML declaration names among the first 1,024 bytes
/// ([`encoding_of`]). A page without any of these is UTF-8 if its bytes are, and windows-1252
/// otherwise.
///
/// Places of the page that [`read_page_bytes`](crate::read_page_bytes) reads are those in this text.
///
/// # Errors
///
/// - [`PageFault::OutOfMemory`] if an allocation fails.
/// - [`PageFault::UnknownLabel`] if the page names its encoding by a label that is none of those of
///   UTF-8, UTF-16, windows-1252 and x-user-defined.
/// - [`PageFault::NotText`] if the page has bytes that are no text in its encoding.
///
/// Takes time linear in the length of the page, and allocates memory for the text.
#[tactic(auto, using(crate::proofs::BytePages::byte_faults))]
pub fn decode_page_bytes(alloc: Global, page: &[u8]) -> Result<DecodedPage, PageFault>
    ensures { GivesText result page.now }
{
    match decode_page(alloc, page) {
        Ok(decoded) => Ok(decoded),
        Err(fault) => Err(placed_fault(alloc, page, fault)?),
    }
}
