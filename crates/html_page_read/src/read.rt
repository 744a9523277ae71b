//! Reading a page as browsers do, from a text or bytes to its element and the errors in it.

ghost use Rattle.std.specs.Prelude.{◌≡◌, ◌≤◌, ◌<◌, ◌+◌, ◌^◌, OnOk, IfOk, chars, length};
ghost use Rattle.html_page_encoding.specs.declared.encoding.Encoding.TheVariants.{Utf8};
ghost use Rattle.html_page_read.specs.PageAnswers.{ArePlaced, Gives, GivesBytes, fault_at, placed};
ghost use Rattle.html_page_read.specs.PageReading as pages;
ghost use Rattle.html_page_read.specs.PageReaderViews.{reader_of};
ghost use Rattle.html_page_stack.specs.PageViews.{notes_of, page_of};

use crate::bytes::decode_page_bytes;
use crate::fault::{PageFault, PageNote, PageNotes};
use crate::place::place_at;
use crate::reader::Reader;
use html_dom_tree::HtmlElement;
use html_dom_tree::text::split_first;
use html_page_encoding::{DecodedPage, Encoding};
use html_page_stack::{Notes, Page, PageError, PageRefusal};
use std::alloc::{AllocError, Global};

pub(crate) const BYTE_ORDER_MARK: char = '\u{feff}';

/// Reads a page from elsewhere as browsers do, and returns its element and the errors in it.
///
/// Reads as HTML Standard 13.2 says, with scripting disabled, and recovers from the errors that
/// browsers recover from. Comments and document types leave nothing in the element. Refuses a page
/// at the limits that [`PageRefusal`] lists.
///
/// The span of an element is the offset in bytes of the `<` of its start tag, or of the tag or the
/// character that implied it; [`Places`](crate::Places) maps it to a line and a column. A text has
/// the span of its element.
///
/// `limit` is from 1 to 10,000 and bounds the depth of elements; the root has depth 1.
///
/// # Errors
///
/// [`PageFault::Refused`] with the first place for which the page is refused: that of the `<` of the
/// tag, or of the character. What follows is read all the same, but changes nothing of that.
///
/// Takes time linear in the length of the text, except that a tag that looks for an open element,
/// such as an end tag, visits those inside it, or all if there is none. Beside the element,
/// allocates memory for the open elements, one text and one tag.
///
/// ```
/// use html_page::{PageFault, read_page};
///
/// let alloc = rt.alloc();
/// let (root, notes) = read_page(alloc, "<!DOCTYPE html><ul><li>a<li>b</b></ul>", 50)?;
/// assert_eq!(rt; root.children.len(), 2); // head and body
/// assert_eq!(rt; notes.count, 1);
/// for note in &notes.first {
///     assert_eq!(rt; note.place.offset, 29); // `</b>`, which closes nothing
/// }
///
/// let read = read_page(alloc, "<!DOCTYPE html><p><b>a", 3);
/// let Err(PageFault::Refused { place, .. }) = read else {
///     panic!(rt; "an element is too deep");
/// };
/// assert_eq!(rt; place.column, 19);
/// ```
pub fn read_page(
    alloc: Global,
    text: &str,
    limit: usize,
) -> Result<(HtmlElement, PageNotes), PageFault>
    requires some_limit { 1 ≤ limit }
    requires low_limit { limit ≤ 10000 }
    ensures { Gives result (chars text.now) (pages.page_read limit (chars text.now)) }
{
    let mut reader = reader_behind(alloc, text, limit)?;
    reader.finish()?;
    answer(alloc, text, reader.reading.page)
}

/// Reads a page from elsewhere, in bytes, and returns its element and the errors in it.
///
/// Decodes the page as [`decode_page_bytes`] does, and reads its text as [`read_page`] does. Places
/// are those in the text; [`PageNotes::encoding`] is the encoding that the page had.
///
/// # Errors
///
/// Those of [`read_page`], and before all others those of [`decode_page_bytes`].
///
/// ```
/// use html_page::{Encoding, PageFault, read_page_bytes};
///
/// let alloc = rt.alloc();
/// let (_, notes) = read_page_bytes(alloc, b"<!DOCTYPE html><p>caf\xe9", 50)?;
/// assert_eq!(rt; notes.encoding, Encoding::Windows1252);
///
/// let read = read_page_bytes(alloc, b"<!DOCTYPE html>\n<meta charset=big5>", 50);
/// let Err(PageFault::UnknownLabel { label, place }) = read else {
///     panic!(rt; "no label of this project");
/// };
/// assert_eq!(rt; label.as_str(), "big5");
/// assert_eq!(rt; place.line, 2);
/// assert_eq!(rt; place.column, 15);
/// ```
pub fn read_page_bytes(
    alloc: Global,
    page: &[u8],
    limit: usize,
) -> Result<(HtmlElement, PageNotes), PageFault>
    requires some_limit { 1 ≤ limit }
    requires low_limit { limit ≤ 10000 }
    ensures { GivesBytes result page.now limit }
{
    let DecodedPage { text, encoding } = decode_page_bytes(alloc, page)?;
    let (root, mut notes) = read_page(alloc, text.as_str(), limit)?;
    notes.encoding = encoding;
    Ok((root, notes))
}

/// Returns the fault of a refusal.
fn fault_at(text: &str, refused: (PageRefusal, usize)) -> PageFault
    ensures { result ≡ fault_at (chars text.now) refused }
{
    let (refusal, place) = refused;
    let place = place_at(text, place);
    PageFault::Refused { refusal, place }
}

/// Returns an error with its place in the text.
fn note_at(text: &str, note: &(PageError, usize)) -> PageNote
    ensures { result ≡ placed (chars text.now) note.now }
{
    let place = place_at(text, note.1);
    PageNote {
        error: note.0,
        place,
    }
}

/// Returns the errors with their places in the text.
fn notes_at(alloc: Global, text: &str, notes: Notes) -> Result<PageNotes, AllocError>
    ensures placed { IfOk result (ArePlaced (chars text.now) (notes_of notes)) }
    ensures encoding { IfOk result (λ reported. reported.encoding ≡ Utf8) }
{
    let count = notes.count;
    let mut first = Vec::new(alloc);
    for note in &notes.first {
        first.push(note_at(text, note))?;
    }
    Ok(PageNotes {
        count,
        first,
        encoding: Encoding::Utf8,
    })
}

pub(crate) fn run(reader: &mut Reader, text: &str) -> Result<(), AllocError>
    requires { reader.old.reading.place + length text.now < 2 ^ 64 }
    ensures { OnOk result (reader_of reader.new
        ≡ pages.run (reader_of reader.old) (chars text.now)) }
{
    let mut rest = text;
    loop {
        let past = reader.read_front(rest)?;
        let mut left = past.chars();
        let Some(c) = left.next() else {
            return Ok(());
        };
        reader.step(c)?;
        rest = left.as_str();
    }
}

/// Returns a reader that has read a text, which starts at that offset in bytes.
fn read_from(alloc: Global, text: &str, limit: usize, place: usize) -> Result<Reader, AllocError>
    requires { place + length text.now < 2 ^ 64 }
    ensures { IfOk result (λ reader. reader_of reader
        ≡ pages.run (pages.first_reader limit place) (chars text.now)) }
{
    let mut reader = Reader::new(alloc, limit, place);
    run(&mut reader, text)?;
    Ok(reader)
}

/// Returns a reader that has read a text, and dropped its byte order mark.
fn reader_behind(alloc: Global, text: &str, limit: usize) -> Result<Reader, AllocError>
    ensures { IfOk result (λ reader. reader_of reader ≡ pages.begun limit (chars text.now)) }
{
    let Some((first, rest)) = split_first(text) else {
        return Ok(Reader::new(alloc, limit, 0));
    };
    if first == BYTE_ORDER_MARK {
        read_from(alloc, rest, limit, BYTE_ORDER_MARK.len_utf8())
    } else {
        read_from(alloc, text, limit, 0)
    }
}

/// Returns what a page that was read to its end is read as.
pub(crate) fn answer(
    alloc: Global,
    text: &str,
    page: Page,
) -> Result<(HtmlElement, PageNotes), PageFault>
    ensures { Gives result (chars text.now) (pages.page_result (page_of page)) }
{
    if let Some(refused) = page.refusal {
        return Err(fault_at(text, refused));
    }
    let start = page.start;
    let (root, notes) = page.finish()?;
    match root {
        Some(root) => Ok((root, notes_at(alloc, text, notes)?)),
        None => Err(fault_at(text, (PageRefusal::TooDeep, start))),
    }
}
