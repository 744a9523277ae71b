//! Replies, and texts in the caller's buffer.

ghost use Rattle.std.specs.Prelude.{◌≡◌, List, IfOk, Ok};
ghost use Rattle.html_anchors.specs.{DeadLinks.{dead_links_view}, Links.{DeadLinkView}};
ghost use Rattle.typst_html_run.specs.{Answers.{Answer}, DocumentAnswers.{text_given}, Replies.{GivesAnswer}};
ghost use Rattle.typst_html_ffi.specs.CallReplies.{Replies, bad_reply, fault_reply, text_reply, buffer_with, without_text, RepliesWith, with_dead_links};
ghost use Rattle.typst_html_ffi.specs.{LongTexts.{pieces_bytes}, PageReports.{Report, Reports, placed}};

use crate::pieces::{copy_pieces, length_of};
use html_anchors::DeadLink;
use html_dom_tree::Span;
use html_text::Place;
use typst_html_run::{DocumentText, Fault, InputPlace};

/// The outcome of a call.
#[repr(C)]
#[derive(Clone, Copy, Debug, PartialEq, Eq)]
pub struct Reply {
    /// The length of the text in bytes, also if it does not fit; 0 if there is none.
    pub length: usize,
    /// The span of what is refused, or of the first link that leads nowhere. For a bad input, where
    /// it leaves the form, as in [`InputPlace::Form`]. For a page that is not read, how many bytes
    /// stand before the place of the fault, of its text or, if it has none, of the page. Otherwise,
    /// or if there is no span, 0.
    pub span: u64,
    /// The line at which an input is not JSON, or of the place of the fault in a page, counted from
    /// 1; otherwise 0.
    pub line: usize,
    /// The column there: of an input as in [`InputPlace::Text`], of a page in characters, counted
    /// from 1; otherwise 0.
    pub column: usize,
    /// 0: the text is in the buffer; 1: refused; 2: bad input; 3: an allocation failed; 4: the
    /// buffer is too short for the text; 5: the text is in the buffer, and links in it lead
    /// nowhere.
    pub status: u8,
    /// The number of the refusal; 0 if nothing is refused.
    pub number: u8,
}

const DONE: u8 = 0;

pub(crate) const REFUSED: u8 = 1;

pub(crate) const BAD_INPUT: u8 = 2;

pub(crate) const OUT_OF_MEMORY: u8 = 3;

const TOO_SHORT: u8 = 4;

const DEAD_LINKS: u8 = 5;

pub(crate) fn without_text(status: u8, number: u8, span: u64) -> Reply
    ensures { result ≡ without_text status number span }
{
    Reply {
        length: 0,
        span,
        line: 0,
        column: 0,
        status,
        number,
    }
}

/// Creates the reply of a call that has no text because of a fault at that place of a page.
pub(crate) fn placed(status: u8, number: u8, place: Place) -> Reply
    ensures { result ≡ placed status number place }
{
    Reply {
        length: 0,
        span: place.offset as u64,
        line: place.line,
        column: place.column,
        status,
        number,
    }
}

/// Copies the text into the buffer if it fits, and returns the reply.
pub(crate) fn put(text: &[u8], output: &mut [u8]) -> Reply
    ensures reply { result ≡ text_reply text.now output.old }
    ensures output { output.new ≡ buffer_with text.now output.old }
{
    let length = text.len();
    let fits = length <= output.len();
    if fits {
        output[..length].copy_from_slice(text);
    }
    Reply {
        length,
        span: 0,
        line: 0,
        column: 0,
        status: if fits { DONE } else { TOO_SHORT },
        number: 0,
    }
}

/// Copies the pieces of a text into the buffer if they fit, and returns the reply.
pub(crate) fn put_pieces(pieces: &[String], output: &mut [u8]) -> Reply
    ensures answered { (report : Report) → report ≡ Ok (pieces_bytes pieces.now) →
        Reports report output.old result output.new }
    ensures kept { ¬ (result.status ≡ 0) → output.new ≡ output.old }
{
    match length_of(pieces) {
        Some(length) if length <= output.len() => {
            copy_pieces(pieces, output);
            Reply {
                length,
                ..without_text(DONE, 0, 0)
            }
        }
        Some(length) => Reply {
            length,
            ..without_text(TOO_SHORT, 0, 0)
        },
        None => without_text(OUT_OF_MEMORY, 0, 0),
    }
}

fn bad_reply(place: InputPlace) -> Reply
    ensures { result ≡ bad_reply place }
{
    match place {
        InputPlace::Unknown => without_text(BAD_INPUT, 0, 0),
        InputPlace::Text(line, column) => Reply {
            line,
            column,
            ..without_text(BAD_INPUT, 0, 0)
        },
        InputPlace::Form(number) => without_text(BAD_INPUT, 0, number),
    }
}

fn fault_reply(fault: Fault) -> Reply
    ensures { result ≡ fault_reply fault }
{
    match fault {
        Fault::OutOfMemory => without_text(OUT_OF_MEMORY, 0, 0),
        Fault::BadInput(place) => bad_reply(place),
        Fault::Refused(number, Span(span)) => without_text(REFUSED, number, span),
    }
}

/// Returns the reply for a fault, or for a text, which it copies into the buffer if it fits.
pub(crate) fn reply_with(text: Result<String, Fault>, output: &mut [u8]) -> Reply
    ensures answered { (answer : Answer) → GivesAnswer text answer →
        Replies answer output.old result output.new }
    ensures kept { ¬ (result.status ≡ 0) → output.new ≡ output.old }
{
    match text {
        Ok(text) => put(text.as_bytes(), output),
        Err(fault) => fault_reply(fault),
    }
}

/// Returns the reply for a fault, or for the text of a document, which it copies into the buffer if
/// it fits. The reply reports whether links of the document lead nowhere.
pub(crate) fn reply_with_document(made: Result<DocumentText, Fault>, output: &mut [u8]) -> Reply
    ensures answered { (answer : Answer) (links : List DeadLinkView) →
        GivesAnswer (text_given made) answer →
        IfOk made (λ made. dead_links_view made.dead_links.items ≡ links) →
        RepliesWith links answer output.old result output.new }
    ensures kept { ¬ (result.status ≡ 0) → ¬ (result.status ≡ 5) → output.new ≡ output.old }
{
    match made {
        Ok(document) => {
            let reply = put(document.text.as_bytes(), output);
            with_dead_links(&document.dead_links, reply)
        }
        Err(fault) => fault_reply(fault),
    }
}

/// Returns the reply with the status for dead links and the span of the first of these links, if
/// there is one and the text is in the buffer.
fn with_dead_links(links: &[DeadLink], reply: Reply) -> Reply
    ensures { result ≡ with_dead_links (dead_links_view links.now) reply }
{
    match links.first() {
        Some(link) if reply.status == DONE => Reply {
            status: DEAD_LINKS,
            span: link.span.0,
            ..reply
        },
        _ => reply,
    }
}
