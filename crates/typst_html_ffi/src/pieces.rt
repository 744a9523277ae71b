//! Long texts in pieces.

ghost use Rattle.std.specs.Prelude.{◌≡◌, ◌+◌, ◌≤◌, ◌++◌, drop, length, take, string_bytes, IfOk, IfSome, OnOk};
ghost use Rattle.typst_html_ffi.specs.LongTexts.{pieces_bytes, text_bytes};

use std::alloc::{AllocError, Global};
use std::mem;

/// The length in bytes from which on a piece is whole.
const LONG: usize = 4096;

/// A long text that is being written. Its pieces have no room to spare, and find room where memory
/// was freed, which a single string would outgrow again and again.
#[derive(Drop)]
pub(crate) struct LongText {
    /// The pieces that are whole.
    pub(crate) whole: Vec<String>,
    /// The piece that is being written.
    pub(crate) last: String,
}

impl LongText {
    pub(crate) fn new(alloc: Global, last: String) -> LongText
        ensures { text_bytes result ≡ string_bytes last }
    {
        LongText {
            whole: Vec::new(alloc),
            last,
        }
    }

    /// Begins a new piece if the last one is long. Call it between what is appended to `last`.
    pub(crate) fn break_off(&mut self, alloc: Global) -> Result<(), AllocError>
        ensures { OnOk result (text_bytes self.new ≡ text_bytes self.old) }
    {
        if self.last.len() >= LONG {
            let mut piece = mem::replace(&mut self.last, String::new(alloc));
            piece.shrink_to_fit();
            self.whole.push(piece)?;
        }
        Ok(())
    }

    /// Returns all pieces of the text.
    pub(crate) fn into_pieces(self) -> Result<Vec<String>, AllocError>
        ensures { IfOk result (λ pieces. pieces_bytes pieces.items ≡ text_bytes self) }
    {
        let LongText { mut whole, last } = self;
        whole.push(last)?;
        Ok(whole)
    }
}

/// Returns a text as its only piece.
pub(crate) fn lone_piece(alloc: Global, text: String) -> Result<Vec<String>, AllocError>
    ensures { IfOk result (λ pieces. pieces_bytes pieces.items ≡ string_bytes text) }
{
    LongText::new(alloc, text).into_pieces()
}

/// Returns the length of a text in bytes, if it is one that a machine can have.
pub(crate) fn length_of(pieces: &[String]) -> Option<usize>
    ensures { IfSome result (λ n. n ≡ length (pieces_bytes pieces.now)) }
{
    let mut length: usize = 0;
    for piece in pieces {
        length = length.checked_add(piece.as_bytes().len())?;
    }
    Some(length)
}

/// Copies the pieces of a text to the beginning of the buffer.
pub(crate) fn copy_pieces(pieces: &[String], output: &mut [u8])
    requires { length (pieces_bytes pieces.now) ≤ length output.old }
    ensures { let bytes = pieces_bytes pieces.now in
        output.new ≡ bytes ++ drop (length bytes) output.old }
{
    let mut end = 0;
    for piece in pieces {
        copy_to(piece.as_bytes(), end, output);
        end += piece.len();
    }
}

fn copy_to(bytes: &[u8], at: usize, output: &mut [u8])
    requires { at + length bytes.now ≤ length output.old }
    ensures { output.new
        ≡ take at output.old ++ (bytes.now ++ drop (at + length bytes.now) output.old) }
{
    output[at..at + bytes.len()].copy_from_slice(bytes);
}
