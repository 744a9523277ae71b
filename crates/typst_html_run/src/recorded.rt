//! A writer that remembers how its last call ended.

ghost use Rattle.std.specs.{Io.KnownBytes.{Appends, Keeps}, Prelude.{◌≡◌, ◌<◌, ◌≤◌, length, take, IfOk, OnErr}};
ghost use Rattle.typst_html_run.specs.Writing.{WritesAll};

use crate::whole::{flush, write_some, write_whole};
use std::io::Write;
use thiserror::Error;

/// The outcome of the last call on a writer.
#[derive(Clone, Copy, Debug, PartialEq, Eq)]
pub enum LastCall {
    /// No call was made yet.
    NoCall,
    /// A write took at least one byte.
    Wrote,
    /// A flush succeeded.
    Flushed,
    /// A write or a flush failed. A write that takes no byte counts as failed.
    Failed,
}

/// The error of a write or a flush that failed.
#[derive(Clone, Copy, Debug, PartialEq, Eq, Error)]
#[error("a write failed")]
pub struct WriteFailed;

/// A writer, and the outcome of the last call on it.
///
/// Contracts need this record to say whether a write failed, which the contract of a writer does
/// not.
#[derive(Drop)]
pub struct Recorded<W> {
    pub(crate) writer: W,
    pub(crate) last: LastCall,
}

impl<W: Write> Recorded<W> {
    /// Creates the record of a writer before any call on it.
    pub fn new(writer: W) -> Recorded<W>
        ensures writer { result.writer ≡ writer }
        ensures last { result.last ≡ LastCall.NoCall }
    {
        Recorded {
            writer,
            last: LastCall::NoCall,
        }
    }

    /// Returns the outcome of the last call.
    pub fn last(&self) -> LastCall
        ensures { result ≡ self.now.last }
    {
        self.last
    }

    /// Consumes the record and returns the writer, with all that was written to it.
    pub fn into_writer(self) -> W
        ensures { result ≡ self.writer }
    {
        self.writer
    }

    /// Writes some of the bytes, at least one, and returns their number.
    pub fn write(&mut self, bytes: &[u8]) -> Result<usize, WriteFailed>
        requires { 0 < length bytes.now }
        ensures count { IfOk result (λ n. (0 < n) × (n ≤ length bytes.now)) }
        ensures taken { IfOk result (λ n. (self.new.last ≡ LastCall.Wrote) × Appends
            (W.contents self.old.writer) (W.contents self.new.writer) (take n bytes.now)) }
        ensures failed { OnErr result ((self.new.last ≡ LastCall.Failed)
            × Keeps (W.contents self.old.writer) (W.contents self.new.writer)) }
    {
        write_some(&mut self.writer, &mut self.last, bytes)
    }

    /// Flushes the writer.
    pub fn flush(&mut self) -> Result<(), WriteFailed>
        ensures flushed { IfOk result (λ _. self.new.last ≡ LastCall.Flushed) }
        ensures failed { OnErr result (self.new.last ≡ LastCall.Failed) }
        ensures kept { Keeps (W.contents self.old.writer) (W.contents self.new.writer) }
    {
        flush(&mut self.writer, &mut self.last)
    }

    /// Writes all of the bytes and then flushes the writer. Does not retry a call that failed.
    pub fn write_all(&mut self, bytes: &[u8]) -> Result<(), WriteFailed>
        ensures { WritesAll result bytes.now
            (W.contents self.old.writer) (W.contents self.new.writer) self.new.last }
    {
        write_whole(&mut self.writer, &mut self.last, bytes)
    }
}
