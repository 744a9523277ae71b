//! Writing that records the outcome of the last call.

ghost use Rattle.std.specs.{Io.KnownBytes.{Appends, Keeps}, Prelude.{◌≡◌, ◌<◌, ◌≤◌, length, take, IfOk, OnErr}};
ghost use Rattle.typst_html_run.specs.Writing.{WritesAll};

use crate::recorded::{LastCall, WriteFailed};
use std::io::Write;

pub(crate) fn write_some<W: Write>(
    writer: &mut W,
    last: &mut LastCall,
    bytes: &[u8],
) -> Result<usize, WriteFailed>
    requires { 0 < length bytes.now }
    ensures count { IfOk result (λ n. (0 < n) × (n ≤ length bytes.now)) }
    ensures taken { IfOk result (λ n. (last.new ≡ LastCall.Wrote) × Appends
        (W.contents writer.old) (W.contents writer.new) (take n bytes.now)) }
    ensures failed { OnErr result ((last.new ≡ LastCall.Failed)
        × Keeps (W.contents writer.old) (W.contents writer.new)) }
{
    match writer.write(bytes) {
        Ok(n) if n > 0 => {
            *last = LastCall::Wrote;
            Ok(n)
        }
        _ => {
            *last = LastCall::Failed;
            Err(WriteFailed)
        }
    }
}

pub(crate) fn flush<W: Write>(writer: &mut W, last: &mut LastCall) -> Result<(), WriteFailed>
    ensures flushed { IfOk result (λ _. last.new ≡ LastCall.Flushed) }
    ensures failed { OnErr result (last.new ≡ LastCall.Failed) }
    ensures kept { Keeps (W.contents writer.old) (W.contents writer.new) }
{
    match writer.flush() {
        Ok(()) => {
            *last = LastCall::Flushed;
            Ok(())
        }
        Err(_) => {
            *last = LastCall::Failed;
            Err(WriteFailed)
        }
    }
}

/// Writes all of the bytes and then flushes the writer. Does not retry a call that failed.
pub(crate) fn write_whole<W: Write>(
    writer: &mut W,
    last: &mut LastCall,
    bytes: &[u8],
) -> Result<(), WriteFailed>
    ensures { WritesAll result bytes.now (W.contents writer.old) (W.contents writer.new) last.new }
{
    let mut at = 0;
    while at < bytes.len() {
        at += write_some(writer, last, &bytes[at..])?;
    }
    flush(writer, last)
}
