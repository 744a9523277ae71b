//! Runs on writers that fail, take a few bytes at a time, or fail when they are flushed.

use super::{CASES, Case};
use crate::runs::words;
use std::alloc::Global;
use std::io;
use std::io::{Error, ErrorKind, Write};
use std::process::Abort;
use typst_html_run::{Recorded, Status, run, run_recorded};

/// A writer of at most `most` bytes at a time. Only the write numbered `fails_at` fails, and each
/// flush if `flush_fails`.
#[derive(Drop)]
struct Slow {
    taken: Vec<u8>,
    most: usize,
    writes: usize,
    fails_at: usize,
    flush_fails: bool,
    flushes: usize,
    /// Whether the last call was a flush.
    is_flushed: bool,
}

impl Slow {
    fn new(alloc: Global, most: usize) -> Slow {
        Slow {
            taken: Vec::new(alloc),
            most,
            writes: 0,
            fails_at: usize::MAX,
            flush_fails: false,
            flushes: 0,
            is_flushed: false,
        }
    }
}

impl Write for Slow {
    fn write(&mut self, buf: &[u8]) -> io::Result<usize> {
        let number = self.writes;
        self.writes = number.saturating_add(1);
        self.is_flushed = false;
        if number == self.fails_at {
            return Err(Error::from(ErrorKind::Interrupted));
        }
        let n = buf.len().min(self.most);
        self.taken.extend_from_slice(&buf[..n])?;
        Ok(n)
    }

    fn flush(&mut self) -> io::Result<()> {
        self.flushes = self.flushes.saturating_add(1);
        self.is_flushed = true;
        if self.flush_fails {
            return Err(Error::from(ErrorKind::Other));
        }
        Ok(())
    }
}

/// Returns the status of the run. Asserts that the writer got that much of the output.
fn status_of(
    rt: &impl Abort,
    alloc: Global,
    case: &Case,
    writer: &mut Slow,
    length: usize,
) -> Status {
    let words = words(rt, alloc, case.words);
    let mut bytes = case.input.as_bytes();
    let status = run(alloc, &mut bytes, &mut *writer, &words);
    assert_taken(rt, case, writer, length);
    status
}

fn assert_taken(rt: &impl Abort, case: &Case, writer: &Slow, length: usize) {
    let taken = case.text.as_bytes().get(..length);
    assert!(rt; taken == Some(writer.taken.as_slice()), "{}", case.input);
}

/// Asserts that a run that records how its last call ended returns the same as one that does not.
fn assert_recorded(rt: &impl Abort, alloc: Global, case: &Case) {
    let words = words(rt, alloc, case.words);
    for fails_at in 0..=case.text.len() {
        let mut writer = Slow::new(alloc, 1);
        writer.fails_at = fails_at;
        let mut bytes = case.input.as_bytes();
        let status = run_recorded(alloc, &mut bytes, &mut Recorded::new(&mut writer), &words);
        assert_taken(rt, case, &writer, fails_at);
        assert!(rt; (status == case.status) == (fails_at == case.text.len()));
    }
}

/// Asserts that a failing write ends the run: the beginning is written, nothing is tried again,
/// nothing is flushed.
fn assert_failed(rt: &impl Abort, alloc: Global, case: &Case, fails_at: usize) {
    let mut writer = Slow::new(alloc, 1);
    writer.fails_at = fails_at;
    let status = status_of(rt, alloc, case, &mut writer, fails_at);
    assert!(rt; status == Status::Failed, "{}", case.input);
    assert!(rt; writer.flushes == 0, "{}", case.input);
}

/// Asserts that a write of no bytes ends the run.
fn assert_none_taken(rt: &impl Abort, alloc: Global, case: &Case) {
    let mut writer = Slow::new(alloc, 0);
    let status = status_of(rt, alloc, case, &mut writer, 0);
    assert!(rt; status == Status::Failed, "{}", case.input);
    assert!(rt; writer.writes == 1, "{}", case.input);
}

/// Asserts that everything is written, that many bytes at a time, and that the only flush comes
/// after the last write.
fn assert_whole(rt: &impl Abort, alloc: Global, case: &Case, most: usize) {
    let mut writer = Slow::new(alloc, most);
    let status = status_of(rt, alloc, case, &mut writer, case.text.len());
    assert!(rt; status == case.status, "{}", case.input);
    assert!(rt; writer.is_flushed, "{}", case.input);
    assert!(rt; writer.flushes == 1, "{}", case.input);
}

/// Asserts that a failing flush is a failed write, and is not tried again.
fn assert_not_flushed(rt: &impl Abort, alloc: Global, case: &Case) {
    let mut writer = Slow::new(alloc, 7);
    writer.flush_fails = true;
    let status = status_of(rt, alloc, case, &mut writer, case.text.len());
    assert!(rt; status == Status::Failed, "{}", case.input);
    assert!(rt; writer.flushes == 1, "{}", case.input);
}

#[test]
fn slow_and_failing_writers(rt: HostRuntime) {
    for case in &CASES {
        assert_recorded(&rt, rt.alloc(), case);
        assert_none_taken(&rt, rt.alloc(), case);
        assert_not_flushed(&rt, rt.alloc(), case);
        for fails_at in 0..case.text.len() {
            assert_failed(&rt, rt.alloc(), case, fails_at);
        }
        for most in 1usize..=case.text.len() {
            assert_whole(&rt, rt.alloc(), case, most);
        }
    }
}
