//! Runs on readers that fail, give one byte at a time, or never end.

use super::{CASES, Case, INPUT, OUTPUT};
use crate::runs::{answer, assert_run};
use std::alloc::{AllocError, Global};
use std::io;
use std::io::{Error, ErrorKind, Read};
use std::process::Abort;
use typst_html_run::Status;

/// A reader of one byte at a time. Only the read numbered `fails_at` fails.
#[derive(Drop)]
struct Drip<'a> {
    rest: &'a [u8],
    reads: usize,
    fails_at: usize,
    kind: ErrorKind,
}

impl<'a> Drip<'a> {
    fn new(bytes: &'a [u8], fails_at: usize, kind: ErrorKind) -> Drip<'a> {
        Drip {
            rest: bytes,
            reads: 0,
            fails_at,
            kind,
        }
    }
}

impl Read for Drip<'_> {
    fn read(&mut self, buf: &mut [u8]) -> io::Result<usize> {
        let number = self.reads;
        self.reads = number.saturating_add(1);
        if number == self.fails_at {
            return Err(Error::from(self.kind));
        }
        match (self.rest, buf) {
            ([first, others @ ..], [byte, ..]) => {
                *byte = *first;
                self.rest = others;
                Ok(1)
            }
            _ => Ok(0),
        }
    }
}

/// A reader that never ends.
#[derive(Drop)]
struct Endless;

impl Read for Endless {
    fn read(&mut self, buf: &mut [u8]) -> io::Result<usize> {
        if buf.is_empty() { Ok(0) } else { Ok(1) }
    }
}

/// A reader of as much as is requested, which records the lengths of requests.
#[derive(Drop)]
struct Asked<'a> {
    rest: &'a [u8],
    lengths: Vec<usize>,
}

impl Read for Asked<'_> {
    fn read(&mut self, buf: &mut [u8]) -> io::Result<usize> {
        self.lengths.push(buf.len())?;
        self.rest.read(buf)
    }
}

/// Returns the input whose only text is that many letters.
fn long_input(alloc: Global, letters: usize) -> Result<String, AllocError> {
    format!(in alloc;
        r#"["el","p",[],[["text","{}"]]]"#,
        "x".repeat(alloc, letters)?
    )
}

/// Asserts that a failing read ends the run: nothing is written, and nothing is read after that.
fn assert_failed(rt: &impl Abort, alloc: Global, case: &Case, fails_at: usize, kind: ErrorKind) {
    let Case { words, input, .. } = case;
    let mut reader = Drip::new(input.as_bytes(), fails_at, kind);
    let (status, out) = answer(rt, alloc, words, &mut reader);
    assert!(rt; status == Status::Failed, "{input}");
    assert!(rt; out.is_empty(), "{input}");
    assert!(rt; reader.reads == fails_at.saturating_add(1), "{input}");
}

/// A failing read ends the run whatever the input spells, and even if it spells nothing.
#[test]
fn each_read_fails(rt: HostRuntime) {
    for case in &CASES {
        for fails_at in 0..=case.input.len() {
            assert_failed(&rt, rt.alloc(), case, fails_at, ErrorKind::Other);
        }
    }
}

/// An interrupted read is not tried again.
#[test]
fn interrupted_read(rt: HostRuntime) {
    assert_failed(&rt, rt.alloc(), &CASES[0], 5, ErrorKind::Interrupted);
}

#[test]
fn one_byte_a_read(rt: HostRuntime) {
    let mut reader = Drip::new(INPUT.as_bytes(), usize::MAX, ErrorKind::Other);
    assert_run(&rt, rt.alloc(), &mut reader, Status::Done, OUTPUT);
}

/// Asserts that a run on the reader of 9,000 letters writes them all.
fn assert_long<R: Read>(rt: &impl Abort, alloc: Global, reader: &mut R) {
    let (status, out) = answer(rt, alloc, &["tree"], reader);
    assert!(rt; status == Status::Done);
    assert!(rt; out.len() == 9022);
}

#[test]
fn thousands_of_reads(rt: HostRuntime) {
    let input = long_input(rt.alloc(), 9000).expect(&rt, "memory for the input");
    let mut reader = Drip::new(input.as_bytes(), usize::MAX, ErrorKind::Other);
    assert_long(&rt, rt.alloc(), &mut reader);
    assert!(rt; reader.reads == input.len().saturating_add(1));
}

/// The read that reaches the end may be the 1,048,576th, and no later one.
#[test]
fn as_many_reads_as_there_may_be(rt: HostRuntime) {
    let input = long_input(rt.alloc(), 1_048_548).expect(&rt, "memory for the input");
    let mut reader = Drip::new(input.as_bytes(), usize::MAX, ErrorKind::Other);
    let (status, out) = answer(&rt, rt.alloc(), &["tree"], &mut reader);
    assert!(rt; status == Status::Done);
    assert!(rt; out.len() == 1_048_570);
    assert!(rt; reader.reads == 1_048_576);
    let input = long_input(rt.alloc(), 1_048_549).expect(&rt, "memory for the input");
    let mut reader = Drip::new(input.as_bytes(), usize::MAX, ErrorKind::Other);
    assert_run(&rt, rt.alloc(), &mut reader, Status::Failed, "");
}

/// Each read requests 4,096 bytes.
#[test]
fn lengths_of_reads(rt: HostRuntime) {
    let input = long_input(rt.alloc(), 9000).expect(&rt, "memory for the input");
    let mut reader = Asked {
        rest: input.as_bytes(),
        lengths: Vec::new(rt.alloc()),
    };
    assert_long(&rt, rt.alloc(), &mut reader);
    assert!(rt; reader.lengths.as_slice() == [4096usize, 4096, 4096, 4096].as_slice());
}

#[test]
fn endless_input(rt: HostRuntime) {
    assert_run(&rt, rt.alloc(), &mut Endless, Status::Failed, "");
}
