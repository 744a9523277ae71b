//! Runs on given inputs.

use std::alloc::Global;
use std::io::Read;
use std::process::Abort;
use typst_html_run::{Status, run};

// A test that calls a few small functions is proved in a second or two; the time grows with the
// square of what one function does itself.

pub(crate) fn words(rt: &impl Abort, alloc: Global, list: &[&str]) -> Vec<String> {
    let mut words = Vec::new(alloc);
    for word in list {
        let word = String::from_str(alloc, word).expect(rt, "memory for a word");
        words.push(word).expect(rt, "memory for the words");
    }
    words
}

pub(crate) fn answer<R: Read>(
    rt: &impl Abort,
    alloc: Global,
    list: &[&str],
    reader: &mut R,
) -> (Status, Vec<u8>) {
    let mut out = Vec::new(alloc);
    let words = words(rt, alloc, list);
    let status = run(alloc, reader, &mut out, &words);
    (status, out)
}

/// Asserts the status of a run of `tree` on the reader, and its output.
pub(crate) fn assert_run<R: Read>(
    rt: &impl Abort,
    alloc: Global,
    reader: &mut R,
    wanted: Status,
    text: &str,
) {
    let (status, out) = answer(rt, alloc, &["tree"], reader);
    assert!(rt; status == wanted);
    assert!(rt; out.as_slice() == text.as_bytes());
}
