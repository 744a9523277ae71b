//! The program ends with status 3 and writes nothing if memory runs out.

use crate::runs::words;
use std::alloc::{AllocError, Global};
use tests_asserts::TestResult;
use tests_failing_alloc::refuses_lent;
use typst_html_run::{Status, run};

/// The greatest number of bytes that are written.
const ROOM: usize = 4096;

const TREE: &str =
    r#"["el","div",[["id","x"]],[["text","one & two"],["el","p",[],[["text","three"]]]]]"#;

const ITEMS: &str = concat!(
    r##"[["el","p",[],[["text","Two  eggs"],["el","a",[["href","#loc-1"]],[["text","below"]]],"##,
    r##"["start",1,2],["end",1]]],["start",2],["el","p",[],[["text","three"]]],["end",2]]"##,
);

/// Returns whether a run with those arguments on that input writes, if there is memory.
fn is_written(
    alloc: Global,
    words: &[String],
    input: &str,
    out: &mut Vec<u8>,
) -> Result<bool, AllocError> {
    let mut reader = input.as_bytes();
    match run(alloc, &mut reader, out, words) {
        Status::Done => Ok(!out.is_empty()),
        Status::Failed => Err(AllocError),
        _ => Ok(false),
    }
}

/// The runs that are refused: the arguments and the input.
static RUNS: [(&[&str], &str); 4] = [
    (&["tree"], TREE),
    (&["tree", "--pretty"], TREE),
    (&["doc"], ITEMS),
    (&["doc", "--pretty"], ITEMS),
];

#[test]
fn runs_without_memory(rt: HostRuntime) -> TestResult {
    let alloc = rt.alloc();
    for (list, input) in RUNS {
        let words = words(&rt, alloc, list);
        let out = Vec::with_capacity(alloc, ROOM).expect(&rt, "memory for what is written");
        refuses_lent(alloc, out, |out: &mut Vec<u8>| {
            is_written(alloc, &words, input, out)
        })?;
    }
    Ok(())
}
