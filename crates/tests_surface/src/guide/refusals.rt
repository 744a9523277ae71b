//! The guide's example of refusals.

use std::alloc::Global;
use typst_html::{DocumentInfo, ExportFault, HtmlElem, HtmlOptions, Pair, Span, export, tag};

/// A page of one paragraph for each line, or what is wrong and where.
fn page(alloc: Global, lines: &str) -> Result<String, ExportFault> {
    let mut items = Vec::new(alloc);
    for (line, text) in (1u64..).zip(lines.lines()) {
        let paragraph = HtmlElem::new(alloc, tag::p).spanned(Span(line));
        items.push(Pair::from(paragraph.with_text(alloc, text)?))?;
    }
    export(
        alloc,
        &items,
        &DocumentInfo::new(alloc),
        &[],
        50,
        &HtmlOptions::default(),
        &(),
    )
}

/// Returns the message for a user. The span is 0 if there is no place, as for out of memory.
fn message(alloc: Global, fault: &ExportFault) -> Result<String, ExportFault> {
    let Span(line) = fault.span();
    Ok(format!(in alloc; "line {line}: {fault} ({})", fault.number())?)
}

#[test]
fn a_refusal_with_its_line(rt: HostRuntime) {
    let fault = page(rt.alloc(), "salt\nvin\u{1}egar").expect_err(&rt, "a fault");
    let text = message(rt.alloc(), &fault).expect(&rt, "a text");
    assert_eq!(rt;
        text.as_str(),
        "line 2: a character cannot be encoded in HTML (11)"
    );
}
