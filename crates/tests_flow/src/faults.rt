//! Numbers and texts of the faults of construction.

use html_dom_tree::Span;
use html_flow::ConstructFault;
use html_values::CastFault;
use tests_asserts::{TestResult, assert_text};

#[test]
fn numbers_and_texts_of_faults(rt: HostRuntime) -> TestResult {
    let (alloc, span, casts) = (rt.alloc(), Span(7), "arguments could not be cast");
    let range = vec![in alloc; (CastFault::NumberRange, span)]?;
    for (fault, number, text) in [
        (ConstructFault::Casts(range), 18, casts),
        (ConstructFault::Casts(Vec::new(alloc)), 0, casts),
        (
            ConstructFault::BodyKind { span },
            24,
            "the body has the wrong kind",
        ),
        (ConstructFault::OutOfMemory, 0, "out of memory"),
    ] {
        assert!(rt; fault.number() == number);
        assert_text(&fault.to_string(alloc)?, text)?;
    }
    Ok(())
}
