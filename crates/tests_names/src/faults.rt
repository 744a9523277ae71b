//! Numbers and texts of the faults of names.

use html_names::{NameFault, Refused};
use tests_asserts::{TestResult, assert_text};

#[rattlefmt::skip]
const FAULTS: [(NameFault, u8, &str); 8] = [
    (NameFault::OutOfMemory, 0, "out of memory"),
    (NameFault::EmptyTag, 1, "tag name must not be empty"),
    (NameFault::BadTagChar('_'), 2, "a character is not valid in a tag name"),
    (NameFault::CustomStart, 3, "custom element name must start with a lowercase letter"),
    (NameFault::CustomCapital, 4, "custom element name must not contain uppercase letters"),
    (NameFault::Reserved, 5, "name is reserved and not valid for a custom element"),
    (NameFault::EmptyAttr, 6, "attribute name must not be empty"),
    (NameFault::BadAttrChar(' '), 7, "a character is not valid in an attribute name"),
];

#[test]
fn numbers_and_texts_of_faults(rt: HostRuntime) -> TestResult {
    for (fault, number, text) in FAULTS {
        assert!(rt; fault.number() == number);
        assert_text(&fault.to_string(rt.alloc())?, text)?;
    }
    let refused = Refused { back: 7u8 };
    assert!(rt; refused.number() == 0);
    assert_text(&refused.to_string(rt.alloc())?, "out of memory")
}
