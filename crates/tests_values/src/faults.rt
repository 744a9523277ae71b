//! Numbers and texts of the faults of casts.

use html_values::CastFault;
use tests_asserts::{TestResult, assert_text};

#[rattlefmt::skip]
const FAULTS: [(CastFault, u8, &str); 9] = [
    (CastFault::OutOfMemory, 0, "out of memory"),
    (CastFault::WrongKind, 16, "the value has the wrong kind"),
    (CastFault::NotInStrings, 17, "the text is not one of the allowed ones"),
    (CastFault::NumberRange, 18, "the number is out of range"),
    (CastFault::NotOneChar, 19, "expected exactly one character"),
    (CastFault::VerticalDir, 20, "direction must be horizontal"),
    (CastFault::BadImageSource, 21, "src must not be empty or start or end with a comma"),
    (CastFault::SeparatorInItem, 22, "array item may not contain the separator"),
    (CastFault::YearRange, 23, "the year is out of range"),
];

#[test]
fn numbers_and_texts_of_faults(rt: HostRuntime) -> TestResult {
    for (fault, number, text) in FAULTS {
        assert!(rt; fault.number() == number);
        assert_text(&fault.to_string(rt.alloc())?, text)?;
    }
    Ok(())
}
