//! The calls, when growths of memory are refused.

use crate::calls::{CALLS, is_written};
use crate::given::ROOM;
use html_flow_convert::{HtmlElem, Pair};
use html_flow_places::NamedPlaces;
use html_names_core::{Refused, tag};
use tests_asserts::TestResult;
use tests_failing_alloc::{refuses_given, refuses_lent};
use tests_items::elem_of;

/// A call that is refused leaves the buffer unchanged.
#[test]
fn calls_for_c(rt: HostRuntime) -> TestResult {
    let alloc = rt.alloc();
    for name in CALLS.split_whitespace() {
        let buffer = vec![in alloc; b'.'; ROOM]?;
        refuses_lent(
            alloc,
            buffer,
            |buffer: &mut Vec<u8>| is_written(alloc, name, buffer),
        )?;
    }
    Ok(())
}

/// Whether a link is to be appended or a place, and the arguments of that call.
type Pushed = (bool, NamedPlaces, Vec<Pair>, HtmlElem);

/// Makes the call, and returns whether it appended the element between tags.
fn pushed((is_link, mut places, mut items, element): Pushed) -> Result<bool, Refused<Pushed>> {
    let added = if is_link {
        places.push_link(&mut items, "a name", element)
    } else {
        places.push_place(&mut items, "a name", element)
    };
    match added {
        Ok(()) => Ok(items.len() == 3),
        Err(Refused { back }) => Err(Refused {
            back: (is_link, places, items, back),
        }),
    }
}

/// Appends an element to a list without room, under a name without a location.
#[test]
fn consuming_calls(rt: HostRuntime) -> TestResult {
    let alloc = rt.alloc();
    for is_link in [false, true] {
        let (places, items) = (NamedPlaces::new(alloc), Vec::new(alloc));
        let element = elem_of(alloc, tag::a)?;
        refuses_given(alloc, (is_link, places, items, element), pushed)?;
    }
    Ok(())
}
