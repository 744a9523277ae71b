//! Names, numbers for them, and a text under construction, when growths of memory are refused.

use html_names::room::push_compact;
use html_names::text_writer::TextWriter;
use html_names::{HtmlAttr, HtmlTag, NameTable, attr, laws, tag};
use std::alloc::{AllocError, Global};
use std::fmt::{self, Debug};
use tests_asserts::TestResult;
use tests_failing_alloc::{Made, refuses, refuses_copy, refuses_kept, refuses_pushed};

/// The number of letters that fill the text of a `TextWriter` that got them one by one.
const FULL: usize = 32;

const OWN_NAME: &str = "an-own-name";

#[test]
fn made_names(rt: HostRuntime) -> TestResult {
    let alloc = rt.alloc();
    refuses(alloc, || HtmlTag::intern(alloc, OWN_NAME).map(|_| ()))?;
    refuses(alloc, || HtmlAttr::intern(alloc, OWN_NAME).map(|_| ()))?;
    refuses(alloc, || HtmlTag::constant(alloc, "font-face").map(|_| ()))?;
    refuses(alloc, || HtmlAttr::constant(alloc, "data-x").map(|_| ()))?;
    refuses_copy(alloc, HtmlTag::intern(alloc, "x-one")?, HtmlTag::try_clone)?;
    refuses_copy(
        alloc,
        HtmlAttr::intern(alloc, "data-x")?,
        HtmlAttr::try_clone,
    )
}

/// Returns whether the names that had numbers have kept them.
fn has_first_names(table: &NameTable) -> bool {
    table.tags() > 0
        && table.attrs() > 0
        && *table.tag_at(0) == tag::p
        && *table.attr_at(0) == attr::class
}

/// Returns whether no other name has a number.
fn has_no_more(table: &NameTable) -> bool {
    has_first_names(table) && table.tags() == 1 && table.attrs() == 1
}

/// Returns a table in which `p` and `class` have numbers.
fn table_of(alloc: Global) -> Result<NameTable, AllocError> {
    let mut table = NameTable::new(alloc);
    table.tag(&tag::p)?;
    table.attr(&attr::class)?;
    Ok(table)
}

/// Asserts that a law, which requests numbers, is refused at first, and leaves the numbered names.
fn assert_law<R: Made, F: Fn(&mut NameTable) -> Result<R, AllocError>>(
    alloc: Global,
    law: F,
) -> TestResult
    requires { F.IsAlwaysCallable law }
{
    refuses_kept(alloc, table_of(alloc)?, has_first_names, law)
}

#[test]
fn numbered_tags(rt: HostRuntime) -> TestResult {
    let (alloc, one) = (rt.alloc(), HtmlTag::intern(rt.alloc(), "x-one")?);
    let two = HtmlTag::intern(alloc, "x-two")?;
    refuses_kept(alloc, table_of(alloc)?, has_no_more, |table| {
        table.tag(&one).map(|number| number == 1)
    })?;
    assert_law(
        alloc,
        |table| laws::equal_tag_numbers(table, &one, &two).map(|same| !same),
    )?;
    assert_law(alloc, |table| laws::tag_number_stays(table, &one, &two))?;
    assert_law(alloc, |table| laws::tag_at_number(table, &one))
}

#[test]
fn numbered_attributes(rt: HostRuntime) -> TestResult {
    let (alloc, one) = (rt.alloc(), HtmlAttr::intern(rt.alloc(), "data-x")?);
    let two = HtmlAttr::intern(alloc, "data-y")?;
    refuses_kept(alloc, table_of(alloc)?, has_no_more, |table| {
        table.attr(&one).map(|number| number == 1)
    })?;
    assert_law(
        alloc,
        |table| laws::equal_attr_numbers(table, &one, &two).map(|same| !same),
    )?;
    assert_law(alloc, |table| laws::attr_number_stays(table, &one, &two))?;
    assert_law(alloc, |table| laws::attr_at_number(table, &one))
}

/// A table without names that is shown by how many names it has.
#[derive(Drop)]
struct Names(NameTable);

impl Debug for Names {
    fn fmt<W: fmt::Write>(&self, f: &mut fmt::Formatter<W>) -> fmt::Result {
        write!(f, "{} tags, {} attributes", self.0.tags(), self.0.attrs())
    }
}

/// Moves names into tables without names. A refused call returns the name.
#[test]
fn inserted_names(rt: HostRuntime) -> TestResult {
    let (alloc, tag) = (rt.alloc(), HtmlTag::intern(rt.alloc(), OWN_NAME)?);
    refuses_pushed(
        alloc,
        Names(NameTable::new(alloc)),
        tag,
        |names: &mut Names, tag| { names.0.insert_tag(tag).map(|number| number == 0) },
    )?;
    let attr = HtmlAttr::intern(alloc, OWN_NAME)?;
    refuses_pushed(
        alloc,
        Names(NameTable::new(alloc)),
        attr,
        |names: &mut Names, attr| { names.0.insert_attr(attr).map(|number| number == 0) },
    )
}

/// Appends to a list that is empty, which gets room for one, and to one that is full.
#[test]
fn appended_values(rt: HostRuntime) -> TestResult {
    let alloc = rt.alloc();
    for list in [
        Vec::new(alloc),
        vec![in alloc; String::from_str(alloc, "first")?]?,
    ] {
        let text = String::from_str(alloc, "held")?;
        refuses_pushed(alloc, list, text, |list: &mut Vec<String>, text| {
            push_compact(list, text).map(|_| list.len() > 1 || list.capacity() == 1)
        })?;
    }
    Ok(())
}

/// Adds a text to another, in one of several ways.
fn add(out: &mut TextWriter, text: &str) -> Result<(), AllocError> {
    match text {
        "x" => out.push('x'),
        "two" => out.push_ascii("two"),
        "18446744073709551615" => out.push_decimal(u64::MAX),
        "07" => out.push_two_digits(7),
        "30" => out.push_two_digits(30),
        "abc" => out.push_hex(0xabc),
        text => out.push_str(text),
    }
}

/// Adds a text to another, and returns whether it is the end of that.
fn is_added(out: &mut TextWriter, text: &str, held: &str) -> Result<bool, AllocError> {
    add(out, text)?;
    Ok(out.as_str().strip_prefix(held) == Some(text))
}

/// The number of letters for which there is room, and a text that is added.
const ADDED: [(usize, &str); 8] = [
    (0, "x"),
    (2, "one \u{e9}"),
    (1, "two"),
    (3, "18446744073709551615"),
    (0, "07"),
    (1, "07"),
    (1, "30"),
    (0, "abc"),
];

/// A refused addition leaves the text as it is.
#[test]
fn written_texts(rt: HostRuntime) -> TestResult {
    for (room, text) in ADDED {
        let mut out = TextWriter::new(rt.alloc());
        for _ in room..FULL {
            out.push('x')?;
        }
        let held = String::from_str(rt.alloc(), out.as_str())?;
        let is_kept = |out: &TextWriter| out.as_str() == held.as_str();
        refuses_kept(rt.alloc(), out, is_kept, |out| is_added(out, text, &held))?;
    }
    Ok(())
}
