//! Laws of the numbers of names, as contracts of functions.

ghost use Rattle.std.specs.Prelude.{◌≡◌, ◌↔◌, IsTrue, IfOk, OnErr, OnOk, false};
ghost use Rattle.html_names_core.specs.Names.{stands_in};
ghost use Rattle.html_names_table.specs.NameTables.{NumbersBoth, with_tag, with_attr};

use crate::NameTable;
use html_names_core::{HtmlAttr, HtmlTag};
use std::alloc::AllocError;

/// Two tags have the same number if and only if their texts are equal.
#[tactic(auto, using(crate::proofs::NameTables::equal_numbers))]
pub fn equal_tag_numbers(
    names: &mut NameTable,
    a: &HtmlTag,
    b: &HtmlTag,
) -> Result<bool, AllocError>
    ensures numbers { IfOk result (λ same. IsTrue same ↔ (a.now ≡ b.now)) }
    ensures table { let one = with_tag names.old a.now in
        NumbersBoth result names.old.tags a.now b.now names.old names.new one
        (with_tag one b.now) }
{
    Ok(names.tag(a)? == names.tag(b)?)
}

/// A tag keeps its number when another tag gets one.
#[tactic(auto, using(crate::proofs::NameTables::stays))]
pub fn tag_number_stays(
    names: &mut NameTable,
    given: &HtmlTag,
    other: &HtmlTag,
) -> Result<bool, AllocError>
    ensures numbers { IfOk result (λ same. IsTrue same) }
    ensures table { let one = with_tag names.old given.now in
        NumbersBoth result names.old.tags given.now other.now names.old names.new one
        (with_tag one other.now) }
{
    let number = names.tag(given)?;
    names.tag(other)?;
    Ok(names.tag(given)? == number)
}

/// The tag at the number of a given tag is equal to it.
#[tactic(auto, using(crate::proofs::NameTables::at_number))]
pub fn tag_at_number(names: &mut NameTable, given: &HtmlTag) -> Result<bool, AllocError>
    ensures numbers { IfOk result (λ same. IsTrue same) }
    ensures names { OnOk result (names.new ≡ with_tag names.old given.now) }
    ensures absent { OnErr result (stands_in names.old.tags given.now ≡ false) }
    ensures kept { OnErr result (names.new ≡ names.old) }
{
    let number = names.tag(given)?;
    Ok(names.tag_at(number) == given)
}

/// Two attributes have the same number if and only if their texts are equal.
#[tactic(auto, using(crate::proofs::NameTables::equal_numbers))]
pub fn equal_attr_numbers(
    names: &mut NameTable,
    a: &HtmlAttr,
    b: &HtmlAttr,
) -> Result<bool, AllocError>
    ensures numbers { IfOk result (λ same. IsTrue same ↔ (a.now ≡ b.now)) }
    ensures table { let one = with_attr names.old a.now in
        NumbersBoth result names.old.attrs a.now b.now names.old names.new one
        (with_attr one b.now) }
{
    Ok(names.attr(a)? == names.attr(b)?)
}

/// An attribute keeps its number when another attribute gets one.
#[tactic(auto, using(crate::proofs::NameTables::stays))]
pub fn attr_number_stays(
    names: &mut NameTable,
    given: &HtmlAttr,
    other: &HtmlAttr,
) -> Result<bool, AllocError>
    ensures numbers { IfOk result (λ same. IsTrue same) }
    ensures table { let one = with_attr names.old given.now in
        NumbersBoth result names.old.attrs given.now other.now names.old names.new one
        (with_attr one other.now) }
{
    let number = names.attr(given)?;
    names.attr(other)?;
    Ok(names.attr(given)? == number)
}

/// The attribute at the number of a given attribute is equal to it.
#[tactic(auto, using(crate::proofs::NameTables::at_number))]
pub fn attr_at_number(names: &mut NameTable, given: &HtmlAttr) -> Result<bool, AllocError>
    ensures numbers { IfOk result (λ same. IsTrue same) }
    ensures names { OnOk result (names.new ≡ with_attr names.old given.now) }
    ensures absent { OnErr result (stands_in names.old.attrs given.now ≡ false) }
    ensures kept { OnErr result (names.new ≡ names.old) }
{
    let number = names.attr(given)?;
    Ok(names.attr_at(number) == given)
}
