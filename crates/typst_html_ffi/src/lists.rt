//! Lists of the findings in a page, as JSON.

ghost use Rattle.std.specs.Prelude.{◌≡◌, ◌≤◌, true, ℕ, List, [], ◌++◌, drop, length, codes, decimal, string_bytes, IfOk, OnOk};
ghost use Rattle.serde_json.specs.{Data.{number, string, unsigned}, Written.{comma_if, compact_text, members_text}};
ghost use Rattle.html_page_findings.specs.PlacedTexts.{Placed};
ghost use Rattle.typst_html_ffi.specs.FindingLists.{finding_data, findings, kept_count, path_data, where_behind, where_members};
ghost use Rattle.typst_html_ffi.specs.PageSteps.{place_in, text_with};

use crate::page::Page;
use html_page_findings::TextSink;
use html_text::Place;
use serde_json::Value;
use std::alloc::{AllocError, Global};

/// A list of findings that is being written.
#[derive(Drop)]
pub(crate) struct FindingList<'a> {
    /// The page of the findings. They come in document order, so one pass finds their places.
    page: Page<'a>,
    /// The text that is written so far.
    text: String,
    /// The name of the member with the text of a finding.
    name: String,
    /// The path of the previous finding; empty if there is none.
    previous: Vec<usize>,
    /// Whether there is a previous finding.
    later: bool,
}

pub(crate) fn begun<'a>(
    alloc: Global,
    page: Page<'a>,
    text: String,
    name: &str,
) -> Result<FindingList<'a>, AllocError>
    ensures { IfOk result (λ list. (ps : List Placed) → text_with list ps
        ≡ string_bytes text ++ compact_text (findings (place_in page.entry) name.now ps)) }
{
    let mut text = text;
    text.push_str("[")?;
    Ok(FindingList {
        page,
        text,
        name: String::from_str(alloc, name)?,
        previous: Vec::new(alloc),
        later: false,
    })
}

pub(crate) fn ended(list: FindingList) -> Result<String, AllocError>
    ensures { IfOk result (λ text. string_bytes text ≡ text_with list.entry []) }
{
    let FindingList { mut text, .. } = list;
    text.push_str("]")?;
    Ok(text)
}

impl<'a> TextSink for FindingList<'a> {
    ghost Made = { List ℕ };

    ghost made_with = { text_with };

    fn take(&mut self, alloc: Global, path: &[usize], text: String) -> Result<(), AllocError> {
        push_comma_if(&mut self.text, self.later)?;
        let place = self.page.place_of(path);
        push_finding(
            alloc,
            &mut self.text,
            &self.name,
            &text,
            &self.previous,
            path,
            place,
        )?;
        self.previous = path.to_vec(alloc)?;
        self.later = true;
        Ok(())
    }
}

/// Appends a finding as an object: the text that was found, as the member of that name, and where
/// it stands. `previous` is the path of the previous finding.
fn push_finding(
    alloc: Global,
    text: &mut String,
    name: &str,
    found: &str,
    previous: &[usize],
    path: &[usize],
    place: Place,
) -> Result<(), AllocError>
    ensures { OnOk result (string_bytes text.new ≡ string_bytes text.old
        ++ compact_text (finding_data name.now found.now (where_behind previous.now path.now place))) }
{
    text.push_str("{")?;
    push_key(alloc, text, false, name)?;
    push_string(alloc, text, found)?;
    push_where(alloc, text, previous, path, place)?;
    Ok(())
}

/// Appends the members that say where something stands, and ends the object. `previous` is the path
/// of the previous finding.
pub(crate) fn push_where(
    alloc: Global,
    text: &mut String,
    previous: &[usize],
    path: &[usize],
    place: Place,
) -> Result<(), AllocError>
    ensures { OnOk result (string_bytes text.new ≡ string_bytes text.old
        ++ members_text true (where_behind previous.now path.now place)) }
{
    let keeps = kept_count(previous, path);
    push_members(alloc, text, keeps, behind(path, keeps), place)
}

/// Appends how many indices a path keeps of the previous one, the indices after these, and a
/// place. Ends the object.
fn push_members(
    alloc: Global,
    text: &mut String,
    keeps: usize,
    rest: &[usize],
    place: Place,
) -> Result<(), AllocError>
    ensures { OnOk result (string_bytes text.new ≡ string_bytes text.old
        ++ members_text true (where_members keeps rest.now place)) }
{
    push_member(alloc, text, "keeps", keeps)?;
    push_key(alloc, text, true, "path")?;
    push_path(text, rest)?;
    push_member(alloc, text, "offset", place.offset)?;
    push_member(alloc, text, "line", place.line)?;
    push_member(alloc, text, "column", place.column)?;
    text.push_str("}")?;
    Ok(())
}

/// Returns the length of the common prefix of both paths.
fn kept_count(previous: &[usize], path: &[usize]) -> usize
    ensures count { result ≡ kept_count previous.now path.now }
    ensures within { result ≤ length path.now }
{
    let mut kept = 0;
    while kept < previous.len() && kept < path.len() && previous[kept] == path[kept] {
        kept += 1;
    }
    kept
}

fn behind(path: &[usize], kept: usize) -> &[usize]
    requires { kept ≤ length path.now }
    ensures { result.now ≡ drop kept path.now }
{
    &path[kept..]
}

/// Appends a member that is a number, after other members.
fn push_member(alloc: Global, text: &mut String, name: &str, n: usize) -> Result<(), AllocError>
    ensures { OnOk result (string_bytes text.new ≡ (string_bytes text.old
        ++ (comma_if true ++ (compact_text (string name.now) ++ codes ":"))) ++ decimal n) }
{
    push_key(alloc, text, true, name)?;
    push_number(text, n)?;
    Ok(())
}

/// Appends the name of a member, with a comma before it if it is not the first.
pub(crate) fn push_key(
    alloc: Global,
    text: &mut String,
    later: bool,
    name: &str,
) -> Result<(), AllocError>
    ensures { OnOk result (string_bytes text.new ≡ string_bytes text.old
        ++ (comma_if later ++ (compact_text (string name.now) ++ codes ":"))) }
{
    push_comma_if(text, later)?;
    push_string(alloc, text, name)?;
    text.push_str(":")?;
    Ok(())
}

fn push_path(text: &mut String, path: &[usize]) -> Result<(), AllocError>
    ensures { OnOk result (string_bytes text.new
        ≡ string_bytes text.old ++ compact_text (path_data path.now)) }
{
    text.push_str("[")?;
    let mut later = false;
    for index in path {
        push_comma_if(text, later)?;
        push_number(text, *index)?;
        later = true;
    }
    text.push_str("]")?;
    Ok(())
}

fn push_number(text: &mut String, n: usize) -> Result<(), AllocError>
    ensures { OnOk result (string_bytes text.new ≡ string_bytes text.old ++ decimal n) }
{
    write!(text, "{n}")?;
    Ok(())
}

pub(crate) fn push_comma_if(text: &mut String, later: bool) -> Result<(), AllocError>
    ensures { OnOk result (string_bytes text.new ≡ string_bytes text.old ++ comma_if later) }
{
    if later {
        text.push_str(",")?;
    }
    Ok(())
}

pub(crate) fn push_string(alloc: Global, text: &mut String, found: &str) -> Result<(), AllocError>
    ensures { OnOk result (string_bytes text.new
        ≡ string_bytes text.old ++ compact_text (string found.now)) }
{
    let value = Value::String(String::from_str(alloc, found)?);
    text.push_str(value.to_string(alloc)?.as_str())?;
    Ok(())
}
