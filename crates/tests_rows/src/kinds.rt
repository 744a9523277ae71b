//! Kinds and default displays of elements, and kinds of attributes, by their names.

use anyhow::Result;
use html_names_core::property::Display;
use html_names_core::tag::mathml::{annotation_xml, is_mathml, is_token};
use html_names_core::{HtmlAttr, HtmlTag, NameFault, attr, tag};
use std::alloc::Global;
use tests_rows_run::Row;

/// The words for the kinds, in the order of `answers`.
const KINDS: &str =
    "void raw escapable self-closing foreign mathml token metadata sectioning heading \
    embedded interactive phrasing flow palpable script-supporting replaced collapsing grouping";

fn answers(tag: &HtmlTag) -> [bool; 19] {
    [
        tag::is_void(tag),
        tag::is_raw(tag),
        tag::is_escapable_raw(tag),
        tag::is_foreign_self_closing(tag),
        tag::is_foreign(tag),
        is_mathml(tag),
        is_token(tag),
        tag::is_metadata_content(tag),
        tag::is_sectioning_content(tag),
        tag::is_heading_content(tag),
        tag::is_embedded_content(tag),
        tag::is_interactive_content(tag),
        tag::is_phrasing_content(tag),
        tag::is_flow_content(tag),
        tag::is_palpable_content(tag),
        tag::is_script_supporting_element(tag),
        tag::is_replaced(tag),
        tag::is_whitespace_collapsing(tag),
        tag::should_group_into_pars(tag),
    ]
}

pub(crate) fn of_name(alloc: Global, row: &Row<'_>) -> Result<String> {
    let tag = match HtmlTag::intern(alloc, row.text()?) {
        Err(NameFault::Reserved) => annotation_xml,
        answer => answer?,
    };
    let display = Display::default_for(&tag).map_or("-", |display| display.as_str());
    let mut text = format!(in alloc; "{display}:")?;
    for (kind, is_of_it) in KINDS.split_whitespace().zip(answers(&tag).iter()) {
        if *is_of_it {
            text.push(' ')?;
            text.push_str(kind)?;
        }
    }
    Ok(text)
}

pub(crate) fn of_attribute(alloc: Global, row: &Row<'_>) -> Result<String> {
    let name = HtmlAttr::intern(alloc, row.text()?)?;
    let answer = match (attr::is_known(&name), attr::is_event_handler(&name)) {
        (true, true) => "known handler",
        (true, false) => "known",
        (false, true) => "handler",
        (false, false) => "-",
    };
    Ok(answer.to_string(alloc)?)
}
