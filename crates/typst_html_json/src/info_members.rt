//! The information about a document, from the members of an object.

ghost use Rattle.std.specs.Prelude.{◌≡◌, option_map};
ghost use Rattle.serde_json.specs.View.{view};
ghost use Rattle.html_dom_tree.specs.Views.{text_view};
ghost use Rattle.html_dom_document.specs.Views.{info_view, locale_view};
ghost use Rattle.html_names_core.specs.Texts.{texts_view};
ghost use Rattle.typst_html_json.specs.{Fields.{text_at}, Reading.{ReadsMember}};
ghost use Rattle.typst_html_json.specs.SpelledDocuments.{named_member, texts_at, with_info_member, with_region};

use crate::fault::{Fault, InputPlace};
use crate::fields::text_at;
use html_dom_document::{DocumentInfo, Locale};
use serde_json::Value;
use std::alloc::Global;

/// A member of an object that holds information about a document.
#[derive(Clone, Copy)]
pub(crate) enum InfoMember {
    Title,
    Description,
    Authors,
    Keywords,
    Lang,
    Region,
}

pub(crate) fn named_member(name: &str) -> Option<InfoMember>
    ensures { result ≡ named_member name.now }
{
    match name {
        "title" => Some(InfoMember::Title),
        "description" => Some(InfoMember::Description),
        "authors" => Some(InfoMember::Authors),
        "keywords" => Some(InfoMember::Keywords),
        "lang" => Some(InfoMember::Lang),
        "region" => Some(InfoMember::Region),
        _ => None,
    }
}

pub(crate) fn with_info_member(
    alloc: Global,
    mut info: DocumentInfo,
    member: InfoMember,
    value: Value,
) -> Result<DocumentInfo, Fault>
    ensures { ReadsMember info_view result (with_info_member (info_view info) member (view value)) }
{
    match member {
        InfoMember::Title => info.title = Some(known_text(value)?),
        InfoMember::Description => info.description = Some(known_text(value)?),
        InfoMember::Authors => info.author = texts_at(alloc, value)?,
        InfoMember::Keywords => info.keywords = texts_at(alloc, value)?,
        InfoMember::Lang => info.locale = Some(Locale::new(known_text(value)?)),
        InfoMember::Region => info.locale = Some(with_region(info.locale, known_text(value)?)?),
    }
    Ok(info)
}

fn known_text(value: Value) -> Result<String, Fault>
    ensures { ReadsMember text_view result (text_at (view value)) }
{
    text_at(value).ok_or(Fault::BadInput(InputPlace::Form(0)))
}

fn texts_at(alloc: Global, value: Value) -> Result<Vec<String>, Fault>
    ensures { ReadsMember (λ texts. texts_view texts.items) result (texts_at (view value)) }
{
    let Value::Array(values) = value else {
        return Err(Fault::BadInput(InputPlace::Form(0)));
    };
    let mut texts = Vec::with_capacity(alloc, values.len())?;
    for value in values {
        texts.push(known_text(value)?)?;
    }
    Ok(texts)
}

fn with_region(given: Option<Locale>, region: String) -> Result<Locale, Fault>
    ensures { ReadsMember locale_view result
        (with_region (option_map locale_view given) (text_view region)) }
{
    match given {
        Some(Locale { lang, .. }) => Ok(Locale {
            lang,
            region: Some(region),
        }),
        None => Err(Fault::BadInput(InputPlace::Form(0))),
    }
}
