//! The guide's example of elements.

use std::alloc::Global;
use typst_html::{
    Abs, DocumentInfo, ExportFault, HtmlElem, HtmlOptions, HtmlTag, Item, Locale, Pair, Properties,
    Rgba, Span, attr, export, tag,
};

/// A paragraph in which one word is strong, from that line of a source.
fn paragraph(alloc: Global, line: u64) -> Result<HtmlElem, ExportFault> {
    let strong = HtmlElem::new(alloc, tag::strong).with_text(alloc, "two")?;
    Ok(
        HtmlElem::new(alloc, tag::p)
            .spanned(Span(line))
            .with_text(alloc, "Take ")?
            .with_item(alloc, Pair::from(strong))?
            .with_text(alloc, " eggs.")?,
    )
}

/// A note with a class and css, in an element of one's own name.
fn note(alloc: Global) -> Result<HtmlElem, ExportFault> {
    let mut css = Properties::build(alloc, ());
    css.push(
        "color",
        &Rgba {
            r: 96,
            g: 96,
            b: 96,
            a: 255,
        },
    )?;
    css.push("margin-left", &Abs::from_millionths(12_000_000))?; // 12 points
    Ok(
        HtmlElem::new(alloc, HtmlTag::intern(alloc, "kitchen-note")?)
            .with_attr(attr::class, String::from_str(alloc, "note")?)?
            .with_css(css.finish())
            .with_text(alloc, "Keep  cool.")?,
    )
}

fn list(alloc: Global, entries: &[&str]) -> Result<HtmlElem, ExportFault> {
    let mut list = HtmlElem::new(alloc, tag::ul);
    for entry in entries {
        let entry = HtmlElem::new(alloc, tag::li).with_text(alloc, entry)?;
        list = list.with_item(alloc, Pair::from(entry))?;
    }
    Ok(list)
}

fn recipe(alloc: Global) -> Result<String, ExportFault> {
    let mut items = Vec::new(alloc);
    items.push(Pair::from(paragraph(alloc, 1)?))?;
    items.push(Pair::from(Item::LineBreak(Span(2))))?;
    items.push(Pair::from(note(alloc)?))?;
    items.push(Pair::from(list(alloc, &["salt", "vinegar"])?))?;
    let mut info = DocumentInfo::new(alloc);
    info.title = Some(String::from_str(alloc, "Eggs")?);
    info.locale = Some(Locale::new(String::from_str(alloc, "en")?));
    export(alloc, &items, &info, &[], 50, &HtmlOptions::default(), &())
}

#[test]
fn a_recipe(rt: HostRuntime) {
    let html = recipe(rt.alloc()).expect(&rt, "a page");
    assert_eq!(rt; html.as_str(), RECIPE);
}

const RECIPE: &str = concat!(
    "<!DOCTYPE html><html lang=\"en\"><head><meta charset=\"utf-8\">",
    "<meta name=\"viewport\" content=\"width=device-width, initial-scale=1\"><title>Eggs</title></head>",
    "<body><p>Take <strong>two</strong> eggs.</p><br>",
    "<kitchen-note class=\"note\" style=\"color: #606060; margin-left: 12pt\">Keep",
    "<span style=\"white-space: pre-wrap\">&#x20;&#x20;</span>cool.</kitchen-note>",
    "<ul><li>salt</li><li>vinegar</li></ul></body></html>",
);
