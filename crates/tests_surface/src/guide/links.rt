//! The guide's example of links.

use std::alloc::Global;
use typst_html::{
    DocumentInfo, ExportFault, HtmlElem, HtmlOptions, Item, Location, Pair, Span, dead_links,
    export_linked, html, html_document, push_located, resolve_links, tag,
};

/// A paragraph with a link to the place with location 7, and that place, a heading with a label.
fn cooling(alloc: Global) -> Result<Vec<Pair>, ExportFault> {
    let mut words = vec![in alloc;
        Pair::from(Item::Text(String::from_str(alloc, "See ")?, Span(1))),
    ]?;
    let link = HtmlElem::new(alloc, tag::a)
        .spanned(Span(1))
        .with_text(alloc, "there")?;
    push_located(
        &mut words,
        Location(1),
        None,
        Some(Location(7)),
        Item::from(link),
    )?;
    let paragraph = HtmlElem::new(alloc, tag::p).with_body(words);
    let mut items = vec![in alloc; Pair::from(paragraph)]?;
    let heading = HtmlElem::new(alloc, tag::h2).with_text(alloc, "Cooling")?;
    let label = String::from_str(alloc, "cool")?;
    push_located(
        &mut items,
        Location(7),
        Some(label),
        None,
        Item::from(heading),
    )?;
    Ok(items)
}

fn linked(alloc: Global) -> Result<String, ExportFault> {
    let info = DocumentInfo::new(alloc);
    export_linked(
        alloc,
        &cooling(alloc)?,
        &info,
        &[],
        50,
        &HtmlOptions::default(),
        &(),
    )
}

/// The same in three steps, with a look at dead links before the text is written.
fn checked(alloc: Global) -> Result<Result<String, Vec<Span>>, ExportFault> {
    let info = DocumentInfo::new(alloc);
    let mut document = html_document(alloc, &cooling(alloc)?, &info, &[], 50)?;
    let mut nowhere = Vec::new(alloc);
    for link in &dead_links(alloc, &document)? {
        nowhere.push(link.span)?; // where the link comes from; `link.dest` is where it would lead
    }
    if !nowhere.is_empty() {
        return Ok(Err(nowhere));
    }
    resolve_links(alloc, &mut document)?;
    Ok(Ok(html(alloc, &document, &HtmlOptions::default(), &())?))
}

const BODY: &str =
    r##"<body><p>See <a href="#cool">there</a></p><h2 id="cool">Cooling</h2></body></html>"##;

#[test]
fn a_linked_page(rt: HostRuntime) {
    let html = linked(rt.alloc()).expect(&rt, "a page");
    assert!(rt; html.as_str().ends_with(BODY));
}

#[test]
fn a_checked_page(rt: HostRuntime) {
    let html = checked(rt.alloc()).expect(&rt, "a page");
    assert!(rt; html.is_ok_and(|html| html.as_str().ends_with(BODY)));
}
