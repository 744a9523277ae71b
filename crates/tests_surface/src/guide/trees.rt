//! The guide's example of trees.

use std::alloc::Global;
use typst_html::{
    ExportFault, HtmlElement, HtmlNode, HtmlOptions, Properties, attr, html_in_bundle,
    resolve_inline_styles, tag,
};

fn card(alloc: Global) -> Result<String, ExportFault> {
    let css = Properties::build(alloc, ())
        .with("display", &"inline-block")?
        .finish();
    let link = HtmlElement::new(alloc, tag::a)
        .with_attr(
            attr::href,
            String::from_str(alloc, "https://example.org/?a=1&b=2")?,
        )?
        .with_css(css)
        .with_text(alloc, "Where is it?")?;
    let mut card = HtmlElement::new(alloc, tag::div).with_child(HtmlNode::from(link))?;
    resolve_inline_styles(alloc, &mut card)?; // without this call no css is written
    html_in_bundle(alloc, &card, &HtmlOptions::default(), &())
}

#[test]
fn a_card(rt: HostRuntime) {
    let html = card(rt.alloc()).expect(&rt, "a card");
    assert_eq!(rt;
        html.as_str(),
        concat!(
            "<!DOCTYPE html><div><a href=\"https://example.org/?a=1&amp;b=2\" ",
            "style=\"display: inline-block\">Where is it?</a></div>",
        )
    );
}
