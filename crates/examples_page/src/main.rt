//! A heading and a paragraph as a page.
#![tactic(auto)]

use std::alloc::Global;
use typst_html::{DocumentInfo, ExportFault, HtmlElem, HtmlOptions, Pair, export, tag};

fn page(alloc: Global) -> Result<String, ExportFault> {
    let heading = HtmlElem::new(alloc, tag::h1).with_text(alloc, "Salt & vinegar")?;
    let paragraph = HtmlElem::new(alloc, tag::p).with_text(alloc, "Two  eggs")?;
    let items = vec![in alloc; Pair::from(heading), Pair::from(paragraph)]?;
    let info = DocumentInfo::new(alloc); // no title or authors, language `en`
    let options = HtmlOptions { pretty: true };
    export(alloc, &items, &info, &[], 50, &options, &()) // no footnotes; `()` refuses frames
}

fn main(rt: HostRuntime) -> anyhow::Result<()> {
    print!(rt; "{}", page(rt.alloc())?)?;
    Ok(())
}
