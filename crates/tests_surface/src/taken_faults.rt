//! Faults of public calls become the fault of their callers: one that makes several calls passes
//! the fault of each on by `?`.

use std::alloc::{AllocError, AllocFailed};
use std::test::Fail;
use typst_html::{
    AttrType, CastFault, ConstructFault, DocumentInfo, ExportFault, FlowFault, FrameFault,
    HtmlAttr, HtmlAttrs, HtmlDocument, HtmlElem, HtmlElement, HtmlNode, HtmlOutput, Item,
    NameFault, Pair, Properties, PropertiesBuilder, ReadFault, Refused,
};

fn takes_faults<E>()
where
    E: From<CastFault> + From<ConstructFault> + From<ExportFault> + From<FlowFault>,
    E: From<FrameFault> + From<NameFault>,
{}

fn takes_faults_of_reading<E: From<ReadFault>>() {}

fn takes_want_of_memory<E>()
where
    E: From<AllocError> + From<AllocFailed<HtmlNode>> + From<AllocFailed<Pair>>,
    E: From<Refused<AttrType>> + From<Refused<String>> + From<Refused<(Properties, String)>>,
    E: From<Refused<PropertiesBuilder<()>>> + From<Refused<(HtmlAttr, String)>>,
    E: From<Refused<(HtmlAttrs, HtmlAttrs)>> + From<Refused<HtmlElement>>,
    E: From<Refused<(HtmlElement, HtmlAttr, String)>> + From<Refused<(HtmlElement, HtmlNode)>>,
    E: From<Refused<HtmlDocument>> + From<Refused<(HtmlOutput, DocumentInfo)>>,
    E: From<Refused<HtmlElem>> + From<Refused<(HtmlElem, HtmlAttr, Option<String>)>>,
    E: From<Refused<(HtmlElem, HtmlAttr, String)>> + From<Refused<(HtmlElem, Pair)>>,
    E: From<Refused<(Option<String>, Item)>>,
{}

/// The fault of this project takes none of reading.
#[test]
fn faults_that_take_others() {
    takes_faults::<ExportFault>();
    takes_faults::<anyhow::Error>();
    takes_faults::<Fail>();
    takes_faults_of_reading::<anyhow::Error>();
    takes_faults_of_reading::<Fail>();
    takes_want_of_memory::<ExportFault>();
    takes_want_of_memory::<anyhow::Error>();
    takes_want_of_memory::<Fail>();
}
