//! The HTML text of items without a document around them.

ghost use Rattle.std.specs.Prelude.{◌≤◌};
ghost use Rattle.serde_json.specs.View.{view};
ghost use Rattle.html_dom_tree.specs.Views.{text_view};
ghost use Rattle.html_flow_convert.specs.Views.{items_view};
ghost use Rattle.typst_html_run.specs.Answers.{answer_to};
ghost use Rattle.typst_html_run.specs.FragmentAnswers.{fragment_answer, fragment_input_answer, fragment_refusals, fragment_text};
ghost use Rattle.typst_html_run.specs.Replies.{GivesAnswer};
ghost use Rattle.typst_html_json.specs.{Refusals.{Gives}, SpelledItems.{spelled_document_items}};

use crate::program::fault_of;
use html_flow_convert::{ConversionLevel, Pair};
use serde_json::Value;
use std::alloc::Global;
use typst_html_export::export_fragment;
use typst_html_json::{Fault, into_document_items, parse};

/// Returns the HTML text of the items that an input spells, without document type, head and body: a
/// piece of a page that another program makes, such as a template engine.
///
/// The input is one JSON list of items, which have the forms of a document's items
/// ([`text_of_document`](crate::text_of_document)). The text is that of
/// [`export_fragment`](typst_html_export::export_fragment) at that level: links get neither anchors
/// nor an `href`, since both depend on the ids of the whole page. Names are refused before other
/// faults.
///
/// ```
/// use typst_html_run::text_of_fragment;
/// use typst_html::ConversionLevel;
///
/// let alloc = rt.alloc();
/// let input = br#"[["el","b",[],[["color","red"]],[["text","a < b"]]]]"#;
/// let text = text_of_fragment(alloc, input, ConversionLevel::Inline, 50)?;
/// assert_eq!(rt; text.as_str(), r#"<b style="color: red">a &lt; b</b>"#);
/// ```
pub fn text_of_fragment(
    alloc: Global,
    input: &[u8],
    level: ConversionLevel,
    limit: usize,
) -> Result<String, Fault>
    requires some_limit { 1 ≤ limit }
    requires low_limit { limit ≤ 10000 }
    ensures { GivesAnswer result (fragment_input_answer level limit input.now) }
{
    let value = parse(alloc, input)?;
    spelled_text(alloc, value, level, limit)
}

fn spelled_text(
    alloc: Global,
    value: Value,
    level: ConversionLevel,
    limit: usize,
) -> Result<String, Fault>
    requires some_limit { 1 ≤ limit }
    requires low_limit { limit ≤ 10000 }
    ensures { GivesAnswer result
        (answer_to (fragment_answer level limit) (spelled_document_items (view value))) }
{
    let items = into_document_items(alloc, value)?;
    fragment_text(alloc, &items, level, limit)
}

#[tactic(auto, using(crate::proofs::FirstFaults::first_faults))]
fn fragment_text(
    alloc: Global,
    items: &[Pair],
    level: ConversionLevel,
    limit: usize,
) -> Result<String, Fault>
    requires some_limit { 1 ≤ limit }
    requires low_limit { limit ≤ 10000 }
    ensures { Gives text_view result (fragment_text level (items_view items.now))
        (fragment_refusals level limit (items_view items.now)) }
{
    match export_fragment(alloc, items, level, limit, &()) {
        Ok(text) => Ok(text),
        Err(fault) => Err(fault_of(&fault)),
    }
}
