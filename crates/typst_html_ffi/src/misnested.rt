//! The misnested nodes of a page, which would make a browser build another tree, as JSON.

ghost use Rattle.std.specs.Prelude.{◌≡◌, List, ℕ, [], ◌++◌, string_bytes, IfOk, OnOk};
ghost use Rattle.serde_json.specs.Written.{compact_text};
ghost use Rattle.html_page_nesting.specs.Misnested.{Finding};
ghost use Rattle.html_page_read.specs.PlaceViews.{text_of};
ghost use Rattle.typst_html_ffi.specs.{LongTexts.{text_bytes}, MisnestedNodes.{misnested_data, node_data}};
ghost use Rattle.typst_html_ffi.specs.PageSteps.{text_with_nodes};

use crate::lists::{push_comma_if, push_key, push_string, push_where};
use crate::pieces::LongText;
use html_dom_tree::Span;
use html_page_nesting::{MisnestedSink, Misnesting};
use html_page_read::Places;
use html_text::Place;
use std::alloc::{AllocError, Global};

/// A list of the misnested nodes of a page that is being written.
#[derive(Drop)]
pub(crate) struct NodeList<'a> {
    /// The places in the page. The nodes come in document order, so one pass finds all.
    places: Places<'a>,
    /// The text that is written so far.
    text: LongText,
    /// The path of the previous node; empty if there is none.
    previous: Vec<usize>,
    /// Whether there is a previous node.
    later: bool,
}

pub(crate) fn begun<'a>(
    alloc: Global,
    places: Places<'a>,
    text: String,
) -> Result<NodeList<'a>, AllocError>
    ensures { IfOk result (λ list. (fs : List Finding) → text_with_nodes list fs
        ≡ string_bytes text ++ compact_text (misnested_data (text_of places.entry) fs)) }
{
    let mut text = text;
    text.push_str("[")?;
    Ok(NodeList {
        places,
        text: LongText::new(alloc, text),
        previous: Vec::new(alloc),
        later: false,
    })
}

pub(crate) fn ended(list: NodeList) -> Result<LongText, AllocError>
    ensures { IfOk result (λ text. text_bytes text ≡ text_with_nodes list.entry []) }
{
    let NodeList { mut text, .. } = list;
    text.last.push_str("]")?;
    Ok(text)
}

impl<'a> MisnestedSink for NodeList<'a> {
    ghost Made = { List ℕ };

    ghost made_with = { text_with_nodes };

    fn take(
        &mut self,
        alloc: Global,
        path: &[usize],
        span: Span,
        why: Misnesting,
    ) -> Result<(), AllocError> {
        self.text.break_off(alloc)?;
        let text = &mut self.text.last;
        push_comma_if(text, self.later)?;
        let place = self.places.at(span.0 as usize);
        push_node(alloc, text, &self.previous, path, place, why)?;
        self.previous = path.to_vec(alloc)?;
        self.later = true;
        Ok(())
    }
}

/// Appends a node as an object. `previous` is the path of the previous node.
fn push_node(
    alloc: Global,
    text: &mut String,
    previous: &[usize],
    path: &[usize],
    place: Place,
    why: Misnesting,
) -> Result<(), AllocError>
    ensures { OnOk result (string_bytes text.new
        ≡ string_bytes text.old ++ compact_text (node_data previous.now path.now place why)) }
{
    text.push_str("{")?;
    push_key(alloc, text, false, "rule")?;
    push_string(alloc, text, why.name())?;
    push_key(alloc, text, true, "why")?;
    push_string(alloc, text, why.words())?;
    push_where(alloc, text, previous, path, place)?;
    Ok(())
}
