//! Repeated ids.

ghost use Rattle.std.specs.Prelude.{◌≡◌, List, [], ◌++◌, IfOk};
ghost use Rattle.html_dom_tree.specs.Views.{element_view};
ghost use Rattle.html_links.specs.UsedNames.{used_in};
ghost use Rattle.html_page_findings.specs.{Findings.{repeated_view}, PlacedTexts.{Placed}, RepeatedIds.{repeated, repeated_ids}};

use crate::text_sink::TextSink;
use crate::walk::report_texts;
use crate::wanted::Wanted;
use html_dom_tree::HtmlElement;
use html_links::{is_used, put_in_use};
use html_names_core::Refused;
use std::alloc::{AllocError, Global};
use std::collections::BTreeSet;

/// An id that occurs earlier in its tree.
#[derive(Debug, Drop, PartialEq, Eq, Hash)]
pub struct RepeatedId {
    /// The path to the node that has the id: the index of each child on the way from the root, and
    /// empty for the root. If the node is an element, [`element_at`](crate::element_at) returns it.
    pub path: Vec<usize>,
    /// The id.
    pub id: String,
}

/// Returns each id of a tree that occurs earlier in it, in document order. The HTML Standard
/// (3.2.6) requires each `id` to be unique in its tree; a link leads to the first.
///
/// An id is the first `id` of an element, including the root, the `id` of a frame, or the name of a
/// frame's anchor. Empty ones count too. Those in a `template` don't, as its contents are a tree of
/// their own (4.12.3).
///
/// Takes time logarithmic in the number of ids for each id, and time linear in its depth for each
/// repeated one. Holds a copy of the ids besides the result. Fails only if an allocation fails.
///
/// ```
/// use html_page::{read_page, repeated_ids};
///
/// let alloc = rt.alloc();
/// let text = r#"<!DOCTYPE html><p id="a"><b id="b"></b>x<b id="a"></b></p>"#;
/// let (root, _) = read_page(alloc, text, 50)?;
/// let repeated = repeated_ids(alloc, &root)?;
/// assert_eq!(rt; repeated.len(), 1);
/// for place in &repeated {
///     assert!(rt; place.path.as_slice() == [1, 0, 2].as_slice());
///     assert_eq!(rt; place.id.as_str(), "a");
/// }
/// ```
pub fn repeated_ids(alloc: Global, root: &HtmlElement) -> Result<Vec<RepeatedId>, AllocError>
    ensures { IfOk result (λ repeated.
        repeated_view repeated.items ≡ repeated_ids (element_view root.now)) }
{
    let repeated = report_repeated_ids(alloc, root, Vec::new(alloc))?;
    Ok(repeated)
}

/// Reports the ids that [`repeated_ids`] returns to a sink as it finds them, each with its path,
/// and returns the sink. Hands back the sink if an allocation or the sink fails.
pub fn report_repeated_ids<S: TextSink>(
    alloc: Global,
    root: &HtmlElement,
    sink: S,
) -> Result<S, Refused<S>>
    ensures { IfOk result (λ given.
        S.made_with given [] ≡ S.made_with sink (repeated_ids (element_view root.now))) }
{
    let ids = Ids {
        passed: BTreeSet::new(alloc),
        repeated: sink,
    };
    match report_texts(alloc, root, Wanted::Ids, ids) {
        Ok(Ids { repeated, .. }) => Ok(repeated),
        Err(Refused { back }) => Err(Refused {
            back: back.repeated,
        }),
    }
}

impl TextSink for Vec<RepeatedId> {
    ghost Made = { List Placed };

    ghost made_with = { λ repeated ps. repeated_view repeated.items ++ ps };

    fn take(&mut self, alloc: Global, path: &[usize], text: String) -> Result<(), AllocError> {
        let path = path.to_vec(alloc)?;
        self.push(RepeatedId { path, id: text })?;
        Ok(())
    }
}

/// A sink that passes on the ids that it took before.
#[derive(Drop)]
struct Ids<S> {
    passed: BTreeSet<String>,
    repeated: S,
}

impl<S: TextSink> TextSink for Ids<S> {
    ghost Made = { S.Made };

    ghost made_with = { λ ids ps. S.made_with ids.repeated (repeated (used_in ids.passed) ps) };

    fn take(&mut self, alloc: Global, path: &[usize], text: String) -> Result<(), AllocError> {
        if is_used(&self.passed, &text) {
            self.repeated.take(alloc, path, text)?;
        } else {
            put_in_use(&mut self.passed, text)?;
        }
        Ok(())
    }
}
