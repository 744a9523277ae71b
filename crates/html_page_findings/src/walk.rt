//! The walk over a tree that finds its texts.

ghost use Rattle.std.specs.Prelude.{◌≡◌, ◌≤◌, [], IfOk, OnOk, option_map, option_to_list};
ghost use Rattle.html_dom_tree.specs.{FrameViews.{anchors_view, html_frame_view}, Taking.{Takes}, Views.{element_view, text_view}};
ghost use Rattle.html_dom_walk.specs.Walks.{event_of, events_left, path_of, visits_left};
ghost use Rattle.html_links.specs.TreeNames.{anchor_names};
ghost use Rattle.html_page_findings.specs.{PlacedTexts.{document_placed, placed_at}, VisitedTexts.{event_placed, left_after}};
ghost use Rattle.html_page_findings.specs.WantedTexts.{kind_of};

use crate::text_sink::TextSink;
use crate::wanted::{Wanted, copy_of, own_text};
use html_dom_tree::{HtmlElement, HtmlFrame, Point};
use html_dom_walk::{Visit, Walk};
use html_links::keeps_children;
use html_names_core::Refused;
use std::alloc::{AllocError, Global};

/// Reports the wanted texts of a tree, including the root's, to a sink in document order, and
/// returns the sink. What a `template` contains is not in the document, and not looked at. Fails
/// only if an allocation or the sink fails, and then hands back the sink, which has taken the texts
/// up to there.
pub fn report_texts<S: TextSink>(
    alloc: Global,
    root: &HtmlElement,
    wanted: Wanted,
    sink: S,
) -> Result<S, Refused<S>>
    ensures { IfOk result (λ given. S.made_with given []
        ≡ S.made_with sink (document_placed (kind_of wanted) (element_view root.now))) }
{
    let mut sink = sink;
    match pass_tree(alloc, root, wanted, &mut sink) {
        Ok(()) => Ok(sink),
        Err(_) => Err(Refused { back: sink }),
    }
}

fn pass_tree<S: TextSink>(
    alloc: Global,
    root: &HtmlElement,
    wanted: Wanted,
    sink: &mut S,
) -> Result<(), AllocError>
    ensures { OnOk result (Takes (S.made_with sink.old) (S.made_with sink.new)
        (document_placed (kind_of wanted) (element_view root.now))) }
{
    let mut walk = Walk::over(alloc, &root.children);
    let mut next = Some(Visit::Enter(root));
    while let Some(visit) = next {
        pass_visit(alloc, visit, wanted, &mut walk, sink)?;
        next = walk.next()?;
    }
    Ok(())
}

/// Passes the wanted texts at the visit that came last, and leaves out what is below if that is not
/// in the document.
fn pass_visit<S: TextSink>(
    alloc: Global,
    visit: Visit<'_>,
    wanted: Wanted,
    walk: &mut Walk<'_>,
    sink: &mut S,
) -> Result<(), AllocError>
    ensures taken { OnOk result (Takes (S.made_with sink.old) (S.made_with sink.new)
        (event_placed (kind_of wanted) (path_of walk.old) (event_of visit.entry))) }
    ensures left { OnOk result
        (events_left walk.new ≡ left_after (event_of visit.entry) (events_left walk.old)) }
    ensures fewer { OnOk result (visits_left walk.new ≤ visits_left walk.old) }
{
    match visit {
        Visit::Enter(element) => {
            pass_optional(alloc, own_text(alloc, element, wanted)?, walk.path(), sink)?;
            if !keeps_children(element, false) {
                walk.skip();
            }
            Ok(())
        }
        Visit::Frame(frame) => pass_frame(alloc, frame, wanted, walk.path(), sink),
        Visit::Tag(_) | Visit::Text(_, _) | Visit::Leave => Ok(()),
    }
}

fn pass_optional<S: TextSink>(
    alloc: Global,
    text: Option<String>,
    path: &[usize],
    sink: &mut S,
) -> Result<(), AllocError>
    ensures { OnOk result (Takes (S.made_with sink.old) (S.made_with sink.new)
        (placed_at path.now (option_to_list (option_map text_view text)))) }
{
    match text {
        Some(text) => sink.take(alloc, path, text),
        None => Ok(()),
    }
}

fn pass_frame<S: TextSink>(
    alloc: Global,
    frame: &HtmlFrame,
    wanted: Wanted,
    path: &[usize],
    sink: &mut S,
) -> Result<(), AllocError>
    ensures { OnOk result (Takes (S.made_with sink.old) (S.made_with sink.new)
        (placed_at path.now ((kind_of wanted).framed (html_frame_view frame.now)))) }
{
    match wanted {
        Wanted::Ids => {
            pass_optional(alloc, copy_of(frame.id.as_ref())?, path, sink)?;
            pass_anchors(alloc, &frame.anchors, path, sink)?;
            Ok(())
        }
        Wanted::Fragments | Wanted::LinkedIds | Wanted::LinkedNames | Wanted::Hrefs => Ok(()),
    }
}

fn pass_anchors<S: TextSink>(
    alloc: Global,
    anchors: &[(Point, String)],
    path: &[usize],
    sink: &mut S,
) -> Result<(), AllocError>
    ensures { OnOk result (Takes (S.made_with sink.old) (S.made_with sink.new)
        (placed_at path.now (anchor_names (anchors_view anchors.now)))) }
{
    for anchor in anchors {
        sink.take(alloc, path, anchor.1.clone()?)?;
    }
    Ok(())
}
