//! The walk over a tree that finds its misnested nodes.

ghost use Rattle.std.specs.Prelude.{◌≡◌, [], IfOk, OnOk};
ghost use Rattle.html_dom_tree.specs.{Taking.{Takes}, Views.{element_view, nodes_view}};
ghost use Rattle.html_dom_walk.specs.{Events.{enter}, Walks.{event_of}};
ghost use Rattle.html_page_nesting.specs.{Misnested.{misnested_nodes}, NestingRules.{is_too_deep}, Walks.{nodes_walk}};
ghost use Rattle.html_page_nesting.specs.Passing.{entered, event_found, is_skipped, left, opened_past, opened_view};

use crate::misnested_sink::MisnestedSink;
use crate::misnesting::Misnesting;
use crate::reports::Reports;
use crate::rules::{frame_misnesting, text_misnesting};
use crate::surroundings::Surroundings;
use html_dom_tree::{HtmlElement, HtmlNode};
use html_dom_walk::{Visit, Walk};
use html_names_core::Refused;
use std::alloc::{AllocError, Global};

/// Reports the misnested nodes of a tree to a sink, and returns the sink.
pub(crate) fn walk_tree<S: MisnestedSink>(
    alloc: Global,
    root: &HtmlElement,
    sink: S,
) -> Result<S, Refused<S>>
    ensures { IfOk result (λ given.
        S.made_with given [] ≡ S.made_with sink (misnested_nodes (element_view root.now))) }
{
    let mut reports = Reports::new(alloc, sink);
    let passed = pass_tree(root, &mut reports);
    reports.finish(passed)
}

fn pass_tree<S: MisnestedSink>(
    root: &HtmlElement,
    reports: &mut Reports<S>,
) -> Result<(), AllocError>
    ensures { OnOk result (Takes (S.made_with reports.old.sink) (S.made_with reports.new.sink)
        (misnested_nodes (element_view root.now))) }
{
    let inside = reports.pass_root(root)?;
    pass_nodes(&root.children, inside, reports)
}

fn pass_nodes<S: MisnestedSink>(
    nodes: &[HtmlNode],
    around: Surroundings,
    reports: &mut Reports<S>,
) -> Result<(), AllocError>
    ensures { OnOk result (Takes (S.made_with reports.old.sink) (S.made_with reports.new.sink)
        (nodes_walk [] 0 around (nodes_view nodes.now))) }
{
    let alloc = reports.alloc;
    let outer = Vec::new(alloc);
    let mut opened = Opened { around, outer };
    let mut walk = Walk::over(alloc, nodes);
    while let Some(visit) = walk.next()? {
        if opened.pass(visit, walk.path(), reports)? {
            walk.skip();
        }
    }
    Ok(())
}

/// The surroundings of the nodes that a walk is among.
#[derive(Drop)]
pub(crate) struct Opened {
    around: Surroundings,
    /// Those of each open element, the innermost last.
    outer: Vec<Surroundings>,
}

impl Opened {
    /// Reports what a walk comes to. Returns whether what is below it is to be skipped.
    fn pass<S: MisnestedSink>(
        &mut self,
        visit: Visit<'_>,
        path: &[usize],
        reports: &mut Reports<S>,
    ) -> Result<bool, AllocError>
        ensures taken { OnOk result (Takes
            (S.made_with reports.old.sink) (S.made_with reports.new.sink)
            (event_found self.old.around path.now (event_of visit.entry))) }
        ensures past { OnOk result (opened_view self.new
            ≡ opened_past (opened_view self.old) (event_of visit.entry)) }
        ensures skips { IfOk result (λ skips.
            skips ≡ is_skipped self.old.around (event_of visit.entry)) }
    {
        match visit {
            Visit::Enter(element) => return self.enter(element, path, reports),
            Visit::Text(text, span) => {
                reports.report(path, span, text_misnesting(text.as_str(), &self.around))?;
            }
            Visit::Frame(frame) => {
                reports.report(path, frame.span, frame_misnesting(&self.around))?;
            }
            Visit::Tag(_) => {}
            Visit::Leave => self.leave(),
        }
        Ok(false)
    }

    /// Returns whether the element is too deep.
    fn enter<S: MisnestedSink>(
        &mut self,
        element: &HtmlElement,
        path: &[usize],
        reports: &mut Reports<S>,
    ) -> Result<bool, AllocError>
        ensures taken { let e = element_view element.now in
            OnOk result (Takes (S.made_with reports.old.sink) (S.made_with reports.new.sink)
            (event_found self.old.around path.now (enter e.0 e.1))) }
        ensures past { OnOk result (opened_view self.new
            ≡ entered (opened_view self.old) (element_view element.now).0) }
        ensures skips { IfOk result (λ skips. skips ≡ is_too_deep self.old.around) }
    {
        self.outer.push(self.around)?;
        let is_too_deep = self.around.is_too_deep();
        if is_too_deep {
            reports.report(path, element.span, Some(Misnesting::TooDeep))?;
        } else {
            self.around = reports.pass_own(element, &self.around, path)?;
        }
        Ok(is_too_deep)
    }

    fn leave(&mut self)
        ensures { opened_view self.new ≡ left (opened_view self.old) }
    {
        if let Some(around) = self.outer.pop() {
            self.around = around;
        }
    }
}
