//! The reports of misnested nodes to a sink.

ghost use Rattle.std.specs.Prelude.{◌≡◌, ◌≤◌, [], IfOk, IsOk, OnOk};
ghost use Rattle.html_dom_tree.specs.{Taking.{Takes}, Views.{element_view}};
ghost use Rattle.html_page_nesting.specs.{Misnested.{found}, NestingRules.{element_misnesting, root_misnesting}};
ghost use Rattle.html_page_nesting.specs.{Surroundings.{surroundings_of}, Walks.{surroundings_in}};

use crate::element::KnownElement;
use crate::misnested_sink::MisnestedSink;
use crate::misnesting::Misnesting;
use crate::rules::{element_misnesting, root_misnesting};
use crate::surroundings::Surroundings;
use html_dom_tree::{HtmlElement, Span};
use html_names_core::Refused;
use std::alloc::{AllocError, Global};

/// The reports of misnested nodes to a sink.
#[derive(Drop)]
pub(crate) struct Reports<S> {
    pub(crate) alloc: Global,
    sink: S,
}

impl<S: MisnestedSink> Reports<S> {
    pub(crate) fn new(alloc: Global, sink: S) -> Reports<S>
        ensures { result.sink ≡ sink }
    {
        Reports { alloc, sink }
    }

    /// Returns the sink after a walk that went that way.
    pub(crate) fn finish(self, passed: Result<(), AllocError>) -> Result<S, Refused<S>>
        ensures { IfOk result (λ given. IsOk passed × (given ≡ self.sink)) }
    {
        let Reports { sink, .. } = self;
        match passed {
            Ok(()) => Ok(sink),
            Err(AllocError) => Err(Refused { back: sink }),
        }
    }

    /// Reports what the node with that path breaks.
    #[inline(never)]
    pub(crate) fn report(
        &mut self,
        path: &[usize],
        span: Span,
        why: Option<Misnesting>,
    ) -> Result<(), AllocError>
        ensures { OnOk result (Takes (S.made_with self.old.sink) (S.made_with self.new.sink)
            (found path.now span.0 why)) }
    {
        match why {
            Some(why) => self.sink.take(self.alloc, path, span, why),
            None => Ok(()),
        }
    }

    /// Reports what an element breaks, and returns the surroundings of its children. Its locals stay
    /// out of the frame of the consuming walk, of which each level has one.
    #[inline(never)]
    pub(crate) fn pass_own(
        &mut self,
        element: &HtmlElement,
        around: &Surroundings,
        path: &[usize],
    ) -> Result<Surroundings, AllocError>
        requires { around.now.depth ≤ 512 }
        ensures taken { let e = element_view element.now in
            OnOk result (Takes (S.made_with self.old.sink) (S.made_with self.new.sink)
            (found path.now e.0.span (element_misnesting e.0 e.1 around.now))) }
        ensures inside { IfOk result (λ inside.
            inside ≡ surroundings_in (element_view element.now).0 around.now) }
    {
        let known = KnownElement::new(element);
        self.report(path, element.span, element_misnesting(&known, around))?;
        Ok(around.inside(&known))
    }

    /// Reports what a root breaks, and returns the surroundings of its children.
    pub(crate) fn pass_root(&mut self, root: &HtmlElement) -> Result<Surroundings, AllocError>
        ensures taken { let e = element_view root.now in
            OnOk result (Takes (S.made_with self.old.sink) (S.made_with self.new.sink)
            (found [] e.0.span (root_misnesting e (surroundings_of [])))) }
        ensures inside { IfOk result (λ inside.
            inside ≡ surroundings_in (element_view root.now).0 (surroundings_of [])) }
    {
        let around = Surroundings::NONE;
        let known = KnownElement::new(root);
        self.report(&[], root.span, root_misnesting(&known, &around))?;
        Ok(around.inside(&known))
    }
}
