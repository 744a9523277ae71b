//! A node that makes a browser build another tree.

ghost use Rattle.std.specs.Prelude.{◌++◌, List};
ghost use Rattle.html_page_nesting.specs.{Misnested.{Finding}, MisnestedViews.{findings_view}};

use crate::misnested_sink::MisnestedSink;
use crate::misnesting::Misnesting;
use html_dom_tree::Span;
use std::alloc::{AllocError, Global};

/// A node that makes a browser build another tree of the written text.
#[derive(Debug, Drop, PartialEq, Eq, Hash)]
pub struct Misnested {
    /// The index of each child on the way from the root to the node; empty for the root.
    pub path: Vec<usize>,
    /// The place of the node in the source.
    pub span: Span,
    /// The first rule that it breaks.
    pub why: Misnesting,
}

impl MisnestedSink for Vec<Misnested> {
    ghost Made = { List Finding };

    ghost made_with = { λ nodes fs. findings_view nodes.items ++ fs };

    fn take(
        &mut self,
        alloc: Global,
        path: &[usize],
        span: Span,
        why: Misnesting,
    ) -> Result<(), AllocError> {
        let path = path.to_vec(alloc)?;
        self.push(Misnested { path, span, why })?;
        Ok(())
    }
}
