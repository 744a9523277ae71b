//! Receivers of the misnested nodes of a tree.

ghost use Rattle.std.specs.Prelude.{List, OnOk, Some};
ghost use Rattle.html_dom_tree.specs.Taking.{Takes};
ghost use Rattle.html_page_nesting.specs.Misnested.{Finding, found};

use crate::misnesting::Misnesting;
use html_dom_tree::Span;
use std::alloc::{AllocError, Global};

/// A receiver of the misnested nodes of a tree, in document order.
pub trait MisnestedSink: Drop {
    /// The type of the value that the sink makes of nodes.
    ghost Made: { Type 0 };

    /// The value that the sink makes in the end if it takes exactly these further nodes.
    ghost made_with: { Self → List Finding → Made };

    /// Takes the next node: its path (the index of each child on the way from the root), its span,
    /// and the first rule that it breaks.
    fn take(
        &mut self,
        alloc: Global,
        path: &[usize],
        span: Span,
        why: Misnesting,
    ) -> Result<(), AllocError>
        ensures { OnOk result (Takes (made_with self.old) (made_with self.new)
            (found path.now span.0 (Some why))) };
}
