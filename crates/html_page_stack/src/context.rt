//! Facts about an open element that save a walk over those around it.

use crate::milestone::Milestone;
use crate::modes::Mode;

/// Facts about an open element and those around it.
#[derive(Clone, Copy)]
pub(crate) struct Context {
    /// The insertion mode that the innermost of them with a mode sets.
    pub(crate) mode: Option<Mode>,
    /// Whether a `p` is in button scope.
    pub(crate) has_paragraph: bool,
    /// What it knows of those around it, if it is a milestone.
    pub(crate) milestone: Option<Milestone>,
}

impl Context {
    /// The context outside all elements.
    pub(crate) const OUTSIDE: Context = Context {
        mode: None,
        has_paragraph: false,
        milestone: None,
    };
}
