//! The parts that the lists of a conversion use one after the other.

ghost use Rattle.std.specs.Prelude.{◌≡◌, [], ◌∷◌, codes};

use crate::made::pre_wrap_css;
use html_values_css::Properties;
use std::alloc::{AllocError, Global};

/// The parts that the lists of a conversion use one after the other.
#[derive(Drop)]
pub(crate) struct Reused {
    /// The css of each `span` that preserves white space.
    pub(crate) css: Properties,
    /// Whether each lone space of a list is bare.
    pub(crate) bare: Vec<bool>,
    ghost preserves: { css ≡ (codes "white-space", codes "pre-wrap") ∷ [] },
}

impl Reused {
    pub(crate) fn new(alloc: Global) -> Result<Reused, AllocError> {
        Ok(Reused {
            css: pre_wrap_css(alloc)?,
            bare: Vec::new(alloc),
        })
    }
}
