//! A walk along a line: what stands last, and whether a lone space is bare.

ghost use Rattle.std.specs.Prelude.{◌≡◌, ◌++◌, OnOk};
ghost use Rattle.html_flow_convert.specs.Lines.{is_within, last_after, answer_before};

use crate::look::Look;
use std::alloc::AllocError;

/// What stands last in a line so far.
#[derive(Clone, Copy)]
pub(crate) enum Last {
    /// A border, or nothing.
    Border,
    Visible,
    /// A lone space, and whether something that is no border stands before it.
    Space(bool),
}

impl Last {
    /// Returns whether a space after it stands in a line.
    fn is_within(self) -> bool
        ensures { result ≡ is_within self }
    {
        !matches!(self, Last::Border)
    }

    pub(crate) fn after(self, next: Look) -> Last
        ensures { result ≡ last_after self next }
    {
        match next {
            Look::Border => Last::Border,
            Look::Visible => Last::Visible,
            Look::Space => Last::Space(self.is_within()),
            Look::Nothing | Look::Inside => self,
        }
    }
}

/// Adds whether a space that stands last is bare, once something stands after it.
pub(crate) fn push_answer(bare: &mut Vec<bool>, last: Last, next: Look) -> Result<(), AllocError>
    ensures { OnOk result (bare.new.items ≡ bare.old.items ++ answer_before last next) }
{
    if matches!(next, Look::Nothing | Look::Inside) {
        return Ok(());
    }
    if let Last::Space(in_line) = last {
        bare.push(in_line && matches!(next, Look::Visible))?;
    }
    Ok(())
}
