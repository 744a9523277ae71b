//! Why a call on JSON fails, and the place in its text or in its form where the input is bad.

use html_dom_tree::Span;
use html_names_core::Refused;
use std::alloc::{AllocError, AllocFailed};

/// The place where an input is bad.
#[derive(Clone, Copy, Debug, PartialEq, Eq)]
pub enum InputPlace {
    /// There is no place: the words or the numbers of the call are wrong.
    Unknown,
    /// The place where the text is not a JSON value or not UTF-8: the line, counted from 1, and the
    /// column, counted in bytes from 1, of the first byte with which no JSON text goes on. Arrays
    /// and objects are nested at most 127 levels deep, and surrogates stand in pairs alone. If the
    /// text ends too soon, or a number in it is too large for a float, this is the end of the text,
    /// and the column is the length of its last line.
    Text(usize, usize),
    /// The place where the value leaves the form: how many lists of nodes or items are opened up to
    /// the first value that does not fit the form, which is the number of the last of them.
    Form(u64),
}

/// The reason why a call returns no text of a JSON value, or nothing that the value spells.
#[derive(Clone, Copy, Debug, PartialEq, Eq)]
pub enum Fault {
    /// An allocation failed.
    OutOfMemory,
    /// There is no JSON value, or it spells nothing.
    BadInput(InputPlace),
    /// The value spells something that is refused: the number of the first refusal, and its span.
    Refused(u8, Span),
}

impl From<AllocError> for Fault {
    ghost use Rattle.std.specs.Prelude.{◌≡◌};
    ghost use Rattle.typst_html_json.specs.declared.fault.Fault.TheVariants.{OutOfMemory};

    ghost from_gives = { λ _ e. e ≡ OutOfMemory };

    fn from(_error: AllocError) -> Fault {
        Fault::OutOfMemory
    }
}

impl<T: Drop> From<AllocFailed<T>> for Fault {
    ghost use Rattle.std.specs.Prelude.{◌≡◌};
    ghost use Rattle.typst_html_json.specs.declared.fault.Fault.TheVariants.{OutOfMemory};

    ghost from_gives = { λ _ e. e ≡ OutOfMemory };

    fn from(_failed: AllocFailed<T>) -> Fault {
        Fault::OutOfMemory
    }
}

impl<T: Drop> From<Refused<T>> for Fault {
    ghost use Rattle.std.specs.Prelude.{◌≡◌};
    ghost use Rattle.typst_html_json.specs.declared.fault.Fault.TheVariants.{OutOfMemory};

    ghost from_gives = { λ _ e. e ≡ OutOfMemory };

    fn from(_refused: Refused<T>) -> Fault {
        Fault::OutOfMemory
    }
}
