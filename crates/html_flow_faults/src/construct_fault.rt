//! Why arguments construct no element: casts that fail, a body of the wrong kind, or no memory.

ghost use Rattle.std.specs.Prelude.{◌≡◌};
ghost use Rattle.html_flow_faults.specs.ConstructFaults.{number_of, span_of};

use html_dom_tree::Span;
use html_names_core::Refused;
use html_values_css::CastFault;
use std::alloc::{AllocError, AllocFailed};
use thiserror::Error;

/// The reason why arguments construct no element.
#[derive(Debug, Drop, PartialEq, Eq, Error)]
pub enum ConstructFault {
    /// An allocation failed.
    #[error("out of memory")]
    OutOfMemory,
    /// The arguments that could not be cast to the types of their attributes.
    #[error("arguments could not be cast")]
    Casts(Vec<(CastFault, Span)>),
    /// The first argument without a name can't be a body of the element.
    #[error("the body has the wrong kind")]
    BodyKind {
        /// The place of the argument in the source.
        span: Span,
    },
}

impl ConstructFault {
    /// Returns the fault's number: 0 if an allocation failed, 24 for a body of the wrong kind, and
    /// for casts that of the first of them (0 if there is none).
    pub fn number(&self) -> u8
        ensures { result ≡ number_of self.now }
    {
        match self {
            ConstructFault::OutOfMemory => 0,
            ConstructFault::Casts(faults) => match faults.first() {
                Some((fault, _)) => fault.number(),
                None => 0,
            },
            ConstructFault::BodyKind { .. } => 24,
        }
    }

    /// Returns the span of the first argument that is wrong, or 0 if an allocation failed or if
    /// there is none.
    pub fn span(&self) -> Span
        ensures { result.0 ≡ span_of self.now }
    {
        match self {
            ConstructFault::OutOfMemory => Span(0),
            ConstructFault::Casts(faults) => match faults.first() {
                Some((_, span)) => *span,
                None => Span(0),
            },
            ConstructFault::BodyKind { span } => *span,
        }
    }
}

impl From<AllocError> for ConstructFault {
    ghost use Rattle.html_flow_faults.specs.declared.construct_fault.ConstructFault.TheVariants.{OutOfMemory};

    ghost from_gives = { λ _ e. e ≡ OutOfMemory };

    fn from(_refused: AllocError) -> ConstructFault {
        ConstructFault::OutOfMemory
    }
}

impl<T: Drop> From<AllocFailed<T>> for ConstructFault {
    ghost use Rattle.html_flow_faults.specs.declared.construct_fault.ConstructFault.TheVariants.{OutOfMemory};

    ghost from_gives = { λ _ e. e ≡ OutOfMemory };

    fn from(_refused: AllocFailed<T>) -> ConstructFault {
        ConstructFault::OutOfMemory
    }
}

impl<T: Drop> From<Refused<T>> for ConstructFault {
    ghost use Rattle.html_flow_faults.specs.declared.construct_fault.ConstructFault.TheVariants.{OutOfMemory};

    ghost from_gives = { λ _ e. e ≡ OutOfMemory };

    fn from(_refused: Refused<T>) -> ConstructFault {
        ConstructFault::OutOfMemory
    }
}
