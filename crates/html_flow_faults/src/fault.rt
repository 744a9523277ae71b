//! Why items do not become nodes: a body that is too deep, or no memory.

ghost use Rattle.std.specs.Prelude.{◌≡◌};
ghost use Rattle.html_flow_faults.specs.FlowFaults.{number_of};

use html_dom_tree::Span;
use html_names_core::Refused;
use std::alloc::{AllocError, AllocFailed};
use thiserror::Error;

/// The reason why items did not become nodes.
#[derive(Clone, Copy, Debug, PartialEq, Eq, Error)]
pub enum FlowFault {
    /// An allocation failed.
    #[error("out of memory")]
    OutOfMemory,
    /// A body is deeper than the limit.
    #[error("items are nested too deeply")]
    TooDeep {
        /// The span of the item that has the body.
        span: Span,
    },
}

impl FlowFault {
    /// Returns the fault's number: 0 if an allocation failed, 8 for a body that is too deep.
    pub fn number(&self) -> u8
        ensures { result ≡ number_of self.now }
    {
        match self {
            FlowFault::OutOfMemory => 0,
            FlowFault::TooDeep { .. } => 8,
        }
    }
}

impl From<AllocError> for FlowFault {
    ghost use Rattle.html_flow_faults.specs.declared.fault.FlowFault.TheVariants.{OutOfMemory};

    ghost from_gives = { λ _ e. e ≡ OutOfMemory };

    fn from(_refused: AllocError) -> FlowFault {
        FlowFault::OutOfMemory
    }
}

impl<T: Drop> From<AllocFailed<T>> for FlowFault {
    ghost use Rattle.html_flow_faults.specs.declared.fault.FlowFault.TheVariants.{OutOfMemory};

    ghost from_gives = { λ _ e. e ≡ OutOfMemory };

    fn from(_failed: AllocFailed<T>) -> FlowFault {
        FlowFault::OutOfMemory
    }
}

impl<T: Drop> From<Refused<T>> for FlowFault {
    ghost use Rattle.html_flow_faults.specs.declared.fault.FlowFault.TheVariants.{OutOfMemory};

    ghost from_gives = { λ _ e. e ≡ OutOfMemory };

    fn from(_refused: Refused<T>) -> FlowFault {
        FlowFault::OutOfMemory
    }
}
