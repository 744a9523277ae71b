//! Why a policy does not take what it is asked to let stay.

ghost use Rattle.std.specs.Prelude.{◌≡◌};

use crate::policy::Policy;
use html_names_core::{HtmlAttr, HtmlTag};
use std::alloc::{AllocError, AllocFailed};
use thiserror::Error;

/// The reason why a policy can't let something stay.
#[derive(Debug, Drop, PartialEq, Eq, Error)]
pub enum PolicyFault {
    /// An allocation failed.
    #[error("out of memory")]
    OutOfMemory,
    /// No policy keeps an element with that name: it goes with all that is in it
    /// ([`is_dropped`](crate::is_dropped)), or it gives place to its children
    /// ([`is_never_kept`](crate::is_never_kept)).
    #[error("no policy keeps the element `{0}`")]
    NeverKeptTag(HtmlTag),
    /// No policy keeps an attribute with that name: an event handler, or `srcdoc`.
    #[error("no policy keeps the attribute `{0}`")]
    NeverKeptAttr(HtmlAttr),
    /// The text is no scheme of a URL in small letters: a letter, then letters, digits, `+`, `-`
    /// and `.`, with no `:` behind.
    #[error("`{0}` is no scheme in small letters")]
    BadScheme(String),
    /// The text is no name of a css property: small letters and `-`.
    #[error("`{0}` is no name of a css property")]
    BadProperty(String),
    /// The prefix has a character other than an ASCII letter, a digit, `-` and `_`.
    #[error("`{0}` is no prefix of names")]
    BadPrefix(String),
    /// The `rel` has a character that is not read as it is written: a control, a noncharacter or a
    /// carriage return.
    #[error("the `rel` has a character that is no text")]
    BadRel(String),
}

impl PolicyFault {
    ghost use Rattle.html_clean_policy.specs.PolicyFaults.{number_of};

    /// Returns the fault's number, from 0 to 6 in the order of the variants.
    pub fn number(&self) -> u8
        ensures { result ≡ number_of self.now }
    {
        match self {
            PolicyFault::OutOfMemory => 0,
            PolicyFault::NeverKeptTag(_) => 1,
            PolicyFault::NeverKeptAttr(_) => 2,
            PolicyFault::BadScheme(_) => 3,
            PolicyFault::BadProperty(_) => 4,
            PolicyFault::BadPrefix(_) => 5,
            PolicyFault::BadRel(_) => 6,
        }
    }
}

/// The error of a call that gives a policy one more thing to let stay. It holds the policy as it
/// was.
#[derive(Debug, Drop, Error)]
#[error("{fault}")]
pub struct PolicyRefused {
    /// Why the policy can't let it stay.
    pub fault: PolicyFault,
    /// The policy, unchanged.
    pub back: Policy,
}

impl From<PolicyRefused> for PolicyFault {
    ghost from_gives = { λ refused fault. fault ≡ refused.fault };

    fn from(refused: PolicyRefused) -> PolicyFault {
        refused.fault
    }
}

impl From<AllocError> for PolicyFault {
    ghost use Rattle.html_clean_policy.specs.declared.fault.PolicyFault.TheVariants.{OutOfMemory};

    ghost from_gives = { λ _ fault. fault ≡ OutOfMemory };

    fn from(_refused: AllocError) -> PolicyFault {
        PolicyFault::OutOfMemory
    }
}

impl<T: Drop> From<AllocFailed<T>> for PolicyFault {
    ghost use Rattle.html_clean_policy.specs.declared.fault.PolicyFault.TheVariants.{OutOfMemory};

    ghost from_gives = { λ _ fault. fault ≡ OutOfMemory };

    fn from(_failed: AllocFailed<T>) -> PolicyFault {
        PolicyFault::OutOfMemory
    }
}
