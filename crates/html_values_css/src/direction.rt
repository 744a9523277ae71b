//! The four directions of writing.

/// A direction of writing.
#[derive(Clone, Copy, Debug, PartialEq, Eq)]
pub enum Dir {
    /// From left to right.
    LTR,
    /// From right to left.
    RTL,
    /// From top to bottom.
    TTB,
    /// From bottom to top.
    BTT,
}
