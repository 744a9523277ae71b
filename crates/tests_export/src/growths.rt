//! Public calls that take memory: their first growth is refused, then their second, and so on until
//! a run succeeds.

mod reading;
