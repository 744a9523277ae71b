//! Public calls on trees and documents that take memory: their first growth is refused, then their
//! second, and so on until a run succeeds.

mod given;
mod lent;
