//! Public calls on items and white space that take memory: their first growth is refused, then
//! their second, and so on until a run succeeds.

mod items;
mod lists;
mod spaces;
