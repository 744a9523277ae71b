//! Laws of walks. The contract of each function is a law; the functions do nothing.

ghost use Rattle.html_dom_walk.specs.WalkLaws.{FoundIs, GatheredIs, PastIs, SkippedIs, SkipsBelow};

/// What a loop gathers of each visit and its path is what a recursion over the tree gathers.
#[tactic(auto, using(crate::proofs::Gathering::gathered_is))]
pub fn gathered_is<A>()
    ensures { GatheredIs A }
{}

/// What a loop gathers of each visit is what a recursion over the tree gathers.
#[tactic(auto, using(crate::proofs::Gathering::found_is))]
pub fn found_is<A>()
    ensures { FoundIs A }
{}

/// What is below an element ends where the element ends.
#[tactic(auto, using(crate::proofs::Skipping::skips_below))]
pub fn skips_below()
    ensures { SkipsBelow }
{}

/// What a loop comes to as it steps over each event, and skips what is below some elements, is what
/// a recursion over the tree comes to, if that goes step by step.
#[tactic(auto, using(crate::proofs::Passing::past_is))]
pub fn past_is<S>()
    ensures { PastIs S }
{}

/// A loop that skips what is below an element goes on at the element's end.
#[tactic(auto, using(crate::proofs::Passing::skipped_is))]
pub fn skipped_is<S>()
    ensures { SkippedIs S }
{}
