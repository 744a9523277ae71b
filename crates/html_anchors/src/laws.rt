//! Laws of anchors. The contract of each function is a law; the functions do nothing.

ghost use Rattle.html_anchors.specs.AnchorWalk.{OneWalkServes};
ghost use Rattle.html_anchors.specs.Answered.{AnswersAreShown, AnswersAreFirstIds, StaysFrameFree, NoTargetNoChange};
ghost use Rattle.html_anchors.specs.{DistinctIds.{AnchorsStayDistinct, AllNamesStay}, Fresh.{NamesAreNew, IsFirstFree}};
ghost use Rattle.html_anchors.specs.{LinkLaws.{DeadAreLeft, LeftAreDead, LeftLinksAreDead, NamesStay}, Seen.{StaysSeen}};
ghost use Rattle.html_anchors.specs.{Serving.{AnchorsServe}, Undone.{ComesBack}};

pub use html_links::laws::hrefs_lead;

/// One walk over the tree yields the same tree and names as the groups of start tags.
#[tactic(auto, using(crate::proofs::Walks::one_walk_serves))]
pub fn one_walk_serves()
    ensures { OneWalkServes }
{}

/// New names differ from each other and from all in use, if both together are at most 2^63. Calls
/// that make names promise this on success without that condition.
#[tactic(auto, using(crate::proofs::Freshes::names_are_new))]
pub fn names_are_new()
    ensures { NamesAreNew }
{}

/// The number in a new name is the first free one, if at most 2^63 names are in use.
pub fn number_is_first_free()
    ensures { IsFirstFree }
{}

/// Each name that a location gets stands in the new tree.
#[tactic(auto, using(crate::proofs::Showing::answers_are_shown))]
pub fn answers_are_shown()
    ensures { AnswersAreShown }
{}

/// Each name that a location gets is that of what serves it in the new tree: the first `id` of the
/// next element after its start tag, the `id` of the next frame, with only tags between, or the
/// anchor of its start tag in a frame; of several start tags the last counts.
#[tactic(auto, using(crate::proofs::Serving::anchors_serve))]
pub fn anchors_serve()
    ensures { AnchorsServe }
{}

/// In a tree without frames, each name that a location gets is the first `id` of an element, and
/// the new tree has no frames either.
#[tactic(auto, using(crate::proofs::Consequences::answers_are_first_ids, crate::proofs::Consequences::stays_frame_free))]
pub fn answers_are_first_ids()
    ensures first { AnswersAreFirstIds }
    ensures free { StaysFrameFree }
{}

/// Removing what was added restores the old tree.
#[tactic(auto, using(crate::proofs::Back::comes_back))]
pub fn comes_back()
    ensures { ComesBack }
{}

/// A view that shows neither `id`s nor `span`s as such is the same for the old and the new tree.
#[tactic(auto, using(crate::proofs::Seeing::stays_seen))]
pub fn stays_seen<T>()
    ensures { StaysSeen T }
{}

/// Without targets nothing changes, and no location gets a name.
pub fn no_target_no_change()
    ensures { NoTargetNoChange }
{}

/// Adding an `href` to links changes no name of the tree: neither the first `id` of any element,
/// nor the id or an anchor of any frame, nor the name of any place.
pub fn names_stay()
    ensures { NamesStay }
{}

/// The links left without an `href` are exactly those to whose destination none leads, so none is
/// left if no link is dead. In a document where no `base` leads elsewhere and no known anchor stands
/// in a `template`, no other link is dead.
#[tactic(auto, using(crate::proofs::LeadingLinks::left_are_dead, crate::proofs::FoundLinks::dead_are_left))]
pub fn left_are_dead()
    ensures nodes { LeftAreDead }
    ensures document { LeftLinksAreDead }
    ensures exact { DeadAreLeft }
{}

/// Adding anchors with new names keeps the names of a tree distinct. Each call that makes names
/// promises that they are new. Adding an `href` to links changes none of these names.
#[tactic(auto, using(crate::proofs::Counting::anchors_stay_distinct, crate::proofs::Counting::all_names_stay))]
pub fn names_stay_distinct()
    ensures anchors { AnchorsStayDistinct }
    ensures links { AllNamesStay }
{}
