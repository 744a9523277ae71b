//! Laws of dead fragments and repeated ids. The contract of each function consists of laws; the
//! functions do nothing.

ghost use Rattle.html_page_findings.specs.CheckLaws.{AllFindingsStand, DistinctAreNotRepeated, NoHyperlinkNoDeadFragment, NormalFormsAgree, PlacedIdsAreIds};

/// The ids that are checked for repetition are those of the document. If all names of a tree differ,
/// as `ids_are_distinct` reports for a document's tree, none is repeated.
#[tactic(auto, using(crate::proofs::TreeTexts::placed_ids_are_ids, crate::proofs::DistinctIds::distinct_are_not_repeated))]
pub fn repeated()
    ensures ids { PlacedIdsAreIds }
    ensures distinct { DistinctAreNotRepeated }
{}

/// [`element_at`](crate::element_at) returns the link with the fragment for the path of each dead
/// fragment. In a tree without frames, it returns an element with the id for the path of each
/// repeated id.
pub fn paths_lead_to_findings()
    ensures { AllFindingsStand }
{}

/// A tree in which no `a` or `area` has an `href` has no dead fragment.
#[tactic(auto, using(crate::proofs::Hyperlinks::no_hyperlink_no_dead_fragment))]
pub fn no_hyperlink_is_dead()
    ensures { NoHyperlinkNoDeadFragment }
{}

/// Trees without frames that have the same normal form have the same dead fragments and the same
/// repeated ids, in the same order. Only their paths may differ, since texts are joined. So a tree
/// and the tree that is read from its text have the same findings.
#[tactic(auto, using(crate::proofs::NormalForms::normal_forms_agree))]
pub fn normal_forms_agree()
    ensures { NormalFormsAgree }
{}
