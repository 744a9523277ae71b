//! Laws of positions. The contract of each function is a law; the functions do nothing.

ghost use Rattle.html_dom_document.specs.Paths.{PathsLead};

/// The path of each start tag below an `html` element, without its last index, leads from child to
/// child of the normal form to the element that holds the tag. This holds if there is no frame,
/// empty text or `html` element below that `html` element.
#[tactic(auto, using(crate::proofs::Leading::paths_lead))]
pub fn paths_lead()
    ensures { PathsLead }
{}
