//! Laws of links. The contract of each function is a law; the functions do nothing.

ghost use Rattle.html_links.specs.HrefLaws.{LeadingHrefsLead, PlainHrefsLead};

/// An `href` chosen for the name of a place leads to it; the plain one of
/// [`href_to`](crate::href_to) does unless another place has its spelling as its own name.
#[tactic(auto, using(crate::proofs::SpelledNames::leading_hrefs_lead, crate::proofs::SpelledNames::plain_hrefs_lead))]
pub fn hrefs_lead()
    ensures chosen { LeadingHrefsLead }
    ensures plain { PlainHrefsLead }
{}
