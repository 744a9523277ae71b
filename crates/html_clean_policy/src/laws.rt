//! Laws of the attributes that stay. The contract of each function is a law; the functions do
//! nothing.

ghost use Rattle.html_clean_policy.specs.Laws.{FewAttrsAreKept, KeptAttrsAreListed, KeptAttrsStay, KeptNamesAreThere, KeptUrlsAreAllowed, KeptValuesAreWritten, LinksHaveRel, NoBarredAttrIsKept};

/// What stays of attributes stays as it is when it is cleaned once more.
#[tactic(auto, using(crate::proofs::KeptAttrs::kept_attrs_stay))]
pub fn kept_attrs_stay()
    ensures { KeptAttrsStay }
{}

/// At most 256 attributes of an element stay.
#[tactic(auto, using(crate::proofs::KeptAttrs::few_attrs_are_kept))]
pub fn few_attrs_are_kept()
    ensures { FewAttrsAreKept }
{}

/// Each value that stays has text characters alone and no carriage return, so that it is read as it
/// is written.
#[tactic(auto, using(crate::proofs::KeptAttrs::kept_values_are_written))]
pub fn kept_values_are_written()
    ensures { KeptValuesAreWritten }
{}

/// Each URL that stays has a scheme that the policy lists, or none where it lets such URLs stay.
#[tactic(auto, using(crate::proofs::KeptAttrs::kept_urls_are_allowed))]
pub fn kept_urls_are_allowed()
    ensures { KeptUrlsAreAllowed }
{}

/// No event handler stays, and no `srcdoc`.
#[tactic(auto, using(crate::proofs::KeptAttrs::no_barred_attr_is_kept))]
pub fn no_barred_attr_is_kept()
    ensures { NoBarredAttrIsKept }
{}

/// Each attribute that stays has a name that was there before, or is a `rel`.
#[tactic(auto, using(crate::proofs::KeptAttrs::kept_names_are_there))]
pub fn kept_names_are_there()
    ensures { KeptNamesAreThere }
{}

/// Each attribute that stays is one that the policy lists for the element, or a `rel`.
#[tactic(auto, using(crate::proofs::LinkLaws::kept_attrs_are_listed))]
pub fn kept_attrs_are_listed()
    ensures { KeptAttrsAreListed }
{}

/// Where the policy has a `rel`, each `a`, `area` and `form` that leads elsewhere has it as its last
/// attribute, and no other `rel`.
#[tactic(auto, using(crate::proofs::LinkLaws::links_have_rel))]
pub fn links_have_rel()
    ensures { LinksHaveRel }
{}
