//! Laws of clean nodes. Each function has a law as its contract, and does nothing.

ghost use Rattle.html_clean_laws.specs.CleanLaws.{CleanIsKept, CleanStays, CleanedIsClean, CleanedIsRead, CleanedPageIsRead};

/// HTML can hold each character of what a cleaner leaves, the policy allows each element, attribute, URL
/// and declaration, and browsers leave each node where it is, in the `body` of a page.
#[tactic(auto, using(crate::proofs::Cleaned::cleaned_is_clean))]
pub fn cleaned_is_clean()
    ensures { CleanedIsClean }
{}

/// Cleaning what is clean changes nothing.
#[tactic(auto, using(crate::proofs::Again::clean_stays))]
pub fn clean_stays()
    ensures { CleanStays }
{}

/// Clean nodes have no fault of writing, and nothing in them is misnested.
pub fn clean_is_kept()
    ensures { CleanIsKept }
{}

/// So a parser of fragments reads the text of what a cleaner leaves as these nodes.
#[tactic(auto, using(crate::proofs::Kept::cleaned_is_read))]
pub fn cleaned_is_read()
    ensures { CleanedIsRead }
{}

/// And a parser of pages reads a page with these nodes in its `body` as that page.
#[tactic(auto, using(crate::proofs::Pages::cleaned_page_is_read))]
pub fn cleaned_page_is_read()
    ensures { CleanedPageIsRead }
{}
