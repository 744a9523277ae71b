//! Laws of what stays of a style. The contract of each function is a law; the functions do nothing.

ghost use Rattle.html_clean_styles.specs.Laws.{CleanStylesArePrintable, CleanStylesAreText, CleanStylesStay};

/// What [`clean_style`](crate::clean_style) leaves stays as it is when it is cleaned once more, if
/// the names of the properties are of small letters and `-`.
#[tactic(auto, using(crate::proofs::Again::clean_styles_stay))]
pub fn clean_styles_stay()
    ensures { CleanStylesStay }
{}

/// Each character of it is then printable ASCII, so a text character and no carriage return.
#[tactic(auto, using(crate::proofs::Again::clean_styles_are_printable, crate::proofs::Again::clean_styles_are_text))]
pub fn clean_styles_are_printable()
    ensures printable { CleanStylesArePrintable }
    ensures text { CleanStylesAreText }
{}
