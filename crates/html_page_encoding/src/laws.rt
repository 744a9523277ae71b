//! Laws of encodings of pages. Each function has laws as its contract, and does nothing.

ghost use Rattle.html_page_encoding.specs.GoingOn.{AttributesGoOn, OthersHaveTexts, ScanGoesOn};
ghost use Rattle.html_page_encoding.specs.Rows.{AreDecoded, AreRead, bytes, charsets, declarations, markup, pragmas, texts};

/// Examples of pages, with their encodings and texts.
pub fn rows_are_decoded()
    ensures bytes { AreRead bytes }
    ensures charsets { AreRead charsets }
    ensures pragmas { AreRead pragmas }
    ensures markup { AreRead markup }
    ensures declarations { AreRead declarations }
    ensures texts { AreDecoded texts }
{}

/// The scan reads all attributes of a tag, and all markup, as far as the bytes go.
#[tactic(auto, using(crate::proofs::Lengths::attributes_go_on, crate::proofs::Lengths::scan_goes_on))]
pub fn scan_goes_on()
    ensures attributes { AttributesGoOn }
    ensures markup { ScanGoesOn }
{}

/// A page that declares no encoding has a text.
#[tactic(auto, using(crate::proofs::Others::others_have_texts))]
pub fn others_have_texts()
    ensures { OthersHaveTexts }
{}
