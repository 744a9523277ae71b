//! Laws of reading. Each function has a law as its contract, and does nothing.

ghost use Rattle.typst_html_read.specs.ReadLaws.{WrittenIsRead, ReadIsWritten, ReadIsNormal};

/// The plain text of a frame-free element with valid names and without a fault is read as the
/// element that its normal form is, if `HtmlTag::intern` and `HtmlAttr::intern` accept its names.
#[tactic(auto, using(crate::proofs::ReadLaws::written_is_read))]
pub fn written_is_read()
    ensures { WrittenIsRead }
{}

/// The plain text of an element that was read reads as the original text does, if the element can
/// be written.
pub fn read_is_written()
    ensures { ReadIsWritten }
{}

/// The text of an element that was read reads as the element's normal form.
pub fn read_is_normal()
    ensures { ReadIsNormal }
{}
