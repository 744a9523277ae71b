//! Laws of trees that browsers keep. Each function has a law as its contract, and does nothing.

ghost use Rattle.typst_html_nesting_laws.specs.FragmentsStay.{FragmentsStay};
ghost use Rattle.typst_html_nesting_laws.specs.TreesStay.{ReadersAgree, TreesStay};

/// The plain text of a frame-free root in which nothing is misnested, without a fault and with valid
/// names, is read as that root, as a browser reads it, without an error.
pub fn trees_stay()
    ensures { TreesStay }
{}

/// So `read_html` and `read_page` read the same of that text: both trees have one normal form.
pub fn readers_agree()
    ensures { ReadersAgree }
{}

/// The plain text of frame-free nodes in which, in the body of a page, nothing is misnested,
/// without a fault and with valid names, is read as those nodes, as a browser reads a fragment,
/// without an error, if it begins with no byte order mark.
pub fn fragments_stay()
    ensures { FragmentsStay }
{}
