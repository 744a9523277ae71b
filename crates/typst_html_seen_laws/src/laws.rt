//! Laws of pages. The contract of each function is a law; the functions do nothing.

ghost use Rattle.typst_html_seen_laws.specs.{AllSeen.{SeenNodesStay}, PageLaws.{ReadPagesAreSeen, UnseenPartsAreLeftOut}};

/// Exactly what is visible in the body of a text is visible of the element that was read from it,
/// if neither the element, nor its body, nor anything in the body is hidden. For a text that
/// `export` makes from items in plain flow without footnotes, plain or pretty, that is exactly the
/// items' text.
pub fn read_pages_are_seen()
    ensures seen { ReadPagesAreSeen }
    ensures nodes { SeenNodesStay }
{}

/// Exactly what is visible in the body of the text that is written of any element without its
/// hidden elements, plain or pretty, is visible of the element, if that text can be read back and
/// what has indents in the body is a border.
pub fn unseen_parts_are_left_out()
    ensures { UnseenPartsAreLeftOut }
{}
