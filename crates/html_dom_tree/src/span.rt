//! Spans, which lead from a node or a fault to its place in the caller's source.

/// The caller's number for a place in the source: a line, an offset, or the index of an element of
/// the source. It is stored, copied and compared with the item or node that has it, but never
/// computed with or written.
///
/// `Span(0)` means nowhere. New elements have it until `spanned` sets another; tags and holes
/// always have it, as does everything that comes from no item, such as a document's head. A node
/// made from an item has the item's span; a `span` that preserves a run of blanks has the first
/// span in the run that is not 0.
///
/// A refusal reports its place as a span (`ExportFault::span`). If several things are wrong with a
/// tree, it reports the first in document order, with this span:
///
/// - a character that can't be written: that of the text, or of the element with the value;
/// - a void element with a child, a raw text that would end its element, or an `html` or `body`
///   among other nodes: that of the element;
/// - an element or a frame where only texts may stand: its own;
/// - a frame that its writer refuses: its own;
/// - a body that is too deep: that of the item that has the body, or the one passed with a
///   fragment;
/// - footnotes beside an `html` or `body` of the document's own: that of the first footnote;
/// - arguments that construct no element: that of the first that can't be cast, else that of the
///   body;
/// - an element that is too deep in a text that is read, once the fault becomes an `ExportFault`:
///   its place in the text.
///
/// A failed allocation, and a name or value that is refused on its own, have the span 0.
#[derive(Clone, Copy, Debug, PartialEq, Eq, PartialOrd, Ord, Hash)]
pub struct Span(pub u64);
