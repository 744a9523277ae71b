//! Which forms of items a reader accepts: the program's, or the wider ones of documents.

/// The forms of items that a reader accepts.
#[derive(Clone, Copy)]
pub(crate) enum Forms {
    /// The forms of the program.
    Program,
    /// The forms of documents, which also have css, labels, names of places, and roles.
    Document,
}
