//! What may stand between the tags of an element: raw text, escapable raw text, or nodes.

/// The kind of content that an element may have between its tags.
#[derive(Clone, Copy, PartialEq, Eq)]
pub(crate) enum ContentKind {
    Raw,
    EscapableRaw,
    Nodes,
}
