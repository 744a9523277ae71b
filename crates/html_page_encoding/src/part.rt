//! Parts of the bytes in which a label is looked for.

/// Some of the scanned bytes.
#[derive(Clone, Copy)]
pub(crate) struct Part<'a> {
    pub(crate) text: &'a [u8],
    /// The number of scanned bytes from the first of them on.
    pub(crate) left: usize,
}
