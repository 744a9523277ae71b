//! The calls for C, by their names.

use crate::given::{DOCUMENT, ITEMS, OWN_ROOT, PAGE, TREE};
use std::alloc::{AllocError, Global};
use typst_html_ffi::{
    typst_html_check, typst_html_dead_links, typst_html_document, typst_html_fragment,
    typst_html_links, typst_html_unused, typst_html_write,
};

/// How deep bodies and elements may be nested.
const LIMIT: u32 = 9;

pub(crate) const CALLS: &str = "\
    typst_html_write typst_html_document typst_html_fragment typst_html_dead_links \
    typst_html_unused typst_html_check typst_html_links";

/// Makes the call of that name, and returns whether it writes a text. If it is refused, it has the
/// status 3, and no number.
pub(crate) fn is_written(alloc: Global, name: &str, buffer: &mut [u8]) -> Result<bool, AllocError> {
    let (page, document) = (PAGE.as_bytes(), DOCUMENT.as_bytes());
    let reply = match name {
        "typst_html_write" => typst_html_write(alloc, 0, 1, TREE.as_bytes(), buffer),
        "typst_html_document" => typst_html_document(alloc, 1, 1, LIMIT, document, buffer),
        "typst_html_fragment" => typst_html_fragment(alloc, 0, LIMIT, ITEMS.as_bytes(), buffer),
        "typst_html_dead_links" => typst_html_dead_links(alloc, LIMIT, document, buffer),
        "typst_html_unused" => typst_html_unused(alloc, LIMIT, OWN_ROOT.as_bytes(), buffer),
        "typst_html_check" => typst_html_check(alloc, LIMIT, page, buffer),
        "typst_html_links" => typst_html_links(alloc, LIMIT, page, buffer),
        _ => return Ok(false),
    };
    match (reply.status, reply.number) {
        (0 | 5, 0) => Ok(reply.length > 0),
        (3, 0) => Err(AllocError),
        _ => Ok(false),
    }
}
