//! The part of a page that the check needs.

use crate::finding::Kind;
use crate::links::{Link, Links};
use html_page::{
    HtmlElement, Misnesting, PageFault, Place, Places, decode_page_bytes, element_at, misnested,
    place_names, read_page, repeated_ids,
};
use std::alloc::{AllocError, Global};
use std::collections::BTreeSet;

/// The greatest depth of elements.
const DEEPEST: usize = 1000;

/// The place and the kind of a flaw, and the id or what becomes of the element.
type Flaw = (Place, Kind, String);

/// A page that was read.
#[derive(Drop)]
pub struct Page {
    /// The names of its places.
    pub names: BTreeSet<String>,
    /// Its links within the site.
    pub links: Vec<Link>,
    /// The base of relative links, if it is not the page itself.
    pub base: Option<String>,
    /// The repeated ids, and the elements that some browsers place otherwise, or fill.
    pub flaws: Vec<Flaw>,
}

impl Page {
    /// Reads a page, and returns the part that the check needs.
    pub fn read(alloc: Global, bytes: &[u8]) -> Result<Page, PageFault> {
        let page = decode_page_bytes(alloc, bytes)?;
        let text = page.text.as_str();
        let (root, _) = read_page(alloc, text, DEEPEST)?;
        let Links { found, base, .. } = Links::of(alloc, &root, text)?;
        Ok(Page {
            names: place_names(alloc, &root)?,
            links: found,
            base,
            flaws: flaws_in(alloc, &root, text)?,
        })
    }
}

/// Returns the repeated ids of a page, and the nodes where some browsers depart from the tree that
/// was read. An empty id is none (DOM Standard 4.9). The other rules of nesting are about reading
/// that tree again after it is written.
fn flaws_in(alloc: Global, root: &HtmlElement, text: &str) -> Result<Vec<Flaw>, AllocError> {
    let (mut flaws, mut places) = (Vec::new(alloc), Places::new(text));
    for again in repeated_ids(alloc, root)? {
        if let Some(element) = element_at(root, &again.path)
            && !again.id.is_empty()
        {
            let place = places.at(element.span.0 as usize);
            flaws.push((place, Kind::RepeatedId, again.id))?;
        }
    }
    for node in &misnested(alloc, root)? {
        if matches!(node.why, Misnesting::TooDeep | Misnesting::Filled) {
            let place = places.at(node.span.0 as usize);
            flaws.push((place, Kind::Misnested, format!(in alloc; "{}", node.why)?))?;
        }
    }
    Ok(flaws)
}
