//! The links of a page.

use examples_links_files::{cleaned, is_external, scheme_of};
use html_page::{HtmlElement, Place, Places, Visit, Walk, attr, base_of};
use std::alloc::{AllocError, Global};

/// A link within the site.
#[derive(Drop)]
pub struct Link {
    /// The place of its element.
    pub place: Place,
    /// Its address, without the characters that a URL drops.
    pub address: String,
    /// Whether users follow it, so that its fragment counts.
    pub is_followed: bool,
}

/// The links of a page, in document order.
#[derive(Drop)]
pub struct Links<'a> {
    alloc: Global,
    places: Places<'a>,
    /// The links within the site.
    pub found: Vec<Link>,
    /// The base of relative links, if it is not the page itself.
    pub base: Option<String>,
}

impl<'a> Links<'a> {
    /// Collects the links of a page with that text.
    pub fn of(alloc: Global, root: &HtmlElement, text: &'a str) -> Result<Links<'a>, AllocError> {
        let mut links = Links {
            alloc,
            places: Places::new(text),
            found: Vec::new(alloc),
            base: base_address(alloc, root)?,
        };
        links.add_tree(root)?;
        Ok(links)
    }

    /// Adds the links of a tree, apart from those in SVG and MathML.
    fn add_tree(&mut self, root: &HtmlElement) -> Result<(), AllocError> {
        self.add(root)?;
        let mut is_foreign = holds_foreign(root.tag.resolve(), false);
        let mut outer = Vec::new(self.alloc);
        let mut walk = Walk::over(self.alloc, &root.children);
        while let Some(visit) = walk.next()? {
            match visit {
                Visit::Enter(element) => {
                    if !is_foreign {
                        self.add(element)?;
                    }
                    outer.push(is_foreign)?;
                    is_foreign = holds_foreign(element.tag.resolve(), is_foreign);
                }
                Visit::Leave => is_foreign = outer.pop().unwrap_or(false),
                Visit::Tag(_) | Visit::Text(_, _) | Visit::Frame(_) => {}
            }
        }
        Ok(())
    }

    /// Adds the link of an element, if it is one.
    fn add(&mut self, element: &HtmlElement) -> Result<(), AllocError> {
        let Some(address) = address_of(element) else {
            return Ok(());
        };
        let address = cleaned(self.alloc, address.as_str())?;
        if !is_external(address.as_str()) {
            self.found.push(Link {
                place: self.places.at(element.span.0 as usize),
                address,
                is_followed: matches!(element.tag.resolve(), "a" | "area"),
            })?;
        }
        Ok(())
    }
}

/// Returns the base of a page's links, unless no link can lead from it: then they are resolved
/// against the page (HTML Standard 4.2.3).
fn base_address(alloc: Global, root: &HtmlElement) -> Result<Option<String>, AllocError> {
    let Some(href) = base_of(root) else {
        return Ok(None);
    };
    let address = cleaned(alloc, href.as_str())?;
    let leads = match scheme_of(address.as_str()) {
        Some(scheme) => {
            !scheme.eq_ignore_ascii_case("data") && !scheme.eq_ignore_ascii_case("javascript")
        }
        None => true,
    };
    Ok(if leads { Some(address) } else { None })
}

/// Returns the address in an element that is a link.
fn address_of(element: &HtmlElement) -> Option<&String> {
    match element.tag.resolve() {
        "a" | "area" | "link" => element.attrs.get(&attr::href),
        "img" | "script" | "iframe" | "embed" | "source" | "track" | "audio" | "video" => {
            element.attrs.get(&attr::src)
        }
        "object" => element.attrs.get(&attr::data),
        _ => None,
    }
}

/// Returns whether the children of an element with that name belong to SVG or MathML.
fn holds_foreign(name: &str, is_foreign: bool) -> bool {
    match name {
        "svg" | "math" => true,
        "foreignObject" | "desc" | "title" => false,
        _ => is_foreign,
    }
}
