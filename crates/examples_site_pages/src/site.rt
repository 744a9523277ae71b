//! The pages of a site as HTML, each with a navigation and with links that lead.

use crate::page::Page;
use anyhow::{Context, Result, anyhow};
use html_page::{element_at, misnested};
use percent_encoding::{AsciiSet, NON_ALPHANUMERIC, ascii_set, utf8_percent_encode};
use std::alloc::Global;
use std::collections::BTreeMap;
use std::mem;
use typst_html::{
    DocumentInfo, HtmlAttrs, HtmlDocument, HtmlElem, HtmlElement, HtmlNode, HtmlOptions, Item,
    Location, NamedPlaces, Pair, Span, Tag, attr, create_link_anchors, dead_links, href_to, html,
    html_document_for_bundle, push_located, resolve_links, tag,
};

/// The greatest depth of items.
const DEEPEST: usize = 50;

/// The characters that are percent-encoded in the names of pages.
const RESERVED: AsciiSet = ascii_set!(
    NON_ALPHANUMERIC
        .remove(b'-')
        .remove(b'.')
        .remove(b'_')
        .remove(b'~')
);

/// The addresses of locations, for links in other pages.
pub type Hrefs = BTreeMap<Location, String>;

/// A site.
#[derive(Drop)]
pub struct Site<'a> {
    /// The allocator.
    pub alloc: Global,
    /// Its title.
    pub title: Option<&'a str>,
    /// Its pages, in the order of their names.
    pub pages: Vec<Page>,
    /// The locations of link targets, `page#label` or `page`.
    pub places: NamedPlaces,
}

impl<'a> Site<'a> {
    /// Creates a site with that title, without pages.
    pub fn new(alloc: Global, title: Option<&'a str>) -> Site<'a> {
        Site {
            alloc,
            title,
            pages: Vec::new(alloc),
            places: NamedPlaces::new(alloc),
        }
    }
}

impl Site<'_> {
    /// Makes the document of a page, with anchors for its headings.
    pub fn document(&self, page: &Page) -> Result<HtmlDocument> {
        let (items, info) = (self.items(page)?, self.info(page)?);
        let mut document = html_document_for_bundle(self.alloc, &items, &info, &[], DEEPEST)?;
        let anchors = create_link_anchors(self.alloc, &mut document, &page.headings)?;
        document.introspector_mut().set_anchors(anchors);
        Ok(document)
    }

    /// Makes the visible part of a page.
    fn items(&self, page: &Page) -> Result<Vec<Pair>> {
        let items = page.items.iter().map(|item| item.try_clone());
        let items = items.try_collect(self.alloc)?;
        let main = HtmlElem::new(self.alloc, tag::main).with_body(items);
        let navigation = self.navigation(page)?;
        Ok(vec![in self.alloc; Pair::from(navigation), Pair::from(main)]?)
    }

    /// Returns the information about a page.
    fn info(&self, page: &Page) -> Result<DocumentInfo> {
        let title = match self.title {
            Some(title) => format!(in self.alloc; "{} - {title}", page.title)?,
            None => page.title.clone()?,
        };
        Ok(DocumentInfo {
            title: Some(title),
            ..DocumentInfo::new(self.alloc)
        })
    }

    /// Makes the links to all pages, and marks that to the current one.
    fn navigation(&self, current: &Page) -> Result<HtmlElem> {
        let mut entries = Vec::new(self.alloc);
        for page in &self.pages {
            let entry = entry(self.alloc, page, page.location == current.location)?;
            entries.push(Pair::from(entry))?;
        }
        let list = HtmlElem::new(self.alloc, tag::ul).with_body(entries);
        Ok(HtmlElem::new(self.alloc, tag::nav).with_item(self.alloc, Pair::from(list))?)
    }

    /// Adds the address of a page, and those of its headings, by their anchors in its document.
    pub fn add_hrefs(&self, hrefs: &mut Hrefs, page: &Page, document: &HtmlDocument) -> Result<()> {
        let name = utf8_percent_encode(&page.name, RESERVED);
        let file = format!(in self.alloc; "{name}.html")?;
        for heading in &page.headings {
            if let Some(anchor) = document.introspector().anchor(*heading) {
                let fragment = href_to(self.alloc, anchor)?;
                let href = format!(in self.alloc; "{file}{fragment}")?;
                let _ = hrefs.insert(*heading, href)?;
            }
        }
        let _ = hrefs.insert(page.location, file)?;
        Ok(())
    }

    /// Returns a line for each node that browsers would move in the document of a page, with its
    /// file and line.
    pub fn misnested(&self, page: &Page, document: &HtmlDocument) -> Result<Vec<String>> {
        let (root, mut lines) = (document.root(), Vec::new(self.alloc));
        for node in &misnested(self.alloc, root)? {
            let place = page.place(self.alloc, node.span)?;
            let name = element_at(root, &node.path).map_or("#text", |found| found.tag.resolve());
            lines.push(format!(in self.alloc;
                "{place}: a browser reads {name:?} otherwise: it {}",
                node.why
            )?)?;
        }
        Ok(lines)
    }

    /// Returns the HTML text of the document of a page, in which all links must lead.
    pub fn text(
        &self,
        page: &Page,
        mut document: HtmlDocument,
        hrefs: &Hrefs,
        options: &HtmlOptions,
    ) -> Result<String> {
        resolve_links(self.alloc, &mut document)?;
        let root = document.root_mut();
        let children = mem::replace(&mut root.children, Vec::new(self.alloc));
        root.children = nodes_with_hrefs(self.alloc, children, hrefs)?;
        self.ensure_links_lead(page, &document)?;
        let made = html(self.alloc, &document, options, &());
        let span = made.as_ref().err().map_or(Span(0), |fault| fault.span());
        made.with_context(|| page.place(self.alloc, span))
    }

    /// Refuses a document with a link that leads nowhere.
    fn ensure_links_lead(&self, page: &Page, document: &HtmlDocument) -> Result<()> {
        if let Some(link) = dead_links(self.alloc, document)?.first() {
            let target = self.places.name(link.dest).unwrap_or_default();
            let error = anyhow!("no heading or page is named {target:?}");
            return Err(error.context(page.place(self.alloc, link.span)?));
        }
        Ok(())
    }
}

/// Makes an entry of a list, with a link to a page.
fn entry(alloc: Global, page: &Page, is_current: bool) -> Result<HtmlElem> {
    let mut link = HtmlElem::new(alloc, tag::a).with_text(alloc, &page.title)?;
    if is_current {
        link = link.with_attr_text(attr::aria_current, "page")?;
    }
    let (mut items, dest) = (Vec::new(alloc), Some(page.location));
    push_located(&mut items, Location(0), None, dest, Item::from(link))?;
    Ok(HtmlElem::new(alloc, tag::li).with_body(items))
}

/// Gives each link in the nodes that has no `href` the one of its destination.
#[cycle(hrefs)]
fn nodes_with_hrefs(alloc: Global, nodes: Vec<HtmlNode>, hrefs: &Hrefs) -> Result<Vec<HtmlNode>> {
    let mut made = Vec::with_capacity(alloc, nodes.len())?;
    let mut dest = None;
    for node in nodes {
        let next = dest_behind(dest, &node);
        made.push(node_with_href(alloc, node, dest, hrefs)?)?;
        dest = next;
    }
    Ok(made)
}

/// Does so in a node after a start tag with that destination, if there is one.
#[cycle(hrefs)]
fn node_with_href(
    alloc: Global,
    node: HtmlNode,
    dest: Option<Location>,
    hrefs: &Hrefs,
) -> Result<HtmlNode> {
    match node {
        HtmlNode::Element(element) => Ok(HtmlNode::Element(HtmlElement {
            attrs: attrs_with_href(element.attrs, dest, hrefs)?,
            children: nodes_with_hrefs(alloc, element.children, hrefs)?,
            ..element
        })),
        HtmlNode::Tag(_) | HtmlNode::Text(_, _) | HtmlNode::Frame(_) => Ok(node),
    }
}

/// Adds an `href` in front of the attributes of an element after such a tag, unless it has one.
fn attrs_with_href(
    mut attrs: HtmlAttrs,
    dest: Option<Location>,
    hrefs: &Hrefs,
) -> Result<HtmlAttrs> {
    if let Some(href) = dest.and_then(|to| hrefs.get(&to))
        && attrs.get(&attr::href).is_none()
    {
        attrs.push_front(attr::href, href.clone()?)?;
    }
    Ok(attrs)
}

/// Returns the destination that counts right after a node, given that right before it.
fn dest_behind(dest: Option<Location>, node: &HtmlNode) -> Option<Location> {
    match node {
        HtmlNode::Tag(Tag::Start { dest: Some(to), .. }) => Some(*to),
        HtmlNode::Tag(_) => dest,
        _ => None,
    }
}
