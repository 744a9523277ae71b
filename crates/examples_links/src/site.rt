//! A site, and what is wrong in it.

use crate::finding::{Finding, Kind};
use crate::links::Link;
use crate::page::Page;
use crate::pages::Pages;
use anyhow::Result;
use examples_links_files::{
    Entry, Files, Found, Input, Listing, Spot, fragment_of, is_external, spot_of,
};
use html_page::fragment_leads;
use std::alloc::{AllocError, Global};

/// A site whose pages were read.
#[derive(Drop)]
pub struct Site<'a> {
    alloc: Global,
    files: Files<'a>,
    /// Its pages.
    pub pages: Pages,
}

/// Reads the given pages, and those in the given folders. Every 500 pages, reports how many are
/// read.
pub fn read_site<'a>(rt: &HostRuntime, inputs: &'a [Input]) -> Result<Site<'a>> {
    let alloc = rt.alloc();
    let Listing {
        files,
        not_given,
        ..
    } = Listing::of(rt, inputs)?;
    let mut pages = Pages::new(alloc, not_given)?;
    for (path, entry) in files.entries() {
        if matches!(entry, Entry::Page { .. }) {
            pages.add(rt, path.as_str())?;
        }
    }
    Ok(Site {
        alloc,
        files,
        pages,
    })
}

/// Returns what is wrong in a site, sorted by file and place.
pub fn check_site<'a>(
    rt: &HostRuntime,
    site: &'a Site<'_>,
) -> Result<Vec<Finding<'a>>, AllocError> {
    let mut findings = Vec::new(site.alloc);
    for (path, page) in &site.pages.read {
        for finding in site.findings_in(rt, path.as_str(), page)? {
            findings.push(finding)?;
        }
    }
    Ok(findings)
}

impl Site<'_> {
    /// Returns what is wrong in a page, sorted by place.
    fn findings_in<'a>(
        &'a self,
        rt: &HostRuntime,
        file: &'a str,
        page: &'a Page,
    ) -> Result<Vec<Finding<'a>>, AllocError> {
        let mut findings = Vec::new(self.alloc);
        for (place, kind, target) in &page.flaws {
            findings.push(Finding {
                file,
                place: *place,
                kind: *kind,
                link: None,
                target: target.clone()?,
            })?;
        }
        self.add_links(rt, file, page, &mut findings)?;
        findings.sort_by_key(|finding: &Finding<'_>| finding.place.offset)?;
        Ok(findings)
    }

    /// Adds what is wrong with the links of a page.
    fn add_links<'a>(
        &'a self,
        rt: &HostRuntime,
        file: &'a str,
        page: &'a Page,
        findings: &mut Vec<Finding<'a>>,
    ) -> Result<(), AllocError> {
        let root = self.root_of(file);
        let Some(base) = self.base_of(file, root, page)? else {
            return Ok(());
        };
        for link in &page.links {
            if let Some((kind, target)) = self.fault(rt, &base, root, link)? {
                findings.push(Finding {
                    file,
                    place: link.place,
                    kind,
                    link: Some(link.address.as_str()),
                    target,
                })?;
            }
        }
        Ok(())
    }

    /// Returns the folder from which links of a page that begin with `/` start.
    fn root_of(&self, file: &str) -> &str {
        match self.files.entries().get(file) {
            Some(Entry::Page { root }) => root,
            _ => "",
        }
    }

    /// Returns the base of a page's relative links, if it is in the site.
    fn base_of(&self, file: &str, root: &str, page: &Page) -> Result<Option<Spot>, AllocError> {
        let own = Spot {
            path: String::from_str(self.alloc, file)?,
            is_folder: false,
        };
        match &page.base {
            Some(base) if is_external(base.as_str()) => Ok(None),
            Some(base) => Ok(Some(spot_of(self.alloc, &own, root, base.as_str())?)),
            None => Ok(Some(own)),
        }
    }

    /// Returns what is wrong with a link, and its target.
    fn fault(
        &self,
        rt: &HostRuntime,
        base: &Spot,
        root: &str,
        link: &Link,
    ) -> Result<Option<(Kind, String)>, AllocError> {
        let address = link.address.as_str();
        let spot = spot_of(self.alloc, base, root, address)?;
        match self.files.find(rt, spot)? {
            Found::Page(path) if link.is_followed => self.dead_fragment(path, address),
            Found::Page(_) | Found::File => Ok(None),
            Found::OtherCase(path) => Ok(Some((Kind::OtherCase, path))),
            Found::Nothing(path) => Ok(Some((Kind::MissingFile, path))),
        }
    }

    /// Returns the target of a link to a page, if its fragment leads to no place there.
    fn dead_fragment(
        &self,
        mut path: String,
        address: &str,
    ) -> Result<Option<(Kind, String)>, AllocError> {
        let page = self.pages.read.get(path.as_str());
        let (Some(page), Some(fragment)) = (page, fragment_of(address)) else {
            return Ok(None);
        };
        if fragment_leads(self.alloc, &page.names, fragment)? {
            return Ok(None);
        }
        path.push('#')?;
        path.push_str(fragment)?;
        Ok(Some((Kind::DeadFragment, path)))
    }
}
