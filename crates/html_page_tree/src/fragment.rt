//! The page around a fragment (HTML Standard 13.4).

ghost use Rattle.std.specs.Prelude.{◌≡◌, [], OnOk, codes};
ghost use Rattle.html_page_stack.specs.{PageViews.{page_of}, Pages.{opened}};
ghost use Rattle.html_page_tree.specs.FragmentPages.{fragment_begun};

use crate::body_start::open_implied;
use html_names_core::tag;
use html_page_stack::{Page, TableRule};
use std::alloc::AllocError;

#[tactic(auto, unfolding(html_names_core::specs::Tables::known_tags))]
fn open_html(page: &mut Page) -> Result<(), AllocError>
    ensures { OnOk result (page_of page.new ≡ opened (codes "html") [] (page_of page.old)) }
{
    open_implied(page, tag::html)
}

#[tactic(auto, unfolding(html_names_core::specs::Tables::known_tags))]
fn open_head(page: &mut Page) -> Result<(), AllocError>
    ensures { OnOk result (page_of page.new ≡ opened (codes "head") [] (page_of page.old)) }
{
    open_implied(page, tag::head)
}

#[tactic(auto, unfolding(html_names_core::specs::Tables::known_tags))]
fn open_body(page: &mut Page) -> Result<(), AllocError>
    ensures { OnOk result (page_of page.new ≡ opened (codes "body") [] (page_of page.old)) }
{
    open_implied(page, tag::body)
}

/// Opens the `body` in which a fragment is read, in a page of which nothing is read, as if a
/// document type without quirks stood before it.
#[tactic(auto, unfolding(crate::specs::FragmentPages::fragment_begun))]
pub fn begin_fragment(page: &mut Page) -> Result<(), AllocError>
    ensures { OnOk result (page_of page.new ≡ fragment_begun (page_of page.old)) }
{
    page.tables = TableRule::ClosesP;
    open_html(page)?;
    open_head(page)?;
    page.close(true)?;
    open_body(page)
}
