//! The `rel` of links, and how many attributes stay.

ghost use Rattle.std.specs.List.{list_any};
ghost use Rattle.std.specs.Prelude.{◌≡◌, chars, map, IfOk};
ghost use Rattle.html_dom_tree.specs.Views.{attrs_view, pair_view};
ghost use Rattle.html_clean_policy.specs.LinkRels.{is_link, is_rel, is_target, leads, with_rel, without_rel};

use html_dom_tree::HtmlAttrs;
use html_names_core::{HtmlAttr, HtmlTag};
use html_page_names::is_one_of;
use std::alloc::{AllocError, Global};

/// How many attributes of an element stay at most.
pub(crate) const MOST_ATTRS: usize = 256;

/// How many of them stay before the `rel` that a policy gives a link.
pub(crate) const MOST_BEFORE_REL: usize = 255;

/// Returns whether an element with that name can lead elsewhere.
#[tactic(auto, unfolding(crate::specs::LinkRels::is_link))]
pub(crate) fn is_link(tag: &HtmlTag) -> bool
    ensures { result ≡ is_link tag.now }
{
    is_one_of(&["a", "area", "form"], tag.resolve())
}

#[tactic(auto, unfolding(crate::specs::LinkRels::is_target))]
fn is_target(attr: &HtmlAttr) -> bool
    ensures { result ≡ is_target attr.now }
{
    is_one_of(&["action", "href"], attr.resolve())
}

#[tactic(auto, unfolding(crate::specs::LinkRels::is_rel))]
fn is_rel(attr: &HtmlAttr) -> bool
    ensures { result ≡ is_rel attr.now }
{
    is_one_of(&["rel"], attr.resolve())
}

fn leads(attrs: &HtmlAttrs) -> bool
    ensures { result ≡ leads (attrs_view attrs.now) }
{
    for (attr, _) in &attrs.0 {
        if is_target(attr) {
            return true;
        }
    }
    false
}

fn without_rel(alloc: Global, attrs: HtmlAttrs) -> Result<HtmlAttrs, AllocError>
    ensures { IfOk result (λ made. attrs_view made ≡ without_rel (attrs_view attrs)) }
{
    let mut made = HtmlAttrs::new(alloc);
    for (attr, value) in attrs.0 {
        if !is_rel(&attr) {
            made.push(attr, value)?;
        }
    }
    Ok(made)
}

/// Returns the attributes of a link, with that `rel` in place of each other one if they have a
/// target.
pub(crate) fn with_rel(alloc: Global, rel: &str, attrs: HtmlAttrs) -> Result<HtmlAttrs, AllocError>
    ensures { IfOk result (λ made. attrs_view made ≡ with_rel (chars rel.now) (attrs_view attrs)) }
{
    if !leads(&attrs) {
        return Ok(attrs);
    }
    let mut made = without_rel(alloc, attrs)?;
    let value = String::from_str(alloc, rel)?;
    made.push(HtmlAttr::constant(alloc, "rel")?, value)?;
    Ok(made)
}
