//! Which attributes of an element stay, and with what values.

ghost use Rattle.std.specs.Prelude.{◌≡◌, ◌++◌, chars, take, option_map, option_to_list, IfOk, OnOk};
ghost use Rattle.html_dom_tree.specs.Views.{attrs_view, text_view};
ghost use Rattle.html_clean_policy.specs.KeptAttrs.{adapted, kept_pair, kept_text, kept_value, pairs_kept, unless_empty, unless_gone, urls_stay};
ghost use Rattle.html_clean_policy.specs.PolicyViews.{policy_view};

use crate::attr_use::{AttrUse, use_of};
use crate::names::may_stay;
use crate::policy::Policy;
use html_clean_styles::clean_style;
use html_clean_values::{
    prefixed_href, prefixed_name, prefixed_words, replaced, srcset_is_allowed, url_is_allowed,
    urls_are_allowed,
};
use html_dom_tree::HtmlAttrs;
use html_names_core::{HtmlAttr, HtmlTag};
use std::alloc::{AllocError, Global};

#[tactic(auto, unfolding(crate::specs::KeptAttrs::urls_stay))]
fn urls_stay(policy: &Policy, of: AttrUse, text: &str) -> bool
    ensures { result ≡ urls_stay (policy_view policy.now) of (chars text.now) }
{
    match of {
        AttrUse::Link => url_is_allowed(&policy.schemes, policy.relative, text),
        AttrUse::Url => url_is_allowed(&policy.schemes, policy.relative, text),
        AttrUse::Urls => urls_are_allowed(&policy.schemes, policy.relative, text),
        AttrUse::Srcset => srcset_is_allowed(&policy.schemes, policy.relative, text),
        AttrUse::Text => true,
        AttrUse::Style => true,
        AttrUse::Name => true,
        AttrUse::Names => true,
    }
}

#[tactic(auto, unfolding(crate::specs::KeptAttrs::adapted))]
fn adapted(policy: &Policy, alloc: Global, of: AttrUse, text: String) -> Result<String, AllocError>
    ensures { IfOk result (λ made.
        text_view made ≡ adapted (policy_view policy.now) of (text_view text)) }
{
    match of {
        AttrUse::Style => clean_style(alloc, &policy.properties, &text),
        AttrUse::Link => prefixed_href(alloc, &policy.prefix, &text),
        AttrUse::Name => prefixed_name(alloc, &policy.prefix, &text),
        AttrUse::Names => prefixed_words(alloc, &policy.prefix, &text),
        AttrUse::Text => Ok(text),
        AttrUse::Url => Ok(text),
        AttrUse::Urls => Ok(text),
        AttrUse::Srcset => Ok(text),
    }
}

fn unless_empty(text: String) -> Option<String>
    ensures { option_map text_view result ≡ unless_empty (text_view text) }
{
    if text.as_str().is_empty() {
        None
    } else {
        Some(text)
    }
}

#[tactic(auto, unfolding(crate::specs::KeptAttrs::unless_gone))]
fn unless_gone(of: AttrUse, text: String) -> Option<String>
    ensures { option_map text_view result ≡ unless_gone of (text_view text) }
{
    match of {
        AttrUse::Style => unless_empty(text),
        AttrUse::Text => Some(text),
        AttrUse::Link => Some(text),
        AttrUse::Url => Some(text),
        AttrUse::Urls => Some(text),
        AttrUse::Srcset => Some(text),
        AttrUse::Name => Some(text),
        AttrUse::Names => Some(text),
    }
}

#[tactic(auto, unfolding(crate::specs::KeptAttrs::kept_text))]
fn kept_text(
    policy: &Policy,
    alloc: Global,
    of: AttrUse,
    text: String,
) -> Result<Option<String>, AllocError>
    ensures { IfOk result (λ kept.
        option_map text_view kept ≡ kept_text (policy_view policy.now) of (text_view text)) }
{
    if !urls_stay(policy, of, &text) {
        return Ok(None);
    }
    let made = adapted(policy, alloc, of, text)?;
    Ok(unless_gone(of, made))
}

#[tactic(auto, unfolding(crate::specs::KeptAttrs::kept_value))]
fn kept_value(
    policy: &Policy,
    alloc: Global,
    tag: &HtmlTag,
    attr: &HtmlAttr,
    value: &str,
) -> Result<Option<String>, AllocError>
    ensures { IfOk result (λ kept. option_map text_view kept
        ≡ kept_value (policy_view policy.now) tag.now attr.now (chars value.now)) }
{
    if !may_stay(policy, tag, attr) {
        return Ok(None);
    }
    let text = replaced(alloc, value)?;
    kept_text(policy, alloc, use_of(attr.resolve()), text)
}

fn add_kept(
    policy: &Policy,
    kept: &mut HtmlAttrs,
    tag: &HtmlTag,
    attr: &HtmlAttr,
    value: &String,
) -> Result<(), AllocError>
    ensures { OnOk result (attrs_view kept.new ≡ attrs_view kept.old
        ++ option_to_list
        (kept_pair (policy_view policy.now) tag.now (attr.now, text_view value.now))) }
{
    let alloc = *kept.0.allocator();
    if let Some(value) = kept_value(policy, alloc, tag, attr, value)? {
        kept.push(attr.try_clone()?, value)?;
    }
    Ok(())
}

/// Returns the first `most` attributes of an element that stay.
pub(crate) fn first_kept(
    policy: &Policy,
    most: usize,
    tag: &HtmlTag,
    attrs: &HtmlAttrs,
) -> Result<HtmlAttrs, AllocError>
    ensures { IfOk result (λ kept. attrs_view kept
        ≡ take most (pairs_kept (policy_view policy.now) tag.now (attrs_view attrs.now))) }
{
    let mut kept = HtmlAttrs::new(*attrs.0.allocator());
    for (attr, value) in &attrs.0 {
        if kept.0.len() >= most {
            return Ok(kept);
        }
        add_kept(policy, &mut kept, tag, attr, value)?;
    }
    Ok(kept)
}
