//! Which names of attributes a policy lets stay.

ghost use Rattle.std.specs.Prelude.{◌≡◌, chars};
ghost use Rattle.html_clean_policy.specs.{AttrNames.{has_pair, is_barred, is_data_name, is_listed, is_srcdoc, may_stay}, PolicyViews.{policy_view}};
ghost use Rattle.html_names_core.specs.Names.{stands_in};

use crate::policy::Policy;
use html_names_core::attr::is_event_handler;
use html_names_core::{HtmlAttr, HtmlTag};
use html_page_names::is_one_of;

#[tactic(auto, unfolding(html_names_core::specs::Names::stands_in))]
fn holds(names: &[HtmlAttr], attr: &HtmlAttr) -> bool
    ensures { result ≡ stands_in names.now attr.now }
{
    for name in names {
        if *name == *attr {
            return true;
        }
    }
    false
}

#[tactic(auto, unfolding(crate::specs::AttrNames::has_pair))]
fn has_pair(pairs: &[(HtmlTag, HtmlAttr)], tag: &HtmlTag, attr: &HtmlAttr) -> bool
    ensures { result ≡ has_pair pairs.now tag.now attr.now }
{
    for pair in pairs {
        if pair.0 == *tag && pair.1 == *attr {
            return true;
        }
    }
    false
}

#[tactic(auto, unfolding(crate::specs::AttrNames::is_data_name))]
fn is_data_name(name: &str) -> bool
    ensures { result ≡ is_data_name (chars name.now) }
{
    name.starts_with("data-")
}

#[tactic(auto, unfolding(crate::specs::AttrNames::is_srcdoc))]
fn is_srcdoc(attr: &HtmlAttr) -> bool
    ensures { result ≡ is_srcdoc attr.now }
{
    is_one_of(&["srcdoc"], attr.resolve())
}

/// Returns whether no policy lets the attribute stay.
#[tactic(auto, unfolding(crate::specs::AttrNames::is_barred))]
pub(crate) fn is_barred(attr: &HtmlAttr) -> bool
    ensures { result ≡ is_barred attr.now }
{
    is_event_handler(attr) || is_srcdoc(attr)
}

#[tactic(auto, unfolding(crate::specs::AttrNames::is_listed))]
fn is_listed(policy: &Policy, tag: &HtmlTag, attr: &HtmlAttr) -> bool
    ensures { result ≡ is_listed (policy_view policy.now) tag.now attr.now }
{
    holds(&policy.attrs, attr)
        || has_pair(&policy.own_attrs, tag, attr)
        || (policy.data_attrs && is_data_name(attr.resolve()))
}

/// Returns whether the attribute stays on that element, if its value does.
#[tactic(auto, unfolding(crate::specs::AttrNames::may_stay))]
pub(crate) fn may_stay(policy: &Policy, tag: &HtmlTag, attr: &HtmlAttr) -> bool
    ensures { result ≡ may_stay (policy_view policy.now) tag.now attr.now }
{
    is_listed(policy, tag, attr) && !is_barred(attr)
}
