//! What the value of an attribute is, by its name.

ghost use Rattle.std.specs.Prelude.{◌≡◌, chars};
ghost use Rattle.html_clean_policy.specs.AttrUses.{holds_link, holds_name, holds_names, holds_srcset, holds_style, holds_url, holds_urls, use_of};

use html_page_names::is_one_of;

/// What the value of an attribute is.
#[derive(Clone, Copy)]
pub(crate) enum AttrUse {
    /// A text.
    Text,
    /// Declarations of css.
    Style,
    /// A URL that may be a fragment of the page.
    Link,
    /// Another URL.
    Url,
    /// URLs that white space separates.
    Urls,
    /// Image candidates.
    Srcset,
    /// The name of a place or part of the page.
    Name,
    /// Such names, which white space separates.
    Names,
}

#[tactic(auto, unfolding(crate::specs::AttrUses::holds_style))]
fn holds_style(name: &str) -> bool
    ensures { result ≡ holds_style (chars name.now) }
{
    is_one_of(&["style"], name)
}

#[tactic(auto, unfolding(crate::specs::AttrUses::holds_link))]
fn holds_link(name: &str) -> bool
    ensures { result ≡ holds_link (chars name.now) }
{
    is_one_of(&["href", "usemap"], name)
}

/// The attributes whose values are URLs, other than those of links.
const URLS: [&str; 17] = [
    "action",
    "background",
    "cite",
    "classid",
    "codebase",
    "data",
    "dynsrc",
    "formaction",
    "icon",
    "longdesc",
    "lowsrc",
    "manifest",
    "poster",
    "profile",
    "src",
    "xlink:href",
    "xml:base",
];

#[tactic(auto, unfolding(crate::specs::AttrUses::holds_url))]
fn holds_url(name: &str) -> bool
    ensures { result ≡ holds_url (chars name.now) }
{
    is_one_of(&URLS, name)
}

#[tactic(auto, unfolding(crate::specs::AttrUses::holds_urls))]
fn holds_urls(name: &str) -> bool
    ensures { result ≡ holds_urls (chars name.now) }
{
    is_one_of(&["archive", "ping"], name)
}

#[tactic(auto, unfolding(crate::specs::AttrUses::holds_srcset))]
fn holds_srcset(name: &str) -> bool
    ensures { result ≡ holds_srcset (chars name.now) }
{
    is_one_of(&["imagesrcset", "srcset"], name)
}

/// The attributes whose values are names of places or parts of the page.
const NAMES: [&str; 8] = [
    "aria-activedescendant",
    "commandfor",
    "for",
    "form",
    "id",
    "list",
    "name",
    "popovertarget",
];

#[tactic(auto, unfolding(crate::specs::AttrUses::holds_name))]
fn holds_name(name: &str) -> bool
    ensures { result ≡ holds_name (chars name.now) }
{
    is_one_of(&NAMES, name)
}

/// The attributes whose values are such names, which white space separates.
const NAME_LISTS: [&str; 9] = [
    "aria-controls",
    "aria-describedby",
    "aria-details",
    "aria-errormessage",
    "aria-flowto",
    "aria-labelledby",
    "aria-owns",
    "headers",
    "itemref",
];

#[tactic(auto, unfolding(crate::specs::AttrUses::holds_names))]
fn holds_names(name: &str) -> bool
    ensures { result ≡ holds_names (chars name.now) }
{
    is_one_of(&NAME_LISTS, name)
}

/// Returns what the value of an attribute with that name is.
#[tactic(auto, unfolding(crate::specs::AttrUses::use_of))]
pub(crate) fn use_of(name: &str) -> AttrUse
    ensures { result ≡ use_of (chars name.now) }
{
    if holds_style(name) {
        AttrUse::Style
    } else if holds_link(name) {
        AttrUse::Link
    } else if holds_url(name) {
        AttrUse::Url
    } else if holds_urls(name) {
        AttrUse::Urls
    } else if holds_srcset(name) {
        AttrUse::Srcset
    } else if holds_name(name) {
        AttrUse::Name
    } else if holds_names(name) {
        AttrUse::Names
    } else {
        AttrUse::Text
    }
}
