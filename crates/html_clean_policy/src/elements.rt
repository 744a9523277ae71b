//! Which elements stay.

ghost use Rattle.std.specs.Prelude.{◌≡◌, chars};
ghost use Rattle.html_names_core.specs.Names.{stands_in};
ghost use Rattle.html_clean_policy.specs.{Policies.{has_dropped_kind, has_dropped_name, is_dropped, is_never_kept}};

use html_names_core::HtmlTag;
use html_page_names::{Kind, is_one_of, keeps_case, kinds_of};

/// Elements that go with all that is in them, beside those of whole kinds.
const DROPPED: [&str; 9] = [
    "applet",
    "base",
    "embed",
    "frameset",
    "link",
    "meta",
    "noscript",
    "object",
    "plaintext",
];

/// Elements that give place to their children.
const UNKEPT: [&str; 13] = [
    "basefont",
    "bgsound",
    "body",
    "frame",
    "head",
    "html",
    "image",
    "keygen",
    "listing",
    "mprescripts",
    "mspace",
    "param",
    "selectedcontent",
];

#[tactic(auto, unfolding(crate::specs::Policies::has_dropped_kind))]
fn has_dropped_kind(name: &str) -> bool
    ensures { result ≡ has_dropped_kind (chars name.now) }
{
    let kinds = kinds_of(name);
    kinds.has(Kind::Raw)
        || kinds.has(Kind::Template)
        || kinds.has(Kind::Svg)
        || kinds.has(Kind::Math)
}

#[tactic(auto, unfolding(crate::specs::Policies::has_dropped_name))]
fn has_dropped_name(name: &str) -> bool
    ensures { result ≡ has_dropped_name (chars name.now) }
{
    is_one_of(&DROPPED, name)
}

/// Returns whether an element with that name goes with all that is in it, whatever the policy:
/// scripts and styles, frames and plugins, `template`, `noscript`, SVG and MathML, and what a browser
/// reads as text or as part of the head.
///
/// ```
/// use html_clean::is_dropped;
/// use html_names::tag;
///
/// assert!(rt; is_dropped(&tag::script));
/// assert!(rt; !is_dropped(&tag::form));
/// ```
#[tactic(auto, unfolding(crate::specs::Policies::is_dropped))]
pub fn is_dropped(tag: &HtmlTag) -> bool
    ensures { result ≡ is_dropped tag.now }
{
    has_dropped_kind(tag.resolve()) || has_dropped_name(tag.resolve())
}

/// Returns whether an element with that name gives place to its children, whatever the policy: a
/// body can't contain it as it is written (HTML Standard 13.2.6.4.7).
///
/// ```
/// use html_clean::is_never_kept;
/// use html_names::tag;
///
/// assert!(rt; is_never_kept(&tag::body));
/// assert!(rt; !is_never_kept(&tag::main));
/// ```
#[tactic(auto, unfolding(crate::specs::Policies::is_never_kept))]
pub fn is_never_kept(tag: &HtmlTag) -> bool
    ensures { result ≡ is_never_kept tag.now }
{
    !keeps_case(tag.resolve()) || is_one_of(&UNKEPT, tag.resolve())
}

#[tactic(auto, unfolding(html_names_core::specs::Names::stands_in))]
pub(crate) fn has_tag(names: &[HtmlTag], tag: &HtmlTag) -> bool
    ensures { result ≡ stands_in names.now tag.now }
{
    for name in names {
        if *name == *tag {
            return true;
        }
    }
    false
}
