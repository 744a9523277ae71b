//! A policy.

ghost use Rattle.std.specs.Prelude.{◌≡◌, option_map, true};
ghost use Rattle.html_names_core.specs.Texts.{text_view, texts_view};
ghost use Rattle.html_clean_policy.specs.Sound.{are_sound};

use html_names_core::{HtmlAttr, HtmlTag};

/// What may stay of foreign HTML: which elements, attributes, URLs and css.
///
/// Begin with a ready policy ([`inline`](Policy::inline), [`article`](Policy::article),
/// [`mail`](Policy::mail)) or with [`text`](Policy::text), which lets nothing but text stay, and add
/// what may stay. Whatever the policy, scripts, frames, styles and the like go
/// ([`is_dropped`](crate::is_dropped)), and so do event handlers.
///
/// ```
/// use html_clean::Policy;
/// use html_dom::HtmlAttrs;
/// use html_names::{attr, tag};
///
/// let alloc = rt.alloc();
/// let policy = Policy::text(alloc)
///     .with_element(tag::a)?
///     .with_own_attr(tag::a, attr::href)?
///     .with_scheme("https")?
///     .with_rel("nofollow")?;
/// assert!(rt; policy.allows(&tag::a));
/// assert!(rt; !policy.allows(&tag::img));
///
/// let mut attrs = HtmlAttrs::new(alloc);
/// attrs.push(attr::href, String::from_str(alloc, "https://example.org")?)?;
/// attrs.push(attr::title, String::from_str(alloc, "Salt")?)?;
/// let kept = policy.kept_attrs(&tag::a, &attrs)?;
/// assert_eq!(rt; kept.0.len(), 2);
/// let rel = kept.get(&attr::rel).expect(&rt, "a rel");
/// assert_eq!(rt; rel.as_str(), "nofollow");
/// ```
#[derive(Debug, Drop)]
pub struct Policy {
    pub(crate) elements: Vec<HtmlTag>,
    pub(crate) attrs: Vec<HtmlAttr>,
    pub(crate) own_attrs: Vec<(HtmlTag, HtmlAttr)>,
    pub(crate) data_attrs: bool,
    pub(crate) schemes: Vec<String>,
    pub(crate) relative: bool,
    pub(crate) properties: Vec<String>,
    pub(crate) prefix: String,
    pub(crate) rel: Option<String>,
    pub ghost sound: { are_sound (texts_view properties.items) (text_view prefix)
        (option_map text_view rel) ≡ true },
}
