//! What a policy lets stay.

ghost use Rattle.std.specs.Prelude.{◌≡◌, IfOk};
ghost use Rattle.html_dom_tree.specs.Views.{attrs_view};
ghost use Rattle.html_clean_policy.specs.{KeptAttrs.{attrs_kept}, Policies.{allows}, PolicyViews.{policy_view}};

use crate::elements::{has_tag, is_dropped, is_never_kept};
use crate::kept::first_kept;
use crate::link::{MOST_ATTRS, MOST_BEFORE_REL, is_link, with_rel};
use crate::policy::Policy;
use html_dom_tree::HtmlAttrs;
use html_names_core::HtmlTag;
use std::alloc::AllocError;

impl Policy {
    /// Returns whether an element with that name stays.
    ///
    /// ```
    /// use html_clean::Policy;
    /// use html_names::tag;
    ///
    /// let policy = Policy::article(rt.alloc())?;
    /// assert!(rt; policy.allows(&tag::table));
    /// assert!(rt; !policy.allows(&tag::form));
    /// ```
    #[tactic(auto, unfolding(crate::specs::Policies::allows))]
    pub fn allows(&self, tag: &HtmlTag) -> bool
        ensures { result ≡ allows (policy_view self.now) tag.now }
    {
        has_tag(&self.elements, tag) && !is_dropped(tag) && !is_never_kept(tag)
    }

    /// Returns the attributes that stay on an element with that name, in their order, with the
    /// values that they have then. Fails only if an allocation fails.
    ///
    /// An attribute stays if the policy lists it for the element, or for all, unless it is an event
    /// handler or `srcdoc`, holds a URL whose scheme is not listed, or is a `style` of which nothing
    /// stays. In values U+FFFD stands for characters that are no text, and a prefix before ids, names
    /// and what refers to them, if the policy has one. Of a link that leads elsewhere the policy's
    /// `rel` is the last attribute. At most 256 attributes stay.
    ///
    /// ```
    /// use html_clean::Policy;
    /// use html_dom::HtmlAttrs;
    /// use html_names::{HtmlAttr, attr, tag};
    ///
    /// let alloc = rt.alloc();
    /// let mut attrs = HtmlAttrs::new(alloc);
    /// attrs.push(attr::id, String::from_str(alloc, "salt")?)?;
    /// attrs.push(HtmlAttr::intern(alloc, "onclick")?, String::from_str(alloc, "run()")?)?;
    /// let kept = Policy::article(alloc)?.kept_attrs(&tag::p, &attrs)?;
    /// assert_eq!(rt; kept.0.len(), 1);
    /// let id = kept.get(&attr::id).expect(&rt, "an id");
    /// assert_eq!(rt; id.as_str(), "user-content-salt");
    /// ```
    #[tactic(auto, unfolding(crate::specs::KeptAttrs::attrs_kept))]
    pub fn kept_attrs(&self, tag: &HtmlTag, attrs: &HtmlAttrs) -> Result<HtmlAttrs, AllocError>
        ensures { IfOk result (λ kept.
            attrs_view kept ≡ attrs_kept (policy_view self.now) tag.now (attrs_view attrs.now)) }
    {
        let Some(rel) = &self.rel else {
            return first_kept(self, MOST_ATTRS, tag, attrs);
        };
        if !is_link(tag) {
            return first_kept(self, MOST_ATTRS, tag, attrs);
        }
        let kept = first_kept(self, MOST_BEFORE_REL, tag, attrs)?;
        with_rel(*attrs.0.allocator(), rel, kept)
    }
}
