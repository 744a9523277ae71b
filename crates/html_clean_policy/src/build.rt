//! Policies with one more thing that stays.

ghost use Rattle.std.specs.List.{list_all};
ghost use Rattle.std.specs.Prelude.{◌≡◌, ◌&&◌, not, chars, if◌then◌else◌};
ghost use Rattle.html_clean_values.specs.Replaced.{is_plain_char};
ghost use Rattle.html_clean_styles.specs.Styles.{is_property_char, is_property_name};
ghost use Rattle.html_clean_policy.specs.AttrNames.{is_barred};
ghost use Rattle.html_clean_policy.specs.Building as made;
ghost use Rattle.html_clean_policy.specs.Building.{can_keep, is_scheme, is_scheme_char, nothing};
ghost use Rattle.html_clean_policy.specs.PolicyFaults.{Extends};
ghost use Rattle.html_clean_policy.specs.PolicyViews.{policy_view};
ghost use Rattle.html_clean_policy.specs.Sound.{is_prefix_char};

use crate::elements::{is_dropped, is_never_kept};
use crate::fault::{PolicyFault, PolicyRefused};
use crate::names::is_barred;
use crate::policy::Policy;
use html_dom_tree::text::split_first;
use html_names_core::charsets::{is_valid_in_tag_name, is_w3c_text_char};
use html_names_core::{HtmlAttr, HtmlTag};
use std::alloc::Global;

#[tactic(auto, unfolding(crate::specs::Building::can_keep))]
fn can_keep(tag: &HtmlTag) -> bool
    ensures { result ≡ can_keep tag.now }
{
    !is_dropped(tag) && !is_never_kept(tag)
}

fn are_scheme_chars(text: &str) -> bool
    ensures { result ≡ list_all is_scheme_char (chars text.now) }
{
    text.chars().all(|c| c.is_ascii_lowercase()
        || c.is_ascii_digit()
        || matches!(c, '+' | '-' | '.'))
}

fn is_scheme(text: &str) -> bool
    ensures { result ≡ is_scheme (chars text.now) }
{
    match split_first(text) {
        Some((first, rest)) => first.is_ascii_lowercase() && are_scheme_chars(rest),
        None => false,
    }
}

fn are_property_chars(text: &str) -> bool
    ensures { result ≡ list_all is_property_char (chars text.now) }
{
    text.chars().all(|c| c.is_ascii_lowercase() || c == '-')
}

fn is_property(text: &str) -> bool
    ensures { result ≡ is_property_name (chars text.now) }
{
    match split_first(text) {
        Some(_) => are_property_chars(text),
        None => false,
    }
}

fn is_prefix(text: &str) -> bool
    ensures { result ≡ list_all is_prefix_char (chars text.now) }
{
    text.chars().all(|c| is_valid_in_tag_name(c) || c == '_')
}

fn is_written(text: &str) -> bool
    ensures { result ≡ list_all is_plain_char (chars text.now) }
{
    text.chars().all(|c| is_w3c_text_char(c) && c != '\r')
}

impl Policy {
    /// Creates the policy that lets only text stay: no element, no attribute, no URL.
    ///
    /// ```
    /// use html_clean::Policy;
    /// use html_names::tag;
    ///
    /// let policy = Policy::text(rt.alloc()).with_element(tag::em)?;
    /// assert!(rt; policy.allows(&tag::em));
    /// assert!(rt; !policy.allows(&tag::strong));
    /// ```
    #[tactic(auto, using(std::proofs::StrCases::chars_of_empty))]
    pub fn text(alloc: Global) -> Policy
        ensures { policy_view result ≡ nothing }
    {
        Policy {
            elements: Vec::new(alloc),
            attrs: Vec::new(alloc),
            own_attrs: Vec::new(alloc),
            data_attrs: false,
            schemes: Vec::new(alloc),
            relative: false,
            properties: Vec::new(alloc),
            prefix: String::new(alloc),
            rel: None,
        }
    }

    /// Lets elements with that name stay. Fails if no policy keeps them
    /// ([`is_dropped`](crate::is_dropped), [`is_never_kept`](crate::is_never_kept)).
    ///
    /// ```
    /// use html_clean::{Policy, PolicyFault};
    /// use html_names::tag;
    ///
    /// let policy = Policy::text(rt.alloc());
    /// let refused = policy.with_element(tag::script).err().expect(&rt, "a fault");
    /// assert!(rt; refused.fault == PolicyFault::NeverKeptTag(tag::script));
    /// ```
    pub fn with_element(mut self, tag: HtmlTag) -> Result<Policy, PolicyRefused>
        ensures { Extends result (policy_view self) (made.with_element tag (policy_view self))
            1 tag (can_keep tag) }
    {
        if !can_keep(&tag) {
            return Err(PolicyRefused {
                fault: PolicyFault::NeverKeptTag(tag),
                back: self,
            });
        }
        match self.elements.push(tag) {
            Ok(()) => Ok(self),
            Err(_) => Err(PolicyRefused {
                fault: PolicyFault::OutOfMemory,
                back: self,
            }),
        }
    }

    /// Lets the attribute stay on each element. Fails if it is an event handler or `srcdoc`.
    ///
    /// A policy should not let both `open` and `name` of `details` stay: browsers take `open` off a
    /// `details` that follows an open one of the same `name` (HTML Standard 4.11.1), and so would not
    /// show what stays as it is written.
    ///
    /// ```
    /// use html_clean::Policy;
    /// use html_dom::HtmlAttrs;
    /// use html_names::{attr, tag};
    ///
    /// let alloc = rt.alloc();
    /// let policy = Policy::text(alloc).with_attr(attr::title)?;
    /// let mut attrs = HtmlAttrs::new(alloc);
    /// attrs.push(attr::title, String::from_str(alloc, "Salt")?)?;
    /// attrs.push(attr::id, String::from_str(alloc, "salt")?)?;
    /// assert_eq!(rt; policy.kept_attrs(&tag::p, &attrs)?.0.len(), 1);
    /// ```
    pub fn with_attr(mut self, attr: HtmlAttr) -> Result<Policy, PolicyRefused>
        ensures { Extends result (policy_view self) (made.with_attr attr (policy_view self))
            2 attr (not (is_barred attr)) }
    {
        if is_barred(&attr) {
            return Err(PolicyRefused {
                fault: PolicyFault::NeverKeptAttr(attr),
                back: self,
            });
        }
        match self.attrs.push(attr) {
            Ok(()) => Ok(self),
            Err(_) => Err(PolicyRefused {
                fault: PolicyFault::OutOfMemory,
                back: self,
            }),
        }
    }

    /// Lets the attribute stay on elements with that name, if these stay. Fails as
    /// [`with_element`](Policy::with_element) and [`with_attr`](Policy::with_attr) do. Here too a
    /// policy should not let both `open` and `name` of `details` stay, for the reason given there.
    ///
    /// ```
    /// use html_clean::Policy;
    /// use html_dom::HtmlAttrs;
    /// use html_names::{attr, tag};
    ///
    /// let alloc = rt.alloc();
    /// let policy = Policy::text(alloc).with_own_attr(tag::ol, attr::start)?;
    /// let mut attrs = HtmlAttrs::new(alloc);
    /// attrs.push(attr::start, String::from_str(alloc, "3")?)?;
    /// assert_eq!(rt; policy.kept_attrs(&tag::ol, &attrs)?.0.len(), 1);
    /// assert_eq!(rt; policy.kept_attrs(&tag::ul, &attrs)?.0.len(), 0);
    /// ```
    pub fn with_own_attr(mut self, tag: HtmlTag, attr: HtmlAttr) -> Result<Policy, PolicyRefused>
        ensures { Extends result (policy_view self) (made.with_own_attr tag attr (policy_view self))
            (if can_keep tag then 2 else 1) (if can_keep tag then attr else tag)
            (can_keep tag && not (is_barred attr)) }
    {
        if !can_keep(&tag) {
            return Err(PolicyRefused {
                fault: PolicyFault::NeverKeptTag(tag),
                back: self,
            });
        }
        if is_barred(&attr) {
            return Err(PolicyRefused {
                fault: PolicyFault::NeverKeptAttr(attr),
                back: self,
            });
        }
        match self.own_attrs.push((tag, attr)) {
            Ok(()) => Ok(self),
            Err(_) => Err(PolicyRefused {
                fault: PolicyFault::OutOfMemory,
                back: self,
            }),
        }
    }

    /// Lets attributes stay whose names begin with `data-`.
    pub fn with_data_attrs(mut self) -> Policy
        ensures { policy_view result ≡ made.with_data_attrs (policy_view self) }
    {
        self.data_attrs = true;
        self
    }

    /// Lets URLs stay that have no scheme, such as `page.html` and `#place`.
    pub fn with_relative(mut self) -> Policy
        ensures { policy_view result ≡ made.with_relative (policy_view self) }
    {
        self.relative = true;
        self
    }

    /// Lets URLs with that scheme stay, such as `https`. Fails if it is no scheme in small letters.
    ///
    /// ```
    /// use html_clean::Policy;
    ///
    /// let policy = Policy::text(rt.alloc()).with_scheme("mailto")?;
    /// assert!(rt; policy.with_scheme("mailto:").is_err());
    /// ```
    pub fn with_scheme(mut self, scheme: &str) -> Result<Policy, PolicyRefused>
        ensures { let text = chars scheme.now in
            Extends result (policy_view self) (made.with_scheme text (policy_view self))
            3 text (is_scheme text) }
    {
        let Ok(text) = String::from_str(*self.elements.allocator(), scheme) else {
            return Err(PolicyRefused {
                fault: PolicyFault::OutOfMemory,
                back: self,
            });
        };
        if !is_scheme(scheme) {
            return Err(PolicyRefused {
                fault: PolicyFault::BadScheme(text),
                back: self,
            });
        }
        match self.schemes.push(text) {
            Ok(()) => Ok(self),
            Err(_) => Err(PolicyRefused {
                fault: PolicyFault::OutOfMemory,
                back: self,
            }),
        }
    }

    /// Lets declarations of that css property stay in `style`, such as `color`. Fails if the text
    /// is empty or has other characters than small letters and `-`.
    ///
    /// ```
    /// use html_clean::Policy;
    /// use html_dom::HtmlAttrs;
    /// use html_names::{attr, tag};
    ///
    /// let alloc = rt.alloc();
    /// let policy = Policy::text(alloc).with_attr(attr::style)?.with_property("color")?;
    /// let mut attrs = HtmlAttrs::new(alloc);
    /// attrs.push(attr::style, String::from_str(alloc, "color: red; position: fixed")?)?;
    /// let kept = policy.kept_attrs(&tag::p, &attrs)?;
    /// let style = kept.get(&attr::style).expect(&rt, "a style");
    /// assert_eq!(rt; style.as_str(), "color: red");
    /// ```
    pub fn with_property(mut self, property: &str) -> Result<Policy, PolicyRefused>
        ensures { let text = chars property.now in
            Extends result (policy_view self) (made.with_property text (policy_view self))
            4 text (is_property_name text) }
    {
        let Ok(text) = String::from_str(*self.elements.allocator(), property) else {
            return Err(PolicyRefused {
                fault: PolicyFault::OutOfMemory,
                back: self,
            });
        };
        if !is_property(property) {
            return Err(PolicyRefused {
                fault: PolicyFault::BadProperty(text),
                back: self,
            });
        }
        match self.properties.push(text) {
            Ok(()) => Ok(self),
            Err(_) => Err(PolicyRefused {
                fault: PolicyFault::OutOfMemory,
                back: self,
            }),
        }
    }

    /// Puts that text before each id and each name of a place, and before what refers to them,
    /// unless it stands there already. Fails if it has other characters than ASCII letters, digits,
    /// `-` and `_`.
    ///
    /// ```
    /// use html_clean::Policy;
    ///
    /// let policy = Policy::inline(rt.alloc())?.with_prefix("comment-")?;
    /// assert!(rt; policy.with_prefix("a b").is_err());
    /// ```
    pub fn with_prefix(mut self, prefix: &str) -> Result<Policy, PolicyRefused>
        ensures { let text = chars prefix.now in
            Extends result (policy_view self) (made.with_prefix text (policy_view self))
            5 text (list_all is_prefix_char text) }
    {
        let Ok(text) = String::from_str(*self.elements.allocator(), prefix) else {
            return Err(PolicyRefused {
                fault: PolicyFault::OutOfMemory,
                back: self,
            });
        };
        if !is_prefix(prefix) {
            return Err(PolicyRefused {
                fault: PolicyFault::BadPrefix(text),
                back: self,
            });
        }
        self.prefix = text;
        Ok(self)
    }

    /// Gives each `a`, `area` and `form` that leads elsewhere this `rel` in place of its own. Fails
    /// if the text has a character that is not read as it is written.
    ///
    /// ```
    /// use html_clean::Policy;
    ///
    /// let policy = Policy::article(rt.alloc())?.with_rel("nofollow ugc")?;
    /// assert!(rt; policy.with_rel("\0").is_err());
    /// ```
    pub fn with_rel(mut self, rel: &str) -> Result<Policy, PolicyRefused>
        ensures { let text = chars rel.now in
            Extends result (policy_view self) (made.with_rel text (policy_view self))
            6 text (list_all is_plain_char text) }
    {
        let Ok(text) = String::from_str(*self.elements.allocator(), rel) else {
            return Err(PolicyRefused {
                fault: PolicyFault::OutOfMemory,
                back: self,
            });
        };
        if !is_written(rel) {
            return Err(PolicyRefused {
                fault: PolicyFault::BadRel(text),
                back: self,
            });
        }
        self.rel = Some(text);
        Ok(self)
    }

    /// Lets links keep their own `rel`, if it is an attribute that stays.
    pub fn without_rel(mut self) -> Policy
        ensures { policy_view result ≡ made.without_rel (policy_view self) }
    {
        self.rel = None;
        self
    }

    /// Lets URLs without a scheme stay no more.
    pub fn without_relative(mut self) -> Policy
        ensures { policy_view result ≡ made.without_relative (policy_view self) }
    {
        self.relative = false;
        self
    }
}
