//! Ready policies.

ghost use Rattle.std.specs.Prelude.{◌≡◌, IfOk};
ghost use Rattle.html_names_core.specs.Texts.{text_view, texts_view};
ghost use Rattle.html_clean_policy.specs.PolicyViews.{policy_view};
ghost use Rattle.html_clean_policy.specs.Ready as ready;

use crate::lists::{attrs_in, own_attrs_in, tags_in, text_in, texts_in};
use crate::policy::Policy;
use crate::tables::{
    ARTICLE_ATTRS, ARTICLE_ELEMENTS, ARTICLE_OWN_ATTRS, INLINE_ATTRS, INLINE_ELEMENTS,
    INLINE_OWN_ATTRS, MAIL_ATTRS, MAIL_ELEMENTS, MAIL_OWN_ATTRS, MAIL_PROPERTIES,
};
use html_names_core::{HtmlAttr, HtmlTag};
use std::alloc::{AllocError, Global};

#[tactic(auto, unfolding(crate::specs::Ready::article_elements))]
fn article_elements(alloc: Global) -> Result<Vec<HtmlTag>, AllocError>
    ensures { IfOk result (λ made. made.items ≡ ready.article_elements) }
{
    tags_in(alloc, &ARTICLE_ELEMENTS)
}

#[tactic(auto, unfolding(crate::specs::Ready::article_attrs))]
fn article_attrs(alloc: Global) -> Result<Vec<HtmlAttr>, AllocError>
    ensures { IfOk result (λ made. made.items ≡ ready.article_attrs) }
{
    attrs_in(alloc, &ARTICLE_ATTRS)
}

#[tactic(auto, unfolding(crate::specs::Ready::article_own_attrs))]
fn article_own_attrs(alloc: Global) -> Result<Vec<(HtmlTag, HtmlAttr)>, AllocError>
    ensures { IfOk result (λ made. made.items ≡ ready.article_own_attrs) }
{
    own_attrs_in(alloc, &ARTICLE_OWN_ATTRS)
}

#[tactic(auto, unfolding(crate::specs::Ready::inline_elements))]
fn inline_elements(alloc: Global) -> Result<Vec<HtmlTag>, AllocError>
    ensures { IfOk result (λ made. made.items ≡ ready.inline_elements) }
{
    tags_in(alloc, &INLINE_ELEMENTS)
}

#[tactic(auto, unfolding(crate::specs::Ready::inline_attrs))]
fn inline_attrs(alloc: Global) -> Result<Vec<HtmlAttr>, AllocError>
    ensures { IfOk result (λ made. made.items ≡ ready.inline_attrs) }
{
    attrs_in(alloc, &INLINE_ATTRS)
}

#[tactic(auto, unfolding(crate::specs::Ready::inline_own_attrs))]
fn inline_own_attrs(alloc: Global) -> Result<Vec<(HtmlTag, HtmlAttr)>, AllocError>
    ensures { IfOk result (λ made. made.items ≡ ready.inline_own_attrs) }
{
    own_attrs_in(alloc, &INLINE_OWN_ATTRS)
}

#[tactic(auto, unfolding(crate::specs::Ready::mail_elements))]
fn mail_elements(alloc: Global) -> Result<Vec<HtmlTag>, AllocError>
    ensures { IfOk result (λ made. made.items ≡ ready.mail_elements) }
{
    tags_in(alloc, &MAIL_ELEMENTS)
}

#[tactic(auto, unfolding(crate::specs::Ready::mail_attrs))]
fn mail_attrs(alloc: Global) -> Result<Vec<HtmlAttr>, AllocError>
    ensures { IfOk result (λ made. made.items ≡ ready.mail_attrs) }
{
    attrs_in(alloc, &MAIL_ATTRS)
}

#[tactic(auto, unfolding(crate::specs::Ready::mail_own_attrs))]
fn mail_own_attrs(alloc: Global) -> Result<Vec<(HtmlTag, HtmlAttr)>, AllocError>
    ensures { IfOk result (λ made. made.items ≡ ready.mail_own_attrs) }
{
    own_attrs_in(alloc, &MAIL_OWN_ATTRS)
}

#[tactic(auto, unfolding(crate::specs::Ready::mail_properties))]
fn mail_properties(alloc: Global) -> Result<Vec<String>, AllocError>
    ensures { IfOk result (λ made. texts_view made.items ≡ ready.mail_properties) }
{
    texts_in(alloc, &MAIL_PROPERTIES)
}

#[tactic(auto, unfolding(crate::specs::Ready::mail_schemes))]
fn mail_schemes(alloc: Global) -> Result<Vec<String>, AllocError>
    ensures { IfOk result (λ made. texts_view made.items ≡ ready.mail_schemes) }
{
    texts_in(alloc, &["cid", "http", "https", "mailto", "tel"])
}

#[tactic(auto, unfolding(crate::specs::Ready::web_schemes))]
fn web_schemes(alloc: Global) -> Result<Vec<String>, AllocError>
    ensures { IfOk result (λ made. texts_view made.items ≡ ready.web_schemes) }
{
    texts_in(alloc, &["http", "https", "mailto"])
}

#[tactic(auto, unfolding(crate::specs::Ready::article_prefix))]
fn article_prefix(alloc: Global) -> Result<String, AllocError>
    ensures { IfOk result (λ made. text_view made ≡ ready.article_prefix) }
{
    text_in(alloc, "user-content-")
}

#[tactic(auto, unfolding(crate::specs::Ready::web_rel))]
fn web_rel(alloc: Global) -> Result<String, AllocError>
    ensures { IfOk result (λ made. text_view made ≡ ready.web_rel) }
{
    text_in(alloc, "nofollow")
}

#[tactic(auto, unfolding(crate::specs::Ready::mail_rel))]
fn mail_rel(alloc: Global) -> Result<String, AllocError>
    ensures { IfOk result (λ made. text_view made ≡ ready.mail_rel) }
{
    text_in(alloc, "nofollow noopener noreferrer")
}

impl Policy {
    /// Creates a policy for a line of text, such as a comment: what may stand in a line, with links
    /// but without images. URLs may have the schemes `http`, `https` and `mailto` or none, and links
    /// get `rel="nofollow"`. Fails only if an allocation fails.
    ///
    /// ```
    /// use html_clean::Policy;
    /// use html_names::tag;
    ///
    /// let policy = Policy::inline(rt.alloc())?;
    /// assert!(rt; policy.allows(&tag::em));
    /// assert!(rt; !policy.allows(&tag::img));
    /// ```
    #[tactic(auto, using(std::proofs::StrCases::chars_of_empty, crate::proofs::ReadySound::inline_sound))]
    pub fn inline(alloc: Global) -> Result<Policy, AllocError>
        ensures { IfOk result (λ made. policy_view made ≡ ready.inline) }
    {
        Ok(Policy {
            elements: inline_elements(alloc)?,
            attrs: inline_attrs(alloc)?,
            own_attrs: inline_own_attrs(alloc)?,
            data_attrs: false,
            schemes: web_schemes(alloc)?,
            relative: true,
            properties: Vec::new(alloc),
            prefix: String::new(alloc),
            rel: Some(web_rel(alloc)?),
        })
    }

    /// Creates a policy for an article, such as a page of documentation from elsewhere: headings,
    /// lists, tables, images, links and what may stand in a line, with ids that begin with
    /// `user-content-`. URLs may have the schemes `http`, `https` and `mailto` or none, and links get
    /// `rel="nofollow"`. This is about what GitHub keeps of the HTML in a README, but `name` stays on
    /// `a` and `img` alone, since a policy should not let both `open` and `name` of `details` stay
    /// ([`with_attr`](Policy::with_attr) says why). Fails only if an allocation fails.
    ///
    /// ```
    /// use html_clean::Policy;
    /// use html_names::tag;
    ///
    /// let policy = Policy::article(rt.alloc())?;
    /// assert!(rt; policy.allows(&tag::h2));
    /// assert!(rt; !policy.allows(&tag::form));
    /// ```
    #[tactic(auto, using(std::proofs::StrCases::chars_of_empty, crate::proofs::ReadySound::article_sound))]
    pub fn article(alloc: Global) -> Result<Policy, AllocError>
        ensures { IfOk result (λ made. policy_view made ≡ ready.article) }
    {
        Ok(Policy {
            elements: article_elements(alloc)?,
            attrs: article_attrs(alloc)?,
            own_attrs: article_own_attrs(alloc)?,
            data_attrs: false,
            schemes: web_schemes(alloc)?,
            relative: true,
            properties: Vec::new(alloc),
            prefix: article_prefix(alloc)?,
            rel: Some(web_rel(alloc)?),
        })
    }

    /// Creates a policy for a mail: as for an article, with `font` and `center`, the attributes by
    /// which tables are laid out in mails, and `style` with the properties that programs for mails
    /// keep, but without ids. URLs may have the schemes `cid`, `http`, `https`, `mailto` and `tel`.
    /// Fails only if an allocation fails.
    ///
    /// ```
    /// use html_clean::Policy;
    /// use html_names::tag;
    ///
    /// let policy = Policy::mail(rt.alloc())?;
    /// assert!(rt; policy.allows(&tag::td));
    /// assert!(rt; !policy.allows(&tag::video));
    /// ```
    #[tactic(auto, using(std::proofs::StrCases::chars_of_empty, crate::proofs::ReadySound::mail_sound))]
    pub fn mail(alloc: Global) -> Result<Policy, AllocError>
        ensures { IfOk result (λ made. policy_view made ≡ ready.mail) }
    {
        Ok(Policy {
            elements: mail_elements(alloc)?,
            attrs: mail_attrs(alloc)?,
            own_attrs: mail_own_attrs(alloc)?,
            data_attrs: false,
            schemes: mail_schemes(alloc)?,
            relative: false,
            properties: mail_properties(alloc)?,
            prefix: String::new(alloc),
            rel: Some(mail_rel(alloc)?),
        })
    }
}
