//! The tokens that make a tree.

ghost use Rattle.std.specs.Prelude.{◌≡◌, IfOk};
ghost use Rattle.html_page_names.specs.{Kinds.{IsKindsOf}, PageNames.{of}};

use html_dom_tree::HtmlAttrs;
use html_names_core::HtmlTag;
use html_page_names::{Kind, Kinds, kinds_of};
use std::alloc::AllocError;

/// The name of a tag, with its kinds.
#[derive(Drop)]
pub struct TagName {
    /// The name.
    pub tag: HtmlTag,
    /// Its kinds.
    pub kinds: Kinds,
    ghost is_error: { IsKindsOf tag kinds },
}

impl TagName {
    /// Creates a tag name, and looks up its kinds.
    pub fn new(tag: HtmlTag) -> TagName
        ensures { result.tag ≡ tag }
    {
        let kinds = kinds_of(tag.resolve());
        TagName { tag, kinds }
    }

    /// Returns a copy. Fails only if an allocation fails.
    pub fn try_clone(&self) -> Result<TagName, AllocError>
        ensures { IfOk result (λ copy. copy.tag ≡ self.now.tag) }
    {
        Ok(TagName {
            tag: self.tag.try_clone()?,
            kinds: self.kinds,
        })
    }

    /// Returns whether it is of the kind.
    pub fn is(&self, kind: Kind) -> bool
        ensures { result ≡ of kind self.now.tag }
    {
        self.kinds.has(kind)
    }
}

/// A start tag.
#[derive(Drop)]
pub struct StartTag {
    /// Its name, in lowercase.
    pub name: TagName,
    /// Its attributes, in order, each name once.
    pub attrs: HtmlAttrs,
    /// Whether it ends in `/>`.
    pub closed: bool,
}

/// A token, except comments and document types.
#[derive(Drop)]
pub enum Token {
    /// A character of text.
    Char(char),
    /// A start tag.
    Start(StartTag),
    /// An end tag.
    End(TagName),
    /// The end of the page.
    Finish,
}
