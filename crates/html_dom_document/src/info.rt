//! Information about a document: its title, description, authors, keywords and locale.

ghost use Rattle.std.specs.Prelude.{◌≡◌, IfOk};
ghost use Rattle.html_dom_tree.specs.Views.{text_view};
ghost use Rattle.html_dom_document.specs.{Documents.{locale_of, no_info}, Views.{locale_view, info_view}};
ghost use Rattle.html_names_core.specs.Texts.{texts_view};

use html_dom_tree::text::copy_optional_text;
use std::alloc::{AllocError, Global};

/// A language and optionally the region in which it is spoken, such as `en` and `GB`. The texts are
/// not checked. Two locales are equal if both fields are.
#[derive(Debug, Drop, PartialEq, Eq)]
pub struct Locale {
    /// The language.
    pub lang: String,
    /// The region.
    pub region: Option<String>,
}

/// Information about a document, for its head. Two values are equal if all fields are.
#[derive(Debug, Drop, PartialEq, Eq)]
pub struct DocumentInfo {
    /// The title.
    pub title: Option<String>,
    /// The description: what the document is about.
    pub description: Option<String>,
    /// The authors.
    pub author: Vec<String>,
    /// The keywords by which to find it.
    pub keywords: Vec<String>,
    /// The language in which it is written.
    pub locale: Option<Locale>,
}

impl Locale {
    /// Creates a locale with that language and no region.
    pub fn new(lang: String) -> Locale
        ensures { locale_view result ≡ locale_of (text_view lang) }
    {
        Locale { lang, region: None }
    }

    /// Returns a copy. Fails only if an allocation fails.
    pub fn try_clone(&self) -> Result<Locale, AllocError>
        ensures { IfOk result (λ copy. locale_view copy ≡ locale_view self.now) }
    {
        Ok(Locale {
            lang: self.lang.clone()?,
            region: copy_optional_text(&self.region)?,
        })
    }
}

impl DocumentInfo {
    /// Creates empty information: no texts and no locale.
    pub fn new(alloc: Global) -> DocumentInfo
        ensures { info_view result ≡ no_info }
    {
        DocumentInfo {
            title: None,
            description: None,
            author: Vec::new(alloc),
            keywords: Vec::new(alloc),
            locale: None,
        }
    }

    /// Returns a copy. Fails only if an allocation fails.
    pub fn try_clone(&self) -> Result<DocumentInfo, AllocError>
        ensures { IfOk result (λ copy. info_view copy ≡ info_view self.now) }
    {
        let locale = match &self.locale {
            Some(locale) => Some(locale.try_clone()?),
            None => None,
        };
        Ok(DocumentInfo {
            title: copy_optional_text(&self.title)?,
            description: copy_optional_text(&self.description)?,
            author: copy_texts(&self.author)?,
            keywords: copy_texts(&self.keywords)?,
            locale,
        })
    }
}

fn copy_texts(texts: &Vec<String>) -> Result<Vec<String>, AllocError>
    ensures { IfOk result (λ copies. texts_view copies.items ≡ texts_view texts.now.items) }
{
    let mut copies = Vec::new(*texts.allocator());
    for text in texts {
        copies.push(text.clone()?)?;
    }
    Ok(copies)
}
