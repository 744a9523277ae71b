//! An element and what its name says.

ghost use Rattle.std.specs.Prelude.{◌≡◌};
ghost use Rattle.html_dom_tree.specs.Views.{element_view};
ghost use Rattle.html_page_names.specs.Kinds.{IsKindsOf};

use crate::reading::{Reading, Space, foreign_space};
use html_dom_tree::HtmlElement;
use html_names_core::tag::is_void;
use html_page_names::{Kind, Kinds, is_one_of, kinds_of};

/// An element and the kinds of its name.
#[derive(Drop)]
pub(crate) struct KnownElement<'a> {
    pub(crate) element: &'a HtmlElement,
    kinds: Kinds,
    ghost kinds_are: { IsKindsOf (element_view element.now).0.name kinds },
}

impl<'a> KnownElement<'a> {
    ghost use Rattle.html_page_names.specs.PageNames.{of};
    ghost use Rattle.html_page_nesting.specs.Ancestors.{begun_space, is_read_as_html, is_search, space_of};
    ghost use Rattle.html_page_nesting.specs.{Contents.{has_unread_end, is_listing, is_raw_when_read}, NestingRules.{is_selected_content}};

    pub(crate) fn new(element: &'a HtmlElement) -> KnownElement<'a>
        ensures { result.element ≡ element.entry }
    {
        let kinds = kinds_of(element.tag.resolve());
        KnownElement { element, kinds }
    }

    /// Returns whether its name is of that kind, in any namespace.
    pub(crate) fn is(&self, kind: Kind) -> bool
        ensures { result ≡ of kind (element_view self.now.element.now).0.name }
    {
        self.kinds.has(kind)
    }

    pub(crate) fn is_read_as_html(&self, reading: Reading) -> bool
        ensures { result ≡ is_read_as_html reading (element_view self.now.element.now).0.name }
    {
        match reading {
            Reading::AsHtml => true,
            Reading::AsSvg | Reading::AsMathMl => false,
            Reading::AsMathText => !self.is(Kind::Glyph),
            Reading::AsAnnotation => self.is(Kind::Svg),
        }
    }

    fn begun_space(&self) -> Space
        ensures { result ≡ begun_space (element_view self.now.element.now).0.name }
    {
        if self.is(Kind::Svg) {
            Space::Svg
        } else if self.is(Kind::Math) {
            Space::MathMl
        } else {
            Space::Html
        }
    }

    pub(crate) fn space(&self, reading: Reading) -> Space
        ensures { result ≡ space_of reading (element_view self.now.element.now).0.name }
    {
        if self.is_read_as_html(reading) {
            self.begun_space()
        } else {
            foreign_space(reading)
        }
    }

    pub(crate) fn has_unread_end(&self) -> bool
        ensures { result ≡ has_unread_end (element_view self.now.element.now).0.name }
    {
        (self.is(Kind::Leaf) || self.is(Kind::HeadLeaf)) && !is_void(&self.element.tag)
    }

    pub(crate) fn is_raw_when_read(&self) -> bool
        ensures { result ≡ is_raw_when_read (element_view self.now.element.now).0.name }
    {
        self.is(Kind::Raw) && !(self.is(Kind::ScriptOrStyle) || self.is(Kind::EscapableRaw))
    }

    #[tactic(auto, unfolding(crate::specs::Contents::is_listing))]
    pub(crate) fn is_listing(&self) -> bool
        ensures { result ≡ is_listing (element_view self.now.element.now).0.name }
    {
        is_one_of(&["listing"], self.element.tag.resolve())
    }

    #[tactic(auto, unfolding(crate::specs::Ancestors::is_search))]
    pub(crate) fn is_search(&self) -> bool
        ensures { result ≡ is_search (element_view self.now.element.now).0.name }
    {
        is_one_of(&["search"], self.element.tag.resolve())
    }

    #[tactic(auto, unfolding(crate::specs::NestingRules::is_selected_content))]
    pub(crate) fn is_selected_content(&self) -> bool
        ensures { result ≡ is_selected_content (element_view self.now.element.now).0.name }
    {
        is_one_of(&["selectedcontent"], self.element.tag.resolve())
    }
}
