//! The elements that a walk has entered and not left.

ghost use Rattle.std.specs.Prelude.{◌≡◌, ◌∷◌, [], OnOk, IfOk, IfSome, IfNone};
ghost use Rattle.html_dom_flat.specs.Siblings.{head_view, siblings_view};
ghost use Rattle.typst_html_encode.specs.{Layout.{margin_inside}, OpenElements.{open_element_view, open_elements_view}};
ghost use Rattle.typst_html_encode.specs.WriterWalk.{open_element, next_place};

use crate::layout::Margin;
use crate::place::Place;
use html_dom_flat::{Element, Siblings};
use html_names_core::HtmlTag;
use std::alloc::{AllocError, Global};

/// An element that the walk has entered.
#[derive(Clone, Copy)]
pub(crate) struct OpenElement<'a> {
    pub(crate) tag: &'a HtmlTag,
    /// Its level, and whether its children are written pretty.
    pub(crate) margin: Margin,
    /// The siblings after it.
    pub(crate) after: Siblings<'a>,
    /// Whether an indent is due after it.
    pub(crate) due_after: bool,
    /// Whether the texts directly in it are written as references alone.
    pub(crate) pre_span: bool,
}

impl<'a> OpenElement<'a> {
    pub(crate) fn new(
        element: &Element<'a>,
        margin: Margin,
        due_after: bool,
        after: Siblings<'a>,
    ) -> OpenElement<'a>
        ensures { let h = head_view element.now in
            let inside = margin_inside margin h (siblings_view element.now.children) in
            open_element_view result ≡ open_element h inside due_after (siblings_view after.entry) }
    {
        OpenElement {
            tag: element.tag(),
            pre_span: element.flat.pre_span,
            margin: margin.inside(element),
            due_after,
            after,
        }
    }
}

/// The elements that the walk has entered and not left.
#[derive(Drop)]
pub(crate) struct OpenElements<'a> {
    items: Vec<OpenElement<'a>>,
}

impl<'a> OpenElements<'a> {
    pub(crate) fn new(alloc: Global) -> Self
        ensures { open_elements_view result ≡ [] }
    {
        OpenElements {
            items: Vec::new(alloc),
        }
    }

    pub(crate) fn push(&mut self, element: OpenElement<'a>) -> Result<(), AllocError>
        ensures { OnOk result (open_elements_view self.new
            ≡ open_element_view element.entry ∷ open_elements_view self.old) }
    {
        self.items.push(element)?;
        Ok(())
    }

    pub(crate) fn pop(&mut self) -> Option<OpenElement<'a>>
        ensures some { IfSome result (λ element. open_elements_view self.old
            ≡ open_element_view element ∷ open_elements_view self.new) }
        ensures none { IfNone result (open_elements_view self.old ≡ []) }
    {
        self.items.pop()
    }

    /// Returns the place of the nodes in the innermost of the elements, or that of the nodes in no
    /// element, which have the margin `outer`.
    pub(crate) fn place(&self, outer: Margin) -> Result<Place, AllocError>
        ensures { IfOk result (λ place. place ≡ next_place outer (open_elements_view self.now)) }
    {
        match self.items.last() {
            None => Ok(Place {
                margin: outer,
                pre_span: false,
                has_indents: false,
            }),
            Some(element) => Ok(Place {
                margin: element.margin.deeper()?,
                pre_span: element.pre_span,
                has_indents: element.margin.pretty,
            }),
        }
    }
}
