//! The open elements.

ghost use Rattle.std.specs.Prelude.{◌≡◌, ◌↔◌, IsTrue, ◌∷◌, [], OnOk, IfSome, IfNone, chars, length};
ghost use Rattle.html_dom_tree.specs.Views.{text_view};
ghost use Rattle.typst_html_encode.specs.Reader.{add_text, holds_text_alone};
ghost use Rattle.typst_html_read.specs.{EndTags.{EndsTag}, LimitedReading.{ends_at}, OpenViews.{add_child, open_of, stack_of}};

use crate::open::OpenElement;
use std::alloc::{AllocError, Global};

/// The open elements, the innermost last.
#[derive(Drop)]
pub(crate) struct Stack {
    pub(crate) items: Vec<OpenElement>,
}

impl Stack {
    pub(crate) fn new(alloc: Global) -> Stack
        ensures { stack_of result ≡ [] }
    {
        Stack {
            items: Vec::new(alloc),
        }
    }

    pub(crate) fn len(&self) -> usize
        ensures { result ≡ length (stack_of self.now) }
    {
        self.items.len()
    }

    pub(crate) fn is_empty(&self) -> bool
        ensures { IsTrue result ↔ (stack_of self.now ≡ []) }
    {
        self.items.is_empty()
    }

    pub(crate) fn clear(&mut self)
        ensures { stack_of self.new ≡ [] }
    {
        self.items.clear();
    }

    pub(crate) fn push(&mut self, element: OpenElement) -> Result<(), AllocError>
        ensures { OnOk result
            (stack_of self.new ≡ open_of element ∷ stack_of self.old) }
    {
        self.items.push(element)?;
        Ok(())
    }

    pub(crate) fn pop(&mut self) -> Option<OpenElement>
        ensures some { IfSome result (λ element.
            stack_of self.old ≡ open_of element ∷ stack_of self.new) }
        ensures none { IfNone result (stack_of self.old ≡ []) }
        ensures left { IfNone result (stack_of self.new ≡ []) }
    {
        self.items.pop()
    }

    /// Appends a text to the innermost element, unless the text is empty.
    pub(crate) fn add_text(&mut self, text: String) -> Result<(), AllocError>
        ensures { OnOk result (stack_of self.new
            ≡ add_text (text_view text) (stack_of self.old)) }
    {
        match self.items.last_mut() {
            None => Ok(()),
            Some(top) => top.add_text(text),
        }
    }

    /// Appends an element to the innermost element.
    pub(crate) fn add_child(&mut self, child: OpenElement) -> Result<(), AllocError>
        ensures { OnOk result (stack_of self.new
            ≡ add_child (open_of child) (stack_of self.old)) }
    {
        match self.items.last_mut() {
            None => Ok(()),
            Some(top) => top.add_child(child),
        }
    }

    /// Returns whether the name of the innermost element has the character at that index or, after
    /// the name, whether the character is `>`.
    pub(crate) fn ends_at(&self, place: usize, c: char) -> bool
        ensures { result ≡ ends_at (stack_of self.now) place c }
    {
        match self.items.last() {
            None => false,
            Some(element) => element.ends_at(place, c),
        }
    }

    /// Returns the rest of a text after the end tag of the innermost element, if the text begins
    /// with that tag.
    pub(crate) fn past_end_tag<'a>(&self, text: &'a str) -> Option<&'a str>
        ensures { IfSome result (λ rest.
            EndsTag (stack_of self.now) (chars text.now) (chars rest.now)) }
    {
        if text.as_bytes().get(1) != Some(&b'/') {
            return None;
        }
        let top = self.items.last()?;
        let slash = text.strip_prefix('<')?;
        let name = slash.strip_prefix('/')?;
        let end = name.strip_prefix(top.element.tag.resolve())?;
        end.strip_prefix('>')
    }

    pub(crate) fn holds_text_alone(&self) -> bool
        ensures { result ≡ holds_text_alone (stack_of self.now) }
    {
        match self.items.last() {
            None => false,
            Some(element) => element.holds_text_alone(),
        }
    }
}
