//! The place of a node in a walk.

ghost use Rattle.std.specs.Prelude.{◌≡◌, ◌&&◌, ◌||◌};
ghost use Rattle.html_dom_flat.specs.Siblings.{head_view};
ghost use Rattle.typst_html_encode.specs.Layout.{wants_pretty_around};

use crate::layout::{Margin, wants_pretty_around};
use html_dom_flat::Element;

/// How nodes are written that have the same parent, or none.
#[derive(Clone, Copy)]
pub(crate) struct Place {
    pub(crate) margin: Margin,
    /// Whether the texts among the nodes are written as references alone.
    pub(crate) pre_span: bool,
    /// Whether there are indents between the nodes.
    pub(crate) has_indents: bool,
}

impl Place {
    /// Returns whether an indent stands before a text or a frame.
    pub(crate) fn has_indent(self, due: bool) -> bool
        ensures { result ≡ (self.has_indents && due) }
    {
        self.has_indents && due
    }

    /// Returns whether an indent stands before the element: one is due, or the element wants lines
    /// of its own.
    pub(crate) fn has_indent_before(self, due: bool, element: &Element) -> bool
        ensures { result ≡
            (self.has_indents && (due || wants_pretty_around (head_view element.now))) }
    {
        self.has_indents && (due || wants_pretty_around(element))
    }

    /// Returns whether an indent is due after a tag. None is due in plain text.
    pub(crate) fn is_due(self, due: bool) -> bool
        ensures { result ≡ (self.margin.pretty && due) }
    {
        self.margin.pretty && due
    }

    /// Returns whether an indent is due after the element. None is due in plain text.
    pub(crate) fn is_due_after(self, element: &Element) -> bool
        ensures { result ≡ (self.margin.pretty && wants_pretty_around (head_view element.now)) }
    {
        self.margin.pretty && wants_pretty_around(element)
    }
}
