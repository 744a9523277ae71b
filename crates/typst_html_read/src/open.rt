//! Open elements, with their children so far.

ghost use Rattle.std.{proofs.Props.{props}, specs.Prelude.{◌≡◌, OnOk, OnErr}};
ghost use Rattle.html_dom_tree.specs.{Tree.{with_node}, Views.{element_view, node_view}};
ghost use Rattle.typst_html_read.specs.PlainViews.{IsPlain, element_is_set};

use html_dom_tree::{HtmlAttrs, HtmlElement, HtmlNode, Span};
use html_names_core::{HtmlTag, tag};
use std::alloc::{AllocError, Global};

/// An open element, with its children so far. All that a text does not spell is as in a new
/// element.
#[derive(Drop)]
pub(crate) struct OpenElement {
    pub(crate) element: HtmlElement,
    ghost plain: { IsPlain (element_view element) } by { Prim.hlevel (props, element_is_set) },
}

#[tactic(auto, using(html_dom_tree::proofs::Nodes::with_last_view))]
fn add_node(element: &mut HtmlElement, node: HtmlNode) -> Result<(), AllocError>
    ensures added { OnOk result (element_view element.new
        ≡ with_node (node_view node) (element_view element.old)) }
    ensures kept { OnErr result (element_view element.new ≡ element_view element.old) }
{
    element.children.push(node)?;
    Ok(())
}

impl OpenElement {
    ghost use Rattle.std.specs.Prelude.{◌==◌, bytes_eq, chars, get_or, []};
    ghost use Rattle.html_dom_tree.specs.{PlainTree.{no_plains}, Views.{attrs_view, text_view}};
    ghost use Rattle.html_names_core.specs.Kinds as kinds;
    ghost use Rattle.typst_html_encode.specs.Reader.{with_text};
    ghost use Rattle.typst_html_read.specs.{OpenViews.{open_of, with_child}, PlainElements.{plain_element}};

    /// Creates an element without children.
    pub(crate) fn new(alloc: Global, tag: HtmlTag, attrs: HtmlAttrs) -> OpenElement
        ensures { open_of result
            ≡ record { name = tag; attrs = attrs_view attrs; children = no_plains } }
    {
        let mut element = HtmlElement::new(alloc, tag);
        element.attrs = attrs;
        OpenElement { element }
    }

    /// Appends a text as the last child, unless the text is empty.
    pub(crate) fn add_text(&mut self, text: String) -> Result<(), AllocError>
        ensures { OnOk result (open_of self.new ≡ record (open_of self.old) {
          children = with_text (text_view text) (open_of self.old).children;
        }) }
    {
        if !text.is_empty() {
            add_node(&mut self.element, HtmlNode::text(text, Span(0)))?;
        }
        Ok(())
    }

    /// Appends an element as the last child.
    pub(crate) fn add_child(&mut self, child: OpenElement) -> Result<(), AllocError>
        ensures { OnOk result (open_of self.new ≡ with_child (open_of child) (open_of self.old)) }
    {
        add_node(&mut self.element, HtmlNode::from(child.element))
    }

    #[tactic(auto, using(html_names_core::proofs::Lists::in_characters))]
    pub(crate) fn is_named(&self, name: &str) -> bool
        ensures { result ≡ bytes_eq (chars name.now) (open_of self.now).name }
    {
        name == self.element.tag.resolve()
    }

    /// Returns whether the name has the character at that index or, after the name, whether the
    /// character is `>`.
    pub(crate) fn ends_at(&self, place: usize, c: char) -> bool
        ensures { result ≡ (c == get_or (open_of self.now).name place 62) }
    {
        let name = self.element.tag.resolve().as_bytes();
        if place < name.len() {
            c == char::from(name[place])
        } else {
            c == '>'
        }
    }

    pub(crate) fn holds_text_alone(&self) -> bool
        ensures { result ≡ kinds.is_escapable_raw (open_of self.now).name }
    {
        tag::is_escapable_raw(&self.element.tag)
    }

    /// Consumes the open element and returns the element with its children.
    pub(crate) fn into_element(self) -> HtmlElement
        ensures { let o = open_of self in
            element_view result ≡ plain_element o.name o.attrs o.children }
    {
        self.element
    }
}
