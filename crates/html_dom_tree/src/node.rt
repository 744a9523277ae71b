//! The nodes of the tree, and elements with the methods that build them.

ghost use Rattle.std.specs.Prelude.{◌≡◌, ◌↔◌, ◌++◌, ◌∷◌, [], IsTrue, OnOk, OnErr, IfOk, IfErr, chars};
ghost use Rattle.html_dom_tree.specs.FrameViews.{html_frame_view};
ghost use Rattle.html_dom_tree.specs.Tree.{new_element, with_node, with_pair, with_set_pair, is_tag, node_span, text_node, tag_node, element_node, frame_node};
ghost use Rattle.html_dom_tree.specs.Views.{text_view, tag_view, node_view, element_view, nodes_view};

use crate::attrs::{HtmlAttrs, same_attrs};
use crate::frame::{HtmlFrame, same_html_frame};
use crate::introspection::{Location, Tag, same_tag};
use crate::span::Span;
use crate::text::same_text;
use html_names_core::room::push_compact;
use html_names_core::{HtmlAttr, HtmlTag, Refused};
use html_values_css::Properties;
use html_values_css::laws::equal_properties;
use std::alloc::{AllocError, Global};

/// A node of the tree. Two nodes are equal if all their fields are.
#[derive(Debug, Drop)]
#[cycle(tree)]
pub enum HtmlNode {
    /// The start or end of a located element. It is not written.
    Tag(Tag),
    /// A text and its place in the source.
    Text(String, Span),
    /// An element with its children.
    Element(HtmlElement),
    /// A laid-out frame.
    Frame(HtmlFrame),
}

/// An element. Two elements are equal if all their fields are.
#[derive(Debug, Drop)]
#[cycle(tree)]
pub struct HtmlElement {
    /// The name.
    pub tag: HtmlTag,
    /// The attributes, in the order in which they are written.
    pub attrs: HtmlAttrs,
    /// The css properties. `html` and `html_in_bundle` write them only after
    /// [`resolve_inline_styles`](crate::resolve_inline_styles) has put them into the attribute
    /// `style`, as in each document made from items (`html_document`, `html_document_for_bundle`).
    pub css: Properties,
    /// The children.
    pub children: Vec<HtmlNode>,
    /// The location of the element's parent in the source, if that stands elsewhere in the tree.
    pub parent: Option<Location>,
    /// Its place in the source.
    pub span: Span,
    /// Whether each character of the texts directly in this element is written as a character
    /// reference, as in the `span`s that preserve blanks. Ignored in `script`, `style`, `textarea`
    /// and `title`.
    pub pre_span: bool,
}

impl HtmlNode {
    /// Creates a text node.
    pub fn text(text: String, span: Span) -> HtmlNode
        ensures { node_view result ≡ text_node (text_view text) span.0 }
    {
        HtmlNode::Text(text, span)
    }

    /// Returns whether the node is a tag.
    pub fn is_tag(&self) -> bool
        ensures { result ≡ is_tag (node_view self.now) }
    {
        matches!(self, HtmlNode::Tag(_))
    }

    /// Returns the span of the node, which is 0 for a tag.
    pub fn span(&self) -> Span
        ensures { result.0 ≡ node_span (node_view self.now) }
    {
        match self {
            HtmlNode::Tag(_) => Span(0),
            HtmlNode::Text(_, span) => *span,
            HtmlNode::Element(element) => element.span,
            HtmlNode::Frame(frame) => frame.span,
        }
    }

    /// Returns a copy of the node and everything below it. Fails only if an allocation fails.
    #[cycle(copy)]
    pub fn try_clone(&self) -> Result<HtmlNode, AllocError>
        ensures { IfOk result (λ copy. node_view copy ≡ node_view self.now) }
    {
        match self {
            HtmlNode::Tag(tag) => tag_copy(tag),
            HtmlNode::Text(text, span) => text_copy(text, *span),
            HtmlNode::Element(element) => {
                let children = copy_nodes(*element.children.allocator(), &element.children)?;
                element_copy(element, children)
            }
            HtmlNode::Frame(frame) => frame_copy(frame),
        }
    }
}

impl From<Tag> for HtmlNode {
    ghost from_gives = { λ tag node. node_view node ≡ tag_node (tag_view tag) };

    fn from(tag: Tag) -> HtmlNode {
        HtmlNode::Tag(tag)
    }
}

impl From<HtmlElement> for HtmlNode {
    ghost from_gives = { λ element node.
        let view = element_view element in node_view node ≡ element_node view.0 view.1 };

    fn from(element: HtmlElement) -> HtmlNode {
        HtmlNode::Element(element)
    }
}

impl From<HtmlFrame> for HtmlNode {
    ghost from_gives = { λ frame node. node_view node ≡ frame_node (html_frame_view frame) };

    fn from(frame: HtmlFrame) -> HtmlNode {
        HtmlNode::Frame(frame)
    }
}

impl HtmlElement {
    /// Creates an element without attributes, css, children or parent, and with the span 0.
    pub fn new(alloc: Global, tag: HtmlTag) -> HtmlElement
        ensures { element_view result ≡ new_element tag }
    {
        HtmlElement {
            tag,
            attrs: HtmlAttrs::new(alloc),
            css: Properties::new(alloc),
            children: Vec::new(alloc),
            parent: None,
            span: Span(0),
            pre_span: false,
        }
    }

    /// Returns the element with these children instead of its own.
    pub fn with_children(mut self, children: Vec<HtmlNode>) -> HtmlElement
        ensures { element_view result ≡ ((element_view self).0, nodes_view children.items) }
    {
        self.children = children;
        self
    }

    /// Appends a child; an element without children takes room for one. If an allocation fails,
    /// the error holds both.
    ///
    /// ```
    /// use html_dom::{HtmlElement, HtmlNode, Span};
    /// use html_names::tag;
    ///
    /// let text = HtmlNode::text(String::from_str(rt.alloc(), "Hello")?, Span(1));
    /// let paragraph = HtmlElement::new(rt.alloc(), tag::p).with_child(text)?;
    /// assert_eq!(rt; paragraph.children.len(), 1);
    /// ```
    #[tactic(auto, using(crate::proofs::Nodes::with_last_view))]
    pub fn with_child(
        mut self,
        child: HtmlNode,
    ) -> Result<HtmlElement, Refused<(HtmlElement, HtmlNode)>>
        ensures ok { IfOk result (λ element.
            element_view element ≡ with_node (node_view child) (element_view self)) }
        ensures back { IfErr result (λ refused. (element_view refused.back.0 ≡ element_view self)
            × (refused.back.1 ≡ child)) }
    {
        match push_compact(&mut self.children, child) {
            Ok(()) => Ok(self),
            Err(refused) => Err(Refused {
                back: (self, refused.back),
            }),
        }
    }

    /// Appends a text with the span of the element. If an allocation fails, the error holds the
    /// element.
    ///
    /// ```
    /// use html_dom::{HtmlElement, HtmlNode, Span};
    /// use html_names::tag;
    ///
    /// let heading = HtmlElement::new(rt.alloc(), tag::h1).spanned(Span(3));
    /// let heading = heading.with_text(rt.alloc(), "Salt & vinegar")?;
    /// assert!(rt; matches!(heading.children.first(), Some(HtmlNode::Text(_, Span(3)))));
    /// ```
    pub fn with_text(self, alloc: Global, text: &str) -> Result<HtmlElement, Refused<HtmlElement>>
        ensures ok { IfOk result (λ element. element_view element
            ≡ with_node (text_node (chars text.now) (element_view self).0.span) (element_view self)) }
        ensures back { IfErr result (λ refused. element_view refused.back ≡ element_view self) }
    {
        let Ok(text) = String::from_str(alloc, text) else {
            return Err(Refused { back: self });
        };
        let span = self.span;
        match self.with_child(HtmlNode::text(text, span)) {
            Ok(element) => Ok(element),
            Err(refused) => Err(Refused {
                back: refused.back.0,
            }),
        }
    }

    /// Returns the element with these css properties instead of its own. They are written only
    /// after [`resolve_inline_styles`](crate::resolve_inline_styles) has put them into the
    /// attribute `style`.
    pub fn with_css(mut self, css: Properties) -> HtmlElement
        ensures { let view = element_view self in
            element_view result ≡ (record view.0 { css = css }, view.1) }
    {
        self.css = css;
        self
    }

    /// Appends an attribute, even if one of that name exists: both are written then, and a browser
    /// takes the first (HTML Standard, duplicate-attribute parse error).
    /// [`set_attr`](HtmlElement::set_attr) replaces instead. If an allocation fails, the error
    /// holds all arguments.
    pub fn with_attr(
        mut self,
        attr: HtmlAttr,
        value: String,
    ) -> Result<HtmlElement, Refused<(HtmlElement, HtmlAttr, String)>>
        ensures ok { IfOk result (λ element.
            element_view element ≡ with_pair (attr, text_view value) (element_view self)) }
        ensures back { IfErr result (λ refused. (element_view refused.back.0 ≡ element_view self)
            × (refused.back.1 ≡ attr) × (refused.back.2 ≡ value)) }
    {
        match self.attrs.push(attr, value) {
            Ok(()) => Ok(self),
            Err(refused) => {
                let (attr, value) = refused.back;
                Err(Refused {
                    back: (self, attr, value),
                })
            }
        }
    }

    /// Sets the value of the first attribute with that name, or appends an attribute if there is
    /// none. Leaves further ones as they are. If an allocation fails, the element is unchanged and
    /// the error holds name and value.
    ///
    /// ```
    /// use html_dom::HtmlElement;
    /// use html_names::{attr, tag};
    ///
    /// let alloc = rt.alloc();
    /// let mut link = HtmlElement::new(alloc, tag::a)
    ///     .with_attr(attr::href, String::from_str(alloc, "/tides")?)?;
    /// link.set_attr(attr::href, String::from_str(alloc, "/moon")?)?;
    /// assert_eq!(rt; link.attrs.0.len(), 1);
    /// ```
    pub fn set_attr(
        &mut self,
        attr: HtmlAttr,
        value: String,
    ) -> Result<(), Refused<(HtmlAttr, String)>>
        ensures ok { OnOk result (element_view self.new
            ≡ with_set_pair (attr, text_view value) (element_view self.old)) }
        ensures kept { OnErr result (element_view self.new ≡ element_view self.old) }
        ensures back { IfErr result (λ refused. refused.back ≡ (attr, value)) }
    {
        self.attrs.set(attr, value)
    }

    /// Returns the element with that span.
    pub fn spanned(mut self, span: Span) -> HtmlElement
        ensures { let view = element_view self in
            element_view result ≡ (record view.0 { span = span.0 }, view.1) }
    {
        self.span = span;
        self
    }

    /// Returns a copy of the element and everything below it. Fails only if an allocation fails.
    pub fn try_clone(&self) -> Result<HtmlElement, AllocError>
        ensures { IfOk result (λ copy. element_view copy ≡ element_view self.now) }
    {
        let children = copy_nodes(*self.children.allocator(), &self.children)?;
        self.copy_with(children)
    }

    fn copy_with(&self, children: Vec<HtmlNode>) -> Result<HtmlElement, AllocError>
        ensures { IfOk result (λ copy.
            element_view copy ≡ ((element_view self.now).0, nodes_view children.items)) }
    {
        Ok(HtmlElement {
            tag: self.tag.try_clone()?,
            attrs: self.attrs.try_clone()?,
            css: self.css.try_clone()?,
            children,
            parent: self.parent,
            span: self.span,
            pre_span: self.pre_span,
        })
    }
}

// Copying recurses at each level. Code that copies one node alone stays out of the recursion, which
// halves the stack that a level takes.

#[inline(never)]
fn tag_copy(tag: &Tag) -> Result<HtmlNode, AllocError>
    ensures { IfOk result (λ copy. node_view copy ≡ tag_node (tag_view tag.now)) }
{
    Ok(HtmlNode::Tag(tag.try_clone()?))
}

#[inline(never)]
fn text_copy(text: &String, span: Span) -> Result<HtmlNode, AllocError>
    ensures { IfOk result (λ copy. node_view copy ≡ text_node (text_view text.now) span.0) }
{
    Ok(HtmlNode::Text(text.clone()?, span))
}

#[inline(never)]
fn frame_copy(frame: &HtmlFrame) -> Result<HtmlNode, AllocError>
    ensures { IfOk result (λ copy. node_view copy ≡ frame_node (html_frame_view frame.now)) }
{
    Ok(HtmlNode::Frame(frame.try_clone()?))
}

#[inline(never)]
fn element_copy(element: &HtmlElement, children: Vec<HtmlNode>) -> Result<HtmlNode, AllocError>
    ensures { IfOk result (λ copy.
        node_view copy ≡ element_node (element_view element.now).0 (nodes_view children.items)) }
{
    Ok(HtmlNode::Element(element.copy_with(children)?))
}

#[cycle(copy)]
fn copy_nodes(alloc: Global, nodes: &[HtmlNode]) -> Result<Vec<HtmlNode>, AllocError>
    ensures { IfOk result (λ copies. nodes_view copies.items ≡ nodes_view nodes.now) }
{
    let mut copies = Vec::new(alloc);
    for node in nodes {
        copies.push(node.try_clone()?)?;
    }
    Ok(copies)
}

#[cycle(same)]
fn same_node(a: &HtmlNode, b: &HtmlNode) -> bool
    ensures { IsTrue result ↔ (node_view a.now ≡ node_view b.now) }
{
    match a {
        HtmlNode::Tag(tag) => {
            if let HtmlNode::Tag(other) = b {
                same_tag(tag, other)
            } else {
                false
            }
        }
        HtmlNode::Text(text, span) => {
            if let HtmlNode::Text(other, other_span) = b {
                same_text(text, other) && *span == *other_span
            } else {
                false
            }
        }
        HtmlNode::Element(element) => {
            if let HtmlNode::Element(other) = b {
                same_element(element, other)
            } else {
                false
            }
        }
        HtmlNode::Frame(frame) => {
            if let HtmlNode::Frame(other) = b {
                same_html_frame(frame, other)
            } else {
                false
            }
        }
    }
}

#[cycle(same)]
fn same_element(a: &HtmlElement, b: &HtmlElement) -> bool
    ensures { IsTrue result ↔ (element_view a.now ≡ element_view b.now) }
{
    a.tag == b.tag
        && same_attrs(&a.attrs, &b.attrs)
        && equal_properties(&a.css, &b.css)
        && a.parent == b.parent
        && a.span == b.span
        && a.pre_span == b.pre_span
        && same_nodes(&a.children, &b.children)
}

#[cycle(same)]
#[tactic(auto, using(crate::proofs::Equals::same_length))]
fn same_nodes(a: &[HtmlNode], b: &[HtmlNode]) -> bool
    ensures { IsTrue result ↔ (nodes_view a.now ≡ nodes_view b.now) }
{
    if a.len() != b.len() {
        return false;
    }
    for (i, node) in a.iter().enumerate() {
        if !same_node(node, &b[i]) {
            return false;
        }
    }
    true
}

impl PartialEq for HtmlNode {
    ghost use Rattle.std.specs.Cmp.{partial_equiv_from_equiv};
    ghost use Rattle.html_dom_tree.specs.NodeEqual.{same, same_equiv, node_discrete};

    ghost eq = { same node_view node_discrete };

    ghost laws = { partial_equiv_from_equiv (same_equiv node_view node_discrete) };

    fn eq(&self, other: &HtmlNode) -> bool {
        same_node(self, other)
    }
}

impl Eq for HtmlNode {
    ghost use Rattle.html_dom_tree.specs.NodeEqual.{same_equiv, node_discrete};

    ghost laws = { same_equiv node_view node_discrete };
}

impl PartialEq for HtmlElement {
    ghost use Rattle.std.specs.Cmp.{partial_equiv_from_equiv};
    ghost use Rattle.html_dom_tree.specs.NodeEqual.{same, same_equiv, element_discrete};

    ghost eq = { same element_view element_discrete };

    ghost laws = { partial_equiv_from_equiv (same_equiv element_view element_discrete) };

    fn eq(&self, other: &HtmlElement) -> bool {
        same_element(self, other)
    }
}

impl Eq for HtmlElement {
    ghost use Rattle.html_dom_tree.specs.NodeEqual.{same_equiv, element_discrete};

    ghost laws = { same_equiv element_view element_discrete };
}
