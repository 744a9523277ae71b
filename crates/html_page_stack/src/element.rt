//! An open element of a page.

ghost use Rattle.std.specs.{List.{list_any}, Prelude.{◌≡◌, ◌++◌, IfOk, OnErr, OnOk, chars}};
ghost use Rattle.html_dom_tree.specs.{Tree.{none, with_node}, Views.{attrs_view, element_view, node_view, nodes_view, text_view}};
ghost use Rattle.html_page_names.specs.{Kinds.{IsKindsOf}, PageNames.{of}};
ghost use Rattle.html_page_stack.specs.{OpenCounts.{has_child_elements}, OpenElements.{end_in_text, has_elements, hold_named, hold_template, is_text, joined, longer, says_html, with_head_child, with_inner_child, with_last_nodes, with_longer_last}};

use crate::context::Context;
use crate::formats::Format;
use crate::modes::{Destination, Space};
use crate::search::Target;
use crate::token::TagName;
use html_dom_tree::{HtmlAttrs, HtmlElement, HtmlNode, Span};
use html_names_core::{HtmlTag, tag};
use html_page_names::{Kind, Kinds, is_encoding, is_html_encoding, is_same_lowered, kinds_of};
use std::alloc::{AllocError, Global};
use std::mem;

/// The number of nodes from which a list is long.
const LONG_LIST: usize = 1024;

/// Appends a child to the element. Allocates room for one child first, as most elements have one,
/// and grows a long list by a sixteenth, so that little memory is left over.
#[inline(always)]
#[tactic(auto, using(html_dom_tree::proofs::Nodes::with_last_view))]
fn add_node(element: &mut HtmlElement, node: HtmlNode) -> Result<(), AllocError>
    ensures added { OnOk result (element_view element.new
        ≡ with_node (node_view node) (element_view element.old)) }
    ensures kept { OnErr result (element_view element.new ≡ element_view element.old) }
{
    let count = element.children.len();
    if count == 0 {
        element.children.reserve_exact(1)?;
    } else if LONG_LIST <= count && count == element.children.capacity() {
        element.children.reserve_exact(count / 16)?;
    }
    element.children.push(node)?;
    Ok(())
}

/// Appends a child to the element, and returns it.
fn with_node(element: HtmlElement, node: HtmlNode) -> Result<HtmlElement, AllocError>
    ensures { IfOk result (λ grown.
        element_view grown ≡ with_node (node_view node) (element_view element)) }
{
    let mut grown = element;
    add_node(&mut grown, node)?;
    Ok(grown)
}

fn is_text(node: &HtmlNode) -> bool
    ensures { result ≡ is_text (node_view node.now) }
{
    matches!(node, HtmlNode::Text(..))
}

/// Returns whether the last of the nodes is a text.
#[tactic(auto, using(crate::proofs::Children::last_is_text))]
fn end_in_text(nodes: &[HtmlNode]) -> bool
    ensures { result ≡ end_in_text (nodes_view nodes.now) }
{
    match nodes.split_last() {
        None => false,
        Some((last, _)) => is_text(last),
    }
}

/// Appends more to a text.
fn add_more(text: &mut String, more: &str) -> Result<(), AllocError>
    ensures longer { OnOk result (text_view text.new ≡ text_view text.old ++ chars more.now) }
    ensures kept { OnErr result (text_view text.new ≡ text_view text.old) }
{
    text.push_str(more)?;
    Ok(())
}

/// Appends more to a node that is a text.
fn lengthen(node: &mut HtmlNode, more: &str) -> Result<(), AllocError>
    ensures longer { OnOk result (node_view node.new ≡ longer (chars more.now) (node_view node.old)) }
    ensures kept { OnErr result (node_view node.new ≡ node_view node.old) }
{
    match node {
        HtmlNode::Text(last, _) => add_more(last, more),
        _ => Ok(()),
    }
}

/// Appends more to the last of the nodes, if that is a text.
fn lengthen_last(nodes: &mut [HtmlNode], more: &str) -> Result<(), AllocError>
    ensures longer { OnOk result (nodes_view nodes.new
        ≡ with_longer_last (chars more.now) (nodes_view nodes.old)) }
    ensures kept { OnErr result (nodes_view nodes.new ≡ nodes_view nodes.old) }
{
    if let Some(last) = nodes.last_mut() {
        lengthen(last, more)?;
    }
    Ok(())
}

/// Appends a text that is not empty, which joins the last child if that is a text too.
fn join(element: &mut HtmlElement, text: String) -> Result<(), AllocError>
    ensures joined { OnOk result (element_view element.new ≡ (let e = element_view element.old in
        (e.0, joined (text_view text) e.0.span e.1))) }
    ensures kept { OnErr result (element_view element.new ≡ element_view element.old) }
{
    if end_in_text(&element.children) {
        return lengthen_last(&mut element.children, text.as_str());
    }
    let child = HtmlNode::text(text, element.span);
    add_node(element, child)
}

#[tactic(auto, using(html_dom_tree::proofs::Nodes::with_last_view))]
fn add_child(element: &mut HtmlElement, child: HtmlNode) -> Result<(), AllocError>
    ensures { OnOk result (element_view element.new
        ≡ with_node (node_view child) (element_view element.old)) }
{
    element.children.push(child)?;
    Ok(())
}

/// Appends a child to the node, if it is an element.
fn add_to_node(parent: &mut HtmlNode, child: HtmlNode) -> Result<(), AllocError>
    ensures { OnOk result (node_view parent.new
        ≡ with_inner_child (node_view child) (node_view parent.old)) }
{
    match parent {
        HtmlNode::Element(element) => add_child(element, child),
        _ => Ok(()),
    }
}

/// Appends a child to the first of the nodes, which is the head.
fn add_to_head(nodes: &mut [HtmlNode], child: HtmlNode) -> Result<(), AllocError>
    ensures { OnOk result (nodes_view nodes.new
        ≡ with_head_child (node_view child) (nodes_view nodes.old)) }
{
    if let Some(head) = nodes.first_mut() {
        add_to_node(head, child)?;
    }
    Ok(())
}

/// Appends nodes to the children of an element.
fn with_nodes(element: HtmlElement, nodes: Vec<HtmlNode>) -> Result<HtmlElement, AllocError>
    ensures { IfOk result (λ grown. element_view grown ≡ (let e = element_view element in
        (e.0, with_last_nodes e.1 (nodes_view nodes.items)))) }
{
    let mut grown = element;
    for node in nodes {
        grown = with_node(grown, node)?;
    }
    Ok(grown)
}

/// Returns whether any of the nodes is an element.
fn hold_elements(nodes: &[HtmlNode]) -> bool
    ensures { result ≡ has_elements (nodes_view nodes.now) }
{
    for node in nodes {
        if matches!(node, HtmlNode::Element(_)) {
            return true;
        }
    }
    false
}

/// Returns whether any of the nodes is an element whose name is of the kind.
fn hold_kind(nodes: &[HtmlNode], kind: Kind) -> bool
    ensures { result ≡ hold_named (of kind) (nodes_view nodes.now) }
{
    for node in nodes {
        if let HtmlNode::Element(element) = node
            && kinds_of(element.tag.resolve()).has(kind)
        {
            return true;
        }
    }
    false
}

/// Returns whether there is a `template` in an element among the nodes.
fn hold_template(nodes: &[HtmlNode]) -> bool
    ensures { result ≡ hold_template (nodes_view nodes.now) }
{
    for node in nodes {
        if let HtmlNode::Element(element) = node
            && hold_kind(&element.children, Kind::Template)
        {
            return true;
        }
    }
    false
}

/// Returns whether the attributes say that an `annotation-xml` holds HTML.
fn says_html(attrs: &HtmlAttrs) -> bool
    ensures { result ≡ list_any says_html (attrs_view attrs.now) }
{
    for attr in &attrs.0 {
        if is_encoding(&attr.0) && is_html_encoding(attr.1.as_str()) {
            return true;
        }
    }
    false
}

/// An open element of a page, with its children so far.
#[derive(Drop)]
pub struct PageElement {
    /// The element, with its children so far.
    pub element: HtmlElement,
    /// Its namespace.
    pub space: Space,
    pub(crate) destination: Destination,
    pub(crate) kinds: Kinds,
    /// Whether any of its children is an element.
    pub(crate) has_elements: bool,
    /// What stands right behind it, if it is a part of a table right in a `template`.
    pub(crate) behind: Vec<HtmlNode>,
    /// The facts about it, once it is among the open elements.
    pub(crate) context: Context,
    ghost kinds_are: { IsKindsOf (element_view element).0.name kinds },
    ghost counted: { has_elements ≡ has_child_elements (element_view element) },
}

impl PageElement {
    ghost use Rattle.std.specs.Prelude.{bytes_eq};
    ghost use Rattle.html_page_names.specs.PageNames.{of};
    ghost use Rattle.html_page_stack.specs.OpenElements.{hold_template, holds_html_in, holds_table_text, is_before_table, holds_tags, holds_text_in, is_foreign, is_foreign_of, is_opened, is_html, is_of, is_removed, is_table_context, placed, placed_in, template_of, with_attrs, with_last_child, with_nodes, with_text};
    ghost use Rattle.html_dom_tree.specs.declared.node.HtmlNode.TheVariants.{Element};
    ghost use Rattle.html_page_stack.specs.{Contexts.{known_part}, Formats.{entry_of}, PageViews.{element_of, format_of, target_test}, Pages.{made}};

    /// Creates an element without children.
    pub(crate) fn new(
        alloc: Global,
        destination: Destination,
        space: Space,
        tag: HtmlTag,
        kinds: Kinds,
        attrs: HtmlAttrs,
        span: Span,
    ) -> PageElement
        requires { IsKindsOf tag kinds }
        ensures { element_of result ≡ made destination space tag (attrs_view attrs) span.0 }
    {
        let mut element = HtmlElement::new(alloc, tag).spanned(span);
        element.attrs = attrs;
        PageElement {
            element,
            space,
            destination,
            kinds,
            has_elements: false,
            behind: Vec::new(alloc),
            context: Context::OUTSIDE,
        }
    }

    /// Returns whether it is an element of HTML.
    pub fn is_html(&self) -> bool
        ensures { result ≡ is_html (element_of self.now).space }
    {
        matches!(self.space, Space::Html)
    }

    /// Returns whether it was removed from the open elements, while what is in it is open.
    pub(crate) fn is_removed(&self) -> bool
        ensures { result ≡ is_removed (element_of self.now).space }
    {
        matches!(self.space, Space::Removed)
    }

    /// Returns whether it stands before the nearest table once it is complete.
    pub(crate) fn is_before_table(&self) -> bool
        ensures { result ≡ is_before_table (element_of self.now) }
    {
        matches!(
            self.destination,
            Destination::BeforeTable | Destination::ReplacedBeforeTable
        )
    }

    /// Returns whether it is an element of SVG or MathML.
    fn is_foreign(&self) -> bool
        ensures { result ≡ is_foreign (element_of self.now).space }
    {
        matches!(self.space, Space::Svg | Space::MathMl)
    }

    /// Returns whether its name is of the kind, in any namespace.
    pub fn has_kind(&self, kind: Kind) -> bool
        ensures { result ≡ of kind (element_of self.now).head.name }
    {
        self.kinds.has(kind)
    }

    pub(crate) fn has_name(&self, tag: &HtmlTag) -> bool
        ensures { result ≡ bytes_eq (element_of self.now).head.name tag.now }
    {
        self.element.tag == *tag
    }

    /// Returns whether it is an element of HTML of the kind.
    pub(crate) fn is(&self, kind: Kind) -> bool
        ensures { result ≡ is_of (of kind) (element_of self.now) }
    {
        self.is_html() && self.has_kind(kind)
    }

    /// Returns whether it is a table, a section of it or a row.
    pub(crate) fn is_table_context(&self) -> bool
        ensures { result ≡ is_table_context (element_of self.now) }
    {
        self.is_html()
            && (self.has_kind(Kind::Table)
                || self.has_kind(Kind::Section)
                || self.has_kind(Kind::Tr))
    }

    /// Returns whether a text in it is judged as a whole by the rules of tables.
    pub(crate) fn holds_table_text(&self) -> bool
        ensures { result ≡ holds_table_text (element_of self.now) }
    {
        self.is_table_context() || self.is(Kind::Template)
    }

    /// Returns whether an element among its children has a `template` in it.
    pub(crate) fn holds_template(&self) -> bool
        ensures { result ≡ hold_template (element_of self.now).children }
    {
        hold_template(&self.element.children)
    }

    /// Returns whether it is an element of HTML that the target means.
    pub(crate) fn is_target(&self, target: Target<'_>) -> bool
        ensures { result ≡ is_of (target_test target.entry) (element_of self.now) }
    {
        self.is_html()
            && match target {
                Target::Kind(kind) => self.has_kind(kind),
                Target::Named(tag) => self.has_name(tag),
                Target::Nothing => false,
            }
    }

    /// Returns whether it is an element of HTML with that name, and has that span.
    pub(crate) fn is_opened(&self, tag: &HtmlTag, span: Span) -> bool
        ensures { result ≡ is_opened tag.now span.0 (element_of self.now) }
    {
        self.is_html() && self.has_name(tag) && self.element.span == span
    }

    /// Returns the entry of the element in the list of active formatting elements, if it is opened at
    /// that index.
    pub(crate) fn format(&self, index: usize) -> Result<Format, AllocError>
        ensures { IfOk result (λ format. format_of format ≡ entry_of (element_of self.now) index) }
    {
        let name = TagName {
            tag: self.element.tag.try_clone()?,
            kinds: self.kinds,
        };
        Ok(Format {
            name,
            attrs: self.element.attrs.try_clone()?,
            span: self.element.span,
            index,
        })
    }

    /// Returns whether it is an element of SVG or MathML with that name, in lowercase.
    pub(crate) fn is_foreign_of(&self, tag: &HtmlTag) -> bool
        ensures { result ≡ is_foreign_of tag.now (element_of self.now) }
    {
        self.is_foreign() && is_same_lowered(self.element.tag.resolve(), tag.resolve())
    }

    /// Returns whether its content is read as HTML: that of an element of HTML, or of an HTML
    /// integration point (HTML Standard 13.2.4.2).
    pub fn holds_html(&self) -> bool
        ensures { let e = element_of self.now in result ≡ holds_html_in e.space e }
    {
        match self.space {
            Space::Html => true,
            Space::Svg => self.has_kind(Kind::SvgHtml),
            Space::MathMl => self.has_kind(Kind::AnnotationXml) && says_html(&self.element.attrs),
            Space::Removed => false,
        }
    }

    /// Returns whether it is a MathML text integration point.
    pub fn holds_text(&self) -> bool
        ensures { let e = element_of self.now in result ≡ holds_text_in e.space e }
    {
        matches!(self.space, Space::MathMl) && self.has_kind(Kind::MathText)
    }

    /// Returns whether start tags in it are read as HTML, but for few.
    pub fn holds_tags(&self) -> bool
        ensures { result ≡ holds_tags (element_of self.now) }
    {
        self.holds_html() || self.holds_text()
    }

    /// Gives it those of the attributes that it lacks.
    pub(crate) fn merge(&mut self, alloc: Global, others: HtmlAttrs) -> Result<(), AllocError>
        ensures merged { OnOk result
            (element_of self.new ≡ with_attrs (attrs_view others) (element_of self.old)) }
        ensures known { known_part self.new ≡ known_part self.old }
    {
        let attrs = mem::replace(&mut self.element.attrs, HtmlAttrs::new(alloc));
        self.element.attrs = attrs.fold(others)?;
        Ok(())
    }

    /// Takes the children of another element over.
    pub(crate) fn take_children(&mut self, alloc: Global, other: &mut PageElement)
        ensures taken { element_of self.new
            ≡ record (element_of self.old) { children = (element_of other.old).children } }
        ensures left { element_of other.new ≡ record (element_of other.old) { children = none } }
    {
        let children = Vec::new(alloc);
        self.element.children = mem::replace(&mut other.element.children, children);
        self.has_elements = other.has_elements;
        other.has_elements = false;
    }

    /// Appends a text with the span of the element, unless the text is empty.
    #[tactic(auto, using(crate::proofs::Children::text_counts))]
    pub(crate) fn add_text(&mut self, text: String) -> Result<(), AllocError>
        ensures grown { OnOk result
            (element_of self.new ≡ with_text (text_view text) (element_of self.old)) }
        ensures known { known_part self.new ≡ known_part self.old }
    {
        if text.as_str().is_empty() {
            return Ok(());
        }
        join(&mut self.element, text)
    }

    /// Appends an element.
    #[inline(always)]
    #[tactic(auto, using(crate::proofs::Children::element_counts))]
    pub(crate) fn add_child(&mut self, child: HtmlElement) -> Result<(), AllocError>
        ensures grown { OnOk result (element_of self.new
            ≡ with_last_child (node_view (Element child)) (element_of self.old)) }
        ensures known { known_part self.new ≡ known_part self.old }
    {
        add_node(&mut self.element, HtmlNode::from(child))?;
        self.has_elements = true;
        Ok(())
    }

    #[tactic(auto, using(crate::proofs::Children::element_counts))]
    fn with_last_child(self, child: HtmlElement) -> Result<PageElement, AllocError>
        ensures grown { IfOk result (λ grown. element_of grown
            ≡ with_last_child (node_view (Element child)) (element_of self)) }
        ensures context { IfOk result (λ grown. grown.context ≡ self.context) }
    {
        let PageElement {
            element,
            space,
            destination,
            kinds,
            behind,
            context,
            ..
        } = self;
        let element = with_node(element, HtmlNode::from(child))?;
        Ok(PageElement {
            element,
            space,
            destination,
            kinds,
            has_elements: true,
            behind,
            context,
        })
    }

    #[tactic(auto, using(crate::proofs::Children::head_counts))]
    fn with_head_child(self, child: HtmlElement) -> Result<PageElement, AllocError>
        ensures grown { IfOk result (λ grown. element_of grown ≡ (let o = element_of self in
            record o { children = with_head_child (node_view (Element child)) o.children })) }
        ensures context { IfOk result (λ grown. grown.context ≡ self.context) }
    {
        let PageElement {
            mut element,
            space,
            destination,
            kinds,
            has_elements,
            behind,
            context,
        } = self;
        add_to_head(&mut element.children, HtmlNode::from(child))?;
        Ok(PageElement {
            element,
            space,
            destination,
            kinds,
            has_elements,
            behind,
            context,
        })
    }

    #[tactic(auto, using(crate::proofs::Children::nodes_count))]
    fn with_last_nodes(self, nodes: Vec<HtmlNode>) -> Result<PageElement, AllocError>
        ensures grown { IfOk result (λ grown. element_of grown
            ≡ with_nodes (nodes_view nodes.items) (element_of self)) }
        ensures context { IfOk result (λ grown. grown.context ≡ self.context) }
    {
        let PageElement {
            element,
            space,
            destination,
            kinds,
            has_elements,
            behind,
            context,
        } = self;
        let has_more = hold_elements(&nodes);
        let element = with_nodes(element, nodes)?;
        Ok(PageElement {
            element,
            space,
            destination,
            kinds,
            has_elements: has_elements || has_more,
            behind,
            context,
        })
    }

    /// Puts a complete element to a destination in this one.
    fn with_placed(
        self,
        destination: Destination,
        child: HtmlElement,
    ) -> Result<PageElement, AllocError>
        ensures grown { IfOk result (λ grown. element_of grown
            ≡ placed_in destination (element_view child) (element_of self)) }
        ensures context { IfOk result (λ grown. grown.context ≡ self.context) }
    {
        match destination {
            Destination::Parent | Destination::BeforeTable => self.with_last_child(child),
            Destination::Head => self.with_head_child(child),
            Destination::Replaced | Destination::ReplacedBeforeTable => {
                let HtmlElement { children, .. } = child;
                self.with_last_nodes(children)
            }
        }
    }

    /// Puts a complete element to its destination in this one, and what stands right behind it.
    pub(crate) fn with_child(self, child: PageElement) -> Result<PageElement, AllocError>
        ensures grown { IfOk result (λ grown. element_of grown
            ≡ placed (element_of child) (element_of self)) }
        ensures context { IfOk result (λ grown. grown.context ≡ self.context) }
    {
        let PageElement {
            element,
            destination,
            behind,
            ..
        } = child;
        let grown = self.with_placed(destination, element)?;
        grown.with_last_nodes(behind)
    }

    /// Takes what stands right behind it, in a `template` with that span.
    #[tactic(auto, unfolding(html_names_core::specs::Tables::known_tags))]
    pub(crate) fn take_behind(&mut self, alloc: Global, span: Span) -> PageElement
        ensures taken { element_of result ≡ template_of (element_of self.old).behind span.0 }
        ensures left { element_of self.new ≡ record (element_of self.old) { behind = none } }
        ensures context { self.new.context ≡ self.old.context }
    {
        let name = TagName::new(tag::template);
        let mut element = HtmlElement::new(alloc, name.tag).spanned(span);
        element.children = mem::replace(&mut self.behind, Vec::new(alloc));
        PageElement {
            has_elements: hold_elements(&element.children),
            element,
            space: Space::Html,
            destination: Destination::Parent,
            kinds: name.kinds,
            behind: Vec::new(alloc),
            context: Context::OUTSIDE,
        }
    }

    /// Puts the children of another element right behind it.
    pub(crate) fn put_behind(&mut self, holder: PageElement)
        ensures put { element_of self.new
            ≡ record (element_of self.old) { behind = (element_of holder).children } }
        ensures context { self.new.context ≡ self.old.context }
    {
        let PageElement { element, .. } = holder;
        let HtmlElement { children, .. } = element;
        self.behind = children;
    }
}
