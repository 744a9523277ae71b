//! The places of indents in pretty text. The rules are this project's; they go by the CSS defaults
//! of HTML Standard 15.3.

ghost use Rattle.std.specs.{List.{list_any}, Prelude.{◌≡◌, ◌==◌, ◌&&◌, IfOk, IsTrue, true, bytes_eq, chars, codes}};
ghost use Rattle.html_names_core.specs.Names.{is_ascii};
ghost use Rattle.html_dom_tree.specs.{Attributes.{first}, Views.{text_view}};
ghost use Rattle.html_dom_shown.specs.Values.{is_text};
ghost use Rattle.html_dom_flat.specs.Siblings.{head_view, node_view, siblings_view};
ghost use Rattle.typst_html_encode.specs.Layout.{deeper, margin_inside, is_of_lines, allows_pretty_inside, wants_pretty_around, node_wants_pretty, nodes_want_pretty, is_pretty_inside, has_other_type, is_by_lines, keeps_lines};

use crate::head::default_display;
use html_dom_flat::{Element, Node, Siblings};
use html_names_core::property::Display;
use html_names_core::{HtmlTag, attr, tag};
use std::alloc::AllocError;

/// The indentation of a node, and whether pretty writing is on there.
#[derive(Clone, Copy)]
pub(crate) struct Margin {
    pub(crate) pretty: bool,
    /// The level of the node. The root has level 0.
    pub(crate) level: usize,
}

impl Margin {
    /// Returns the margin one level deeper. Fails if the level overflows: so deep a tree would not
    /// fit into memory.
    pub(crate) fn deeper(self) -> Result<Margin, AllocError>
        ensures { IfOk result (λ margin. margin ≡ deeper self) }
    {
        match self.level.checked_add(1) {
            Some(level) => Ok(Margin {
                pretty: self.pretty,
                level,
            }),
            None => Err(AllocError),
        }
    }

    pub(crate) fn inside(self, element: &Element) -> Margin
        ensures { result ≡
            margin_inside self (head_view element.now) (siblings_view element.now.children) }
    {
        Margin {
            pretty: self.pretty && is_pretty_inside(element),
            level: self.level,
        }
    }
}

/// Returns whether the display is a block, a list item, a table or a part of one.
fn is_of_lines(display: Option<Display>) -> bool
    ensures { result ≡ is_of_lines display }
{
    match display {
        None => false,
        Some(Display::Block | Display::ListItem) => true,
        Some(display) => display.is_tabular(),
    }
}

#[tactic(auto, unfolding(html_names_core::specs::Tables::known_tags, crate::specs::Layout::allows_pretty_inside))]
fn allows_pretty_inside(element: &Element) -> bool
    ensures { result ≡ allows_pretty_inside (head_view element.now).name }
{
    let tag = element.tag();
    (tag::mathml::is_mathml(tag) && !tag::mathml::is_token(tag))
        || (is_of_lines(default_display(element)) && *tag != tag::pre)
        || *tag == tag::head
}

fn is_text(text: &String, expected: &'static str) -> bool
    requires { IsTrue (is_ascii expected.now) }
    ensures { result ≡ bytes_eq expected.now (text_view text.now) }
{
    expected == text.as_str()
}

#[tactic(auto, unfolding(html_names_core::specs::Tables::known_attrs), using(crate::proofs::Given::pair_given))]
fn shows_as_block(element: &Element) -> bool
    ensures { result ≡
        is_text (codes "block") (first (head_view element.now).attrs (codes "display")) }
{
    let names = element.names();
    for (number, value) in element.attrs() {
        if *names.attr_at(*number) == attr::mathml::display {
            return is_text(value, "block");
        }
    }
    false
}

#[rattlefmt::skip]
#[tactic(auto,
    unfolding(html_names_core::specs::Tables::known_tags, crate::specs::Layout::wants_pretty_around),
    using(crate::proofs::Layouts::last_first))]
pub(crate) fn wants_pretty_around(element: &Element) -> bool
    ensures { result ≡ wants_pretty_around (head_view element.now) }
{
    let tag = element.tag();
    if *tag == tag::mathml::math {
        return shows_as_block(element);
    }
    allows_pretty_inside(element)
        || tag::mathml::is_mathml(tag)
        || *tag == tag::pre
        || tag::is_metadata_content(tag)
}

/// Returns whether the node is a frame, or an element that wants lines of its own.
fn node_wants_pretty(node: &Node) -> bool
    ensures { result ≡ node_wants_pretty (node_view node.now) }
{
    match node {
        Node::Tag(_) | Node::Text(_, _) => false,
        Node::Element(element) => wants_pretty_around(element),
        Node::Frame(_) => true,
    }
}

fn nodes_want_pretty(siblings: &Siblings) -> bool
    ensures { result ≡ nodes_want_pretty (siblings_view siblings.now) }
{
    let mut left = *siblings;
    while let Some((node, others)) = left.split_first() {
        if node_wants_pretty(&node) {
            return true;
        }
        left = others;
    }
    false
}

#[tactic(auto, unfolding(crate::specs::Layout::is_pretty_inside), using(crate::proofs::Layouts::either_order))]
fn is_pretty_inside(element: &Element) -> bool
    ensures { result ≡ is_pretty_inside (head_view element.now)
        (siblings_view element.now.children) }
{
    nodes_want_pretty(&element.children) && allows_pretty_inside(element)
}

/// Returns whether an attribute `type` has a value other than `text/javascript`.
#[tactic(auto, unfolding(html_names_core::specs::Tables::known_attrs), using(crate::proofs::Given::pair_given))]
fn has_other_type(element: &Element) -> bool
    ensures { result ≡ has_other_type (head_view element.now).attrs }
{
    let names = element.names();
    for (number, value) in element.attrs() {
        if *names.attr_at(*number) == attr::type_ && !is_text(value, "text/javascript") {
            return true;
        }
    }
    false
}

/// Returns whether pretty writing puts the text of a raw element on lines of its own.
#[tactic(auto, unfolding(html_names_core::specs::Tables::known_tags, crate::specs::Layout::is_by_lines))]
pub(crate) fn is_by_lines(element: &Element) -> bool
    ensures { result ≡ is_by_lines (head_view element.now) }
{
    *element.tag() == tag::style || !has_other_type(element)
}

fn holds_backquote(text: &str) -> bool
    ensures { result ≡ list_any (λ c. c == 96) (chars text.now) }
{
    text.chars().any(|c| c == '`')
}

/// Returns whether a raw text keeps its lines as they are: the text of a script that holds a
/// backquote, as template literals do.
#[tactic(auto, unfolding(html_names_core::specs::Tables::known_tags, crate::specs::Layout::keeps_lines))]
pub(crate) fn keeps_lines(tag: &HtmlTag, text: &str) -> bool
    ensures { result ≡ keeps_lines tag.now (chars text.now) }
{
    *tag == tag::script && holds_backquote(text)
}
