//! Inline styles: the css of each element, written into its attribute `style`.

ghost use Rattle.std.specs.Prelude.{◌≡◌, [], IfOk, OnOk, OnErr, codes};
ghost use Rattle.html_values_css.specs.Properties.{inline_text};
ghost use Rattle.html_dom_tree.specs.Attributes.{first};
ghost use Rattle.html_dom_tree.specs.Styled.{before_value, attrs_with_style, styled_attrs, styled_node, styled_nodes, styled_element};
ghost use Rattle.html_dom_tree.specs.Views.{text_view, attrs_view, node_view, element_view, nodes_view};

use crate::attrs::HtmlAttrs;
use crate::node::{HtmlElement, HtmlNode};
use html_names_core::attr;
use html_values_css::Properties;
use std::alloc::{AllocError, Global};

/// Writes the css of each element, at any depth, into its attribute `style`: before the value of
/// the first `style`, with `; ` between unless that value is empty, or as a new last attribute.
/// Leaves elements without css as they are. If an allocation fails, nothing changes.
///
/// Elements keep their css, so a second call writes it once more. Documents made from items have
/// been through this call.
///
/// Builds the new tree beside the old one. [`with_inline_styles`], which html_dom does not
/// re-export, consumes a tree and copies no node.
///
/// ```
/// use html_dom::{HtmlElement, resolve_inline_styles};
/// use html_names::{attr, tag};
/// use html_values::Properties;
///
/// let alloc = rt.alloc();
/// let css = Properties::new(alloc).with("display", String::from_str(alloc, "block")?)?;
/// let mut element = HtmlElement::new(alloc, tag::p)
///     .with_css(css)
///     .with_attr(attr::style, String::from_str(alloc, "color: red")?)?;
/// resolve_inline_styles(alloc, &mut element)?;
/// let style = element.attrs.get(&attr::style).expect(&rt, "a style");
/// assert_eq!(rt; style.as_str(), "display: block; color: red");
/// ```
pub fn resolve_inline_styles(alloc: Global, element: &mut HtmlElement) -> Result<(), AllocError>
    ensures ok { OnOk result
        (element_view element.new ≡ styled_element (element_view element.old)) }
    ensures kept { OnErr result (element.new ≡ element.old) }
{
    let made = with_inline_styles(alloc, element.try_clone()?)?;
    *element = made;
    Ok(())
}

/// Consumes an element and returns it with the css of each element, at any depth, in its attribute
/// `style`, as [`resolve_inline_styles`] writes it. Changes the element in place, and copies no
/// node. If an allocation fails, drops the element.
pub fn with_inline_styles(
    alloc: Global,
    mut element: HtmlElement,
) -> Result<HtmlElement, AllocError>
    ensures { IfOk result (λ made. element_view made ≡ styled_element (element_view element)) }
{
    style_element(alloc, &mut element)?;
    Ok(element)
}

/// Styles the nodes below an element, then its own attributes.
#[cycle(style)]
fn style_element(alloc: Global, element: &mut HtmlElement) -> Result<(), AllocError>
    ensures { OnOk result
        (element_view element.new ≡ styled_element (element_view element.old)) }
{
    style_nodes(alloc, &mut element.children)?;
    style_attrs(alloc, &element.css, &mut element.attrs)
}

#[cycle(style)]
#[tactic(auto, unfolding(crate::specs::Styled::styled_node))]
fn style_node(alloc: Global, node: &mut HtmlNode) -> Result<(), AllocError>
    ensures { OnOk result (node_view node.new ≡ styled_node (node_view node.old)) }
{
    match node {
        HtmlNode::Element(element) => style_element(alloc, element),
        HtmlNode::Tag(_) | HtmlNode::Text(_, _) | HtmlNode::Frame(_) => Ok(()),
    }
}

#[cycle(style)]
fn style_nodes(alloc: Global, nodes: &mut [HtmlNode]) -> Result<(), AllocError>
    ensures { OnOk result (nodes_view nodes.new ≡ styled_nodes (nodes_view nodes.old)) }
{
    for node in nodes.iter_mut() {
        style_node(alloc, node)?;
    }
    Ok(())
}

fn style_attrs(alloc: Global, css: &Properties, attrs: &mut HtmlAttrs) -> Result<(), AllocError>
    ensures { OnOk result (attrs_view attrs.new ≡ styled_attrs css.now (attrs_view attrs.old)) }
{
    if css.as_slice().is_empty() {
        return Ok(());
    }
    put_style(attrs, inline_text(alloc, css)?)
}

fn inline_text(alloc: Global, css: &Properties) -> Result<String, AllocError>
    ensures { IfOk result (λ text. text_view text ≡ inline_text css.now) }
{
    let mut text = String::with_capacity(alloc, inline_room(css))?;
    text.write(css.to_inline())?;
    Ok(text)
}

/// Returns the capacity to allocate for the text, in bytes.
fn inline_room(css: &Properties) -> usize {
    let mut room: usize = 0;
    for property in css.as_slice() {
        room = room
            .wrapping_add(property.name.len())
            .wrapping_add(property.value.len())
            .wrapping_add(4);
    }
    room
}

/// Puts a text before the value of the first `style`, or appends it as an attribute.
#[tactic(auto, unfolding(html_names_core::specs::Tables::known_attrs))]
fn put_style(attrs: &mut HtmlAttrs, text: String) -> Result<(), AllocError>
    ensures { let old = attrs_view attrs.old in
        OnOk result (attrs_view attrs.new
        ≡ attrs_with_style (text_view text) old (first old (codes "style"))) }
{
    match attrs.get_mut(&attr::style) {
        Some(value) => {
            let joined = before_value(text, value)?;
            *value = joined;
            Ok(())
        }
        None => Ok(attrs.push(attr::style, text)?),
    }
}

/// Joins a text and a value with `; `, or returns the text if the value is empty.
fn before_value(mut text: String, value: &String) -> Result<String, AllocError>
    ensures { IfOk result (λ joined.
        text_view joined ≡ before_value (text_view text) (text_view value.now)) }
{
    if value.is_empty() {
        return Ok(text);
    }
    text.push_str("; ")?;
    text.push_str(value.as_str())?;
    Ok(text)
}
