//! The head of a document, and its language.
#![tactic(auto, unfolding(html_names_core::specs::Tables::known_tags, html_names_core::specs::Tables::known_attrs))]

ghost use Rattle.std.specs.{List.{flat_map}, Prelude.{◌≡◌, ◌++◌, IfOk, IsTrue, OnOk, codes, map, option_map}};
ghost use Rattle.html_names_core.specs.{Names.{is_ascii}, Texts.{texts_view}};
ghost use Rattle.html_dom_tree.specs.Views.{node_view, optional_text_view, text_view};
ghost use Rattle.html_dom_document.specs.Views.{info_view, locale_view};
ghost use Rattle.typst_html_export.specs.DocumentHead.{charset_node, description_nodes, entry_node, entry_nodes, head_node, joined_text, lang_text, list_meta_nodes, region_text, title_node, title_nodes, viewport_node};

use html_dom_document::{DocumentInfo, Locale};
use html_dom_tree::{HtmlElement, HtmlNode, Span};
use html_names_core::text_writer::TextWriter;
use html_names_core::{attr, tag};
use std::alloc::{AllocError, Global};

/// Makes the head of a document: encoding, viewport, information, and then nodes of its own.
pub(crate) fn head_node(
    alloc: Global,
    info: &DocumentInfo,
    own: &[HtmlNode],
) -> Result<HtmlNode, AllocError>
    ensures { IfOk result (λ made.
        node_view made ≡ head_node (info_view info.now) (map node_view own.now)) }
{
    let mut children = Vec::new(alloc);
    children.push(charset_node(alloc)?)?;
    children.push(viewport_node(alloc)?)?;
    push_entries(alloc, &mut children, info)?;
    push_copies(&mut children, own)?;
    let head = HtmlElement::new(alloc, tag::head).with_children(children);
    Ok(HtmlNode::Element(head))
}

fn push_entries(
    alloc: Global,
    nodes: &mut Vec<HtmlNode>,
    info: &DocumentInfo,
) -> Result<(), AllocError>
    ensures { OnOk result (map node_view nodes.new.items
        ≡ map node_view nodes.old.items ++ entry_nodes (info_view info.now)) }
{
    push_title(alloc, nodes, &info.title)?;
    push_description(alloc, nodes, &info.description)?;
    push_list(alloc, nodes, "authors", &info.author)?;
    push_list(alloc, nodes, "keywords", &info.keywords)
}

fn push_copies(nodes: &mut Vec<HtmlNode>, others: &[HtmlNode]) -> Result<(), AllocError>
    ensures { OnOk result (map node_view nodes.new.items
        ≡ map node_view nodes.old.items ++ map node_view others.now) }
{
    for node in others {
        nodes.push(node.try_clone()?)?;
    }
    Ok(())
}

fn push_title(
    alloc: Global,
    nodes: &mut Vec<HtmlNode>,
    title: &Option<String>,
) -> Result<(), AllocError>
    ensures { OnOk result (map node_view nodes.new.items
        ≡ map node_view nodes.old.items ++ title_nodes (optional_text_view title.now)) }
{
    let Some(title) = title else {
        return Ok(());
    };
    nodes.push(title_node(alloc, title)?)?;
    Ok(())
}

fn push_description(
    alloc: Global,
    nodes: &mut Vec<HtmlNode>,
    description: &Option<String>,
) -> Result<(), AllocError>
    ensures { OnOk result (map node_view nodes.new.items
        ≡ map node_view nodes.old.items ++ description_nodes (optional_text_view description.now)) }
{
    let Some(description) = description else {
        return Ok(());
    };
    nodes.push(entry_node(alloc, "description", description.clone()?)?)?;
    Ok(())
}

fn push_list(
    alloc: Global,
    nodes: &mut Vec<HtmlNode>,
    name: &str,
    texts: &[String],
) -> Result<(), AllocError>
    requires { IsTrue (is_ascii name.now) }
    ensures { OnOk result (map node_view nodes.new.items
        ≡ map node_view nodes.old.items ++ list_meta_nodes name.now (texts_view texts.now)) }
{
    if texts.is_empty() {
        return Ok(());
    }
    nodes.push(entry_node(alloc, name, joined_text(alloc, texts)?)?)?;
    Ok(())
}

/// Joins texts with `, `.
fn joined_text(alloc: Global, texts: &[String]) -> Result<String, AllocError>
    ensures { IfOk result (λ text. text_view text ≡ joined_text (texts_view texts.now)) }
{
    let mut text = TextWriter::new(alloc);
    if let [first, others @ ..] = texts {
        text.push_str(first.as_str())?;
        push_others(&mut text, others)?;
    }
    Ok(text.into_string())
}

fn push_others(text: &mut TextWriter, others: &[String]) -> Result<(), AllocError>
    ensures { OnOk result (text.new ≡ text.old
        ++ flat_map (λ t. codes ", " ++ t) (texts_view others.now)) }
{
    for other in others {
        text.push_ascii(", ")?;
        text.push_str(other.as_str())?;
    }
    Ok(())
}

pub(crate) fn ascii_text(alloc: Global, text: &str) -> Result<String, AllocError>
    requires { IsTrue (is_ascii text.now) }
    ensures { IfOk result (λ made. text_view made ≡ text.now) }
{
    Ok(String::from_str(alloc, text)?)
}

fn charset_node(alloc: Global) -> Result<HtmlNode, AllocError>
    ensures { IfOk result (λ made. node_view made ≡ charset_node) }
{
    let value = ascii_text(alloc, "utf-8")?;
    let meta = HtmlElement::new(alloc, tag::meta).with_attr(attr::charset, value)?;
    Ok(HtmlNode::Element(meta))
}

fn entry_node(alloc: Global, name: &str, content: String) -> Result<HtmlNode, AllocError>
    requires { IsTrue (is_ascii name.now) }
    ensures { IfOk result (λ made. node_view made ≡ entry_node name.now (text_view content)) }
{
    let meta = HtmlElement::new(alloc, tag::meta)
        .with_attr(attr::name, ascii_text(alloc, name)?)?
        .with_attr(attr::content, content)?;
    Ok(HtmlNode::Element(meta))
}

fn viewport_node(alloc: Global) -> Result<HtmlNode, AllocError>
    ensures { IfOk result (λ made. node_view made ≡ viewport_node) }
{
    let content = ascii_text(alloc, "width=device-width, initial-scale=1")?;
    entry_node(alloc, "viewport", content)
}

fn title_node(alloc: Global, title: &String) -> Result<HtmlNode, AllocError>
    ensures { IfOk result (λ made. node_view made ≡ title_node (text_view title.now)) }
{
    let mut children = Vec::new(alloc);
    children.push(HtmlNode::Text(title.clone()?, Span(0)))?;
    let element = HtmlElement::new(alloc, tag::title).with_children(children);
    Ok(HtmlNode::Element(element))
}

/// Returns the language of a document, or English if it is not known.
pub(crate) fn lang_text(alloc: Global, locale: &Option<Locale>) -> Result<String, AllocError>
    ensures { IfOk result
        (λ text. text_view text ≡ lang_text (option_map locale_view locale.now)) }
{
    match locale {
        Some(locale) => locale_text(alloc, locale),
        None => ascii_text(alloc, "en"),
    }
}

fn locale_text(alloc: Global, locale: &Locale) -> Result<String, AllocError>
    ensures { IfOk result (λ text. text_view text
        ≡ text_view locale.now.lang ++ region_text (optional_text_view locale.now.region)) }
{
    let mut text = TextWriter::new(alloc);
    text.push_str(locale.lang.as_str())?;
    if let Some(region) = &locale.region {
        text.push_ascii("-")?;
        text.push_str(region.as_str())?;
    }
    Ok(text.into_string())
}
