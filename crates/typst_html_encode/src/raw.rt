//! Raw text, which ends at the closing tag of its element.

ghost use Rattle.std.specs.Prelude.{◌≡◌, ◌++◌, OnOk, chars};
ghost use Rattle.html_dom_flat.specs.Siblings.{head_view, node_view, siblings_view};
ghost use Rattle.typst_html_encode.specs.{Endings.{Adds, Gives}, ExportFaults.{node_raw_faults, nodes_raw_faults, raw_content_faults}};
ghost use Rattle.typst_html_encode.specs.{Layout.{lines_text, raw_text}, Text.{escaped_text, node_raw_text, nodes_raw_text}};

use crate::escape::{Escaping, write_text};
use crate::fault::ExportFault;
use crate::indent::{push_indent, push_lines};
use crate::layout::{Margin, is_by_lines, keeps_lines};
use html_dom_flat::{Element, Node, Siblings};
use html_names_core::HtmlTag;
use html_names_core::text_writer::TextWriter;
use html_text::holds_closing;
use std::alloc::{AllocError, Global};

pub(crate) fn write_raw(
    alloc: Global,
    out: &mut TextWriter,
    element: &Element,
    margin: Margin,
) -> Result<(), ExportFault>
    ensures { let children = siblings_view element.now.children in
        Adds result out.old out.new
        (raw_text margin (head_view element.now) (nodes_raw_text children))
        (raw_content_faults (head_view element.now) children) }
{
    let text = checked_text(alloc, element)?;
    write_joined(out, element, text.as_str(), margin)?;
    Ok(())
}

/// Returns the text of a raw element, or the first fault in it, such as the closing tag of the
/// element.
fn checked_text(alloc: Global, element: &Element) -> Result<String, ExportFault>
    ensures { let children = siblings_view element.now.children in
        Gives result (nodes_raw_text children)
        (raw_content_faults (head_view element.now) children) }
{
    let text = joined(alloc, &element.children)?;
    if holds_closing(element.tag().resolve(), text.as_str()) {
        return Err(ExportFault::RawClosing {
            span: element.flat.span,
        });
    }
    Ok(text)
}

fn joined(alloc: Global, children: &Siblings) -> Result<String, ExportFault>
    ensures { Gives result
        (nodes_raw_text (siblings_view children.now))
        (nodes_raw_faults Escaping.Raw (siblings_view children.now)) }
{
    let mut out = TextWriter::new(alloc);
    write_children(&mut out, Escaping::Raw, children)?;
    Ok(out.into_string())
}

pub(crate) fn write_children(
    out: &mut TextWriter,
    escaping: Escaping,
    children: &Siblings,
) -> Result<(), ExportFault>
    ensures { Adds result out.old out.new
        (escaped_text escaping (nodes_raw_text (siblings_view children.now)))
        (nodes_raw_faults escaping (siblings_view children.now)) }
{
    let mut left = *children;
    while let Some((child, others)) = left.split_first() {
        write_child(out, escaping, &child)?;
        left = others;
    }
    Ok(())
}

fn write_child(out: &mut TextWriter, escaping: Escaping, child: &Node) -> Result<(), ExportFault>
    ensures { Adds result out.old out.new
        (escaped_text escaping (node_raw_text (node_view child.now)))
        (node_raw_faults escaping (node_view child.now)) }
{
    match child {
        Node::Tag(_) => Ok(()),
        Node::Text(text, span) => write_text(out, escaping, text.as_str(), *span),
        Node::Element(element) => Err(ExportFault::RawChild {
            span: element.flat.span,
        }),
        Node::Frame(frame) => Err(ExportFault::RawChild { span: frame.span }),
    }
}

fn write_joined(
    out: &mut TextWriter,
    element: &Element,
    text: &str,
    margin: Margin,
) -> Result<(), AllocError>
    ensures { OnOk result (out.new ≡ out.old
        ++ raw_text margin (head_view element.now) (chars text.now)) }
{
    if margin.pretty && is_by_lines(element) {
        write_lines(out, element.tag(), text, margin)
    } else {
        out.push_str(text)
    }
}

#[tactic(auto, unfolding(crate::specs::Layout::lines_text))]
fn write_lines(
    out: &mut TextWriter,
    tag: &HtmlTag,
    text: &str,
    margin: Margin,
) -> Result<(), AllocError>
    ensures { OnOk result (out.new ≡ out.old ++ lines_text margin.level tag.now (chars text.now)) }
{
    if keeps_lines(tag, text) {
        out.push('\n')?;
        out.push_str(text)?;
    } else {
        push_lines(out, text, margin.deeper()?.level, true)?;
    }
    push_indent(out, margin.level)
}
