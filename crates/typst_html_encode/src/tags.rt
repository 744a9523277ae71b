//! Start tags and end tags.

ghost use Rattle.std.specs.Prelude.{◌≡◌, ◌++◌, OnOk};
ghost use Rattle.html_dom_tree.specs.Views.{text_view};
ghost use Rattle.html_dom_flat.specs.Siblings.{head_view, siblings_view};
ghost use Rattle.typst_html_encode.specs.{Endings.{Adds}, ExportFaults.{text_faults, attrs_faults}, Reader.{drops_feed}};
ghost use Rattle.typst_html_encode.specs.ReadingBack.{PairsAreNamed, HeadIsNamed};
ghost use Rattle.typst_html_encode.specs.Text.{value_text, attrs_text, tag_close, start_tag_text, end_tag_text, begins_with_feed, feed_text};

use crate::escape::{Escaping, write_text};
use crate::fault::ExportFault;
use crate::head::is_foreign_self_closing;
use html_dom_flat::{Element, Node, Siblings};
use html_dom_tree::Span;
use html_names_core::text_writer::TextWriter;
use html_names_core::{HtmlTag, tag};
use std::alloc::AllocError;

/// Writes the value of an attribute, or nothing if the value is empty.
#[tactic(auto, using(crate::proofs::Escapes::values))]
fn write_value(out: &mut TextWriter, value: &String, span: Span) -> Result<(), ExportFault>
    ensures { Adds result out.old out.new
        (value_text (text_view value.now))
        (text_faults Escaping.Value span.0 (text_view value.now)) }
{
    if value.as_str().is_empty() {
        return Ok(());
    }
    out.push_ascii("=\"")?;
    write_text(out, Escaping::Value, value.as_str(), span)?;
    out.push('"')?;
    Ok(())
}

#[tactic(auto, using(crate::proofs::Given::pair_given))]
fn write_attrs(out: &mut TextWriter, element: &Element) -> Result<(), ExportFault>
    ensures writes { let head = head_view element.now in
        Adds result out.old out.new (attrs_text head.attrs) (attrs_faults head.span head.attrs) }
    ensures named { OnOk result (PairsAreNamed (head_view element.now).attrs) }
{
    let names = element.names();
    for (number, value) in element.attrs() {
        out.push(' ')?;
        out.push_str(names.attr_at(*number).resolve())?;
        write_value(out, value, element.flat.span)?;
    }
    Ok(())
}

fn write_tag_close(out: &mut TextWriter, element: &Element) -> Result<(), AllocError>
    ensures { OnOk result (out.new ≡ out.old ++ tag_close (head_view element.now).name) }
{
    if is_foreign_self_closing(element) {
        out.push_ascii("/>")
    } else {
        out.push_ascii(">")
    }
}

pub(crate) fn write_start(out: &mut TextWriter, element: &Element) -> Result<(), ExportFault>
    ensures writes { let head = head_view element.now in
        Adds result out.old out.new (start_tag_text head) (attrs_faults head.span head.attrs) }
    ensures named { OnOk result (HeadIsNamed (head_view element.now)) }
{
    out.push('<')?;
    out.push_str(element.tag().resolve())?;
    write_attrs(out, element)?;
    write_tag_close(out, element)?;
    Ok(())
}

#[inline(always)]
pub(crate) fn write_end(out: &mut TextWriter, tag: &HtmlTag) -> Result<(), AllocError>
    ensures { OnOk result (out.new ≡ out.old ++ end_tag_text tag.now) }
{
    out.push_ascii("</")?;
    out.push_str(tag.resolve())?;
    out.push('>')
}

/// Returns whether the first child that is neither a tag nor an empty text begins with a line feed
/// or a carriage return.
fn begins_with_feed(children: &Siblings) -> bool
    ensures { result ≡ begins_with_feed (siblings_view children.now) }
{
    let mut left = *children;
    while let Some((child, others)) = left.split_first() {
        match child {
            Node::Tag(_) => {}
            Node::Text(text, _) => {
                if let Some(c) = text.as_str().chars().next() {
                    return c == '\n' || c == '\r';
                }
            }
            Node::Element(_) | Node::Frame(_) => return false,
        }
        left = others;
    }
    false
}

#[tactic(auto, unfolding(html_names_core::specs::Tables::known_tags, crate::specs::Reader::drops_feed))]
fn drops_feed(tag: &HtmlTag) -> bool
    ensures { result ≡ drops_feed tag.now }
{
    *tag == tag::pre || *tag == tag::textarea
}

/// Writes a line feed if a reader would drop the one that the text begins with.
#[tactic(auto, using(crate::proofs::Layouts::either_order))]
pub(crate) fn write_feed(out: &mut TextWriter, element: &Element) -> Result<(), AllocError>
    ensures { OnOk result (out.new ≡
        out.old ++ feed_text (head_view element.now) (siblings_view element.now.children)) }
{
    if begins_with_feed(&element.children) && drops_feed(element.tag()) {
        out.push('\n')?;
    }
    Ok(())
}
