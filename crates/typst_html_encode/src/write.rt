//! Plain and pretty writing, in one walk over a flat tree.

ghost use Rattle.std.specs.Prelude.{◌≡◌, ◌++◌, OnOk, Some, chars, false};
ghost use Rattle.html_dom_tree.specs.FrameViews.{html_frame_view};
ghost use Rattle.html_dom_flat.specs.{FlatTrees.{tree_nodes}, Siblings.{element_view, head_view, node_view, siblings_view}};
ghost use Rattle.typst_html_encode.specs.{Endings.{Adds, AddsAnd, Passes}, ExportFaults.{void_faults, frame_faults, nodes_faults}};
ghost use Rattle.typst_html_encode.specs.{Layout.{indent_where, frame_text}, OpenElements.{open_element_view, Enters, GoesOn}};
ghost use Rattle.typst_html_encode.specs.{ReadingBack.{HeadIsNamed, NodesAreNamed}, Text.{escaping_of, end_tag_text}};
ghost use Rattle.typst_html_encode.specs.WriterWalk.{has_nodes, node_of, element_first_text, element_first_faults, turn_text, turn_faults, FirstIsNamed, outside_text};

use crate::content::ContentKind;
use crate::escape::{Escaping, write_text};
use crate::fault::ExportFault;
use crate::frame::{FrameFault, FrameWriter};
use crate::head::{content_kind, ends_at_once};
use crate::indent::{push_indent_if, push_lines};
use crate::layout::Margin;
use crate::open_elements::{OpenElement, OpenElements};
use crate::place::Place;
use crate::raw;
use crate::tags::{write_end, write_feed, write_start};
use html_dom_flat::{Element, FlatTree, Node, Siblings};
use html_dom_tree::HtmlFrame;
use html_names_core::text_writer::TextWriter;
use std::alloc::{AllocError, Global};

/// Writes the nodes of a tree. Nodes that are inside no element have the margin `outer`.
pub(crate) fn write_tree<F: FrameWriter>(
    alloc: Global,
    out: &mut TextWriter,
    tree: &FlatTree,
    outer: Margin,
    frames: &F,
) -> Result<(), ExportFault>
    ensures writes { let ns = tree_nodes tree.now in
        Adds result out.old out.new (outside_text (F.drawing frames.now) outer ns)
        (nodes_faults (F.drawing frames.now) false outer.pretty ns) }
    ensures named { OnOk result (NodesAreNamed (tree_nodes tree.now)) }
{
    let mut open_elements = OpenElements::new(alloc);
    let mut left = Siblings::of(tree);
    let mut place = open_elements.place(outer)?;
    let mut due = false;
    loop {
        if let Some((node, others)) = left.split_first() {
            let turn = write_node(alloc, out, node, place, due, frames)?;
            if let Some(element) = turn.entered {
                let open = OpenElement::new(&element, place.margin, turn.due_after, others);
                open_elements.push(open)?;
                place = open_elements.place(outer)?;
                left = element.children;
                due = true;
            } else {
                left = others;
                due = turn.due_after;
            }
        } else if let Some(element) = open_elements.pop() {
            write_close(out, &element)?;
            place = open_elements.place(outer)?;
            left = element.after;
            due = element.due_after;
        } else {
            return Ok(());
        }
    }
}

fn write_close(out: &mut TextWriter, element: &OpenElement) -> Result<(), AllocError>
    ensures { let o = open_element_view element.now in OnOk result (out.new ≡
        out.old ++ (indent_where o.margin.pretty o.margin.level ++ end_tag_text o.name)) }
{
    push_indent_if(out, element.margin.pretty, element.margin.level)?;
    write_end(out, element.tag)
}

/// What a walk does after a node.
#[derive(Clone, Copy)]
struct Turn<'a> {
    /// The node, if it is an element that the walk enters.
    entered: Option<Element<'a>>,
    /// Whether an indent is due after the node.
    due_after: bool,
}

impl<'a> Turn<'a> {
    /// Returns the turn past a node that the walk does not enter.
    fn past(due_after: bool) -> Turn<'a>
        ensures { result ≡ record { entered = None; due_after = due_after } }
    {
        Turn {
            entered: None,
            due_after,
        }
    }
}

/// Writes a node, or the start of an element that the walk enters, and the indent before it.
#[inline(always)]
fn write_node<'a, F: FrameWriter>(
    alloc: Global,
    out: &mut TextWriter,
    node: Node<'a>,
    place: Place,
    due: bool,
    frames: &F,
) -> Result<Turn<'a>, ExportFault>
    ensures writes { let n = node_view node.entry in AddsAnd result out.old out.new
        (turn_text (F.drawing frames.now) place due n)
        (turn_faults (F.drawing frames.now) place n)
        (GoesOn place due n) }
    ensures named { OnOk result (FirstIsNamed (node_view node.entry)) }
{
    let level = place.margin.level;
    match node {
        Node::Tag(_) => Ok(Turn::past(place.is_due(due))),
        Node::Text(text, span) => {
            push_indent_if(out, place.has_indent(due), level)?;
            write_text(out, escaping(place.pre_span), text.as_str(), span)?;
            Ok(Turn::past(false))
        }
        Node::Element(element) => {
            push_indent_if(out, place.has_indent_before(due, &element), level)?;
            let due_after = place.is_due_after(&element);
            let entered = write_element(alloc, out, &element, place.margin)?;
            Ok(Turn { entered, due_after })
        }
        Node::Frame(frame) => {
            push_indent_if(out, place.has_indent(due), level)?;
            write_frame(alloc, out, frame, place.margin, frames)?;
            Ok(Turn::past(false))
        }
    }
}

/// Writes the start of an element that the walk enters, or the whole of any other element. Returns
/// the element if the walk enters it.
#[inline(always)]
fn write_element<'a>(
    alloc: Global,
    out: &mut TextWriter,
    element: &Element<'a>,
    margin: Margin,
) -> Result<Option<Element<'a>>, ExportFault>
    ensures writes { AddsAnd result out.old out.new
        (element_first_text margin (element_view element.now))
        (element_first_faults (element_view element.now))
        (Enters (node_of (element_view element.now))) }
    ensures named { OnOk result (HeadIsNamed (head_view element.now)) }
{
    write_start(out, element)?;
    if ends_at_once(element) {
        refuse_children(element)?;
        return Ok(None);
    }
    write_feed(out, element)?;
    match content_kind(element) {
        ContentKind::Raw => raw::write_raw(alloc, out, element, margin)?,
        ContentKind::EscapableRaw => raw::write_children(out, Escaping::Text, &element.children)?,
        ContentKind::Nodes => {
            if has_nodes(&element.children) {
                return Ok(Some(*element));
            }
        }
    }
    write_end(out, element.tag())?;
    Ok(None)
}

fn has_nodes(siblings: &Siblings) -> bool
    ensures { result ≡ has_nodes (siblings_view siblings.now) }
{
    match siblings.split_first() {
        None => false,
        Some(_) => true,
    }
}

fn refuse_children(element: &Element) -> Result<(), ExportFault>
    ensures { Passes result
        (void_faults (head_view element.now).span (siblings_view element.now.children)) }
{
    match element.children.split_first() {
        None => Ok(()),
        Some(_) => Err(ExportFault::VoidChildren {
            span: element.flat.span,
        }),
    }
}

fn write_frame<F: FrameWriter>(
    alloc: Global,
    out: &mut TextWriter,
    frame: &HtmlFrame,
    margin: Margin,
    frames: &F,
) -> Result<(), ExportFault>
    ensures { let answer = F.drawing frames.now (html_frame_view frame.now) margin.pretty in
        Adds result out.old out.new
        (frame_text margin answer) (frame_faults frame.now.span.0 answer) }
{
    match frames.write(alloc, frame, margin.pretty) {
        Ok(text) => {
            write_drawn(out, text.as_str(), margin)?;
            Ok(())
        }
        Err(FrameFault::OutOfMemory) => Err(ExportFault::OutOfMemory),
        Err(FrameFault::Refused) => Err(ExportFault::FrameRefused { span: frame.span }),
    }
}

fn write_drawn(out: &mut TextWriter, text: &str, margin: Margin) -> Result<(), AllocError>
    ensures { OnOk result (out.new ≡ out.old ++ frame_text margin (Some (chars text.now))) }
{
    if margin.pretty {
        push_lines(out, text, margin.level, false)
    } else {
        out.push_str(text)
    }
}

fn escaping(pre_span: bool) -> Escaping
    ensures { result ≡ escaping_of pre_span }
{
    if pre_span {
        Escaping::Reference
    } else {
        Escaping::Text
    }
}
