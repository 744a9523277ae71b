//! The HTML text of nodes without a document around them.

ghost use Rattle.std.specs.Prelude.{IfOk};
ghost use Rattle.html_dom_tree.specs.{FrameFree.{NodesAreFrameFree}, Views.{nodes_view, text_view}};
ghost use Rattle.typst_html_encode.specs.{Endings.{Gives}, Fragments.{fragment_text, fragment_faults, ReadsInDiv}};

use crate::fault::ExportFault;
use crate::frame::FrameWriter;
use crate::layout::Margin;
use crate::write::write_tree;
use html_dom_flat::FlatTree;
use html_dom_tree::HtmlNode;
use html_names_core::text_writer::TextWriter;
use std::alloc::Global;

/// Returns the HTML text of nodes without a document type: a piece of a page that another program
/// makes, such as a template engine.
///
/// Writes plain text, since indents depend on what is around the nodes. Fails with the first fault
/// in document order if there is one, and succeeds otherwise. Memory may run out before either.
///
/// The text of nodes without frames reads as these nodes if it is put into a `div`, with tags
/// dropped and neighbouring texts joined (HTML Standard 13.1, without a browser's repairs). Css is
/// written only after `resolve_inline_styles` has put it into the attribute `style`.
///
/// ```
/// use html_dom::{HtmlElement, HtmlNode, Span};
/// use html_names::tag;
/// use typst_html::html_fragment;
///
/// let alloc = rt.alloc();
/// let text = HtmlNode::text(String::from_str(alloc, "1 < 2, ")?, Span(1));
/// let word = HtmlElement::new(alloc, tag::em).with_text(alloc, "always")?;
/// let nodes = vec![in alloc; text, HtmlNode::from(word)]?;
/// let html = html_fragment(alloc, &nodes, &())?;
/// assert_eq!(rt; html.as_str(), "1 &lt; 2, <em>always</em>");
/// ```
pub fn html_fragment<F: FrameWriter>(
    alloc: Global,
    nodes: &[HtmlNode],
    frames: &F,
) -> Result<String, ExportFault>
    // The text, or the first fault.
    ensures makes { Gives result
        (fragment_text (F.drawing frames.now) (nodes_view nodes.now))
        (fragment_faults (F.drawing frames.now) (nodes_view nodes.now)) }

    // The text of nodes without frames reads back.
    ensures reads_back { NodesAreFrameFree (nodes_view nodes.now) →
        IfOk result (λ text. ReadsInDiv (text_view text) (nodes_view nodes.now)) }
{
    let tree = FlatTree::from_nodes(alloc, nodes)?;
    let mut out = TextWriter::new(alloc);
    // (the level of the nodes in an element, which plain text does not show)
    let inside = Margin {
        pretty: false,
        level: 1,
    };
    write_tree(alloc, &mut out, &tree, inside, frames)?;
    Ok(out.into_string())
}
