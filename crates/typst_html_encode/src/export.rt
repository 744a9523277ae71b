//! The HTML text of a tree behind a document type. The tree is borrowed, consumed or flat.

ghost use Rattle.std.specs.Prelude.{◌≡◌, true, false, Some, IfOk};
ghost use Rattle.html_dom_tree.specs.{FrameFree.{ElementIsFrameFree}, PlainTree.{element_normal}};
ghost use Rattle.html_dom_tree.specs.{Tree.{ElementView, node, none, element_node}, Views.{text_view, element_view}};
ghost use Rattle.html_dom_flat.specs.FlatTrees.{tree_nodes};
ghost use Rattle.typst_html_encode.specs.{Endings.{Gives}, ExportFaults.{document_faults}, HtmlTexts.{IsHtmlOf}};
ghost use Rattle.typst_html_encode.specs.{Indented.{element_layout, ElementEndsWell}, Reader.{read}, Text.{document_text}};

use crate::fault::ExportFault;
use crate::frame::FrameWriter;
use crate::indent::{push_feed_if, push_indent_if};
use crate::layout::Margin;
use crate::options::HtmlOptions;
use crate::write::write_tree;
use html_dom_flat::{FlatTree, flat_tree_of};
use html_dom_tree::HtmlElement;
use html_names_core::text_writer::TextWriter;
use std::alloc::Global;

/// Returns the HTML text of a tree: the document type and the root, plain or pretty.
///
/// Fails with the first fault in document order if there is one, and succeeds otherwise. Memory may
/// run out before either. Passes each frame to its writer, together with whether pretty writing is
/// on at the frame.
///
/// Does not write the css of elements. Call `resolve_inline_styles` first, as below, to put the css
/// into the attribute `style`.
///
/// The plain text of a tree without frames reads back as the tree's normal form (HTML Standard
/// 13.1, without a browser's repairs). The normal form has the names, attributes and texts of the
/// tree; tags are dropped, neighbouring texts are joined, and no text is empty. The pretty text
/// reads back too, with a text at each indent, and with raw texts on lines of their own as they are
/// laid out, unless one of these ends in a closing tag that lacks its last character.
///
/// # Example
///
/// ```
/// use html_dom::{HtmlElement, HtmlNode, Span, resolve_inline_styles};
/// use html_names::tag;
/// use html_values::Properties;
/// use typst_html::{HtmlOptions, html_in_bundle};
///
/// let alloc = rt.alloc();
/// let css = Properties::new(alloc).with("color", String::from_str(alloc, "red")?)?;
/// let text = HtmlNode::text(String::from_str(alloc, "a < b")?, Span(0));
/// let mut root = HtmlElement::new(alloc, tag::p)
///     .with_css(css)
///     .with_child(text)?;
/// resolve_inline_styles(alloc, &mut root)?; // without it, no css is written
/// let html = html_in_bundle(alloc, &root, &HtmlOptions::default(), &())?;
/// let wanted = r#"<!DOCTYPE html><p style="color: red">a &lt; b</p>"#;
/// assert_eq!(rt; html.as_str(), wanted);
/// ```
pub fn html_in_bundle<F: FrameWriter>(
    alloc: Global,
    root: &HtmlElement,
    options: &HtmlOptions,
    frames: &F,
) -> Result<String, ExportFault>
    // The text, or the first fault.
    ensures makes { Gives result
        (document_text (F.drawing frames.now) options.now (element_view root.now))
        (document_faults (F.drawing frames.now) options.now (element_view root.now)) }

    // The text of a tree without frames reads back.
    ensures reads_back { options.now.pretty ≡ false → ElementIsFrameFree (element_view root.now) →
        IfOk result (λ text.
        read (text_view text) ≡ Some (element_normal (element_view root.now))) }
    ensures reads_indented { options.now.pretty ≡ true →
        ElementIsFrameFree (element_view root.now) → ElementEndsWell true (element_view root.now) →
        IfOk result (λ text.
        read (text_view text) ≡ Some (element_normal (element_layout (element_view root.now)))) }
{
    let tree = FlatTree::from_element(alloc, root)?;
    tree_html(alloc, &tree, options, frames)
}

/// Consumes a tree and returns its HTML text, as [`html_in_bundle`] writes it. Moves the texts of
/// the tree, which `html_in_bundle` copies.
///
/// Consumes the tree even if it is refused. Use [`html_in_bundle`], which borrows the tree, to mend
/// a refused tree.
pub fn html_of<F: FrameWriter>(
    alloc: Global,
    root: HtmlElement,
    options: &HtmlOptions,
    frames: &F,
) -> Result<String, ExportFault>
    // The text, or the first fault.
    ensures makes { Gives result
        (document_text (F.drawing frames.now) options.now (element_view root))
        (document_faults (F.drawing frames.now) options.now (element_view root)) }

    // The text of a tree without frames reads back.
    ensures reads_back { options.now.pretty ≡ false → ElementIsFrameFree (element_view root) →
        IfOk result (λ text.
        read (text_view text) ≡ Some (element_normal (element_view root))) }
    ensures reads_indented { options.now.pretty ≡ true →
        ElementIsFrameFree (element_view root) → ElementEndsWell true (element_view root) →
        IfOk result (λ text.
        read (text_view text) ≡ Some (element_normal (element_layout (element_view root)))) }
{
    let tree = flat_tree_of(alloc, root)?;
    tree_html(alloc, &tree, options, frames)
}

/// Returns the HTML text of a flat tree with one root, as [`html_in_bundle`] writes that root.
pub fn tree_html<F: FrameWriter>(
    alloc: Global,
    tree: &FlatTree,
    options: &HtmlOptions,
    frames: &F,
) -> Result<String, ExportFault>
    ensures { (root : ElementView) →
        tree_nodes tree.now ≡ node (element_node root.0 root.1) none →
        IsHtmlOf (F.drawing frames.now) options.now root result }
{
    let mut out = TextWriter::new(alloc);
    let margin = Margin {
        pretty: options.pretty,
        level: 0,
    };
    out.push_ascii("<!DOCTYPE html>")?;
    push_indent_if(&mut out, options.pretty, 0)?;
    write_tree(alloc, &mut out, tree, margin, frames)?;
    push_feed_if(&mut out, options.pretty)?;
    Ok(out.into_string())
}
