//! Items by themselves, with no document around them.

ghost use Rattle.std.specs.Prelude.{◌≡◌, ◌≤◌, IfOk};
ghost use Rattle.html_dom_tree.specs.{FrameFree.{NodesAreFrameFree}, Styled.{styled_nodes}, Views.{nodes_view, text_view}};
ghost use Rattle.html_flow_convert.specs.{Views.{items_view}, declared.convert.ConversionLevel.TheVariants.{Block}};
ghost use Rattle.typst_html_encode.specs.{Endings.{Gives}, Fragments.{fragment_text, fragment_faults, ReadsInDiv}};
ghost use Rattle.typst_html_export.specs.Assembles.{GivesDocument};
ghost use Rattle.typst_html_export.specs.Fragments.{export_fragment_faults, export_fragment_text, fragment_nodes, FragmentIsSeen};

use html_dom_tree::{HtmlElement, HtmlNode, with_inline_styles};
use html_flow_convert::{ConversionLevel, Pair, Whitespace, convert_to_nodes};
use html_names_core::tag;
use std::alloc::Global;
use typst_html_encode::{ExportFault, FrameWriter, html_fragment};

/// Returns the HTML text of items by themselves, with no document type, head and body: a piece of a
/// page that another program makes, such as a template engine.
///
/// The items become nodes at that level, without a role and at depth 0; their css goes into `style`
/// attributes, and [`html_fragment`] writes them. `ConversionLevel::Block` is for a piece on lines
/// of its own, `ConversionLevel::Inline` for one in a line. Links get neither anchors nor an `href`:
/// both depend on the ids of the whole page.
///
/// Fails if an allocation fails, else with the first item whose body is deeper than `limit`, which
/// is from 1 to 10,000, else with the first fault of writing.
///
/// Without frames, the text reads as these nodes once it is put into a `div`. There, if the items
/// are in plain flow and the level is that of a block, exactly their text is visible once white
/// space has collapsed.
///
/// ```
/// use typst_html::{ConversionLevel, Item, Pair, Span, export_fragment};
///
/// let alloc = rt.alloc();
/// let text = Item::Text(String::from_str(alloc, "a  < b")?, Span(1));
/// let items = vec![in alloc; Pair::from(text)]?;
/// let html = export_fragment(alloc, &items, ConversionLevel::Block, 50, &())?;
/// let spaces = r#"<span style="white-space: pre-wrap">&#x20;&#x20;</span>"#;
/// assert_eq!(rt; html, format!(in alloc; "a{spaces}&lt; b")?);
/// ```
pub fn export_fragment<F: FrameWriter>(
    alloc: Global,
    items: &[Pair],
    level: ConversionLevel,
    limit: usize,
    frames: &F,
) -> Result<String, ExportFault>
    requires some_limit { 1 ≤ limit }
    requires low_limit { limit ≤ 10000 }
    ensures makes { GivesDocument text_view result
        (export_fragment_text (F.drawing frames.now) level (items_view items.now))
        (export_fragment_faults limit (F.drawing frames.now) level (items_view items.now)) }

    // What the text reads as, and what is visible of it.
    ensures reads_back { let nodes = fragment_nodes level (items_view items.now) in
        NodesAreFrameFree nodes → IfOk result (λ text. ReadsInDiv (text_view text) nodes) }
    ensures spaces { level ≡ Block →
        IfOk result (λ text. FragmentIsSeen (text_view text) (items_view items.now)) }
{
    let nodes = convert_to_nodes(alloc, items, level, Whitespace::Normal, None, 0, limit)?;
    styled_fragment(alloc, nodes, frames)
}

/// Returns the text of nodes whose css goes into `style` attributes.
fn styled_fragment<F: FrameWriter>(
    alloc: Global,
    nodes: Vec<HtmlNode>,
    frames: &F,
) -> Result<String, ExportFault>
    ensures makes { let styled = styled_nodes (nodes_view nodes.items) in
        Gives result (fragment_text (F.drawing frames.now) styled)
        (fragment_faults (F.drawing frames.now) styled) }
    ensures reads_back { let styled = styled_nodes (nodes_view nodes.items) in
        NodesAreFrameFree styled → IfOk result (λ text. ReadsInDiv (text_view text) styled) }
{
    let holder = HtmlElement::new(alloc, tag::div).with_children(nodes);
    let styled = with_inline_styles(alloc, holder)?;
    html_fragment(alloc, &styled.children, frames)
}
