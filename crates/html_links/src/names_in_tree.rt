//! The names in a tree.

ghost use Rattle.std.specs.Prelude.{◌≡◌, ◌++◌, [], ◌∷◌, OnOk, IfOk, option_to_list};
ghost use Rattle.html_dom_tree.specs.FrameViews.{html_frame_view, anchors_view};
ghost use Rattle.html_dom_tree.specs.Views.{pair_view, attrs_view, element_view, optional_text_view};
ghost use Rattle.html_links.specs.{Distinct.{names_view}, TreeNames.{all_ids, anchor_names, element_names, frame_names}};

use html_dom_tree::{HtmlAttrs, HtmlElement, HtmlFrame, Point};
use html_dom_walk::{Visit, Walk};
use html_names_core::{HtmlAttr, attr};
use std::alloc::{AllocError, Global};

/// Returns the names of an element and of everything below it, in document order: each value of
/// `id`, and the ids and anchors of frames. Fails only if an allocation fails.
pub fn listed_names(alloc: Global, element: &HtmlElement) -> Result<Vec<&String>, AllocError>
    ensures { IfOk result (λ names.
        names_view names.items ≡ element_names (element_view element.now)) }
{
    let mut names = Vec::new(alloc);
    add_ids(&element.attrs, &mut names)?;
    let mut walk = Walk::over(alloc, &element.children);
    while let Some(visit) = walk.next()? {
        match visit {
            Visit::Enter(element) => add_ids(&element.attrs, &mut names)?,
            Visit::Frame(frame) => add_frame(frame, &mut names)?,
            Visit::Tag(_) | Visit::Text(_, _) | Visit::Leave => {}
        }
    }
    Ok(names)
}

#[tactic(auto, unfolding(html_names_core::specs::Tables::known_attrs))]
fn add_id<'a>(pair: &'a (HtmlAttr, String), names: &mut Vec<&'a String>) -> Result<(), AllocError>
    ensures { OnOk result (names_view names.new.items
        ≡ names_view names.old.items ++ all_ids (pair_view pair.now ∷ [])) }
{
    if pair.0 == attr::id {
        names.push(&pair.1)?;
    }
    Ok(())
}

fn add_ids<'a>(attrs: &'a HtmlAttrs, names: &mut Vec<&'a String>) -> Result<(), AllocError>
    ensures { OnOk result (names_view names.new.items
        ≡ names_view names.old.items ++ all_ids (attrs_view attrs.now)) }
{
    for pair in &attrs.0 {
        add_id(pair, names)?;
    }
    Ok(())
}

fn add_anchors<'a>(
    anchors: &'a [(Point, String)],
    names: &mut Vec<&'a String>,
) -> Result<(), AllocError>
    ensures { OnOk result (names_view names.new.items
        ≡ names_view names.old.items ++ anchor_names (anchors_view anchors.now)) }
{
    for anchor in anchors {
        names.push(&anchor.1)?;
    }
    Ok(())
}

fn add_frame_id<'a>(id: &'a Option<String>, names: &mut Vec<&'a String>) -> Result<(), AllocError>
    ensures { OnOk result (names_view names.new.items
        ≡ names_view names.old.items ++ option_to_list (optional_text_view id.now)) }
{
    if let Some(id) = id {
        names.push(id)?;
    }
    Ok(())
}

fn add_frame<'a>(frame: &'a HtmlFrame, names: &mut Vec<&'a String>) -> Result<(), AllocError>
    ensures { OnOk result (names_view names.new.items
        ≡ names_view names.old.items ++ frame_names (html_frame_view frame.now)) }
{
    add_frame_id(&frame.id, names)?;
    add_anchors(&frame.anchors, names)?;
    Ok(())
}
