//! The names of the places of a tree.

ghost use Rattle.std.specs.Prelude.{◌≡◌, [], ◌∷◌, IfOk, OnOk, option_map, option_to_list};
ghost use Rattle.html_names_core.specs.{Names.{stands_in}, Texts.{text_view}};
ghost use Rattle.html_dom_tree.specs.{FrameViews.{anchors_view, html_frame_view}, Views.{element_view}};
ghost use Rattle.html_links.specs.InDocument.{document_places, element_part, keeps};
ghost use Rattle.html_links.specs.{Indicated.{element_places, link_name, place_names}, TreeNames.{anchor_names, first_id, frame_names}};
ghost use Rattle.html_links.specs.UsedNames.{used_in, with_names};

use crate::names::put_in_use;
use html_dom_tree::{HtmlElement, HtmlFrame, Point};
use html_dom_walk::{Visit, Walk};
use html_names_core::{attr, tag};
use std::alloc::{AllocError, Global};
use std::collections::BTreeSet;

/// Returns the names of the places of a tree, to which fragments lead (HTML Standard 7.4.6.3): the
/// first `id` of each element, including the root, the first `name` of each `a`, and the ids and
/// anchors of frames. What a `template` contains is not in the document (4.12.3), and no place.
/// Takes logarithmic time for each. Fails only if an allocation fails.
pub fn place_names(alloc: Global, root: &HtmlElement) -> Result<BTreeSet<String>, AllocError>
    ensures { IfOk result (λ names.
        used_in names ≡ stands_in (document_places (element_view root.now))) }
{
    names_in_part(alloc, root, false)
}

/// Returns the names that [`place_names`] returns, and those in each `template`. Takes logarithmic
/// time for each. Fails only if an allocation fails.
pub fn all_place_names(alloc: Global, root: &HtmlElement) -> Result<BTreeSet<String>, AllocError>
    ensures { IfOk result (λ names.
        used_in names ≡ stands_in (element_places (element_view root.now))) }
{
    names_in_part(alloc, root, true)
}

fn names_in_part(
    alloc: Global,
    root: &HtmlElement,
    is_whole: bool,
) -> Result<BTreeSet<String>, AllocError>
    ensures { IfOk result (λ names. used_in names
        ≡ stands_in (element_places (element_part is_whole (element_view root.now)))) }
{
    let mut names = BTreeSet::new(alloc);
    add_element(root, &mut names)?;
    if !keeps_children(root, is_whole) {
        return Ok(names);
    }
    let mut walk = Walk::over(alloc, &root.children);
    while let Some(visit) = walk.next()? {
        match visit {
            Visit::Enter(element) => {
                add_element(element, &mut names)?;
                if !keeps_children(element, is_whole) {
                    walk.skip();
                }
            }
            Visit::Frame(frame) => add_frame(frame, &mut names)?,
            Visit::Tag(_) | Visit::Text(_, _) | Visit::Leave => {}
        }
    }
    Ok(names)
}

/// Returns whether the children of an element belong to the whole tree, or to its document.
#[tactic(auto, unfolding(html_names_core::specs::Tables::known_tags))]
pub fn keeps_children(element: &HtmlElement, is_whole: bool) -> bool
    ensures { result ≡ keeps is_whole (element_view element.now).0.name }
{
    is_whole || element.tag != tag::template
}

/// Returns the first `id` of an element, which may be empty.
#[tactic(auto, unfolding(html_names_core::specs::Tables::known_attrs))]
pub fn first_id(element: &HtmlElement) -> Option<&String>
    ensures { option_map (λ id. text_view id.now) result ≡ first_id (element_view element.now).0 }
{
    element.attrs.get(&attr::id)
}

/// Returns the first `name` of an `a`, which may be empty.
#[tactic(auto, unfolding(html_names_core::specs::Tables::known_tags, html_names_core::specs::Tables::known_attrs))]
pub fn link_name(element: &HtmlElement) -> Option<&String>
    ensures { let h = (element_view element.now).0 in
        option_map (λ name. text_view name.now) result ≡ link_name h.name h.attrs }
{
    if element.tag == tag::a {
        element.attrs.get(&attr::name)
    } else {
        None
    }
}

fn add_name(name: &String, names: &mut BTreeSet<String>) -> Result<(), AllocError>
    ensures { OnOk result
        (used_in names.new ≡ with_names (text_view name.now ∷ []) (used_in names.old)) }
{
    put_in_use(names, name.clone()?)?;
    Ok(())
}

fn add_optional(name: Option<&String>, names: &mut BTreeSet<String>) -> Result<(), AllocError>
    ensures { OnOk result (used_in names.new ≡ with_names
        (option_to_list (option_map (λ name. text_view name.now) name.entry)) (used_in names.old)) }
{
    match name {
        Some(name) => add_name(name, names),
        None => Ok(()),
    }
}

fn add_element(element: &HtmlElement, names: &mut BTreeSet<String>) -> Result<(), AllocError>
    ensures { let h = (element_view element.now).0 in OnOk result
        (used_in names.new ≡ with_names (place_names h.name h.attrs) (used_in names.old)) }
{
    add_optional(first_id(element), names)?;
    add_optional(link_name(element), names)?;
    Ok(())
}

fn add_anchors(anchors: &[(Point, String)], names: &mut BTreeSet<String>) -> Result<(), AllocError>
    ensures { OnOk result (used_in names.new
        ≡ with_names (anchor_names (anchors_view anchors.now)) (used_in names.old)) }
{
    for anchor in anchors {
        add_name(&anchor.1, names)?;
    }
    Ok(())
}

fn add_frame(frame: &HtmlFrame, names: &mut BTreeSet<String>) -> Result<(), AllocError>
    ensures { OnOk result (used_in names.new
        ≡ with_names (frame_names (html_frame_view frame.now)) (used_in names.old)) }
{
    add_optional(frame.id.as_ref(), names)?;
    add_anchors(&frame.anchors, names)?;
    Ok(())
}
