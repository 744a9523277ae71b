//! Labels and names by location.

ghost use Rattle.std.specs.Prelude.{◌≡◌, ◌==◌, ℕ, Some, None, if◌then◌else◌, IfOk, OnOk, option_map};
ghost use Rattle.html_dom_tree.specs.{Attributes.{or_else}, Views.{text_view, optional_text_view}};
ghost use Rattle.html_anchors.specs.{AnchorWalk.{with_entry, put_each}, LocationMaps.{labels_in, names_in, locations_in}};

use html_dom_tree::Location;
use std::alloc::AllocError;
use std::collections::BTreeMap;

pub(crate) fn label_of(
    labels: &BTreeMap<Location, Option<String>>,
    location: Location,
) -> Result<Option<Option<String>>, AllocError>
    ensures { IfOk result (λ label.
        option_map optional_text_view label ≡ labels_in labels.now location.0) }
{
    match labels.get(&location) {
        Some(label) => Ok(Some(copy_label(label)?)),
        None => Ok(None),
    }
}

pub(crate) fn copy_label(label: &Option<String>) -> Result<Option<String>, AllocError>
    ensures { IfOk result (λ copy. optional_text_view copy ≡ optional_text_view label.now) }
{
    match label {
        Some(text) => Ok(Some(text.clone()?)),
        None => Ok(None),
    }
}

pub(crate) fn put_first_label(
    labels: &mut BTreeMap<Location, Option<String>>,
    location: Location,
    label: &Option<String>,
) -> Result<(), AllocError>
    ensures { OnOk result ((l : ℕ) → labels_in labels.new l
        ≡ or_else (labels_in labels.old l)
        (if location.0 == l then Some (optional_text_view label.now) else None)) }
{
    if !labels.contains_key(&location) {
        labels.insert(location, copy_label(label)?)?;
    }
    Ok(())
}

pub(crate) fn put_each(
    answers: &mut BTreeMap<Location, String>,
    locations: &[Location],
    name: &String,
) -> Result<(), AllocError>
    ensures { OnOk result (names_in answers.new
        ≡ put_each (text_view name.now) (locations_in locations.now) (names_in answers.old)) }
{
    for location in locations {
        put_name(answers, *location, name)?;
    }
    Ok(())
}

pub(crate) fn put_name(
    answers: &mut BTreeMap<Location, String>,
    location: Location,
    name: &String,
) -> Result<(), AllocError>
    ensures { OnOk result (names_in answers.new
        ≡ with_entry location.0 (text_view name.now) (names_in answers.old)) }
{
    answers.insert(location, name.clone()?)?;
    Ok(())
}
