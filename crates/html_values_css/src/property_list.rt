//! The list of css properties of an element.

ghost use Rattle.std.specs.Prelude.{◌≡◌, ℕ, [], ◌∷◌, chars, MatchResult, OnOk, OnErr, IfOk, IfErr, if◌then◌else◌};
ghost use Rattle.html_names_core.specs.Texts.{text_view};
ghost use Rattle.html_values_css.specs.Properties.{list_view, items_of, property_view, by_name, property_name, IsListed, with_property, without};
ghost use Rattle.html_values_css.specs.Search.{IsFound, IsGap};

use crate::property::Property;
use html_names_core::Refused;
use std::alloc::{AllocError, AllocFailed, Global};
use std::cmp::Ordering;
use std::slice;
use std::sync::Arc;

/// Properties in the order of their names. Most elements have none, and most others have one.
#[derive(Drop)]
pub(crate) enum PropertyList {
    None,
    /// Shared by its copies.
    One(Arc<Property>),
    Some(Box<Vec<Property>>),
}

impl PropertyList {
    /// Creates an empty list with room for that many properties.
    pub(crate) fn with_room(alloc: Global, capacity: usize) -> Result<PropertyList, AllocError>
        ensures { IfOk result (λ list. items_of list ≡ []) }
    {
        if capacity < 2 {
            return Ok(PropertyList::None);
        }
        let list = Vec::with_capacity(alloc, capacity)?;
        Ok(PropertyList::Some(Box::new(alloc, list)?))
    }

    pub(crate) fn as_slice(&self) -> &[Property]
        ensures { result.now ≡ items_of self.now }
    {
        match self {
            PropertyList::None => &[],
            PropertyList::One(property) => slice::from_ref(&**property),
            PropertyList::Some(list) => list.as_slice(),
        }
    }

    pub(crate) fn put(
        &mut self,
        alloc: Global,
        name: &str,
        value: String,
    ) -> Result<(), Refused<String>>
        requires { IsListed (list_view (items_of self.old)) }
        ensures ok { OnOk result (list_view (items_of self.new)
            ≡ with_property (list_view (items_of self.old)) (chars name.now) (text_view value)) }
        ensures kept { OnErr result (list_view (items_of self.new)
            ≡ list_view (items_of self.old)) }
        ensures back { IfErr result (λ refused. refused.back ≡ value) }
    {
        match self {
            PropertyList::None => *self = one(alloc, name, value)?,
            PropertyList::One(property) => *self = two(alloc, &**property, name, value)?,
            PropertyList::Some(list) => put(list, name, value)?,
        }
        Ok(())
    }

    pub(crate) fn take_out(&mut self, name: &str)
        requires { IsListed (list_view (items_of self.old)) }
        ensures { list_view (items_of self.new)
            ≡ without (list_view (items_of self.old)) (chars name.now) }
    {
        match self {
            PropertyList::None => {}
            PropertyList::One(property) => {
                if is_named(&**property, name) {
                    *self = PropertyList::None;
                }
            }
            PropertyList::Some(list) => take_out(list, name),
        }
    }

    pub(crate) fn try_clone(&self, alloc: Global) -> Result<PropertyList, AllocError>
        ensures { IfOk result (λ copy.
            list_view (items_of copy) ≡ list_view (items_of self.now)) }
    {
        match self {
            PropertyList::None => Ok(PropertyList::None),
            PropertyList::One(property) => Ok(PropertyList::One(Arc::try_clone(property)?)),
            PropertyList::Some(list) => several(alloc, list),
        }
    }
}

fn several(alloc: Global, list: &[Property]) -> Result<PropertyList, AllocError>
    ensures { IfOk result (λ copy. list_view (items_of copy) ≡ list_view list.now) }
{
    Ok(PropertyList::Some(Box::new(alloc, copies(alloc, list)?)?))
}

fn one(alloc: Global, name: &str, value: String) -> Result<PropertyList, Refused<String>>
    ensures ok { IfOk result (λ list. list_view (items_of list)
        ≡ (chars name.now, text_view value) ∷ []) }
    ensures back { IfErr result (λ refused. refused.back ≡ value) }
{
    let Ok(name) = String::from_str(alloc, name) else {
        return Err(Refused { back: value });
    };
    match Arc::new(alloc, Property::new(name, value)) {
        Ok(shared) => Ok(PropertyList::One(shared)),
        Err(AllocFailed { value: one }) => Err(Refused { back: one.value }),
    }
}

fn two(
    alloc: Global,
    property: &Property,
    name: &str,
    value: String,
) -> Result<PropertyList, Refused<String>>
    requires { IsListed (list_view (property.now ∷ [])) }
    ensures ok { IfOk result (λ list. list_view (items_of list)
        ≡ with_property (list_view (property.now ∷ [])) (chars name.now) (text_view value)) }
    ensures back { IfErr result (λ refused. refused.back ≡ value) }
{
    let Ok(copies) = copies(alloc, slice::from_ref(property)) else {
        return Err(Refused { back: value });
    };
    let Ok(mut list) = Box::new(alloc, copies) else {
        return Err(Refused { back: value });
    };
    put(&mut list, name, value)?;
    Ok(PropertyList::Some(list))
}

fn is_named(property: &Property, name: &str) -> bool
    requires { IsListed (list_view (property.now ∷ [])) }
    ensures { without (list_view (property.now ∷ [])) (chars name.now)
        ≡ (if result then [] else list_view (property.now ∷ [])) }
{
    match search(slice::from_ref(property), name) {
        Ok(_) => true,
        Err(_) => false,
    }
}

fn search(list: &[Property], name: &str) -> Result<usize, usize>
    requires { IsListed (list_view list.now) }
    ensures { MatchResult result (IsFound by_name property_name list.now (chars name.now))
        (IsGap by_name property_name list.now (chars name.now)) }
{
    list.binary_search_by(|property| compare(property, name))
}

/// Compares the property's name to another, byte by byte.
fn compare(property: &Property, name: &str) -> Ordering
    ensures { result ≡ by_name (property_name property.now) (chars name.now) }
{
    property.name.as_str().cmp(name)
}

fn put(list: &mut Vec<Property>, name: &str, value: String) -> Result<(), Refused<String>>
    requires { IsListed (list_view list.old.items) }
    ensures ok { OnOk result (list_view list.new.items ≡ with_property (list_view list.old.items)
        (chars name.now) (text_view value)) }
    ensures kept { OnErr result (list_view list.new.items ≡ list_view list.old.items) }
    ensures back { IfErr result (λ refused. refused.back ≡ value) }
{
    match search(list, name) {
        Ok(at) => {
            list[at].value = value;
            Ok(())
        }
        Err(at) => put_at(list, at, name, value),
    }
}

fn put_at(
    list: &mut Vec<Property>,
    at: usize,
    name: &str,
    value: String,
) -> Result<(), Refused<String>>
    requires { IsGap by_name property_name list.old.items (chars name.now) at }
    ensures ok { OnOk result (list_view list.new.items ≡ with_property (list_view list.old.items)
        (chars name.now) (text_view value)) }
    ensures kept { OnErr result (list_view list.new.items ≡ list_view list.old.items) }
    ensures back { IfErr result (λ refused. refused.back ≡ value) }
{
    let Ok(name) = String::from_str(*list.allocator(), name) else {
        return Err(Refused { back: value });
    };
    match list.insert(at, Property::new(name, value)) {
        Ok(()) => Ok(()),
        Err(AllocFailed { value: property }) => Err(Refused {
            back: property.value,
        }),
    }
}

fn take_out(list: &mut Vec<Property>, name: &str)
    requires { IsListed (list_view list.old.items) }
    ensures { list_view list.new.items ≡ without (list_view list.old.items) (chars name.now) }
{
    match search(list, name) {
        Ok(at) => {
            let _taken = list.remove(at);
        }
        Err(_) => {}
    }
}

fn copies(alloc: Global, list: &[Property]) -> Result<Vec<Property>, AllocError>
    ensures { IfOk result (λ copies. list_view copies.items ≡ list_view list.now) }
{
    let mut copies = Vec::with_capacity(alloc, list.len())?;
    for property in list {
        copies.push(property.try_clone()?)?;
    }
    Ok(copies)
}
