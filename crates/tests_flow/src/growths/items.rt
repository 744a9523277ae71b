//! Items that get attributes and bodies, and elements made from arguments.

use html_dom_tree::{Location, Span};
use html_flow::{
    Arg, ArgValue, Args, ConstructFault, ElementInfo, HtmlElem, Pair, construct, push_located,
};
use html_names_core::{attr, tag};
use html_values::{AttrType, ListType, NativeType, Value};
use std::alloc::{AllocError, Global};
use tests_asserts::TestResult;
use tests_failing_alloc::{refuses_given, refuses_lent, refuses_pushed};
use tests_items::{elem_of, text_item_of};

fn has_two(element: &HtmlElem) -> bool {
    element.attrs.0.len() == 2
}

fn held(alloc: Global) -> Result<String, AllocError> {
    String::from_str(alloc, "held")
}

/// Adds an attribute to an element.
#[test]
fn changed_attributes(rt: HostRuntime) -> TestResult {
    let alloc = rt.alloc();
    let given = (elem_of(alloc, tag::p)?, attr::class, held(alloc)?);
    refuses_given(alloc, given, |(elem, name, value)| {
        elem.with_attr(name, value).map(|elem| has_two(&elem))
    })?;
    let given = (elem_of(alloc, tag::p)?, attr::class, Some(held(alloc)?));
    refuses_given(alloc, given, |(elem, name, value)| {
        let made = elem.with_optional_attr(name, value);
        made.map(|elem| has_two(&elem))
    })?;
    let (elem, pair) = (elem_of(alloc, tag::p)?, (attr::class, held(alloc)?));
    refuses_pushed(alloc, elem, pair, |elem: &mut HtmlElem, (name, value)| {
        elem.set_attr(name, value).map(|_| has_two(elem))
    })?;
    let given = (HtmlElem::new(alloc, tag::p), attr::class);
    refuses_given(alloc, given, |(elem, name)| {
        elem.with_attr_text(name, "held").map(|_| ())
    })
}

fn is_alone(element: HtmlElem) -> bool {
    element.body.is_some_and(|items| items.len() == 1)
}

/// Adds a text to an element without a body, as an item and as a text, and between tags to a list
/// without room.
#[test]
fn changed_bodies(rt: HostRuntime) -> TestResult {
    let (alloc, element) = (rt.alloc(), HtmlElem::new(rt.alloc(), tag::p));
    let item = Pair::from(text_item_of(alloc)?);
    refuses_given(alloc, (element, item), |(element, item)| {
        element.with_item(alloc, item).map(is_alone)
    })?;
    refuses_given(alloc, HtmlElem::new(alloc, tag::p), |element| {
        element.with_text(alloc, "a text").map(is_alone)
    })?;
    let given = (Some(held(alloc)?), text_item_of(alloc)?);
    let none = Vec::new(alloc);
    refuses_pushed(alloc, none, given, |list: &mut Vec<Pair>, (label, item)| {
        push_located(list, Location(1), label, None, item).map(|_| list.len() == 3)
    })
}

fn arg_of(alloc: Global, name: &str, value: Value) -> Result<Arg, AllocError> {
    let (name, value) = (Some(String::from_str(alloc, name)?), ArgValue::Plain(value));
    Ok(Arg {
        name,
        span: Span(7),
        value,
    })
}

/// Returns the arguments `href`, `class`, one without a type, and a body.
fn args_of(alloc: Global) -> Result<Args, AllocError> {
    let mut items = Vec::with_capacity(alloc, 4)?;
    let text = String::from_str(alloc, "x")?;
    items.push(arg_of(alloc, "href", Value::Str(text))?)?;
    let list = vec![in alloc; Value::Str(String::from_str(alloc, "held")?)]?;
    items.push(arg_of(alloc, "class", Value::Array(list))?)?;
    items.push(arg_of(alloc, "other", Value::Auto)?)?;
    let body = vec![in alloc; Pair::from(text_item_of(alloc)?)]?;
    items.push(Arg {
        name: None,
        span: Span(7),
        value: ArgValue::Body(body),
    })?;
    Ok(Args { items })
}

fn info_of(alloc: Global) -> Result<ElementInfo, AllocError> {
    let list = ListType::new(alloc, AttrType::Native(NativeType::Str), ' ', false)?;
    let class = (attr::class, AttrType::List(list));
    let href = (attr::href, AttrType::Native(NativeType::Str));
    Ok(ElementInfo::new(tag::a, vec![in alloc; class, href]?))
}

/// Makes an element from arguments, and leaves one of them.
#[test]
fn constructed_elements(rt: HostRuntime) -> TestResult {
    let (alloc, info) = (rt.alloc(), info_of(rt.alloc())?);
    refuses_lent(
        alloc,
        args_of(alloc)?,
        |args: &mut Args| -> Result<bool, ConstructFault> {
            let element = construct(alloc, &info, args)?;
            Ok(element.attrs.0.len() == 2 && args.items.len() == 1)
        },
    )
}
