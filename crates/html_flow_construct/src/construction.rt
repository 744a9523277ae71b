//! The construction of an element from arguments, which are cast to the types of its attributes.

ghost use Rattle.std.specs.List.{remove};
ghost use Rattle.std.specs.Prelude.{◌≡◌, ◌<◌, [], length, IfSome, not, bytes_eq, chars, is_some, option_map, slice_index_or, OnOk, OnErr, Some, None};
ghost use Rattle.html_names_core.specs.{Kinds.{is_raw}, Texts.{text_view}};
ghost use Rattle.html_dom_tree.specs.Views.{attrs_view};
ghost use Rattle.html_flow_construct.specs.ArgumentPieces.{arg_at, body_faults, or_own, unnamed_at};
ghost use Rattle.html_flow_construct.specs.Construct.{cast_answer, args_view, arg_body, attrs, choice_faults, construct_faults, construction, entries_view, entry_for, entry_view, faults, joined_faults, arg_value_view, other_args, body_choice, takes, text_items};
ghost use Rattle.html_flow_construct.specs.Endings.{Gives};
ghost use Rattle.html_values.specs.{Casts.{GivesCast, option_answer}, Types.{attr_type_view}};
ghost use Rattle.html_flow_convert.specs.{Items.{present}, Views.{body_view, items_view, elem_view}};

use crate::args::{Arg, ArgValue, Args, ElementInfo};
use html_dom_tree::{HtmlAttrs, Span};
use html_flow_convert::{ConstructFault, HtmlElem, Item, Pair, Role};
use html_names_core::{HtmlAttr, HtmlTag, tag};
use html_values::{AttrType, CastFault, Value};
use html_values_css::Properties;
use std::alloc::{AllocError, Global};

/// Constructs an element from arguments.
///
/// Casts each argument with a name that the element knows to the type of that attribute; a text
/// that the cast returns becomes an attribute, in the order of the arguments, and without a text
/// there is none. A name that comes twice becomes two attributes. Unless the element is void, the
/// first argument without a name is its body: of a raw element (`script`, `style`) a text, of
/// another items, a text, or none, which is an empty body. Removes the arguments that it uses; the
/// others stay in order.
///
/// Fails with all faults of casts (`Casts`; items instead of a value are of the wrong kind), or
/// else with `BodyKind`. After a failure all arguments are as they were.
///
/// ```
/// use html_dom::Span;
/// use html_flow::{Arg, ArgValue, Args, ElementInfo, construct};
/// use html_names::{attr, tag};
/// use html_values::{AttrType, NativeType, Value};
///
/// let alloc = rt.alloc();
/// let href = (attr::href, AttrType::Native(NativeType::Str));
/// let info = ElementInfo::new(tag::a, vec![in alloc; href]?);
/// let (name, span) = (Some(String::from_str(alloc, "href")?), Span(1));
/// let value = ArgValue::Plain(Value::Str(String::from_str(alloc, "/tides")?));
/// let mut args = Args {
///     items: vec![in alloc; Arg { name, span, value }]?,
/// };
/// let link = construct(alloc, &info, &mut args)?;
/// let href = link.attrs.get(&attr::href).expect(&rt, "an href");
/// assert_eq!(rt; href.as_str(), "/tides");
/// assert!(rt; link.body.is_none() && args.items.is_empty());
/// ```
pub fn construct(
    alloc: Global,
    info: &ElementInfo,
    args: &mut Args,
) -> Result<HtmlElem, ConstructFault>
    ensures ends { let given = args_view args.old.items.items in
        Gives (λ made. Some (elem_view made, args_view args.new.items.items)) result
        (construction info.now given) (construct_faults info.now given) }
    ensures kept { OnErr result (args.new ≡ args.old) }
{
    let attrs = cast_args(alloc, &info.attrs, &args.items)?;
    let tag = info.tag.try_clone()?;
    let body = take_body(alloc, &info.tag, &mut args.items)?;
    drop_known(&info.attrs, &mut args.items);
    Ok(HtmlElem {
        tag,
        attrs,
        css: Properties::new(alloc),
        body,
        parent: None,
        span: Span(0),
    })
}

#[tactic(auto, using(html_names_core::proofs::Lists::in_characters))]
fn is_named(attr: &HtmlAttr, name: &str) -> bool
    ensures { result ≡ bytes_eq attr.now (chars name.now) }
{
    *attr.resolve() == *name
}

fn entry_for<'a>(
    entries: &'a [(HtmlAttr, AttrType)],
    name: &Option<String>,
) -> Option<&'a (HtmlAttr, AttrType)>
    ensures { option_map (λ e. entry_view e.now) result
        ≡ entry_for (entries_view entries.now) (option_map text_view name.now) }
{
    let Some(name) = name else {
        return None;
    };
    for entry in entries {
        if is_named(&entry.0, name.as_str()) {
            return Some(entry);
        }
    }
    None
}

fn cast_arg(
    alloc: Global,
    attr_type: &AttrType,
    value: &ArgValue,
) -> Result<Option<String>, CastFault>
    ensures { GivesCast option_answer result
        (cast_answer (attr_type_view attr_type.now) (arg_value_view value.now)) }
{
    match value {
        ArgValue::Plain(value) => attr_type.cast(alloc, value),
        ArgValue::Body(_) => Err(CastFault::WrongKind),
    }
}

fn cast_args(
    alloc: Global,
    entries: &[(HtmlAttr, AttrType)],
    args: &[Arg],
) -> Result<HtmlAttrs, ConstructFault>
    ensures { let es = entries_view entries.now in
        Gives attrs_view result (attrs es (args_view args.now))
        (joined_faults (faults es (args_view args.now))) }
{
    let mut made = HtmlAttrs::new(alloc);
    let mut wrong = Vec::new(alloc);
    for arg in args {
        if let Some(entry) = entry_for(entries, &arg.name) {
            match cast_arg(alloc, &entry.1, &arg.value) {
                Ok(Some(text)) => made.push(entry.0.try_clone()?, text)?,
                Ok(None) => {}
                Err(CastFault::OutOfMemory) => return Err(ConstructFault::OutOfMemory),
                Err(fault) => wrong.push((fault, arg.span))?,
            }
        }
    }
    if wrong.is_empty() {
        Ok(made)
    } else {
        Err(ConstructFault::Casts(wrong))
    }
}

fn unnamed_at(args: &[Arg]) -> Option<usize>
    ensures place { result ≡ unnamed_at (args_view args.now) }
    ensures within { IfSome result (λ place. place < length args.now) }
{
    for (place, arg) in args.iter().enumerate() {
        if arg.name.is_none() {
            return Some(place);
        }
    }
    None
}

fn text_body(alloc: Global, text: &String, span: Span) -> Result<Vec<Pair>, ConstructFault>
    ensures { Gives (λ made. items_view made.items) result
        (text_items (text_view text.now) span.0) [] }
{
    let mut body = Vec::new(alloc);
    body.push(Pair {
        item: Item::Text(text.clone()?, span),
        role: Role::Inherit,
    })?;
    Ok(body)
}

/// Returns the body that a value makes; for items, which are a body of their own, an empty one.
fn plain_body(
    alloc: Global,
    raw: bool,
    value: &ArgValue,
    span: Span,
) -> Result<Vec<Pair>, ConstructFault>
    ensures { let body = arg_body raw (arg_value_view value.now) span.0 in
        Gives (λ made. Some (present (or_own (arg_value_view value.now) (items_view made.items))))
        result body (body_faults body span.0) }
{
    match value {
        ArgValue::Plain(Value::Str(text)) => text_body(alloc, text, span),
        ArgValue::Plain(Value::None) if !raw => Ok(Vec::new(alloc)),
        ArgValue::Body(_) if !raw => Ok(Vec::new(alloc)),
        _ => Err(ConstructFault::BodyKind { span }),
    }
}

/// Returns the items that are a body of their own, or else the body made from a value.
fn own_or(value: ArgValue, plain: Vec<Pair>) -> Vec<Pair>
    ensures { items_view result.items
        ≡ or_own (arg_value_view value) (items_view plain.items) }
{
    match value {
        ArgValue::Body(pairs) => pairs,
        ArgValue::Plain(_) => plain,
    }
}

fn take_at(
    alloc: Global,
    raw: bool,
    args: &mut Vec<Arg>,
    place: usize,
) -> Result<Vec<Pair>, ConstructFault>
    requires { place < length args.old.items }
    ensures ends { let arg = arg_at (args_view args.old.items) place in
        let body = arg_body raw arg.value arg.span in
        Gives (λ made. Some (present (items_view made.items))) result body
        (body_faults body arg.span) }
    ensures removed { OnOk result (args.new.items ≡ remove args.old.items place) }
    ensures kept { OnErr result (args.new ≡ args.old) }
{
    let plain = plain_body(alloc, raw, &args[place].value, args[place].span)?;
    let Arg { value, .. } = args.remove(place);
    Ok(own_or(value, plain))
}

fn take_body(
    alloc: Global,
    tag: &HtmlTag,
    args: &mut Vec<Arg>,
) -> Result<Option<Vec<Pair>>, ConstructFault>
    ensures ends { let choice = body_choice tag.now (args_view args.old.items) in
        Gives (λ made. takes (body_view made) (args_view args.new.items)) result choice
        (choice_faults choice) }
    ensures kept { OnErr result (args.new ≡ args.old) }
{
    if tag::is_void(tag) {
        return Ok(None);
    }
    let Some(place) = unnamed_at(args) else {
        return Ok(None);
    };
    match take_at(alloc, tag::is_raw(tag), args, place) {
        Ok(body) => Ok(Some(body)),
        Err(fault) => Err(fault),
    }
}

/// Removes the arguments that are attributes of the element, in one pass; the others stay in order.
fn drop_known(entries: &[(HtmlAttr, AttrType)], args: &mut Vec<Arg>)
    ensures { args_view args.new.items
        ≡ other_args (entries_view entries.now) (args_view args.old.items) }
{
    args.retain(|arg| entry_for(entries, &arg.name).is_none());
}
