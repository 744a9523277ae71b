//! The guide's example of attributes.

use std::alloc::Global;
use typst_html::{
    Arg, ArgValue, Args, AttrType, ConstructFault, ElementInfo, HtmlElem, NativeType, Span, Value,
    attr, construct, tag,
};

/// `a` whose `tabindex` is a whole number, made of an argument of that name.
fn link(alloc: Global, tabindex: Value) -> Result<HtmlElem, ConstructFault> {
    let known = vec![in alloc; (attr::tabindex, AttrType::Native(NativeType::Int))]?;
    let given = Arg {
        name: Some(String::from_str(alloc, "tabindex")?),
        span: Span(5),
        value: ArgValue::Plain(tabindex),
    };
    let mut args = Args {
        items: vec![in alloc; given]?,
    };
    construct(alloc, &ElementInfo::new(tag::a, known), &mut args)
}

#[test]
fn a_cast_and_a_refusal(rt: HostRuntime) {
    let made = link(rt.alloc(), Value::Int(2)).expect(&rt, "an element");
    assert_eq!(rt;
        made.attrs.get(&attr::tabindex).map(|value| value.as_str()),
        Some("2")
    );
    let fault = link(rt.alloc(), Value::None).expect_err(&rt, "a fault");
    assert!(rt; matches!(fault, ConstructFault::Casts(_)));
}
