//! An attribute's value of one's own.

ghost use Rattle.std.specs.{Fmt.{decimal}, Prelude.{codes}};
ghost use Rattle.tests_surface.specs.declared.own.attr.Limit.TheVariants.{Most, Unlimited};

use html_values::{IntoAttr, NoneValue};
use std::alloc::{AllocError, Global};

/// How many there may be.
#[derive(Clone, Copy)]
enum Limit {
    /// At most that many.
    Most(u64),
    /// Any number, written `none`.
    Unlimited,
}

impl IntoAttr for Limit {
    ghost attr_text = { λ limit. elim limit [ Most n ↦ decimal n | Unlimited ↦ codes "none" ] };

    fn into_attr(&self, alloc: Global) -> Result<String, AllocError> {
        match self {
            Limit::Most(count) => count.into_attr(alloc),
            Limit::Unlimited => NoneValue.into_attr(alloc),
        }
    }
}

#[test]
fn a_value_has_its_text(rt: HostRuntime) -> tests_asserts::TestResult {
    use tests_asserts::assert_text;
    assert_text(&Limit::Most(7).into_attr(rt.alloc())?, "7")?;
    assert_text(&Limit::Unlimited.into_attr(rt.alloc())?, "none")
}
