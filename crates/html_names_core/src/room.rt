//! Lists that take little room.

ghost use Rattle.std.specs.Prelude.{◌≡◌, ◌++◌, ◌∷◌, [], OnOk, OnErr, IfErr};

use crate::refused::Refused;
use std::alloc::AllocFailed;

/// Appends a value to a list. A list without room gets room for one value if it is empty, where
/// `Vec::push` asks for several: most lists of an element's attributes, children and items hold one.
///
/// If an allocation fails, the list is unchanged and the error holds the value.
///
/// ```
/// use html_names::room::push_compact;
///
/// let mut list = Vec::new(rt.alloc());
/// push_compact(&mut list, 7)?;
/// assert_eq!(rt; list.capacity(), 1);
/// ```
pub fn push_compact<T>(list: &mut Vec<T>, value: T) -> Result<(), Refused<T>>
    ensures ok { OnOk result (list.new.items ≡ list.old.items ++ value ∷ []) }
    ensures kept { OnErr result (list.new.items ≡ list.old.items) }
    ensures back { IfErr result (λ refused. refused.back ≡ value) }
{
    if list.is_empty() && list.reserve_exact(1).is_err() {
        return Err(Refused { back: value });
    }
    match list.push(value) {
        Ok(()) => Ok(()),
        Err(AllocFailed { value }) => Err(Refused { back: value }),
    }
}
