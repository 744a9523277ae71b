//! Names in use.

ghost use Rattle.std.specs.Prelude.{true, ◌≡◌, OnOk};
ghost use Rattle.html_dom_tree.specs.Views.{text_view};
ghost use Rattle.html_links.specs.{TreeNames.{Name, with_used_name}, UsedNames.{used_in}};

use std::alloc::AllocError;
use std::collections::BTreeSet;

/// Returns whether a name is in use.
pub fn is_used(used: &BTreeSet<String>, name: &String) -> bool
    ensures { result ≡ used_in used.now (text_view name.now) }
{
    used.contains(name.as_str())
}

/// Puts a name in use. Fails only if an allocation fails.
pub fn put_in_use(used: &mut BTreeSet<String>, name: String) -> Result<(), AllocError>
    ensures ok { OnOk result (used_in used.new ≡ with_used_name (text_view name) (used_in used.old)) }
    ensures grows { (n : Name) → used_in used.old n ≡ true → used_in used.new n ≡ true }
{
    used.insert(name)?;
    Ok(())
}
