//! Named character references (HTML Standard 13.5).

ghost use Rattle.std.specs.Prelude.{◌≡◌, chars, IsTrue};
ghost use Rattle.html_page_names.specs.NamedReferences.{found_chars, legacy_reference, named_reference, value_in_groups};
ghost use Rattle.html_page_names.specs.{ReferenceRow.{value_in}, ReferenceRows.{other_groups}};
ghost use Rattle.html_page_names.specs.ReferenceTables.{all_as_long, are_as_long, are_grouped, groups_view, rows_view};

use crate::reference_rows::{
    LEGACY_NAMES, LEGACY_REFERENCES, OTHER_NAMES, OTHER_REFERENCES, Reference,
};

/// Returns the characters for a name in a group.
fn value_in(names: &str, references: &[Reference], name: &str) -> Option<(char, Option<char>)>
    requires { IsTrue (are_as_long names.now references.now) }
    ensures { found_chars result ≡ value_in (rows_view names.now references.now) name.now }
{
    let name = name.as_bytes();
    let mut names = names.as_bytes();
    for reference in references {
        let (first, others) = names.split_at(usize::from(reference.name_length));
        if first == name {
            return Some((reference.first, reference.second));
        }
        names = others;
    }
    None
}

/// Returns the characters for a name in groups of names, those that begin with `A`, then with the
/// next character, and so on.
fn value_in_groups(
    names: &[&'static str],
    references: &[&'static [Reference]],
    name: &str,
) -> Option<(char, Option<char>)>
    requires long { IsTrue (all_as_long names.now references.now) }
    requires grouped { IsTrue (are_grouped 65 (groups_view names.now references.now)) }
    ensures { found_chars result
        ≡ value_in_groups (groups_view names.now references.now) (chars name.now) }
{
    let first = *name.as_bytes().first()?;
    let place = usize::from(first.checked_sub(b'A')?);
    if place < names.len() && place < references.len() {
        value_in(names[place], references[place], name)
    } else {
        None
    }
}

fn other_reference(name: &str) -> Option<(char, Option<char>)>
    ensures { found_chars result ≡ value_in_groups other_groups (chars name.now) }
{
    value_in_groups(&OTHER_NAMES, &OTHER_REFERENCES, name)
}

/// Returns the one or two characters for a name that has no `;` after it, which some names may
/// lack.
///
/// ```
/// use html_page_names::legacy_reference;
///
/// assert!(rt; legacy_reference("copy") == Some(('©', None)));
/// assert!(rt; legacy_reference("hellip").is_none());
/// ```
pub fn legacy_reference(name: &str) -> Option<(char, Option<char>)>
    ensures { found_chars result ≡ legacy_reference (chars name.now) }
{
    value_in_groups(&LEGACY_NAMES, &LEGACY_REFERENCES, name)
}

/// Returns the one or two characters for a name, without its `&` and `;`.
///
/// ```
/// use html_page_names::named_reference;
///
/// assert!(rt; named_reference("hellip") == Some(('…', None)));
/// assert!(rt; named_reference("bne") == Some(('=', Some('\u{20e5}'))));
/// assert!(rt; named_reference("hel").is_none());
/// ```
#[tactic(auto, unfolding(crate::specs::NamedReferences::named_reference))]
pub fn named_reference(name: &str) -> Option<(char, Option<char>)>
    ensures { found_chars result ≡ named_reference (chars name.now) }
{
    match legacy_reference(name) {
        Some(found) => Some(found),
        None => other_reference(name),
    }
}
