//! Lookup of a text in a table of names, for this crate and those that build on it.

ghost use Rattle.std.specs.Prelude.{◌≡◌, chars, IsTrue};
ghost use Rattle.html_names_core.specs.{Held.{IsLookup}, Names.{are_ascii, stands_in, texts}, Starts.{are_starts}};

/// Returns the index of the text in a table of ASCII names, if the table contains it.
///
/// `starts` holds the index of the first name with each first letter, from `a` to `z`, and the end.
/// Only the names with the text's first letter are compared.
pub fn place_in(table: &[&'static str], starts: &[u8; 27], text: &str) -> Option<u8>
    requires ascii { IsTrue (are_ascii (texts table.now)) }
    requires starts { IsTrue (are_starts starts.now (texts table.now)) }
    ensures { IsLookup (texts table.now) (chars text.now) result }
{
    let first = *text.as_bytes().first()?;
    if !first.is_ascii_lowercase() {
        return None;
    }
    let letter = usize::from(first - b'a');
    for place in starts[letter]..starts[letter + 1] {
        if table[usize::from(place)] == text {
            return Some(place);
        }
    }
    None
}

#[tactic(auto, unfolding(crate::specs::Names::stands_in))]
fn stands_in(names: &[&'static str], text: &str) -> bool
    ensures { result ≡ stands_in (texts names.now) text.now }
{
    for name in names {
        if *name == text {
            return true;
        }
    }
    false
}

/// Returns whether a table of ASCII names contains the text.
#[tactic(auto, using(crate::proofs::Lists::in_characters))]
pub fn is_one_of(names: &[&'static str], text: &str) -> bool
    requires { IsTrue (are_ascii (texts names.now)) }
    ensures { result ≡ stands_in (texts names.now) (chars text.now) }
{
    stands_in(names, text)
}
