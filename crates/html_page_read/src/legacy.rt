//! Names of characters that may stand without a `;` (HTML Standard 13.2.5.73).

ghost use Rattle.std.specs.Prelude.{◌≡◌, ◌∷◌, IsTrue, chars, option_map, option_to_list};
ghost use Rattle.html_names_core.specs.Names.{is_ascii};
ghost use Rattle.html_page_read.specs.PageReferences as references;

use html_page_names::legacy_reference;

/// A name with which a text begins: its characters, and the text after it.
#[derive(Clone, Copy)]
pub(crate) struct Legacy<'a> {
    pub(crate) value: (char, Option<char>),
    pub(crate) rest: &'a str,
}

impl Legacy<'_> {
    /// Returns whether what follows the name in a value makes it no reference.
    pub(crate) fn is_followed(&self, behind: Option<char>) -> bool
        ensures { result ≡ references.is_followed (chars self.now.rest.now) behind }
    {
        match self.rest.chars().next() {
            Some(_) => true,
            None => behind == Some('='),
        }
    }
}

/// Returns the longest name, with at most so many characters, with which the text begins.
pub(crate) fn longest_legacy(at_most: usize, text: &str) -> Option<Legacy<'_>>
    requires { IsTrue (is_ascii text.now) }
    ensures { option_map (λ found.
        (found.value.0 ∷ option_to_list found.value.1, chars found.rest.now)) result
        ≡ references.longest_legacy at_most (chars text.now) }
{
    if at_most == 0 {
        return None;
    }
    let length = at_most.min(text.len());
    match legacy_reference(&text[..length]) {
        Some(value) => Some(Legacy {
            value,
            rest: &text[length..],
        }),
        None => longest_legacy(at_most - 1, text),
    }
}
