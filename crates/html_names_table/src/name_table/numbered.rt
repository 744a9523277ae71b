//! What a name needs to get a number: its text, and its place among the known names of its kind.

ghost use Rattle.std.specs.Prelude.{◌≡◌, ℕ, List, chars, true, IfOk};
ghost use Rattle.html_names_core.specs.{Held.{IsLookup}, Names.{rises}};

use html_names_core::{HtmlAttr, HtmlTag};
use std::alloc::AllocError;

/// A name of a kind that has a table of known names.
pub(crate) trait Numbered: Drop {
    ghost text: { Self → List ℕ };

    ghost known: { List (List ℕ) };

    fn copy(&self) -> Result<Self, AllocError>
        ensures { IfOk result (λ name. text name ≡ text self.now) };

    fn as_str(&self) -> &str
        ensures { chars result.now ≡ text self.now };

    fn place(&self) -> Option<u8>
        ensures { IsLookup known (text self.now) result };

    ghost ascends: { rises known ≡ true };
}

impl Numbered for HtmlTag {
    ghost use Rattle.html_names_core.{proofs.Same.{tags_rise}, specs.Tables.{known_tags}};

    ghost text = { λ name. name };

    ghost known = { known_tags };

    ghost ascends = { tags_rise };

    fn copy(&self) -> Result<HtmlTag, AllocError> {
        self.try_clone()
    }

    fn as_str(&self) -> &str {
        self.resolve()
    }

    fn place(&self) -> Option<u8> {
        self.known_place()
    }
}

impl Numbered for HtmlAttr {
    ghost use Rattle.html_names_core.{proofs.Same.{attrs_rise}, specs.Tables.{known_attrs}};

    ghost text = { λ name. name };

    ghost known = { known_attrs };

    ghost ascends = { attrs_rise };

    fn copy(&self) -> Result<HtmlAttr, AllocError> {
        self.try_clone()
    }

    fn as_str(&self) -> &str {
        self.resolve()
    }

    fn place(&self) -> Option<u8> {
        self.known_place()
    }
}
