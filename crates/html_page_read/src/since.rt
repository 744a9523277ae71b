//! The text after the `&` of a reference.

ghost use Rattle.std.specs.Prelude.{◌≡◌, ◌<◌, ◌++◌, ◌∷◌, [], OnOk, IsTrue, chars, string_bytes};
ghost use Rattle.html_dom_tree.specs.Views.{text_view};
ghost use Rattle.html_names_core.specs.Names.{is_ascii};

use std::alloc::{AllocError, Global};

/// A text of ASCII.
#[derive(Drop)]
pub(crate) struct Since {
    pub(crate) text: String,
    ghost ascii: { IsTrue (is_ascii (string_bytes text)) },
}

impl Since {
    #[tactic(auto, using(std::proofs::StrCases::chars_of_empty))]
    pub(crate) fn new(alloc: Global) -> Since
        ensures { text_view result.text ≡ [] }
    {
        Since {
            text: String::new(alloc),
        }
    }

    #[tactic(auto, using(std::proofs::StrCases::chars_of_empty))]
    pub(crate) fn clear(&mut self)
        ensures { text_view self.new.text ≡ [] }
    {
        self.text.clear();
    }

    pub(crate) fn push(&mut self, c: char) -> Result<(), AllocError>
        requires { c < 128 }
        ensures { OnOk result (text_view self.new.text ≡ text_view self.old.text ++ c ∷ []) }
    {
        self.text.push(c)?;
        Ok(())
    }

    pub(crate) fn as_str(&self) -> &str
        ensures text { chars result.now ≡ text_view self.now.text }
        ensures ascii { IsTrue (is_ascii result.now) }
    {
        self.text.as_str()
    }
}
