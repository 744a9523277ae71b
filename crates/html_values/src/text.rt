//! Functions that create simple texts.

ghost use Rattle.std.specs.Prelude.{◌≡◌, [], IsTrue};
ghost use Rattle.html_names_core.specs.{Names.{is_ascii}, Texts.{text_view}};
ghost use Rattle.html_values.specs.Attributes.{IsText};

use std::alloc::{AllocError, Global};

#[tactic(auto, using(std::proofs::StrCases::chars_of_empty))]
pub(crate) fn empty(alloc: Global) -> String
    ensures { text_view result ≡ [] }
{
    String::new(alloc)
}

#[tactic(auto, using(html_names_core::proofs::Lists::chars_ascii))]
pub(crate) fn ascii(alloc: Global, text: &str) -> Result<String, AllocError>
    requires { IsTrue (is_ascii text.now) }
    ensures { IsText result text.now }
{
    String::from_str(alloc, text)
}
