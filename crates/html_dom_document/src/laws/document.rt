//! Laws of documents. The contract of each function is a law.

ghost use Rattle.std.specs.Prelude.{◌≡◌, ◌↔◌, IsTrue};
ghost use Rattle.html_dom_document.specs.Views.{locale_view, info_view};

use crate::info::{DocumentInfo, Locale};

/// Locales are equal if both fields are.
pub fn equal_locales(a: &Locale, b: &Locale) -> bool
    ensures { IsTrue result ↔ (locale_view a.now ≡ locale_view b.now) }
{
    a == b
}

/// The information about two documents is equal if all fields are.
pub fn equal_infos(a: &DocumentInfo, b: &DocumentInfo) -> bool
    ensures { IsTrue result ↔ (info_view a.now ≡ info_view b.now) }
{
    a == b
}
