//! Kinds of attributes: known ones, and event handlers.

ghost use Rattle.std.specs.Prelude.{◌≡◌};
ghost use Rattle.html_names_core.specs.{AttrKinds.{is_event_handler}, Tables.{is_known_attr}};

use crate::html_attr::HtmlAttr;
use crate::name::Name;

/// Returns whether the attribute is one of this module's constants, those of HTML and MathML.
///
/// ```
/// use html_names::{HtmlAttr, attr};
///
/// assert!(rt; attr::is_known(&attr::href));
/// assert!(rt; !attr::is_known(&HtmlAttr::intern(rt.alloc(), "data-x")?));
/// ```
#[tactic(auto, using(crate::proofs::Known::attr_is_known))]
pub fn is_known(attr: &HtmlAttr) -> bool
    ensures { result ≡ is_known_attr attr.now }
{
    match &attr.name {
        Name::Known(_) => true,
        Name::Own(_) => false,
    }
}

/// Returns whether the attribute counts as an event handler: whether its name begins with `on`, in
/// any ASCII case, as the names of all handlers do (HTML Standard 8.1.8.1). A browser runs the
/// value of a handler. The test covers the handlers of later standards too.
///
/// ```
/// use html_names::{HtmlAttr, attr};
///
/// let alloc = rt.alloc();
/// assert!(rt; attr::is_event_handler(&HtmlAttr::intern(alloc, "onclick")?));
/// assert!(rt; attr::is_event_handler(&HtmlAttr::intern(alloc, "OnLoad")?));
/// assert!(rt; !attr::is_event_handler(&attr::open));
/// ```
pub fn is_event_handler(attr: &HtmlAttr) -> bool
    ensures { result ≡ is_event_handler attr.now }
{
    let mut letters = attr.resolve().chars();
    let Some(first) = letters.next() else {
        return false;
    };
    let Some(second) = letters.next() else {
        return false;
    };
    first.eq_ignore_ascii_case(&'o') && second.eq_ignore_ascii_case(&'n')
}
