//! Nodes that stay where they are, judged one at a time.

ghost use Rattle.std.specs.Prelude.{◌≡◌, chars};
ghost use Rattle.html_dom_tree.specs.Views.{element_view};
ghost use Rattle.html_page_nesting.specs.Kept as kept;

use crate::element::KnownElement;
use crate::reading::Place;
use crate::rules::{element_misnesting, text_misnesting};
use crate::surroundings::Surroundings;
use html_dom_tree::HtmlElement;

impl Surroundings {
    /// Returns the surroundings of the nodes in the `body` of a page.
    pub fn in_body() -> Surroundings
        ensures { result ≡ kept.in_body }
    {
        Surroundings {
            depth: 2,
            place: Place::Body,
            ..Surroundings::NONE
        }
    }

    /// Returns whether browsers leave a text where it is that has these surroundings.
    pub fn keeps_text(&self, text: &str) -> bool
        ensures { result ≡ kept.keeps_text self.now (chars text.now) }
    {
        text_misnesting(text, self).is_none()
    }

    /// Returns the surroundings of an element's content, if browsers leave the element, which has
    /// these surroundings, where it is: [`misnested`](crate::misnested) reports it otherwise.
    pub fn kept_inside(&self, element: &HtmlElement) -> Option<Surroundings>
        ensures { let e = element_view element.now in
            result ≡ kept.kept_inside self.now e.0 e.1 }
    {
        if self.is_too_deep() {
            return None;
        }
        let known = KnownElement::new(element);
        match element_misnesting(&known, self) {
            Some(_) => None,
            None => Some(self.inside(&known)),
        }
    }
}
