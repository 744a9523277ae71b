//! A page that was read, and where its elements begin.

ghost use Rattle.std.specs.Prelude.{◌≡◌};
ghost use Rattle.html_dom_tree.specs.Views.{element_view};
ghost use Rattle.typst_html_ffi.specs.{FindingLists.{offset_at}, PageSteps.{place_in}};

use html_dom_tree::HtmlElement;
use html_page_findings::element_at;
use html_page_read::Places;
use html_text::Place;

/// A page that was read.
#[derive(Clone, Copy)]
pub(crate) struct Page<'a> {
    pub(crate) root: &'a HtmlElement,
    pub(crate) places: Places<'a>,
}

impl Page<'_> {
    /// Returns the place of the element at a path, which is that of the `<` of its start tag.
    ///
    /// Takes time linear in the length of the path and of the page between this place and the
    /// previous one.
    pub(crate) fn place_of(&mut self, path: &[usize]) -> Place
        ensures place { result ≡ place_in self.old path.now }
        ensures kept { place_in self.new ≡ place_in self.old }
    {
        self.places.at(offset_at(self.root, path))
    }
}

/// Returns how many bytes of its page stand before the element at a path, or 0 if there is none.
fn offset_at(root: &HtmlElement, path: &[usize]) -> usize
    ensures { result ≡ offset_at (element_view root.now) path.now }
{
    match element_at(root, path) {
        Some(element) => element.span.0 as usize,
        None => 0,
    }
}
