//! The surroundings of an element's children.

ghost use Rattle.std.specs.{List.{list_any}, Prelude.{◌≡◌, ◌<◌, ◌≤◌}};
ghost use Rattle.html_dom_tree.specs.Views.{attrs_view, element_view};
ghost use Rattle.html_page_names.specs.PageNames.{of};
ghost use Rattle.html_page_nesting.specs.Ancestors as ancestors;
ghost use Rattle.html_page_nesting.specs.{Surroundings.{open_with, parent_with, still}, Walks.{surroundings_in}};

use crate::element::KnownElement;
use crate::reading::{Place, Reading, Space};
use crate::surroundings::{Open, Parent, Surroundings};
use html_dom_tree::HtmlAttrs;
use html_page_names::{Kind, is_encoding, is_html_encoding};

/// Returns whether the attributes say that an `annotation-xml` holds HTML.
fn says_html(attrs: &HtmlAttrs) -> bool
    ensures { result ≡ list_any ancestors.says_html (attrs_view attrs.now) }
{
    for attr in &attrs.0 {
        if is_encoding(&attr.0) && is_html_encoding(attr.1.as_str()) {
            return true;
        }
    }
    false
}

fn annotation_reading(attrs: &HtmlAttrs) -> Reading
    ensures { result ≡ ancestors.annotation_reading (attrs_view attrs.now) }
{
    if says_html(attrs) {
        Reading::AsHtml
    } else {
        Reading::AsAnnotation
    }
}

fn math_reading(known: &KnownElement<'_>) -> Reading
    ensures { result ≡ ancestors.math_reading (element_view known.now.element.now).0 }
{
    if known.is(Kind::MathText) {
        Reading::AsMathText
    } else if known.is(Kind::AnnotationXml) {
        annotation_reading(&known.element.attrs)
    } else {
        Reading::AsMathMl
    }
}

fn reading_in(known: &KnownElement<'_>, space: Space) -> Reading
    ensures { result ≡ ancestors.reading_in space (element_view known.now.element.now).0 }
{
    match space {
        Space::Html => Reading::AsHtml,
        Space::Svg => {
            if known.is(Kind::SvgHtml) {
                Reading::AsHtml
            } else {
                Reading::AsSvg
            }
        }
        Space::MathMl => math_reading(known),
    }
}

fn place_in(known: &KnownElement<'_>, is_in_head: bool) -> Place
    ensures { result ≡ ancestors.place_in is_in_head (element_view known.now.element.now).0.name }
{
    if known.is(Kind::Html) {
        Place::Page
    } else if known.is(Kind::Head) {
        Place::Head
    } else if known.is(Kind::Noscript) && is_in_head {
        Place::HeadNoscript
    } else if known.is(Kind::Table) {
        Place::Table
    } else if known.is(Kind::Section) {
        Place::Section
    } else if known.is(Kind::Tr) {
        Place::Row
    } else if known.is(Kind::Colgroup) {
        Place::Columns
    } else {
        Place::Body
    }
}

fn place_inside(known: &KnownElement<'_>, space: Space, is_in_head: bool) -> Place
    ensures { result ≡ ancestors.place_inside is_in_head space
        (element_view known.now.element.now).0.name }
{
    if space.is_html() {
        place_in(known, is_in_head)
    } else {
        Place::Body
    }
}

/// An element and its namespace, around its content.
#[derive(Drop)]
struct Ancestor<'a> {
    known: &'a KnownElement<'a>,
    space: Space,
}

fn still(goal: bool, bound: bool, before: bool) -> bool
    ensures { result ≡ still goal bound before }
{
    goal || (!bound && before)
}

impl Ancestor<'_> {
    ghost use Rattle.html_page_nesting.specs.AncestorViews.{ancestor_view};

    fn is(&self, kind: Kind) -> bool
        ensures { result ≡ ancestors.is_of (of kind) (ancestor_view self.now) }
    {
        self.space.is_html() && self.known.is(kind)
    }

    fn is_point(&self) -> bool
        ensures { let a = ancestor_view self.now in result ≡ ancestors.is_point a.space a.head.name }
    {
        match self.space {
            Space::Html => false,
            Space::Svg => self.known.is(Kind::SvgHtml),
            Space::MathMl => self.known.is(Kind::MathText) || self.known.is(Kind::AnnotationXml),
        }
    }

    fn bounds_scope(&self) -> bool
        ensures { result ≡ ancestors.bounds_scope (ancestor_view self.now) }
    {
        self.is(Kind::BoundsScope) || self.is_point()
    }

    fn bounds_button_scope(&self) -> bool
        ensures { result ≡ ancestors.bounds_button_scope (ancestor_view self.now) }
    {
        self.is(Kind::Button) || self.bounds_scope()
    }

    fn ends_item_search(&self) -> bool
        ensures { result ≡ ancestors.ends_item_search (ancestor_view self.now).head.name }
    {
        self.known.is(Kind::Special)
            && !self.known.is(Kind::PassedByItems)
            && !self.known.is_search()
    }

    fn bounds_item(&self) -> bool
        ensures { result ≡ ancestors.bounds_item (ancestor_view self.now) }
    {
        (self.space.is_html() && self.ends_item_search()) || self.is_point()
    }

    fn hides_formatting(&self) -> bool
        ensures { result ≡ ancestors.hides_formatting (ancestor_view self.now) }
    {
        self.is(Kind::Marker)
    }

    fn parent(&self) -> Parent
        ensures { result ≡ parent_with (ancestor_view self.now) }
    {
        Parent {
            head: self.is(Kind::Head),
            heading: self.is(Kind::Heading),
            implied: self.is(Kind::Implied),
            optgroup: self.is(Kind::Optgroup),
            option: self.is(Kind::Option),
            rtc: self.is(Kind::Rtc),
        }
    }

    fn open_with(&self, around: &Open) -> Open
        ensures { result ≡ open_with (ancestor_view self.now) around.now }
    {
        let scope = self.bounds_scope();
        let item = self.bounds_item();
        let template = self.is(Kind::Template);
        Open {
            paragraph: still(
                self.is(Kind::P),
                self.bounds_button_scope(),
                around.paragraph,
            ),
            button: still(self.is(Kind::Button), scope, around.button),
            nobr: still(self.is(Kind::Nobr), scope, around.nobr),
            ruby: still(self.is(Kind::Ruby), scope, around.ruby),
            select: still(self.is(Kind::Select), scope, around.select),
            list_item: still(self.is(Kind::ListItem), item, around.list_item),
            description: still(self.is(Kind::DescriptionPart), item, around.description),
            anchor: still(self.is(Kind::A), self.hides_formatting(), around.anchor),
            form: still(self.is(Kind::Form), template, around.form),
            outer_select: still(self.is(Kind::Select), template, around.outer_select),
        }
    }
}

impl Surroundings {
    /// Returns the surroundings of the element's children.
    pub(crate) fn inside(&self, known: &KnownElement<'_>) -> Surroundings
        requires { self.now.depth ≤ 512 }
        ensures { result ≡ surroundings_in (element_view known.now.element.now).0 self.now }
    {
        let space = known.space(self.reading);
        let ancestor = Ancestor { known, space };
        Surroundings {
            depth: self.depth + 1,
            place: place_inside(known, space, self.parent.head),
            reading: reading_in(known, space),
            parent: ancestor.parent(),
            open_elements: ancestor.open_with(&self.open_elements),
        }
    }
}
