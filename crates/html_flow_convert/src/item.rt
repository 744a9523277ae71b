//! Items of the flow with their roles, elements with bodies of items, and tags that locate them.

ghost use Rattle.std.specs.Prelude.{◌≡◌, ◌+◌, ◌<◌, ◌≤◌, ◌++◌, ◌∷◌, [], IfOk, IfErr, OnOk, OnErr, option_map, vec_len, vec_capacity, chars};
ghost use Rattle.html_names_core.specs.Texts.{text_view};
ghost use Rattle.html_flow_convert.specs.Items.{absent, inheriting, item_span, located_item, new_head, text_item, with_items, with_last_item, with_optional_pair, with_pair, with_properties, with_set_pair, with_span};
ghost use Rattle.html_flow_convert.specs.Views.{body_view, elem_view, item_view, items_view, pair_view, pairs_view, frame_elem_view, role_view};
ghost use Rattle.html_dom_tree.specs.Views.{optional_text_view};

use html_dom_tree::{Frame, HtmlAttrs, Location, Span, Tag};
use html_names_core::room::push_compact;
use html_names_core::{HtmlAttr, HtmlTag, Refused};
use html_values_css::{Abs, Properties};
use std::alloc::{AllocError, Global};

/// An item and its role.
#[derive(Debug, Drop)]
#[cycle(items)]
pub struct Pair {
    /// The item.
    pub item: Item,
    /// Its role.
    pub role: Role,
}

/// The value of the attribute `role` for an item.
#[derive(Debug, Drop)]
pub enum Role {
    /// That of the item's list.
    Inherit,
    /// Its own.
    Set(String),
    /// None.
    Unset,
}

/// A part of the flow of a document.
#[derive(Debug, Drop)]
#[cycle(items)]
pub enum Item {
    /// A tag, which is not written.
    Tag(Tag),
    /// An element of HTML.
    Element(HtmlElem),
    /// White space between other items: one space.
    Space(Span),
    /// A text.
    Text(String, Span),
    /// An item that becomes no node.
    Hole,
    /// A forced line break.
    LineBreak(Span),
    /// A part of a line, with its body.
    Box(Option<Vec<Pair>>, Span),
    /// A part on lines of its own, with its body.
    Block(Option<Vec<Pair>>, Span),
    /// A drawing.
    Frame(FrameElem),
}

/// An element of HTML with a body of items.
///
/// ```
/// use typst_html::{DocumentInfo, HtmlElem, HtmlOptions, Item, Pair, Properties, Span};
/// use typst_html::{export, tag};
///
/// let alloc = rt.alloc();
/// let css = Properties::new(alloc).with("color", String::from_str(alloc, "red")?)?;
/// let text = Item::Text(String::from_str(alloc, "Stop")?, Span(2));
/// let body = vec![in alloc; Pair::from(text)]?;
/// let paragraph = HtmlElem::new(alloc, tag::p).with_css(css).with_body(body);
/// let items = vec![in alloc; Pair::from(Item::Element(paragraph))]?;
/// let (info, options) = (DocumentInfo::new(alloc), HtmlOptions::default());
/// let html = export(alloc, &items, &info, &[], 50, &options, &())?;
/// let body = r#"<body><p style="color: red">Stop</p></body></html>"#;
/// assert!(rt; html.as_str().ends_with(body));
/// ```
#[derive(Debug, Drop)]
#[cycle(items)]
pub struct HtmlElem {
    /// The name.
    pub tag: HtmlTag,
    /// The attributes, in the order in which they are written.
    pub attrs: HtmlAttrs,
    /// The css properties, which the element's node has too. Documents made from items
    /// (`html_document`, `html_document_for_bundle`, `export`, `export_linked`) have them in the
    /// attribute `style`; for nodes alone (`convert_to_nodes`, fragments), `resolve_inline_styles`
    /// puts them there.
    pub css: Properties,
    /// The items inside, if there is a body.
    pub body: Option<Vec<Pair>>,
    /// The location of the element's parent in the source, if that stands elsewhere in the tree.
    pub parent: Option<Location>,
    /// Its place in the source.
    pub span: Span,
}

/// A drawing among items.
#[derive(Debug, Drop)]
pub struct FrameElem {
    /// The drawing.
    pub frame: Frame,
    /// The size of the surrounding text.
    pub text_size: Abs,
    /// Its place in the source.
    pub span: Span,
}

/// Returns the item with the role of its list.
impl From<Item> for Pair {
    ghost use Rattle.html_flow_convert.specs.Items.{inheriting};

    ghost from_gives = { λ item pair. pair_view pair ≡ inheriting (item_view item) };

    fn from(item: Item) -> Pair {
        Pair {
            item,
            role: Role::Inherit,
        }
    }
}

/// Returns the element as an item.
impl From<HtmlElem> for Item {
    ghost use Rattle.html_flow_convert.specs.Items.{element_as_item};

    ghost from_gives = { λ element item. item_view item ≡ element_as_item (elem_view element) };

    fn from(element: HtmlElem) -> Item {
        Item::Element(element)
    }
}

/// Returns the element as an item with the role of its list.
impl From<HtmlElem> for Pair {
    ghost use Rattle.html_flow_convert.specs.Items.{element_as_item, inheriting};

    ghost from_gives = { λ element pair.
        pair_view pair ≡ inheriting (element_as_item (elem_view element)) };

    fn from(element: HtmlElem) -> Pair {
        Pair::from(Item::Element(element))
    }
}

/// Appends an item between the two tags that locate it: a start tag with that label and
/// destination, the item, and the end tag, each with the role of its list. A destination makes the
/// element a link to it; a location that a link leads to gets an anchor (see `html_document`). If
/// an allocation fails, the list is unchanged and the error holds label and item.
///
/// ```
/// use html_dom::Location;
/// use html_flow::{HtmlElem, Item, push_located};
/// use html_names::tag;
///
/// let (mut items, place) = (Vec::new(rt.alloc()), Location(7));
/// let heading = Item::Element(HtmlElem::new(rt.alloc(), tag::h2));
/// let link = Item::Element(HtmlElem::new(rt.alloc(), tag::a));
/// push_located(&mut items, place, None, None, heading)?; // links may lead there
/// push_located(&mut items, Location(8), None, Some(place), link)?; // a link to it
/// assert_eq!(rt; items.len(), 6);
/// ```
pub fn push_located(
    items: &mut Vec<Pair>,
    location: Location,
    label: Option<String>,
    dest: Option<Location>,
    item: Item,
) -> Result<(), Refused<(Option<String>, Item)>>
    ensures ok { OnOk result (pairs_view items.new.items ≡ pairs_view items.old.items
        ++ located_item location.0 (optional_text_view label) (option_map (λ l. l.0) dest)
        (item_view item)) }
    ensures kept { OnErr result (pairs_view items.new.items ≡ pairs_view items.old.items) }
    ensures back { IfErr result (λ refused.
        (refused.back.0 ≡ label) × (refused.back.1 ≡ item)) }
{
    if items.reserve(3).is_err() {
        return Err(Refused {
            back: (label, item),
        });
    }
    push_located_reserved(items, location, label, dest, item);
    Ok(())
}

/// Appends what [`push_located`] appends, to a list that has room for it.
pub fn push_located_reserved(
    items: &mut Vec<Pair>,
    location: Location,
    label: Option<String>,
    dest: Option<Location>,
    item: Item,
)
    requires { vec_len items.old + 3 ≤ vec_capacity items.old }
    ensures { pairs_view items.new.items ≡ pairs_view items.old.items
        ++ located_item location.0 (optional_text_view label) (option_map (λ l. l.0) dest)
        (item_view item) }
{
    let start = Tag::Start {
        location,
        label,
        dest,
    };
    push_reserved(items, Item::Tag(start));
    push_reserved(items, item);
    push_reserved(items, Item::Tag(Tag::End { location }));
}

fn push_reserved(items: &mut Vec<Pair>, item: Item)
    requires { vec_len items.old < vec_capacity items.old }
    ensures added { pairs_view items.new.items
        ≡ pairs_view items.old.items ++ inheriting (item_view item) ∷ [] }
    ensures len { vec_len items.new ≡ vec_len items.old + 1 }
    ensures room { vec_capacity items.old ≤ vec_capacity items.new }
{
    if items.push(Pair::from(item)).is_err() {
        unreachable!();
    }
}

impl Pair {
    /// Returns a copy of the item with its role, and everything inside.
    #[cycle(copy)]
    pub fn try_clone(&self) -> Result<Pair, AllocError>
        ensures { IfOk result (λ copy. pair_view copy ≡ pair_view self.now) }
    {
        Ok(Pair {
            item: self.item.try_clone()?,
            role: self.role.try_clone()?,
        })
    }
}

impl Role {
    /// Returns a copy.
    pub fn try_clone(&self) -> Result<Role, AllocError>
        ensures { IfOk result (λ copy. role_view copy ≡ role_view self.now) }
    {
        match self {
            Role::Inherit => Ok(Role::Inherit),
            Role::Set(text) => Ok(Role::Set(text.clone()?)),
            Role::Unset => Ok(Role::Unset),
        }
    }
}

impl FrameElem {
    /// Returns a copy.
    pub fn try_clone(&self) -> Result<FrameElem, AllocError>
        ensures { IfOk result (λ copy. frame_elem_view copy ≡ frame_elem_view self.now) }
    {
        Ok(FrameElem {
            frame: self.frame.try_clone()?,
            text_size: self.text_size,
            span: self.span,
        })
    }
}

impl Item {
    /// Returns a copy of the item and everything inside.
    #[cycle(copy)]
    pub fn try_clone(&self) -> Result<Item, AllocError>
        ensures { IfOk result (λ copy. item_view copy ≡ item_view self.now) }
    {
        match self {
            Item::Tag(tag) => Ok(Item::Tag(tag.try_clone()?)),
            Item::Element(element) => Ok(Item::Element(element.try_clone()?)),
            Item::Space(span) => Ok(Item::Space(*span)),
            Item::Text(text, span) => Ok(Item::Text(text.clone()?, *span)),
            Item::Hole => Ok(Item::Hole),
            Item::LineBreak(span) => Ok(Item::LineBreak(*span)),
            Item::Box(body, span) => Ok(Item::Box(copy_body(body)?, *span)),
            Item::Block(body, span) => Ok(Item::Block(copy_body(body)?, *span)),
            Item::Frame(frame) => Ok(Item::Frame(frame.try_clone()?)),
        }
    }

    /// Returns the span of the item: 0 for a tag or a hole.
    pub fn span(&self) -> Span
        ensures { result.0 ≡ item_span (item_view self.now) }
    {
        match self {
            Item::Tag(_) | Item::Hole => Span(0),
            Item::Element(element) => element.span,
            Item::Space(span)
            | Item::Text(_, span)
            | Item::LineBreak(span)
            | Item::Box(_, span)
            | Item::Block(_, span) => *span,
            Item::Frame(frame) => frame.span,
        }
    }
}

impl HtmlElem {
    /// Returns a copy of the element and everything inside.
    #[cycle(copy)]
    pub fn try_clone(&self) -> Result<HtmlElem, AllocError>
        ensures { IfOk result (λ copy. elem_view copy ≡ elem_view self.now) }
    {
        Ok(HtmlElem {
            tag: self.tag.try_clone()?,
            attrs: self.attrs.try_clone()?,
            css: self.css.try_clone()?,
            body: copy_body(&self.body)?,
            parent: self.parent,
            span: self.span,
        })
    }

    /// Creates an element without attributes, css, body or parent, and with the span 0.
    pub fn new(alloc: Global, tag: HtmlTag) -> HtmlElem
        ensures { elem_view result ≡ (new_head tag, absent) }
    {
        HtmlElem {
            tag,
            attrs: HtmlAttrs::new(alloc),
            css: Properties::new(alloc),
            body: None,
            parent: None,
            span: Span(0),
        }
    }

    /// Returns the element with that body.
    pub fn with_body(mut self, body: Vec<Pair>) -> HtmlElem
        ensures { elem_view result ≡ with_items (items_view body.items) (elem_view self) }
    {
        self.body = Some(body);
        self
    }

    /// Appends an item to the body of the element, and adds a body if there is none; an empty one
    /// takes room for one item. If an allocation fails, the error holds both.
    ///
    /// ```
    /// use html_dom::Span;
    /// use html_flow::{HtmlElem, Item, Pair};
    /// use html_names::tag;
    ///
    /// let alloc = rt.alloc();
    /// let line = HtmlElem::new(alloc, tag::p).with_text(alloc, "one")?;
    /// let line = line.with_item(alloc, Pair::from(Item::LineBreak(Span(0))))?;
    /// assert_eq!(rt; line.body.map(|items| items.len()), Some(2));
    /// ```
    pub fn with_item(
        mut self,
        alloc: Global,
        item: Pair,
    ) -> Result<HtmlElem, Refused<(HtmlElem, Pair)>>
        ensures ok { IfOk result
            (λ element. elem_view element ≡ with_last_item (pair_view item) (elem_view self)) }
        ensures back { IfErr result (λ refused. (elem_view refused.back.0 ≡ elem_view self)
            × (refused.back.1 ≡ item)) }
    {
        match &mut self.body {
            Some(items) => match push_compact(items, item) {
                Ok(()) => Ok(self),
                Err(refused) => Err(Refused {
                    back: (self, refused.back),
                }),
            },
            None => {
                let mut items = Vec::new(alloc);
                match push_compact(&mut items, item) {
                    Ok(()) => Ok(self.with_body(items)),
                    Err(refused) => Err(Refused {
                        back: (self, refused.back),
                    }),
                }
            }
        }
    }

    /// Appends a text with the span of the element to its body, and adds a body if there is none.
    /// If an allocation fails, the error holds the element.
    ///
    /// ```
    /// use html_flow::HtmlElem;
    /// use html_names::tag;
    ///
    /// let alloc = rt.alloc();
    /// let title = HtmlElem::new(alloc, tag::h1).with_text(alloc, "Salt & vinegar")?;
    /// assert_eq!(rt; title.body.map(|items| items.len()), Some(1));
    /// ```
    pub fn with_text(self, alloc: Global, text: &str) -> Result<HtmlElem, Refused<HtmlElem>>
        ensures ok { IfOk result (λ element. elem_view element
            ≡ with_last_item (inheriting (text_item (chars text.now) (elem_view self).0.span))
            (elem_view self)) }
        ensures back { IfErr result (λ refused. elem_view refused.back ≡ elem_view self) }
    {
        let Ok(text) = String::from_str(alloc, text) else {
            return Err(Refused { back: self });
        };
        let span = self.span;
        match self.with_item(alloc, Pair::from(Item::Text(text, span))) {
            Ok(element) => Ok(element),
            Err(refused) => Err(Refused {
                back: refused.back.0,
            }),
        }
    }

    /// Returns the element with these css properties instead of its own. A document made from the
    /// element has them in the attribute `style`, before a value that is there.
    pub fn with_css(mut self, css: Properties) -> HtmlElem
        ensures { elem_view result ≡ with_properties css (elem_view self) }
    {
        self.css = css;
        self
    }

    /// Returns the element with that span.
    pub fn spanned(mut self, span: Span) -> HtmlElem
        ensures { elem_view result ≡ with_span span.0 (elem_view self) }
    {
        self.span = span;
        self
    }

    /// Appends an attribute, even if one of that name exists: both are written then, and a browser
    /// takes the first (HTML Standard, duplicate-attribute parse error).
    /// [`set_attr`](HtmlElem::set_attr) replaces it. If an allocation fails, the error holds all
    /// three.
    pub fn with_attr(
        mut self,
        attr: HtmlAttr,
        value: String,
    ) -> Result<HtmlElem, Refused<(HtmlElem, HtmlAttr, String)>>
        ensures ok { IfOk result
            (λ element. elem_view element ≡ with_pair (attr, text_view value) (elem_view self)) }
        ensures back { IfErr result (λ refused. (elem_view refused.back.0 ≡ elem_view self)
            × (refused.back.1 ≡ attr) × (refused.back.2 ≡ value)) }
    {
        match self.attrs.push(attr, value) {
            Ok(()) => Ok(self),
            Err(refused) => {
                let (attr, value) = refused.back;
                Err(Refused {
                    back: (self, attr, value),
                })
            }
        }
    }

    /// Appends an attribute like [`with_attr`](HtmlElem::with_attr), with a copy of that value. If
    /// an allocation fails, the error holds element and name.
    ///
    /// ```
    /// use html_flow::HtmlElem;
    /// use html_names::{attr, tag};
    ///
    /// let alloc = rt.alloc();
    /// let image = HtmlElem::new(alloc, tag::img)
    ///     .with_attr_text(attr::src, "tides.png")?
    ///     .with_attr_text(attr::alt, "The tides of a day")?;
    /// assert_eq!(rt; image.attrs.0.len(), 2);
    /// ```
    pub fn with_attr_text(
        self,
        attr: HtmlAttr,
        value: &str,
    ) -> Result<HtmlElem, Refused<(HtmlElem, HtmlAttr)>>
        ensures ok { IfOk result
            (λ element. elem_view element ≡ with_pair (attr, chars value.now) (elem_view self)) }
        ensures back { IfErr result (λ refused. (elem_view refused.back.0 ≡ elem_view self)
            × (refused.back.1 ≡ attr)) }
    {
        let Ok(value) = String::from_str(*self.attrs.0.allocator(), value) else {
            return Err(Refused { back: (self, attr) });
        };
        match self.with_attr(attr, value) {
            Ok(element) => Ok(element),
            Err(refused) => {
                let (element, attr, _) = refused.back;
                Err(Refused {
                    back: (element, attr),
                })
            }
        }
    }

    /// Sets the value of the first attribute with that name, or appends an attribute if there is
    /// none. Leaves further ones as they are. If an allocation fails, the element is unchanged and
    /// the error holds name and value.
    ///
    /// ```
    /// use html_flow::HtmlElem;
    /// use html_names::{attr, tag};
    ///
    /// let alloc = rt.alloc();
    /// let mut link = HtmlElem::new(alloc, tag::a)
    ///     .with_attr(attr::href, String::from_str(alloc, "/tides")?)?;
    /// link.set_attr(attr::href, String::from_str(alloc, "/moon")?)?;
    /// assert_eq!(rt; link.attrs.0.len(), 1);
    /// ```
    pub fn set_attr(
        &mut self,
        attr: HtmlAttr,
        value: String,
    ) -> Result<(), Refused<(HtmlAttr, String)>>
        ensures ok { OnOk result (elem_view self.new
            ≡ with_set_pair (attr, text_view value) (elem_view self.old)) }
        ensures kept { OnErr result (elem_view self.new ≡ elem_view self.old) }
        ensures back { IfErr result (λ refused. refused.back ≡ (attr, value)) }
    {
        self.attrs.set(attr, value)
    }

    /// Appends an attribute like `with_attr` if there is a value, and otherwise leaves the element
    /// as it is. If an allocation fails, the error holds all arguments.
    pub fn with_optional_attr(
        self,
        attr: HtmlAttr,
        value: Option<String>,
    ) -> Result<HtmlElem, Refused<(HtmlElem, HtmlAttr, Option<String>)>>
        ensures ok { IfOk result (λ element. elem_view element
            ≡ with_optional_pair attr (option_map text_view value) (elem_view self)) }
        ensures back { IfErr result (λ refused. (elem_view refused.back.0 ≡ elem_view self)
            × (refused.back.1 ≡ attr) × (refused.back.2 ≡ value)) }
    {
        let Some(value) = value else {
            return Ok(self);
        };
        match self.with_attr(attr, value) {
            Ok(element) => Ok(element),
            Err(refused) => {
                let (element, attr, value) = refused.back;
                Err(Refused {
                    back: (element, attr, Some(value)),
                })
            }
        }
    }
}

#[cycle(copy)]
fn copy_body(body: &Option<Vec<Pair>>) -> Result<Option<Vec<Pair>>, AllocError>
    ensures { IfOk result (λ copy. body_view copy ≡ body_view body.now) }
{
    let Some(pairs) = body else {
        return Ok(None);
    };
    Ok(Some(copied_pairs(*pairs.allocator(), pairs)?))
}

/// Returns copies of items with their roles, and everything inside.
#[cycle(copy)]
pub fn copied_pairs(alloc: Global, pairs: &[Pair]) -> Result<Vec<Pair>, AllocError>
    ensures { IfOk result (λ copies. pairs_view copies.items ≡ pairs_view pairs.now) }
{
    let mut copies = Vec::with_capacity(alloc, pairs.len())?;
    for pair in pairs {
        copies.push(pair.try_clone()?)?;
    }
    Ok(copies)
}
