//! A list of items that grows item by item.

ghost use Rattle.std.specs.Prelude.{◌≡◌, ◌↔◌, ◌++◌, ◌∷◌, [], IsTrue, OnOk, OnErr, IfErr, chars, length, ◌==◌, ◌||◌, ◌+◌, ◌<◌, ◌≤◌, vec_len, vec_capacity};
ghost use Rattle.html_names_core.specs.Texts.{text_view};
ghost use Rattle.html_flow_convert.specs.{Items.{inheriting, text_item}, Views.{elem_view, pair_view, pairs_view}};
ghost use Rattle.html_flow_places.specs.NamedLocations.{link_items, place_items};
ghost use Rattle.html_names_table.specs.NameTables.{with_name};
ghost use Rattle.html_flow_lists.specs.ItemLists.{block_items, element_of_list, first_passes, head_ending, is_added_space, is_border, is_lone_space, item_ending, item_ends_in_space, last_passes, no_list, ready_for, tag_ending, takes_text, text_ends_in_space, with_break, with_changed_first, with_changed_last, with_cut_text, with_element, with_item, with_list_span, with_longer_text, with_more, with_space, with_text, without_end_space, without_first, without_last, without_start_space};
ghost use Rattle.html_flow_lists.specs.ListViews.{list_view};

use html_dom_tree::{Location, Span};
use html_flow_convert::{HtmlElem, Item, Pair, Role, is_one, makes_block, push_located_reserved};
use html_flow_places::{NamedPlaces, location_with_room};
use html_names_core::room::push_compact;
use html_names_core::{HtmlTag, Refused, tag};
use std::alloc::{AllocError, Global};

/// A growing list of items, and the span for the texts and line breaks in it. If an allocation
/// fails, the list is unchanged.
///
/// In contracts it is the list of items with their roles, and the span.
///
/// ```
/// use html_dom::Span;
/// use html_flow::ItemList;
/// use html_names::tag;
///
/// let mut line = ItemList::new(rt.alloc()).spanned(Span(4));
/// line.text("Salt")?;
/// line.text(" and")?; // the same text goes on
/// line.space()?;
/// line.space()?; // one space stands there already
/// let mut strong = line.new_list();
/// strong.text("vinegar")?;
/// line.element(line.new_element(tag::strong).with_body(strong.into_items()))?;
/// assert_eq!(rt; line.items().len(), 2);
/// ```
#[derive(Debug, Drop)]
pub struct ItemList {
    items: Vec<Pair>,
    span: Span,
    /// Whether the first item was a space that `space` added, perhaps with a text after it.
    starts_spaced: bool,
    ending: Ending,
}

/// What stands last in a list.
#[derive(Clone, Copy, Debug)]
enum Ending {
    /// A space that `space` added.
    AddedSpace,
    /// A line break or a block.
    Border,
    /// Anything else, or nothing.
    Other,
}

impl Ending {
    fn is_border(self) -> bool
        ensures { result ≡ is_border self }
    {
        matches!(self, Ending::Border)
    }

    fn is_added_space(self) -> bool
        ensures { result ≡ is_added_space self }
    {
        matches!(self, Ending::AddedSpace)
    }

    /// Returns what stands last once a tag stands after it, which is not seen.
    fn behind_tag(self) -> Ending
        ensures { result ≡ tag_ending self }
    {
        match self {
            Ending::Border => Ending::Border,
            _ => Ending::Other,
        }
    }
}

impl ItemList {
    /// Creates a list without items, with the span 0. Allocates nothing.
    pub fn new(alloc: Global) -> ItemList
        ensures { list_view result ≡ no_list 0 }
    {
        ItemList {
            items: Vec::new(alloc),
            span: Span(0),
            starts_spaced: false,
            ending: Ending::Other,
        }
    }

    /// Creates a list without items, with this list's allocator and span. Allocates nothing.
    pub fn new_list(&self) -> ItemList
        ensures { list_view result ≡ no_list (list_view self.now).span }
    {
        ItemList {
            items: Vec::new(*self.items.allocator()),
            span: self.span,
            starts_spaced: false,
            ending: Ending::Other,
        }
    }

    /// Creates an element with that name and the list's span, and nothing else. Allocates nothing.
    pub fn new_element(&self, tag: HtmlTag) -> HtmlElem
        ensures { elem_view result ≡ element_of_list tag (list_view self.now) }
    {
        HtmlElem::new(*self.items.allocator(), tag).spanned(self.span)
    }

    /// Returns the list with that span, for everything that is added from now on.
    pub fn spanned(mut self, span: Span) -> ItemList
        ensures { list_view result ≡ with_list_span span.0 (list_view self) }
    {
        self.span = span;
        self
    }

    /// Sets the span for everything that is added from now on.
    pub fn set_span(&mut self, span: Span)
        ensures { list_view self.new ≡ with_list_span span.0 (list_view self.old) }
    {
        self.span = span;
    }

    /// Returns the span for what is added.
    pub fn span(&self) -> Span
        ensures { result.0 ≡ (list_view self.now).span }
    {
        self.span
    }

    /// Returns the items so far.
    pub fn items(&self) -> &[Pair]
        ensures { pairs_view result.now ≡ (list_view self.now).items }
    {
        &self.items
    }

    /// Returns whether there are no items.
    pub fn is_empty(&self) -> bool
        ensures { IsTrue result ↔ ((list_view self.now).items ≡ []) }
    {
        self.items.is_empty()
    }

    /// Returns the items, as the body of an element that is a part of a line, such as `em`.
    pub fn into_items(self) -> Vec<Pair>
        ensures { pairs_view result.items ≡ (list_view self).items }
    {
        self.items
    }

    /// Returns the items without the spaces that `space` added at the start and at the end, as the
    /// body of a document or of an element with lines of its own, such as `p`.
    ///
    /// ```
    /// use html_flow::ItemList;
    /// use html_names::tag;
    ///
    /// let mut words = ItemList::new(rt.alloc());
    /// words.text("salt")?;
    /// words.space()?;
    /// words.line_break()?; // the space goes
    /// words.space()?; // adds nothing
    /// words.element(words.new_element(tag::em))?;
    /// words.space()?;
    /// assert_eq!(rt; words.items().len(), 4);
    /// assert_eq!(rt; words.into_block_items().len(), 3);
    /// ```
    pub fn into_block_items(mut self) -> Vec<Pair>
        ensures { pairs_view result.items ≡ block_items (list_view self) }
    {
        self.make_ready(Ending::Border);
        if self.starts_spaced {
            drop_start_space(&mut self.items);
        }
        self.items
    }

    /// Appends a text with the list's span. Extends the last item instead if that is a text of the
    /// same span with the role of the list. An empty text adds nothing.
    ///
    /// ```
    /// use html_flow::ItemList;
    ///
    /// let mut words = ItemList::new(rt.alloc());
    /// words.text("Salt")?;
    /// words.text(" & vinegar")?;
    /// assert_eq!(rt; words.items().len(), 1);
    /// ```
    pub fn text(&mut self, text: &str) -> Result<(), AllocError>
        ensures ok { OnOk result
            (list_view self.new ≡ with_text (chars text.now) (list_view self.old)) }
        ensures kept { OnErr result (list_view self.new ≡ list_view self.old) }
    {
        if is_empty(text) {
            return Ok(());
        }
        if self.takes_text() {
            self.lengthen_text(text)?;
        } else {
            let text = String::from_str(*self.items.allocator(), text)?;
            push_compact(&mut self.items, text_pair(text, self.span))?;
        }
        self.ending = Ending::Other;
        Ok(())
    }

    fn takes_text(&self) -> bool
        ensures { result ≡ last_passes (takes_text self.now.span.0) (list_view self.now).items }
    {
        match self.items.last() {
            Some(last) => takes_text(last, self.span),
            None => false,
        }
    }

    fn lengthen_text(&mut self, more: &str) -> Result<(), AllocError>
        ensures ok { OnOk result ((list_view self.new).items
            ≡ with_changed_last (with_longer_text (chars more.now)) (list_view self.old).items) }
        ensures kept { OnErr result ((list_view self.new).items ≡ (list_view self.old).items) }
        ensures same { self.new ≡ record self.old { items = self.new.items } }
    {
        match self.items.last_mut() {
            Some(last) => lengthen_text(last, more),
            None => Ok(()),
        }
    }

    /// Appends one space as a text, unless the last item is a text that ends in a space, or a line
    /// break or a block stands last: as in a browser, several spaces in a row are one, and there is
    /// none after a break. One that this call added goes again when a line break or a block is
    /// appended right after it. A block is an `Item::Block`, or an element that has lines of its
    /// own by its name (`tag::is_whitespace_collapsing`) or its css (`display: block`).
    ///
    /// ```
    /// use html_flow::ItemList;
    ///
    /// let mut words = ItemList::new(rt.alloc());
    /// words.text("Salt ")?;
    /// words.space()?; // a space stands there already
    /// words.text("& vinegar")?;
    /// assert_eq!(rt; words.items().len(), 1);
    /// ```
    pub fn space(&mut self) -> Result<(), AllocError>
        ensures ok { OnOk result (list_view self.new ≡ with_space (list_view self.old)) }
        ensures kept { OnErr result (list_view self.new ≡ list_view self.old) }
    {
        if self.takes_no_space() {
            return Ok(());
        }
        let is_first = self.has_none();
        self.add_space()?;
        self.note_space(is_first);
        Ok(())
    }

    /// Returns whether a break or a space stands last.
    fn takes_no_space(&self) -> bool
        ensures { let list = list_view self.now in
            result ≡ (is_border list.ending || last_passes item_ends_in_space list.items) }
    {
        self.ending.is_border() || self.ends_in_space()
    }

    fn has_none(&self) -> bool
        ensures { result ≡ (length (list_view self.now).items == 0) }
    {
        self.items.is_empty()
    }

    fn add_space(&mut self) -> Result<(), AllocError>
        ensures ok { OnOk result (list_view self.new ≡ with_text (32 ∷ []) (list_view self.old)) }
        ensures kept { OnErr result (list_view self.new ≡ list_view self.old) }
    {
        self.text(" ")
    }

    /// Notes that a space was added, as the first item or after one.
    fn note_space(&mut self, is_first: bool)
        ensures { let old = list_view self.old in list_view self.new
            ≡ record old { starts_spaced = old.starts_spaced || is_first; ending = Ending.AddedSpace } }
    {
        self.starts_spaced = self.starts_spaced || is_first;
        self.ending = Ending::AddedSpace;
    }

    fn ends_in_space(&self) -> bool
        ensures { result ≡ last_passes item_ends_in_space (list_view self.now).items }
    {
        match self.items.last() {
            Some(last) => item_ends_in_space(last),
            None => false,
        }
    }

    /// Appends a forced line break with the list's span.
    pub fn line_break(&mut self) -> Result<(), AllocError>
        ensures ok { OnOk result (list_view self.new ≡ with_break (list_view self.old)) }
        ensures kept { OnErr result (list_view self.new ≡ list_view self.old) }
    {
        self.reserve_one()?;
        self.push_reserved(Pair::from(Item::LineBreak(self.span)), Ending::Border);
        Ok(())
    }

    /// Appends an item as it is. If an allocation fails, the error holds it.
    pub fn item(&mut self, item: Pair) -> Result<(), Refused<Pair>>
        ensures ok { OnOk result (list_view self.new ≡ with_item (pair_view item) (list_view self.old)) }
        ensures kept { OnErr result (list_view self.new ≡ list_view self.old) }
        ensures back { IfErr result (λ refused. refused.back ≡ item) }
    {
        if self.reserve_one().is_err() {
            return Err(Refused { back: item });
        }
        let ending = pair_ending(&item, self.ending);
        self.push_reserved(item, ending);
        Ok(())
    }

    /// Appends an element, with its own span and the role of the list. If an allocation fails, the
    /// error holds it.
    pub fn element(&mut self, element: HtmlElem) -> Result<(), Refused<HtmlElem>>
        ensures ok { OnOk result
            (list_view self.new ≡ with_element (elem_view element) (list_view self.old)) }
        ensures kept { OnErr result (list_view self.new ≡ list_view self.old) }
        ensures back { IfErr result (λ refused. refused.back ≡ element) }
    {
        if self.reserve_one().is_err() {
            return Err(Refused { back: element });
        }
        let ending = element_ending(&element);
        self.push_reserved(Pair::from(element), ending);
        Ok(())
    }

    /// Makes room for one item more: in an empty list for that one alone.
    fn reserve_one(&mut self) -> Result<(), AllocError>
        ensures same { list_view self.new ≡ list_view self.old }
        ensures room { OnOk result (vec_len self.new.items < vec_capacity self.new.items) }
    {
        if self.items.is_empty() {
            self.items.reserve_exact(1)
        } else {
            self.items.reserve(1)
        }
    }

    /// Appends an item that ends so, for which there is room.
    fn push_reserved(&mut self, item: Pair, ending: Ending)
        requires { vec_len self.old.items < vec_capacity self.old.items }
        ensures { list_view self.new ≡ with_more (pair_view item ∷ []) ending (list_view self.old) }
    {
        self.make_ready(ending);
        if self.items.push(item).is_err() {
            unreachable!();
        }
    }

    /// Prepares the list for items that end so.
    fn make_ready(&mut self, next: Ending)
        ensures same { list_view self.new ≡ ready_for next (list_view self.old) }
        ensures len { vec_len self.new.items ≤ vec_len self.old.items }
        ensures room { vec_capacity self.new.items ≡ vec_capacity self.old.items }
    {
        if next.is_border() && self.ending.is_added_space() {
            drop_end_space(&mut self.items);
        }
        self.ending = next;
    }

    /// Appends an element as the place of that name, as `NamedPlaces::push_place` does. If an
    /// allocation fails, list and places are unchanged, and the error holds the element.
    ///
    /// ```
    /// use html_flow::{ItemList, NamedPlaces};
    /// use html_names::tag;
    ///
    /// let mut places = NamedPlaces::new(rt.alloc());
    /// let mut items = ItemList::new(rt.alloc());
    /// items.place(&mut places, "tides", items.new_element(tag::h2))?;
    /// items.link(&mut places, "tides", items.new_element(tag::a))?; // leads to the `h2`
    /// assert_eq!(rt; items.items().len(), 6);
    /// ```
    pub fn place(
        &mut self,
        places: &mut NamedPlaces,
        name: &str,
        element: HtmlElem,
    ) -> Result<(), Refused<HtmlElem>>
        ensures ok { OnOk result (list_view self.new ≡ with_more
            (place_items places.old (chars name.now) (elem_view element))
            (head_ending (elem_view element).0) (list_view self.old)) }
        ensures names { OnOk result (places.new ≡ with_name places.old (chars name.now)) }
        ensures kept { OnErr result
            ((list_view self.new ≡ list_view self.old) × (places.new ≡ places.old)) }
        ensures back { IfErr result (λ refused. refused.back ≡ element) }
    {
        let Ok(label) = String::from_str(*self.items.allocator(), name) else {
            return Err(Refused { back: element });
        };
        let Ok(location) = location_with_room(places, &mut self.items, name) else {
            return Err(Refused { back: element });
        };
        self.make_ready(element_ending(&element));
        let item = Item::Element(element);
        push_located_reserved(&mut self.items, location, Some(label), None, item);
        Ok(())
    }

    /// Appends an element as a link to the place of that name, as `NamedPlaces::push_link` does. If
    /// an allocation fails, list and places are unchanged, and the error holds the element.
    pub fn link(
        &mut self,
        places: &mut NamedPlaces,
        name: &str,
        element: HtmlElem,
    ) -> Result<(), Refused<HtmlElem>>
        ensures ok { OnOk result (list_view self.new ≡ with_more
            (link_items places.old (chars name.now) (elem_view element))
            (head_ending (elem_view element).0) (list_view self.old)) }
        ensures names { OnOk result (places.new ≡ with_name places.old (chars name.now)) }
        ensures kept { OnErr result
            ((list_view self.new ≡ list_view self.old) × (places.new ≡ places.old)) }
        ensures back { IfErr result (λ refused. refused.back ≡ element) }
    {
        let Ok(dest) = location_with_room(places, &mut self.items, name) else {
            return Err(Refused { back: element });
        };
        self.make_ready(element_ending(&element));
        let item = Item::Element(element);
        push_located_reserved(&mut self.items, Location(0), None, Some(dest), item);
        Ok(())
    }
}

/// Returns a text as an item with the role of its list.
pub(crate) fn text_pair(text: String, span: Span) -> Pair
    ensures { pair_view result ≡ inheriting (text_item (text_view text) span.0) }
{
    Pair::from(Item::Text(text, span))
}

#[tactic(auto, using(html_names_core::proofs::EndChars::empty_chars))]
fn is_empty(text: &str) -> bool
    ensures { result ≡ (length (chars text.now) == 0) }
{
    text.is_empty()
}

/// Returns whether an item can be extended by a text of that span.
fn takes_text(last: &Pair, span: Span) -> bool
    ensures { result ≡ takes_text span.0 (pair_view last.now) }
{
    match (&last.item, &last.role) {
        (Item::Text(_, own), Role::Inherit) => *own == span,
        _ => false,
    }
}

fn lengthen_text(last: &mut Pair, more: &str) -> Result<(), AllocError>
    ensures ok { OnOk result
        (pair_view last.new ≡ with_longer_text (chars more.now) (pair_view last.old)) }
    ensures kept { OnErr result (pair_view last.new ≡ pair_view last.old) }
{
    match &mut last.item {
        Item::Text(text, _) => push_text(text, more),
        _ => Ok(()),
    }
}

fn push_text(text: &mut String, more: &str) -> Result<(), AllocError>
    ensures ok { OnOk result (text_view text.new ≡ text_view text.old ++ chars more.now) }
    ensures kept { OnErr result (text_view text.new ≡ text_view text.old) }
{
    text.push_str(more)?;
    Ok(())
}

/// Returns what stands last after an item, where that stood before it.
fn pair_ending(pair: &Pair, before: Ending) -> Ending
    ensures { result ≡ item_ending (pair_view pair.now).0 before }
{
    match &pair.item {
        Item::Tag(_) | Item::Hole => before.behind_tag(),
        Item::LineBreak(_) | Item::Block(_, _) => Ending::Border,
        Item::Element(element) => element_ending(element),
        Item::Space(_) | Item::Text(_, _) | Item::Box(_, _) | Item::Frame(_) => Ending::Other,
    }
}

#[tactic(auto, unfolding(crate::specs::ItemLists::head_ending))]
fn element_ending(element: &HtmlElem) -> Ending
    ensures { result ≡ head_ending (elem_view element.now).0 }
{
    if makes_block(&element.css) || tag::is_whitespace_collapsing(&element.tag) {
        Ending::Border
    } else {
        Ending::Other
    }
}

/// Removes the space at the end of a list.
fn drop_end_space(items: &mut Vec<Pair>)
    ensures same { pairs_view items.new.items ≡ without_end_space (pairs_view items.old.items) }
    ensures len { vec_len items.new ≤ vec_len items.old }
    ensures room { vec_capacity items.new ≡ vec_capacity items.old }
{
    if ends_in_lone_space(items) {
        let _ = items.pop();
    } else {
        cut_last_end(items);
    }
}

fn ends_in_lone_space(items: &[Pair]) -> bool
    ensures { result ≡ last_passes is_lone_space (pairs_view items.now) }
{
    match items.last() {
        Some(last) => is_lone_space(last),
        None => false,
    }
}

fn is_lone_space(pair: &Pair) -> bool
    ensures { result ≡ is_lone_space (pair_view pair.now) }
{
    match &pair.item {
        Item::Text(text, _) => is_one(b' ', text.as_str()),
        _ => false,
    }
}

/// Removes the last character of the last item, if that is a text.
fn cut_last_end(items: &mut [Pair])
    ensures { pairs_view items.new
        ≡ with_changed_last (with_cut_text without_last) (pairs_view items.old) }
{
    match items.last_mut() {
        Some(last) => cut_end(last),
        None => {}
    }
}

fn cut_end(pair: &mut Pair)
    ensures { pair_view pair.new ≡ with_cut_text without_last (pair_view pair.old) }
{
    match &mut pair.item {
        Item::Text(text, _) => cut_last_char(text),
        _ => {}
    }
}

fn cut_last_char(text: &mut String)
    ensures { text_view text.new ≡ without_last (text_view text.old) }
{
    let _ = text.pop();
}

/// Removes the space at the start of a list.
fn drop_start_space(items: &mut Vec<Pair>)
    ensures { pairs_view items.new.items ≡ without_start_space (pairs_view items.old.items) }
{
    if starts_with_lone_space(items) {
        let _ = items.remove(0);
    } else {
        cut_first_start(items);
    }
}

fn starts_with_lone_space(items: &[Pair]) -> bool
    ensures { result ≡ first_passes is_lone_space (pairs_view items.now) }
{
    match items.first() {
        Some(first) => is_lone_space(first),
        None => false,
    }
}

/// Removes the first character of the first item, if that is a text.
fn cut_first_start(items: &mut [Pair])
    ensures { pairs_view items.new
        ≡ with_changed_first (with_cut_text without_first) (pairs_view items.old) }
{
    match items.first_mut() {
        Some(first) => cut_start(first),
        None => {}
    }
}

fn cut_start(pair: &mut Pair)
    ensures { pair_view pair.new ≡ with_cut_text without_first (pair_view pair.old) }
{
    match &mut pair.item {
        Item::Text(text, _) => cut_first_char(text),
        _ => {}
    }
}

fn cut_first_char(text: &mut String)
    ensures { text_view text.new ≡ without_first (text_view text.old) }
{
    if !text.is_empty() {
        let _ = text.remove(0);
    }
}

fn item_ends_in_space(pair: &Pair) -> bool
    ensures { result ≡ item_ends_in_space (pair_view pair.now) }
{
    match &pair.item {
        Item::Text(text, _) => text_ends_in_space(text.as_str()),
        _ => false,
    }
}

#[tactic(auto, using(crate::proofs::Spaces::last_space))]
fn text_ends_in_space(text: &str) -> bool
    ensures { result ≡ text_ends_in_space (chars text.now) }
{
    text.ends_with(' ')
}
