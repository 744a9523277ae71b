//! Footnotes.

ghost use Rattle.std.specs.Prelude.{◌≡◌, ◌↔◌, ◌+◌, ◌<◌, ◌≤◌, ◌^◌, ◌++◌, ◌∷◌, [], IsTrue, OnOk, OnErr, IfOk, IfErr, is_ok, bytes_eq, chars, decimal, length, map};
ghost use Rattle.html_names_core.specs.{Names.{is_ascii}, Texts.{text_view}};
ghost use Rattle.html_flow_convert.specs.Views.{elem_view, item_view, pair_view, pairs_view};
ghost use Rattle.html_flow_lists.specs.{ItemLists.{last_passes, with_changed_last}, ListViews.{note_view, notes_view}};
ghost use Rattle.html_flow_lists.specs.Notes.{back_items, class_and_role, content_at, element_with, further_mark_item, has_key, in_last_line, is_marked, is_line, is_line_item, key_mark_item, located_note, mark_item, mark_location, note_items, note_link, note_location, place_of_key, section_items, with_content_at, with_key, with_longer_body, with_longer_line};

use crate::item_list::text_pair;
use html_dom_tree::text::copy_optional_text;
use html_dom_tree::{Location, Span};
use html_flow_convert::{HtmlElem, Item, Pair, copied_pairs, push_located};
use html_names_core::{HtmlTag, Refused, attr, tag};
use std::alloc::{AllocError, AllocFailed, Global};
use std::mem;

/// Footnotes: each mark has the number of its note, and the section holds all notes.
///
/// [`mark`](Notes::mark) consumes the content of the next note. Where marks have keys, as in
/// Markdown, [`mark_key`](Notes::mark_key) numbers a key when it is first marked, and
/// [`set`](Notes::set) stores its content later. So a note can be marked twice, or in another note.
///
/// Links lead from a mark to its note and back, once the document's links are resolved
/// (`export_linked`). Notes and marks have locations of their own, from the greatest one down: use
/// none above 2^63 for anything else. The `id`s `fn1` and `fnref1` are requested: if one is taken,
/// another is made from it.
///
/// In contracts it is the list of notes, each with its key, if it has one, its content and its span.
///
/// ```
/// use html_dom::Span;
/// use html_flow::{HtmlElem, ItemList, Notes, Pair};
/// use html_names::tag;
///
/// let alloc = rt.alloc();
/// let mut notes = Notes::new(alloc);
/// let (mut line, mut content) = (ItemList::new(alloc), ItemList::new(alloc));
/// content.element(HtmlElem::new(alloc, tag::p).with_text(alloc, "Of barley.")?)?;
/// line.text("Vinegar")?;
/// line.item(Pair::from(notes.mark(content.into_items(), Span(3))?))?;
/// assert_eq!(rt; notes.len(), 1);
/// assert_eq!(rt; notes.section()?.len(), 1); // to stand at the end
/// ```
#[derive(Debug, Drop)]
pub struct Notes {
    notes: Vec<Note>,
}

/// A note: its key, if it has one, its content, and its span.
#[derive(Debug, Drop)]
struct Note {
    key: Option<String>,
    content: Vec<Pair>,
    span: Span,
}

impl Notes {
    /// Creates an empty list of notes. Allocates nothing.
    pub fn new(alloc: Global) -> Notes
        ensures { notes_view result ≡ [] }
    {
        Notes {
            notes: Vec::new(alloc),
        }
    }

    /// Returns the number of notes.
    pub fn len(&self) -> usize
        ensures { result ≡ length (notes_view self.now) }
    {
        self.notes.len()
    }

    /// Returns whether there are no notes.
    pub fn is_empty(&self) -> bool
        ensures { IsTrue result ↔ (notes_view self.now ≡ []) }
    {
        self.notes.is_empty()
    }

    /// Stores the content as the next note, and returns its mark, to put where the note belongs:
    /// `<sup><a class="footnote-ref" role="doc-noteref">1</a></sup>`, in which the `a` is a link to
    /// the note. All elements made for the note have that span. If an allocation fails, the notes
    /// are unchanged and the error holds the content.
    pub fn mark(&mut self, content: Vec<Pair>, span: Span) -> Result<Item, Refused<Vec<Pair>>>
        ensures mark { IfOk result (λ mark. item_view mark
            ≡ mark_item (length (notes_view self.old) + 1) span.0) }
        ensures notes { OnOk result (notes_view self.new ≡ notes_view self.old
            ++ record { key = None; content = pairs_view content.items; span = span.0 } ∷ []) }
        ensures kept { OnErr result (notes_view self.new ≡ notes_view self.old) }
        ensures back { IfErr result (λ refused. refused.back ≡ content) }
    {
        let alloc = *self.notes.allocator();
        let number = self.notes.as_slice().len() as u64 + 1;
        let Ok(mark) = mark_of(alloc, number, span) else {
            return Err(Refused { back: content });
        };
        let key = None;
        match self.notes.push(Note { key, content, span }) {
            Ok(()) => Ok(mark),
            Err(AllocFailed { value }) => Err(Refused {
                back: value.content,
            }),
        }
    }

    /// Returns the mark of the note with that key, as [`mark`](Notes::mark) does: of the next note,
    /// which has no content until [`set`](Notes::set) stores one, or of the one that has the key. The
    /// link back leads to the first mark; a further one is no place and has no `id`. If an
    /// allocation fails, the notes are unchanged.
    ///
    /// Takes time linear in the number of notes, as `set` does.
    ///
    /// ```
    /// use html_dom::Span;
    /// use html_flow::{ItemList, Notes, Pair};
    ///
    /// let alloc = rt.alloc();
    /// let (mut notes, mut line) = (Notes::new(alloc), ItemList::new(alloc));
    /// line.text("Vinegar")?;
    /// line.item(Pair::from(notes.mark_key("grain", Span(3))?))?;
    /// line.text(" and beer")?;
    /// line.item(Pair::from(notes.mark_key("grain", Span(3))?))?; // the same number
    /// let mut content = line.new_list();
    /// content.text("Of barley.")?;
    /// assert!(rt; notes.set("grain", content.into_items()).is_ok());
    /// assert_eq!(rt; notes.len(), 1);
    /// ```
    pub fn mark_key(&mut self, key: &str, span: Span) -> Result<Item, AllocError>
        ensures mark { IfOk result (λ mark. item_view mark
            ≡ key_mark_item (chars key.now) span.0 (notes_view self.old)) }
        ensures notes { OnOk result
            (notes_view self.new ≡ with_key (chars key.now) span.0 (notes_view self.old)) }
        ensures kept { OnErr result (notes_view self.new ≡ notes_view self.old) }
    {
        let alloc = *self.notes.allocator();
        let notes = self.notes.as_slice();
        let (place, count) = (place_of_key(notes, key), notes.len());
        let number = place as u64 + 1;
        if place < count {
            return further_mark_of(alloc, number, span);
        }
        let mark = mark_of(alloc, number, span)?;
        let key = Some(String::from_str(alloc, key)?);
        let content = Vec::new(alloc);
        self.notes.push(Note { key, content, span })?;
        Ok(mark)
    }

    /// Stores the content of the note with that key, and returns the content that it had. Returns
    /// the content itself as an error if no mark has the key: nothing refers to that note.
    pub fn set(&mut self, key: &str, content: Vec<Pair>) -> Result<Vec<Pair>, Vec<Pair>>
        ensures marked { is_ok result ≡ is_marked (chars key.now) (notes_view self.old) }
        ensures notes { notes_view self.new ≡ with_content_at
            (place_of_key (chars key.now) (notes_view self.old)) (pairs_view content.items)
            (notes_view self.old) }
        ensures former { IfOk result (λ former. pairs_view former.items
            ≡ content_at (place_of_key (chars key.now) (notes_view self.old)) (notes_view self.old)) }
        ensures back { IfErr result (λ back. back ≡ content) }
    {
        let place = place_of_key(&self.notes, key);
        if place < self.notes.len() {
            Ok(replaced_content(&mut self.notes, place, content))
        } else {
            Err(content)
        }
    }

    /// Returns the notes as one section for the end of the document, or nothing if there are none:
    /// `<section class="footnotes" role="doc-endnotes"><ol>`, with an entry
    /// `<li role="doc-endnote">` for each note in order. An entry has the note's content and a link
    /// back to its mark (`↩︎`): in the last item of the content if that is a `p` with a body, so
    /// that it stands in the last line, or else after the content. The `section` and the `ol` have
    /// the span 0. Copies the contents of the notes, which stay.
    ///
    /// ```
    /// use html_dom::Span;
    /// use html_flow::{ItemList, Notes};
    ///
    /// let alloc = rt.alloc();
    /// let mut notes = Notes::new(alloc);
    /// let mut content = ItemList::new(alloc);
    /// content.text("Of barley.")?;
    /// notes.mark(content.into_items(), Span(3))?;
    /// assert_eq!(rt; notes.section()?.len(), 1);
    /// assert_eq!(rt; Notes::new(alloc).section()?.len(), 0);
    /// ```
    pub fn section(&self) -> Result<Vec<Pair>, AllocError>
        ensures { IfOk result (λ items.
            pairs_view items.items ≡ section_items (notes_view self.now)) }
    {
        self.try_clone()?.into_section()
    }

    fn into_section(self) -> Result<Vec<Pair>, AllocError>
        ensures { IfOk result (λ items.
            pairs_view items.items ≡ section_items (notes_view self)) }
    {
        let alloc = *self.notes.allocator();
        let mut items = Vec::new(alloc);
        if self.notes.is_empty() {
            return Ok(items);
        }
        let list = HtmlElem::new(alloc, tag::ol).with_body(note_items(alloc, self.notes)?);
        let section = with_class_and_role(alloc, tag::section, "footnotes", "doc-endnotes")?;
        items.push(Pair::from(section.with_item(alloc, Pair::from(list))?))?;
        Ok(items)
    }

    /// Returns a copy of the notes and everything inside.
    pub fn try_clone(&self) -> Result<Notes, AllocError>
        ensures { IfOk result (λ copy. notes_view copy ≡ notes_view self.now) }
    {
        let mut notes = Vec::with_capacity(*self.notes.allocator(), self.notes.len())?;
        for note in &self.notes {
            notes.push(note.try_clone()?)?;
        }
        Ok(Notes { notes })
    }
}

impl Note {
    fn replace_content(&mut self, content: Vec<Pair>) -> Vec<Pair>
        ensures note { note_view self.new
            ≡ record (note_view self.old) { content = pairs_view content.items } }
        ensures former { pairs_view result.items ≡ (note_view self.old).content }
    {
        mem::replace(&mut self.content, content)
    }

    fn has_key(&self, key: &str) -> bool
        ensures { result ≡ has_key (chars key.now) (note_view self.now) }
    {
        match &self.key {
            Some(own) => is_same(own.as_str(), key),
            None => false,
        }
    }

    fn try_clone(&self) -> Result<Note, AllocError>
        ensures { IfOk result (λ copy. note_view copy ≡ note_view self.now) }
    {
        Ok(Note {
            key: copy_optional_text(&self.key)?,
            content: copied_pairs(*self.content.allocator(), &self.content)?,
            span: self.span,
        })
    }
}

#[tactic(auto, using(html_names_core::proofs::Lists::in_characters))]
fn is_same(a: &str, b: &str) -> bool
    ensures { result ≡ bytes_eq (chars a.now) (chars b.now) }
{
    a == b
}

/// Returns the number of notes before the first with that key.
fn place_of_key(notes: &[Note], key: &str) -> usize
    ensures place { result ≡ place_of_key (chars key.now) (map note_view notes.now) }
    ensures within { result ≤ length notes.now }
{
    let mut place = 0;
    for note in notes {
        if note.has_key(key) {
            return place;
        }
        place += 1;
    }
    place
}

/// Stores the content of the note at that place, and returns the content that it had.
fn replaced_content(notes: &mut [Note], place: usize, content: Vec<Pair>) -> Vec<Pair>
    requires { place < length notes.old }
    ensures notes { map note_view notes.new
        ≡ with_content_at place (pairs_view content.items) (map note_view notes.old) }
    ensures former { pairs_view result.items ≡ content_at place (map note_view notes.old) }
{
    notes[place].replace_content(content)
}

/// Returns the location of a note. Notes and their marks have two each, from the greatest one down.
fn note_location(number: u64) -> Location
    requires { number < 2 ^ 59 }
    ensures { result.0 ≡ note_location number }
{
    Location(u64::MAX - 2 * number)
}

fn mark_location(number: u64) -> Location
    requires few { number < 2 ^ 59 }
    requires some { 1 ≤ number }
    ensures { result.0 ≡ mark_location number }
{
    Location(u64::MAX - 2 * number + 1)
}

#[tactic(auto, unfolding(html_names_core::specs::Tables::known_tags))]
fn mark_of(alloc: Global, number: u64, span: Span) -> Result<Item, AllocError>
    requires few { number < 2 ^ 59 }
    requires some { 1 ≤ number }
    ensures { IfOk result (λ mark. item_view mark ≡ mark_item number span.0) }
{
    let text = numbered(alloc, "", number)?;
    let link = note_link(alloc, "footnote-ref", "doc-noteref", text, span)?;
    let label = numbered(alloc, "fnref", number)?;
    let (place, note) = (mark_location(number), note_location(number));
    let mut body = Vec::new(alloc);
    push_located(&mut body, place, Some(label), Some(note), link)?;
    let mark = HtmlElem::new(alloc, tag::sup);
    Ok(Item::from(mark.with_body(body).spanned(span)))
}

/// Returns a mark of a note that has one.
#[tactic(auto, unfolding(html_names_core::specs::Tables::known_tags))]
fn further_mark_of(alloc: Global, number: u64, span: Span) -> Result<Item, AllocError>
    requires { number < 2 ^ 59 }
    ensures { IfOk result (λ mark. item_view mark ≡ further_mark_item number span.0) }
{
    let text = numbered(alloc, "", number)?;
    let link = note_link(alloc, "footnote-ref", "doc-noteref", text, span)?;
    let mut body = Vec::new(alloc);
    push_located(
        &mut body,
        Location(0),
        None,
        Some(note_location(number)),
        link,
    )?;
    let mark = HtmlElem::new(alloc, tag::sup);
    Ok(Item::from(mark.with_body(body).spanned(span)))
}

/// Joins a stem and a number in decimal digits.
fn numbered(alloc: Global, stem: &str, number: u64) -> Result<String, AllocError>
    requires { IsTrue (is_ascii stem.now) }
    ensures { IfOk result (λ text. text_view text ≡ stem.now ++ decimal number) }
{
    format!(in alloc; "{stem}{number}")
}

fn note_link(
    alloc: Global,
    class: &str,
    role: &str,
    text: String,
    span: Span,
) -> Result<Item, AllocError>
    requires class { IsTrue (is_ascii class.now) }
    requires role { IsTrue (is_ascii role.now) }
    ensures { IfOk result (λ link. item_view link
        ≡ note_link class.now role.now (text_view text) span.0) }
{
    let link = with_class_and_role(alloc, tag::a, class, role)?;
    let link = link.with_item(alloc, text_pair(text, span))?;
    Ok(Item::from(link.spanned(span)))
}

#[tactic(auto, using(html_names_core::proofs::Lists::chars_ascii), unfolding(html_names_core::specs::Tables::known_attrs))]
fn with_class_and_role(
    alloc: Global,
    tag: HtmlTag,
    class: &str,
    role: &str,
) -> Result<HtmlElem, AllocError>
    requires class { IsTrue (is_ascii class.now) }
    requires role { IsTrue (is_ascii role.now) }
    ensures { IfOk result (λ element. elem_view element
        ≡ element_with tag (class_and_role class.now role.now)) }
{
    let element = HtmlElem::new(alloc, tag).with_attr_text(attr::class, class)?;
    Ok(element.with_attr_text(attr::role, role)?)
}

/// Returns the notes, each between the tags that locate it.
fn note_items(alloc: Global, notes: Vec<Note>) -> Result<Vec<Pair>, AllocError>
    ensures { IfOk result (λ items.
        pairs_view items.items ≡ note_items 1 (map note_view notes.items)) }
{
    let mut items = Vec::with_capacity(alloc, 3 * notes.as_slice().len())?;
    let mut number = 0;
    for note in notes {
        number += 1;
        push_note(alloc, &mut items, number, note)?;
    }
    Ok(items)
}

/// Appends a note between the tags that locate it.
fn push_note(
    alloc: Global,
    items: &mut Vec<Pair>,
    number: u64,
    note: Note,
) -> Result<(), AllocError>
    requires few { number < 2 ^ 59 }
    requires some { 1 ≤ number }
    ensures { OnOk result (pairs_view items.new.items
        ≡ pairs_view items.old.items ++ located_note number (note_view note)) }
{
    let Note {
        key: _,
        mut content,
        span,
    } = note;
    push_back_link(alloc, &mut content, number, span)?;
    let entry = HtmlElem::new(alloc, tag::li).with_attr_text(attr::role, "doc-endnote")?;
    let entry = Item::from(entry.with_body(content).spanned(span));
    let label = numbered(alloc, "fn", number)?;
    push_located(items, note_location(number), Some(label), None, entry)?;
    Ok(())
}

/// Appends the link back to the mark of a note: inside the last item if that is a paragraph with a
/// body, or else after the items.
fn push_back_link(
    alloc: Global,
    content: &mut Vec<Pair>,
    number: u64,
    span: Span,
) -> Result<(), AllocError>
    requires few { number < 2 ^ 59 }
    requires some { 1 ≤ number }
    ensures { OnOk result (pairs_view content.new.items
        ≡ in_last_line (back_items number span.0) (pairs_view content.old.items)) }
{
    if ends_in_line(content) {
        push_in_last_line(alloc, content, number, span)
    } else {
        push_link_to_mark(alloc, content, number, span)
    }
}

fn ends_in_line(items: &[Pair]) -> bool
    ensures { result ≡ last_passes is_line_item (pairs_view items.now) }
{
    match items.last() {
        Some(last) => is_line_item(last),
        None => false,
    }
}

/// Returns whether an item is a paragraph with a body.
fn is_line_item(pair: &Pair) -> bool
    ensures { result ≡ is_line_item (pair_view pair.now) }
{
    match &pair.item {
        Item::Element(element) => is_line(element),
        _ => false,
    }
}

#[tactic(auto, unfolding(html_names_core::specs::Tables::known_tags))]
fn is_line(element: &HtmlElem) -> bool
    ensures { result ≡ is_line (elem_view element.now) }
{
    element.body.is_some() && element.tag == tag::p
}

/// Appends the link back to the mark of a note to the body of the last item.
fn push_in_last_line(
    alloc: Global,
    items: &mut [Pair],
    number: u64,
    span: Span,
) -> Result<(), AllocError>
    requires few { number < 2 ^ 59 }
    requires some { 1 ≤ number }
    ensures { OnOk result (pairs_view items.new
        ≡ with_changed_last (with_longer_line (back_items number span.0)) (pairs_view items.old)) }
{
    match items.last_mut() {
        Some(last) => push_in_line(alloc, last, number, span),
        None => Ok(()),
    }
}

fn push_in_line(alloc: Global, last: &mut Pair, number: u64, span: Span) -> Result<(), AllocError>
    requires few { number < 2 ^ 59 }
    requires some { 1 ≤ number }
    ensures { OnOk result (pair_view last.new
        ≡ with_longer_line (back_items number span.0) (pair_view last.old)) }
{
    match &mut last.item {
        Item::Element(element) => push_in_body(alloc, element, number, span),
        _ => Ok(()),
    }
}

fn push_in_body(
    alloc: Global,
    element: &mut HtmlElem,
    number: u64,
    span: Span,
) -> Result<(), AllocError>
    requires few { number < 2 ^ 59 }
    requires some { 1 ≤ number }
    ensures { OnOk result (elem_view element.new
        ≡ with_longer_body (back_items number span.0) (elem_view element.old)) }
{
    match &mut element.body {
        Some(items) => push_link_to_mark(alloc, items, number, span),
        None => Ok(()),
    }
}

fn push_link_to_mark(
    alloc: Global,
    items: &mut Vec<Pair>,
    number: u64,
    span: Span,
) -> Result<(), AllocError>
    requires few { number < 2 ^ 59 }
    requires some { 1 ≤ number }
    ensures { OnOk result (pairs_view items.new.items
        ≡ pairs_view items.old.items ++ back_items number span.0) }
{
    let arrow = String::from_str(alloc, "\u{21a9}\u{fe0e}")?;
    let link = note_link(alloc, "footnote-back", "doc-backlink", arrow, span)?;
    push_located(items, Location(0), None, Some(mark_location(number)), link)?;
    Ok(())
}
