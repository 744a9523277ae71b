//! The rules for each kind of node.

ghost use Rattle.std.specs.{List.{list_any}, Prelude.{◌≡◌, chars}};
ghost use Rattle.html_dom_tree.specs.Views.{attrs_view, element_view};
ghost use Rattle.html_page_names.specs.ForeignNames.{is_font_attr};
ghost use Rattle.html_page_nesting.specs.NestingRules as rules;

use crate::body::body_misnesting;
use crate::content::{are_plain, begin_with_feed, content_misnesting};
use crate::element::KnownElement;
use crate::misnesting::Misnesting;
use crate::page::is_page;
use crate::reading::Place;
use crate::surroundings::Surroundings;
use crate::texts::{has_return, is_white};
use crate::written::tag_misnesting;
use html_dom_tree::HtmlAttrs;
use html_names_core::tag::is_void;
use html_page_names::{Kind, is_font_attr};

fn stranger_misnesting(place: Place) -> Option<Misnesting>
    ensures { result ≡ rules.stranger_misnesting place }
{
    match place {
        Place::Page | Place::Body => None,
        Place::Head | Place::HeadNoscript => Some(Misnesting::NotInHead),
        Place::Table | Place::Section | Place::Row => Some(Misnesting::NotInTable),
        Place::Columns => Some(Misnesting::NotInColumns),
    }
}

pub(crate) fn text_misnesting(text: &str, around: &Surroundings) -> Option<Misnesting>
    ensures { result ≡ rules.text_misnesting (chars text.now) around.now }
{
    if has_return(text) {
        return Some(Misnesting::CarriageReturn);
    }
    if is_white(text) {
        return None;
    }
    stranger_misnesting(around.place)
}

pub(crate) fn frame_misnesting(around: &Surroundings) -> Option<Misnesting>
    ensures { result ≡ rules.frame_misnesting around.now }
{
    stranger_misnesting(around.place)
}

fn is_in_tables(known: &KnownElement<'_>) -> bool
    ensures { result ≡ rules.is_in_tables (element_view known.now.element.now).0.name }
{
    known.is(Kind::ScriptOrStyle) || known.is(Kind::Template)
}

fn is_head_content(known: &KnownElement<'_>) -> bool
    ensures { result ≡ rules.has_place Place.Head (element_view known.now.element.now).0.name }
{
    known.is(Kind::HeadContent) || known.is(Kind::Noscript)
}

fn is_table_part(known: &KnownElement<'_>) -> bool
    ensures { result ≡ rules.has_place Place.Table (element_view known.now.element.now).0.name }
{
    known.is(Kind::Caption)
        || known.is(Kind::Colgroup)
        || known.is(Kind::Section)
        || is_in_tables(known)
}

fn has_place(known: &KnownElement<'_>, place: Place) -> bool
    ensures { result ≡ rules.has_place place (element_view known.now.element.now).0.name }
{
    match place {
        Place::Page => true,
        Place::Head => is_head_content(known),
        Place::HeadNoscript => known.is(Kind::NoscriptContent),
        Place::Table => is_table_part(known),
        Place::Section => known.is(Kind::Tr) || is_in_tables(known),
        Place::Row => known.is(Kind::Cell) || is_in_tables(known),
        Place::Columns => known.is(Kind::Col) || known.is(Kind::Template),
        Place::Body => false,
    }
}

fn placed_misnesting(known: &KnownElement<'_>, place: Place) -> Option<Misnesting>
    ensures { result ≡ rules.placed_misnesting place (element_view known.now.element.now).0.name }
{
    if has_place(known, place) {
        None
    } else {
        stranger_misnesting(place)
    }
}

fn named_misnesting(known: &KnownElement<'_>, around: &Surroundings) -> Option<Misnesting>
    ensures { result ≡ rules.named_misnesting around.now.place
        (element_view known.now.element.now).0.name around.now }
{
    match around.place {
        Place::Body => body_misnesting(known, around),
        place => placed_misnesting(known, place),
    }
}

fn has_font_attr(attrs: &HtmlAttrs) -> bool
    ensures { result ≡ list_any (λ a. is_font_attr a.0) (attrs_view attrs.now) }
{
    for attr in &attrs.0 {
        if is_font_attr(&attr.0) {
            return true;
        }
    }
    false
}

fn breaks_out(known: &KnownElement<'_>) -> bool
    ensures { result ≡ rules.breaks_out (element_view known.now.element.now).0 }
{
    known.is(Kind::Breakout) || (known.is(Kind::Font) && has_font_attr(&known.element.attrs))
}

fn foreign_misnesting(known: &KnownElement<'_>) -> Option<Misnesting>
    ensures { let e = element_view known.now.element.now in
        result ≡ rules.foreign_misnesting e.0 e.1 }
{
    let element = known.element;
    if breaks_out(known) {
        return Some(Misnesting::LeavesForeign);
    }
    if is_void(&element.tag) {
        return Some(Misnesting::StaysOpen);
    }
    if known.is(Kind::ScriptOrStyle) && !are_plain(false, &element.children) {
        return Some(Misnesting::ForeignText);
    }
    if known.is(Kind::DropsFeed) && begin_with_feed(&element.children) {
        return Some(Misnesting::FirstLineFeed);
    }
    None
}

fn html_misnesting(known: &KnownElement<'_>, around: &Surroundings) -> Option<Misnesting>
    ensures { let e = element_view known.now.element.now in
        result ≡ rules.html_misnesting e.0 e.1 around.now }
{
    match content_misnesting(known) {
        Some(misnesting) => Some(misnesting),
        None => named_misnesting(known, around),
    }
}

fn read_misnesting(known: &KnownElement<'_>, around: &Surroundings) -> Option<Misnesting>
    ensures { let e = element_view known.now.element.now in
        result ≡ rules.read_misnesting e.0 e.1 around.now }
{
    if known.is_read_as_html(around.reading) {
        html_misnesting(known, around)
    } else {
        foreign_misnesting(known)
    }
}

pub(crate) fn element_misnesting(
    known: &KnownElement<'_>,
    around: &Surroundings,
) -> Option<Misnesting>
    ensures { let e = element_view known.now.element.now in
        result ≡ rules.element_misnesting e.0 e.1 around.now }
{
    let space = known.space(around.reading);
    match tag_misnesting(space, known.element) {
        Some(misnesting) => Some(misnesting),
        None => read_misnesting(known, around),
    }
}

pub(crate) fn root_misnesting(known: &KnownElement<'_>, around: &Surroundings) -> Option<Misnesting>
    ensures { result ≡ rules.root_misnesting (element_view known.now.element.now) around.now }
{
    if is_page(known) {
        element_misnesting(known, around)
    } else {
        Some(Misnesting::NoPage)
    }
}
