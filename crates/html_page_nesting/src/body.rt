//! What the start tag of an element does in a body (HTML Standard 13.2.6.4.7).

ghost use Rattle.std.specs.Prelude.{◌≡◌};
ghost use Rattle.html_dom_tree.specs.Views.{element_view};
ghost use Rattle.html_page_nesting.specs.NestingRules as rules;

use crate::element::KnownElement;
use crate::misnesting::Misnesting;
use crate::surroundings::{Open, Surroundings};
use html_page_names::Kind;

fn is_never_read(known: &KnownElement<'_>) -> bool
    ensures { result ≡ rules.is_never_read (element_view known.now.element.now).0.name }
{
    known.is(Kind::Root)
        || known.is(Kind::Misplaced)
        || known.is(Kind::Image)
        || known.is(Kind::Frameset)
        || known.is(Kind::Plaintext)
}

fn closes_paragraph(known: &KnownElement<'_>, around: &Open) -> bool
    ensures { result ≡ rules.closes_paragraph (element_view known.now.element.now).0.name around.now }
{
    around.paragraph && (known.is(Kind::ClosesP) || known.is(Kind::Table))
}

fn closes_item(known: &KnownElement<'_>, around: &Open) -> bool
    ensures { result ≡ rules.closes_item (element_view known.now.element.now).0.name around.now }
{
    (known.is(Kind::ListItem) && around.list_item)
        || (known.is(Kind::DescriptionPart) && around.description)
}

fn closes_same(known: &KnownElement<'_>, around: &Open) -> bool
    ensures { result ≡ rules.closes_same (element_view known.now.element.now).0.name around.now }
{
    (known.is(Kind::A) && around.anchor)
        || (known.is(Kind::Button) && around.button)
        || (known.is(Kind::Nobr) && around.nobr)
        || (known.is(Kind::Select) && around.select)
}

fn is_option_part(known: &KnownElement<'_>) -> bool
    ensures { result ≡ rules.is_option_part (element_view known.now.element.now).0.name }
{
    known.is(Kind::Option) || known.is(Kind::Optgroup)
}

fn closes_option(known: &KnownElement<'_>, around: &Surroundings) -> bool
    ensures { result ≡ rules.closes_option (element_view known.now.element.now).0.name around.now }
{
    if around.open_elements.select {
        (is_option_part(known) || known.is(Kind::Hr))
            && around.parent.implied
            && !(known.is(Kind::Option) && around.parent.optgroup)
    } else {
        is_option_part(known) && around.parent.option
    }
}

fn closes_ruby_part(known: &KnownElement<'_>, around: &Surroundings) -> bool
    ensures { result ≡ rules.closes_ruby_part (element_view known.now.element.now).0.name around.now }
{
    known.is(Kind::RubyPart)
        && around.open_elements.ruby
        && around.parent.implied
        && !(known.is(Kind::RubyText) && around.parent.rtc)
}

fn closing_misnesting(known: &KnownElement<'_>, around: &Surroundings) -> Option<Misnesting>
    ensures { result ≡ rules.closing_misnesting (element_view known.now.element.now).0.name around.now }
{
    if closes_paragraph(known, &around.open_elements) {
        return Some(Misnesting::ClosesParagraph);
    }
    if known.is(Kind::Heading) && around.parent.heading {
        return Some(Misnesting::ClosesHeading);
    }
    if closes_item(known, &around.open_elements) {
        return Some(Misnesting::ClosesItem);
    }
    if closes_same(known, &around.open_elements) {
        return Some(Misnesting::ClosesSame);
    }
    if closes_option(known, around) {
        return Some(Misnesting::ClosesOption);
    }
    if known.is(Kind::Input) && around.open_elements.select {
        return Some(Misnesting::ClosesSelect);
    }
    if closes_ruby_part(known, around) {
        return Some(Misnesting::ClosesRubyPart);
    }
    None
}

/// Returns the first such rule that an element of HTML in a body breaks.
pub(crate) fn body_misnesting(known: &KnownElement<'_>, around: &Surroundings) -> Option<Misnesting>
    ensures { result ≡ rules.body_misnesting (element_view known.now.element.now).0.name around.now }
{
    if known.is(Kind::TablePart) {
        return Some(Misnesting::OutsideTable);
    }
    if is_never_read(known) {
        return Some(Misnesting::NeverRead);
    }
    if known.is(Kind::Form) && around.open_elements.form {
        return Some(Misnesting::FormInForm);
    }
    if around.open_elements.outer_select && known.is_selected_content() {
        return Some(Misnesting::Filled);
    }
    closing_misnesting(known, around)
}
