//! Start tags in a body (HTML Standard 13.2.6.4.7).

ghost use Rattle.std.specs.Prelude.{◌≡◌, [], OnOk, codes};
ghost use Rattle.html_dom_tree.specs.Views.{attrs_view};
ghost use Rattle.html_page_names.specs.PageNames.{of};
ghost use Rattle.html_page_stack.specs.{Endings.{Turns}, PageViews.{page_of, start_of}};
ghost use Rattle.html_page_stack.specs.Pages as pages;
ghost use Rattle.html_page_stack.specs.declared.modes.Space.TheVariants.{Html};
ghost use Rattle.html_page_tree.specs.PageBodies as bodies;

use crate::adoption::{adopt, close_anchor};
use crate::foreign::enter;
use crate::frameset::{bar_by_tag, frameset_in_body};
use html_dom_tree::HtmlAttrs;
use html_names_core::{HtmlTag, tag};
use html_page_names::Kind;
use html_page_stack::{
    Bound, Destination, Goal, Page, PageError, Scope, Space, StartTag, TableRule, TagName, Target,
    Token,
};
use std::alloc::AllocError;

/// Returns the start tag of an `img` for that of an `image`.
#[tactic(auto, unfolding(html_names_core::specs::Tables::known_tags))]
fn img_start(start: StartTag) -> StartTag
    ensures { start_of result ≡ record (start_of start) { name = codes "img" } }
{
    let StartTag { attrs, closed, .. } = start;
    let name = TagName::new(tag::img);
    StartTag {
        name,
        attrs,
        closed,
    }
}

pub(crate) fn open(page: &mut Page, name: TagName, attrs: HtmlAttrs) -> Result<(), AllocError>
    ensures { OnOk result (page_of page.new
        ≡ pages.opened name.tag (attrs_view attrs) (page_of page.old)) }
{
    let TagName { tag, kinds } = name;
    page.open_in(Space::Html, tag, kinds, attrs)
}

/// Opens an element that no tag begins.
pub(crate) fn open_implied(page: &mut Page, tag: HtmlTag) -> Result<(), AllocError>
    ensures { OnOk result (page_of page.new ≡ pages.opened tag [] (page_of page.old)) }
{
    open(page, TagName::new(tag), HtmlAttrs::new(page.alloc))
}

/// Appends an element without content.
pub(crate) fn add_leaf(page: &mut Page, start: StartTag) -> Result<(), AllocError>
    ensures { OnOk result (page_of page.new ≡ bodies.leaf (start_of start) (page_of page.old)) }
{
    let destination = page.stack.body_destination(Destination::Parent);
    add_to(page, destination, start)
}

/// Appends an element without content at a destination.
pub(crate) fn add_to(
    page: &mut Page,
    destination: Destination,
    start: StartTag,
) -> Result<(), AllocError>
    ensures { OnOk result (page_of page.new ≡ (let tag = start_of start in
        pages.added_to destination Html tag.name tag.attrs (page_of page.old))) }
{
    let StartTag { name, attrs, .. } = start;
    page.add_to(destination, Space::Html, name.tag, name.kinds, attrs)
}

/// Gives the attributes of a second `html` or `body` to the first: `html` is the outermost of the
/// open elements, and `body` the second, if it is open (HTML Standard 13.2.6.4.7).
fn merge_again(page: &mut Page, start: StartTag) -> Result<(), AllocError>
    ensures { OnOk result (page_of page.new
        ≡ bodies.merged_again (start_of start) (page_of page.old)) }
{
    if start.name.is(Kind::Body) {
        page.merge_at(1, Kind::Body, start.attrs)
    } else {
        page.merge_at(0, Kind::Html, start.attrs)
    }
}

/// Handles a second `html` or `body`, which is ignored in a `template`.
pub(crate) fn repeat(page: &mut Page, start: StartTag) -> Result<(), AllocError>
    ensures { OnOk result (page_of page.new
        ≡ bodies.repeated (start_of start) (page_of page.old)) }
{
    if start.attrs.0.is_empty() || page.has_template() {
        return page.note(PageError::SecondStartTag);
    }
    page.note(PageError::MergedAttributes)?;
    merge_again(page, start)?;
    Ok(())
}

/// Opens or appends an element of the head.
pub(crate) fn add_to_head(
    page: &mut Page,
    destination: Destination,
    start: StartTag,
) -> Result<(), AllocError>
    ensures { OnOk result (page_of page.new
        ≡ bodies.head_element destination (start_of start) (page_of page.old)) }
{
    let StartTag { name, attrs, .. } = start;
    if name.is(Kind::HeadLeaf) {
        return page.add_to(destination, Space::Html, name.tag, name.kinds, attrs);
    }
    if name.is(Kind::Template) {
        return page.open_template(destination, attrs);
    }
    page.open_to(destination, Space::Html, name.tag, name.kinds, attrs)
}

/// Closes an element with that name before the next.
fn close_nested(page: &mut Page, name: &TagName) -> Result<(), AllocError>
    ensures { OnOk result (page_of page.new
        ≡ bodies.nested_closed name.now.tag (page_of page.old)) }
{
    let named = Target::Named(&name.tag);
    if !page.in_scope(Scope::General, named) {
        return Ok(());
    }
    page.note(PageError::NestedElement)?;
    page.close_implied(Target::Nothing)?;
    page.close_to(named)
}

fn close_select(page: &mut Page) -> Result<(), AllocError>
    ensures { OnOk result (page_of page.new ≡ bodies.select_closed (page_of page.old)) }
{
    let select = Target::Kind(Kind::Select);
    if !page.in_scope(Scope::General, select) {
        return Ok(());
    }
    page.note(PageError::NestedElement)?;
    page.close_to(select)
}

pub(crate) fn close_p(page: &mut Page) -> Result<(), AllocError>
    ensures { OnOk result (page_of page.new ≡ bodies.p_closed (page_of page.old)) }
{
    let p = Target::Kind(Kind::P);
    if !page.has_paragraph() {
        return Ok(());
    }
    page.close_over(p, p, p)
}

/// Closes an item before the next of its kind.
fn close_item(page: &mut Page, kind: Kind) -> Result<(), AllocError>
    ensures { OnOk result (page_of page.new ≡ bodies.item_closed kind (page_of page.old)) }
{
    let item = Target::Kind(kind);
    if !page.stack.reaches(Goal::Of(item), Bound::Item) {
        return Ok(());
    }
    page.close_implied(item)?;
    page.close_to(item)
}

fn close_heading(page: &mut Page) -> Result<(), AllocError>
    ensures { OnOk result (page_of page.new ≡ bodies.heading_closed (page_of page.old)) }
{
    if !page.stack.is_at(Kind::Heading) {
        return Ok(());
    }
    page.note(PageError::NestedElement)?;
    page.close(false)
}

/// Closes options before the next, and before a rule.
fn close_option(page: &mut Page, name: &TagName) -> Result<(), AllocError>
    ensures { OnOk result (page_of page.new
        ≡ bodies.option_closed name.now.tag (page_of page.old)) }
{
    if page.in_scope(Scope::General, Target::Kind(Kind::Select)) {
        if name.is(Kind::Option) {
            return page.close_implied(Target::Kind(Kind::Optgroup));
        }
        return page.close_implied(Target::Nothing);
    }
    if !name.is(Kind::Hr) && page.stack.is_at(Kind::Option) {
        return page.close(false);
    }
    Ok(())
}

/// Closes parts of a ruby annotation before the next.
fn close_ruby(page: &mut Page, name: &TagName) -> Result<(), AllocError>
    ensures { OnOk result (page_of page.new ≡ bodies.ruby_closed name.now.tag (page_of page.old)) }
{
    if !page.in_scope(Scope::General, Target::Kind(Kind::Ruby)) {
        return Ok(());
    }
    if name.is(Kind::RubyText) {
        return page.close_implied(Target::Kind(Kind::Rtc));
    }
    page.close_implied(Target::Nothing)
}

/// Closes a `p` before a table, except in quirks mode.
fn close_before_table(page: &mut Page) -> Result<(), AllocError>
    ensures { OnOk result (page_of page.new ≡ bodies.table_closes (page_of page.old)) }
{
    match page.tables {
        TableRule::ClosesP => close_p(page),
        TableRule::KeepsP | TableRule::Unseen => Ok(()),
    }
}

/// Closes blocks before the next, and whatever else it closes.
fn close_before_block(page: &mut Page, name: &TagName) -> Result<(), AllocError>
    ensures { OnOk result (page_of page.new
        ≡ bodies.closed_before_block name.now.tag (page_of page.old)) }
{
    if name.is(Kind::ListItem) {
        close_item(page, Kind::ListItem)?;
        return close_p(page);
    }
    if name.is(Kind::DescriptionPart) {
        close_item(page, Kind::DescriptionPart)?;
        return close_p(page);
    }
    if name.is(Kind::Heading) {
        close_p(page)?;
        return close_heading(page);
    }
    if name.is(Kind::ClosesP) {
        return close_p(page);
    }
    Ok(())
}

/// Closes what a start tag closes before its element.
fn close_before(page: &mut Page, name: &TagName) -> Result<(), AllocError>
    ensures { OnOk result (page_of page.new
        ≡ bodies.closed_before name.now.tag (page_of page.old)) }
{
    if name.is(Kind::A) {
        return close_anchor(page, name);
    }
    if name.is(Kind::Button) {
        return close_nested(page, name);
    }
    if name.is(Kind::Input) {
        return close_select(page);
    }
    if name.is(Kind::Table) {
        return close_before_table(page);
    }
    if name.is(Kind::Option) || name.is(Kind::Optgroup) {
        return close_option(page, name);
    }
    if name.is(Kind::Hr) {
        close_p(page)?;
        return close_option(page, name);
    }
    if name.is(Kind::RubyPart) {
        return close_ruby(page, name);
    }
    close_before_block(page, name)
}

/// Closes a `nobr` before the next.
fn close_nobr(page: &mut Page, name: &TagName) -> Result<(), AllocError>
    ensures { OnOk result (page_of page.new
        ≡ bodies.nobr_closed name.now.tag (page_of page.old)) }
{
    if !name.is(Kind::Nobr) || !page.in_scope(Scope::General, Target::Named(&name.tag)) {
        return Ok(());
    }
    page.note(PageError::NestedElement)?;
    adopt(page, name)?;
    page.reconstruct()?;
    Ok(())
}

/// Handles the formatting elements around an element, which come before it.
fn format(page: &mut Page, name: &TagName) -> Result<(), AllocError>
    ensures { OnOk result (page_of page.new ≡ bodies.formatted name.now.tag (page_of page.old)) }
{
    if name.is(Kind::Unformatted) {
        return Ok(());
    }
    page.reconstruct()?;
    close_nobr(page, name)?;
    Ok(())
}

fn insert(page: &mut Page, start: StartTag) -> Result<(), AllocError>
    ensures { OnOk result (page_of page.new ≡ bodies.inserted (start_of start) (page_of page.old)) }
{
    if start.name.is(Kind::Leaf) {
        return add_leaf(page, start);
    }
    if start.name.is(Kind::Svg) {
        return enter(page, Space::Svg, start);
    }
    if start.name.is(Kind::Math) {
        return enter(page, Space::MathMl, start);
    }
    open(page, start.name, start.attrs)
}

fn start_in_body(page: &mut Page, start: StartTag) -> Result<(), AllocError>
    ensures { OnOk result (page_of page.new
        ≡ bodies.element_begun (start_of start) (page_of page.old)) }
{
    close_before(page, &start.name)?;
    format(page, &start.name)?;
    insert(page, start)?;
    Ok(())
}

/// Returns whether the start tag is ignored, with an error.
fn is_nested(page: &Page, name: &TagName) -> bool
    ensures { result ≡ bodies.is_nested name.now.tag (page_of page.now) }
{
    !page.has_template() && name.is(Kind::Form) && page.form.is_some()
}

/// Handles a start tag by the rules of a body.
fn begin_in_body(page: &mut Page, start: StartTag) -> Result<Option<Token>, AllocError>
    ensures { Turns result (bodies.in_body_begun (start_of start) (page_of page.old))
        (page_of page.new) }
{
    let name = &start.name;
    if name.is(Kind::Root) {
        repeat(page, start)?;
    } else if name.is(Kind::HeadContent) {
        let destination = page.stack.body_destination(Destination::Parent);
        add_to_head(page, destination, start)?;
    } else if name.is(Kind::Frameset) {
        frameset_in_body(page, start)?;
    } else if name.is(Kind::Misplaced) {
        page.note(PageError::IgnoredStartTag)?;
    } else if name.is(Kind::Image) {
        page.note(PageError::ImageTag)?;
        return Ok(Some(Token::Start(img_start(start))));
    } else if is_nested(page, name) {
        page.note(PageError::NestedElement)?;
    } else if name.is(Kind::Select) && page.in_scope(Scope::General, Target::Kind(Kind::Select)) {
        close_select(page)?;
    } else {
        start_in_body(page, start)?;
    }
    Ok(None)
}

pub(crate) fn in_body_start(page: &mut Page, start: StartTag) -> Result<Option<Token>, AllocError>
    ensures { Turns result (bodies.in_body_start (start_of start) (page_of page.old))
        (page_of page.new) }
{
    bar_by_tag(page, &start);
    begin_in_body(page, start)
}
