//! Tokens in a table (HTML Standard 13.2.6.4.9 to 13.2.6.4.15).

ghost use Rattle.std.specs.Prelude.{◌≡◌, ◌&&◌, ◌||◌, OnOk, codes, true};
ghost use Rattle.html_dom_tree.specs.Views.{attrs_view};
ghost use Rattle.html_page_names.specs.PageNames.{is, of};
ghost use Rattle.html_page_names.specs.declared.kind.Kind.TheVariants as kind;
ghost use Rattle.html_page_stack.specs.OpenElements.{in_scope};
ghost use Rattle.html_page_stack.specs.{Endings.{Turns}, PageViews.{page_of, start_of, token_of}};
ghost use Rattle.html_page_stack.specs.Pages as pages;
ghost use Rattle.html_page_tree.specs.PageBodies as bodies;
ghost use Rattle.html_page_tree.specs.PageTrees as trees;

use crate::body_end::{end_template, in_body, in_body_end};
use crate::body_start::{add_leaf, add_to, add_to_head, in_body_start, repeat};
use crate::frameset::is_hidden_input;
use crate::head::{is_space, leave, resume};
use html_dom_tree::{HtmlAttrs, Span};
use html_names_core::{HtmlTag, tag};
use html_page_names::Kind;
use html_page_stack::{
    Destination, Page, PageError, Scope, StartTag, TagName, Target, Token, While,
};
use std::alloc::AllocError;

/// Opens a part of a table in the current node.
fn open_here(page: &mut Page, name: TagName, attrs: HtmlAttrs) -> Result<(), AllocError>
    ensures { OnOk result (page_of page.new
        ≡ pages.opened_here name.tag (attrs_view attrs) (page_of page.old)) }
{
    let TagName { tag, kinds } = name;
    page.open_here(tag, kinds, attrs)
}

/// Closes elements up to one of HTML of that kind, or a `template` around.
fn clear_to(page: &mut Page, kind: Kind) -> Result<(), AllocError>
    ensures { OnOk result (page_of page.new ≡ trees.cleared_to (of kind) (page_of page.old)) }
{
    page.close_while(While::InPart(kind))
}

/// Opens a part of a table that no tag begins, before the start tag.
fn imply_part(page: &mut Page, tag: HtmlTag, start: StartTag) -> Result<Option<Token>, AllocError>
    ensures { Turns result (trees.part_implied tag (start_of start) (page_of page.old))
        (page_of page.new) }
{
    if page.is_full() {
        page.pass_start(start.name.tag)?;
        return Ok(None);
    }
    let name = TagName::new(tag);
    open_here(page, name, HtmlAttrs::new(page.alloc))?;
    Ok(Some(Token::Start(start)))
}

#[tactic(auto, unfolding(html_names_core::specs::Tables::known_tags))]
fn imply_colgroup(page: &mut Page, start: StartTag) -> Result<Option<Token>, AllocError>
    ensures { Turns result (trees.part_implied (codes "colgroup") (start_of start) (page_of page.old))
        (page_of page.new) }
{
    imply_part(page, tag::colgroup, start)
}

#[tactic(auto, unfolding(html_names_core::specs::Tables::known_tags))]
fn imply_tbody(page: &mut Page, start: StartTag) -> Result<Option<Token>, AllocError>
    ensures { Turns result (trees.part_implied (codes "tbody") (start_of start) (page_of page.old))
        (page_of page.new) }
{
    imply_part(page, tag::tbody, start)
}

#[tactic(auto, unfolding(html_names_core::specs::Tables::known_tags))]
fn imply_tr(page: &mut Page, start: StartTag) -> Result<Option<Token>, AllocError>
    ensures { Turns result (trees.part_implied (codes "tr") (start_of start) (page_of page.old))
        (page_of page.new) }
{
    imply_part(page, tag::tr, start)
}

/// Returns whether the start tag is that of a part of a table that needs no other around it.
pub(crate) fn begins_part(name: &TagName) -> bool
    ensures { result ≡ trees.begins_part name.now.tag }
{
    name.is(Kind::Caption) || name.is(Kind::Colgroup) || name.is(Kind::Section)
}

/// Appends an element without content to the current node, also if that is a table.
fn add_leaf_here(page: &mut Page, start: StartTag) -> Result<(), AllocError>
    ensures { OnOk result (page_of page.new
        ≡ trees.leaf_in_table (start_of start) (page_of page.old)) }
{
    page.note(PageError::UnexpectedInTable)?;
    add_to(page, Destination::Parent, start)
}

/// Appends a `form` without content, unless another is begun or a `template` is open.
fn add_form(page: &mut Page, start: StartTag) -> Result<(), AllocError>
    ensures { OnOk result (page_of page.new
        ≡ trees.form_in_table (start_of start) (page_of page.old)) }
{
    if page.form.is_some() || page.has_template() {
        return page.note(PageError::NestedElement);
    }
    add_leaf_here(page, start)?;
    page.form = Some(Span(page.start as u64));
    Ok(())
}

/// Returns whether a table is in scope.
fn has_table(page: &Page) -> bool
    ensures { result ≡ trees.has_table (page_of page.now) }
{
    page.in_scope(Scope::Table, Target::Kind(Kind::Table))
}

/// Handles a start tag of a table in a table.
fn nest_table(page: &mut Page, start: StartTag) -> Result<Option<Token>, AllocError>
    ensures { Turns result (trees.nested_table (start_of start) (page_of page.old))
        (page_of page.new) }
{
    if !has_table(page) {
        page.note(PageError::IgnoredStartTag)?;
        return Ok(None);
    }
    let open = page.stack.len();
    page.note(PageError::NestedElement)?;
    page.close_to(Target::Kind(Kind::Table))?;
    Ok(resume(page, open, Token::Start(start)))
}

/// Returns whether the start tag is that of an element that stays right in a table.
fn stays_in_table(name: &TagName) -> bool
    ensures { result ≡ trees.stays_in_table name.now.tag }
{
    name.is(Kind::ScriptOrStyle) || name.is(Kind::Template)
}

/// Handles a start tag in a table that begins none of its parts.
fn other_start_in_table(page: &mut Page, start: StartTag) -> Result<Option<Token>, AllocError>
    ensures { Turns result (trees.in_table_other (start_of start) (page_of page.old))
        (page_of page.new) }
{
    let name = &start.name;
    if name.is(Kind::Table) {
        return nest_table(page, start);
    }
    if stays_in_table(name) {
        add_to_head(page, Destination::Parent, start)?;
    } else if name.is(Kind::Root) {
        repeat(page, start)?;
    } else if name.is(Kind::Misplaced) {
        page.note(PageError::IgnoredStartTag)?;
    } else if is_hidden_input(&start) {
        add_leaf_here(page, start)?;
    } else if name.is(Kind::Form) {
        add_form(page, start)?;
    } else {
        page.note(PageError::FosterParenting)?;
        return in_body_start(page, start);
    }
    Ok(None)
}

fn start_in_table(page: &mut Page, start: StartTag) -> Result<Option<Token>, AllocError>
    ensures { Turns result (trees.in_table_start (start_of start) (page_of page.old))
        (page_of page.new) }
{
    let name = &start.name;
    if begins_part(name) {
        clear_to(page, Kind::Table)?;
        open_here(page, start.name, start.attrs)?;
        return Ok(None);
    }
    if name.is(Kind::Col) {
        clear_to(page, Kind::Table)?;
        return imply_colgroup(page, start);
    }
    if name.is(Kind::Tr) || name.is(Kind::Cell) {
        clear_to(page, Kind::Table)?;
        return imply_tbody(page, start);
    }
    other_start_in_table(page, start)
}

/// Returns whether the end tag is ignored right in a table.
fn ends_nothing_in_table(name: &TagName) -> bool
    ensures { result ≡ trees.ends_nothing_in_table name.now.tag }
{
    name.is(Kind::Root) || name.is(Kind::TablePart) || name.is(Kind::Table)
}

/// Returns whether the end tag is that of the table.
fn ends_table(page: &Page, name: &TagName) -> bool
    ensures { result ≡ (of kind.Table name.now.tag && trees.has_table (page_of page.now)) }
{
    name.is(Kind::Table) && has_table(page)
}

fn end_in_table(page: &mut Page, name: TagName) -> Result<Option<Token>, AllocError>
    ensures { Turns result (trees.in_table_end name.tag (page_of page.old)) (page_of page.new) }
{
    if ends_table(page, &name) {
        page.close_to(Target::Kind(Kind::Table))?;
        return Ok(None);
    }
    if ends_nothing_in_table(&name) {
        page.note(PageError::EndTagWithoutStart)?;
        return Ok(None);
    }
    let is_fostered = !name.is(Kind::Template);
    page.note_if(is_fostered, PageError::FosterParenting)?;
    in_body_end(page, name)
}

/// Moves the text, and a character behind it, before the nearest table, or into a formatting element
/// that is made again there.
fn move_text(page: &mut Page, c: char) -> Result<(), AllocError>
    ensures { OnOk result (page_of page.new ≡ trees.text_moved c (page_of page.old)) }
{
    let text = page.take_text();
    page.reconstruct()?;
    page.text = text;
    page.moved = page.stack.is_in_table();
    page.add_char(c)
}

/// Handles a character where the current node is a table, a section or a row.
fn char_in_table(page: &mut Page, c: char) -> Result<(), AllocError>
    ensures { OnOk result (page_of page.new ≡ trees.char_in_table c (page_of page.old)) }
{
    if c == '\0' {
        return Ok(());
    }
    if page.moved || is_space(c) {
        return page.add_char(c);
    }
    page.note(PageError::FosterParenting)?;
    move_text(page, c)
}

/// Handles a token in a table, if the current node is the table or one of its parts other than a
/// cell or a caption.
pub(crate) fn in_table(page: &mut Page, token: Token) -> Result<Option<Token>, AllocError>
    ensures { Turns result (trees.in_table (token_of token) (page_of page.old)) (page_of page.new) }
{
    match token {
        Token::Char(c) if page.stack.holds_table_text() => {
            char_in_table(page, c)?;
            Ok(None)
        }
        Token::Char(c) => in_body(page, Token::Char(c)),
        Token::Start(start) => start_in_table(page, start),
        Token::End(name) => end_in_table(page, name),
        Token::Finish => Ok(None),
    }
}

/// Returns the error that says that a token is ignored.
fn ignored(token: &Token) -> PageError
    ensures { result ≡ trees.ignored (token_of token.now) }
{
    match token {
        Token::Start(_) => PageError::IgnoredStartTag,
        Token::End(_) => PageError::EndTagWithoutStart,
        Token::Char(_) | Token::Finish => PageError::IgnoredText,
    }
}

/// Closes a `colgroup` before the token, or ignores that: right in a `template`.
fn leave_columns(page: &mut Page, token: Token) -> Result<Option<Token>, AllocError>
    ensures { Turns result (trees.columns_left (token_of token) (page_of page.old))
        (page_of page.new) }
{
    if page.stack.is_at(Kind::Colgroup) {
        return leave(page, token);
    }
    page.note(ignored(&token))?;
    Ok(None)
}

fn start_in_columns(page: &mut Page, start: StartTag) -> Result<Option<Token>, AllocError>
    ensures { Turns result (trees.in_columns (pages.Start (start_of start)) (page_of page.old))
        (page_of page.new) }
{
    let name = &start.name;
    if name.is(Kind::Col) {
        add_leaf(page, start)?;
    } else if name.is(Kind::Html) {
        repeat(page, start)?;
    } else if name.is(Kind::Template) {
        add_to_head(page, Destination::Parent, start)?;
    } else {
        return leave_columns(page, Token::Start(start));
    }
    Ok(None)
}

fn end_in_columns(page: &mut Page, name: TagName) -> Result<Option<Token>, AllocError>
    ensures { Turns result (trees.in_columns (pages.End name.tag) (page_of page.old))
        (page_of page.new) }
{
    if name.is(Kind::Colgroup) && page.stack.is_at(Kind::Colgroup) {
        page.close(true)?;
    } else if name.is(Kind::Col) {
        page.note(PageError::EndTagWithoutStart)?;
    } else if name.is(Kind::Template) {
        end_template(page)?;
    } else {
        return leave_columns(page, Token::End(name));
    }
    Ok(None)
}

/// Handles a token in a column group.
pub(crate) fn in_columns(page: &mut Page, token: Token) -> Result<Option<Token>, AllocError>
    ensures { Turns result (trees.in_columns (token_of token) (page_of page.old))
        (page_of page.new) }
{
    match token {
        Token::Char(c) if is_space(c) => {
            page.add_char(c)?;
            Ok(None)
        }
        Token::Char(c) => leave_columns(page, Token::Char(c)),
        Token::Start(start) => start_in_columns(page, start),
        Token::End(name) => end_in_columns(page, name),
        Token::Finish => Ok(None),
    }
}

/// Closes a section or a row, with what is open in it, before the token, or ignores that if there is
/// none in scope.
fn leave_part(page: &mut Page, part: Kind, token: Token) -> Result<Option<Token>, AllocError>
    ensures { Turns result (trees.part_left (of part) (token_of token) (page_of page.old))
        (page_of page.new) }
{
    if !page.in_scope(Scope::Table, Target::Kind(part)) {
        page.note(ignored(&token))?;
        return Ok(None);
    }
    clear_to(page, part)?;
    leave(page, token)
}

/// Closes a section or a row by its end tag, with what is open in it.
fn close_part_here(page: &mut Page, part: Kind) -> Result<Option<Token>, AllocError>
    ensures { Turns result (pages.Taken (pages.closed true
        (trees.cleared_to (of part) (page_of page.old)))) (page_of page.new) }
{
    clear_to(page, part)?;
    page.close(true)?;
    Ok(None)
}

/// Returns whether it is the end tag of a section that is in scope.
fn ends_section(page: &Page, name: &TagName) -> bool
    ensures { let n = name.now.tag in
        result ≡ (of kind.Section n && in_scope Scope.Table (is n) (page_of page.now).stack) }
{
    name.is(Kind::Section) && page.in_scope(Scope::Table, Target::Named(&name.tag))
}

/// Handles a token in a section of a table.
pub(crate) fn in_section(page: &mut Page, token: Token) -> Result<Option<Token>, AllocError>
    ensures { Turns result (trees.in_section (token_of token) (page_of page.old))
        (page_of page.new) }
{
    match token {
        Token::Start(start) if start.name.is(Kind::Tr) => {
            clear_to(page, Kind::Section)?;
            open_here(page, start.name, start.attrs)?;
            Ok(None)
        }
        Token::Start(start) if start.name.is(Kind::Cell) => {
            clear_to(page, Kind::Section)?;
            page.note(PageError::CellWithoutRow)?;
            imply_tr(page, start)
        }
        Token::Start(start) if start.name.is(Kind::TablePart) => leave_part(
            page,
            Kind::Section,
            Token::Start(start),
        ),
        Token::End(name) if ends_section(page, &name) => close_part_here(page, Kind::Section),
        Token::End(name) if name.is(Kind::Table) => leave_part(
            page,
            Kind::Section,
            Token::End(name),
        ),
        token => in_table(page, token),
    }
}

/// Returns whether it is the end tag of a row, and a row is in scope.
fn ends_row(page: &Page, name: &TagName) -> bool
    ensures { result ≡ (of kind.Tr name.now.tag
        && in_scope Scope.Table (of kind.Tr) (page_of page.now).stack) }
{
    name.is(Kind::Tr) && page.in_scope(Scope::Table, Target::Kind(Kind::Tr))
}

/// Returns whether the end tag is that of the table or of the section around a row.
fn ends_around_row(page: &Page, name: &TagName) -> bool
    ensures { result ≡ trees.ends_around_row name.now.tag (page_of page.now) }
{
    name.is(Kind::Table) || ends_section(page, name)
}

pub(crate) fn in_row(page: &mut Page, token: Token) -> Result<Option<Token>, AllocError>
    ensures { Turns result (trees.in_row (token_of token) (page_of page.old)) (page_of page.new) }
{
    match token {
        Token::Start(start) if start.name.is(Kind::Cell) => {
            clear_to(page, Kind::Tr)?;
            open_here(page, start.name, start.attrs)?;
            Ok(None)
        }
        Token::Start(start) if start.name.is(Kind::TablePart) => leave_part(
            page,
            Kind::Tr,
            Token::Start(start),
        ),
        Token::End(name) if ends_row(page, &name) => close_part_here(page, Kind::Tr),
        Token::End(name) if ends_around_row(page, &name) => leave_part(
            page,
            Kind::Tr,
            Token::End(name),
        ),
        token => in_table(page, token),
    }
}

/// Closes a cell or a caption, and records an error unless it is the current node.
fn close_current_part(page: &mut Page, part: Kind) -> Result<(), AllocError>
    ensures { OnOk result (page_of page.new
        ≡ trees.current_part_closed (of part) (page_of page.old)) }
{
    let is_error = !page.stack.is_at(part);
    page.note_if(is_error, PageError::CellOverOpenElements)?;
    page.close_to(Target::Kind(part))
}

/// Closes a cell or a caption.
fn close_part(page: &mut Page, part: Kind) -> Result<(), AllocError>
    ensures { OnOk result (page_of page.new ≡ trees.part_closed (of part) (page_of page.old)) }
{
    page.close_implied(Target::Nothing)?;
    close_current_part(page, part)
}

/// Closes a cell or a caption by an end tag, its own or that of an element around.
fn end_part(page: &mut Page, part: Kind, name: TagName) -> Result<Option<Token>, AllocError>
    ensures { Turns result (trees.part_ended (of part) name.tag (page_of page.old))
        (page_of page.new) }
{
    let open = page.stack.len();
    close_part(page, part)?;
    if name.is(part) {
        return Ok(None);
    }
    Ok(resume(page, open, Token::End(name)))
}

/// Handles an end tag in a cell or in a caption, given whether it closes it.
fn end_in_part(
    page: &mut Page,
    part: Kind,
    closes: bool,
    name: TagName,
) -> Result<Option<Token>, AllocError>
    ensures { Turns result (trees.in_part_end (of part) closes name.tag (page_of page.old))
        (page_of page.new) }
{
    if closes {
        return end_part(page, part, name);
    }
    if name.is(Kind::TablePart) || name.is(Kind::Table) || name.is(Kind::Root) {
        page.note(PageError::EndTagWithoutStart)?;
        return Ok(None);
    }
    in_body_end(page, name)
}

/// Handles a start tag in a cell or in a caption.
fn start_in_part(page: &mut Page, part: Kind, start: StartTag) -> Result<Option<Token>, AllocError>
    ensures { Turns result (trees.in_part_start (of part) (start_of start) (page_of page.old))
        (page_of page.new) }
{
    if start.name.is(Kind::TablePart) {
        let open = page.stack.len();
        close_part(page, part)?;
        return Ok(resume(page, open, Token::Start(start)));
    }
    in_body_start(page, start)
}

/// Returns whether an end tag in a cell closes it.
fn ends_cell(page: &Page, name: &TagName) -> bool
    ensures { let n = name.now.tag in
        result ≡ ((of kind.Cell n || of kind.Section n || of kind.Tr n || of kind.Table n)
        && in_scope Scope.Table (is n) (page_of page.now).stack) }
{
    let is_part = name.is(Kind::Cell)
        || name.is(Kind::Section)
        || name.is(Kind::Tr)
        || name.is(Kind::Table);
    is_part && page.in_scope(Scope::Table, Target::Named(&name.tag))
}

pub(crate) fn in_cell(page: &mut Page, token: Token) -> Result<Option<Token>, AllocError>
    ensures { Turns result (trees.in_cell (token_of token) (page_of page.old)) (page_of page.new) }
{
    match token {
        Token::End(name) => {
            let closes = ends_cell(page, &name);
            end_in_part(page, Kind::Cell, closes, name)
        }
        Token::Start(start) => start_in_part(page, Kind::Cell, start),
        token => in_body(page, token),
    }
}

pub(crate) fn in_caption(page: &mut Page, token: Token) -> Result<Option<Token>, AllocError>
    ensures { Turns result (trees.in_caption (token_of token) (page_of page.old))
        (page_of page.new) }
{
    match token {
        Token::End(name) => {
            let closes = name.is(Kind::Caption) || name.is(Kind::Table);
            end_in_part(page, Kind::Caption, closes, name)
        }
        Token::Start(start) => start_in_part(page, Kind::Caption, start),
        token => in_body(page, token),
    }
}
