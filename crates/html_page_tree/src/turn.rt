//! The steps of a token in a page (HTML Standard 13.2.6).

ghost use Rattle.std.specs.Prelude.{◌≡◌, OnOk, length};
ghost use Rattle.html_page_stack.specs.{Endings.{Turns}, PageViews.{page_of, start_of, token_of}};
ghost use Rattle.html_page_stack.specs.declared.modes.Mode.TheVariants.{AfterHead, InTemplate};
ghost use Rattle.html_page_stack.specs.Pages as pages;
ghost use Rattle.html_page_tree.specs.BodyStarts.{begins_in_body};
ghost use Rattle.html_page_tree.specs.PageTrees as trees;
ghost use Rattle.html_page_tree.specs.TakenTexts.{takes_text};

use crate::body_end::in_body;
use crate::body_start::in_body_start;
use crate::foreign::{in_foreign, is_foreign};
use crate::frameset::{after_frameset, in_frameset, is_barred};
use crate::head::{
    after_head, before_head, before_html, in_head, in_head_noscript, in_text, is_space,
};
use crate::table::{in_caption, in_cell, in_columns, in_row, in_section, in_table};
use crate::template::in_template;
use html_page_names::Kind;
use html_page_stack::{
    FramesetRule, Mode, Page, PageError, StartTag, TableRule, TagName, TemplateMode, Token,
};
use std::alloc::AllocError;

/// The number of times that a token is processed again at most, beside once for each open element.
const MOST_TURNS: usize = 14;

fn is_space_token(token: &Token) -> bool
    ensures { result ≡ trees.is_space_token (token_of token.now) }
{
    match token {
        Token::Char(c) => is_space(*c),
        _ => false,
    }
}

/// Returns the insertion mode (HTML Standard 13.2.4.1).
#[inline(always)]
fn page_mode(page: &Page) -> Mode
    ensures { result ≡ trees.page_mode (page_of page.now) }
{
    match page.stack.mode() {
        Mode::InTemplate => template_mode(page),
        Mode::AfterHead => html_mode(page),
        mode => mode,
    }
}

/// Returns the mode of a `template`.
fn mode_of(mode: TemplateMode) -> Mode
    ensures { result ≡ trees.mode_of mode }
{
    match mode {
        TemplateMode::Unset => Mode::InTemplate,
        TemplateMode::Body => Mode::InBody,
        TemplateMode::Table => Mode::InTable,
        TemplateMode::Columns => Mode::InColumns,
        TemplateMode::Section => Mode::InSection,
        TemplateMode::Row => Mode::InRow,
    }
}

/// Returns the mode of the innermost `template`.
fn template_mode(page: &Page) -> Mode
    ensures { let p = page_of page.now in
        result ≡ trees.mode_within InTemplate p.templates p.framesets }
{
    match page.templates.last() {
        None => Mode::InTemplate,
        Some(mode) => mode_of(*mode),
    }
}

/// Returns the mode behind the head, or behind a `frameset`.
fn html_mode(page: &Page) -> Mode
    ensures { let p = page_of page.now in
        result ≡ trees.mode_within AfterHead p.templates p.framesets }
{
    match page.framesets {
        FramesetRule::Behind | FramesetRule::BehindHtml => Mode::AfterFrameset,
        FramesetRule::Ignored | FramesetRule::ReplacesBody => Mode::AfterHead,
    }
}

/// Handles a token by the rules of the insertion mode.
pub(crate) fn by_mode(page: &mut Page, token: Token) -> Result<Option<Token>, AllocError>
    ensures { Turns result (let p = page_of page.old in
        trees.by_mode (trees.page_mode p) (token_of token) p) (page_of page.new) }
{
    match page_mode(page) {
        Mode::BeforeHtml => before_html(page, token),
        Mode::BeforeHead => before_head(page, token),
        Mode::InHead => in_head(page, token),
        Mode::InHeadNoscript => in_head_noscript(page, token),
        Mode::AfterHead => after_head(page, token),
        Mode::InBody => in_body(page, token),
        Mode::InText => in_text(page, token),
        Mode::InTable => in_table(page, token),
        Mode::InCaption => in_caption(page, token),
        Mode::InColumns => in_columns(page, token),
        Mode::InSection => in_section(page, token),
        Mode::InRow => in_row(page, token),
        Mode::InCell => in_cell(page, token),
        Mode::InTemplate => in_template(page, token),
        Mode::InFrameset => in_frameset(page, token),
        Mode::AfterFrameset => after_frameset(page, token),
    }
}

/// Returns whether the start tag is read by the rules of a body.
fn begins_in_body(page: &Page, name: &TagName) -> bool
    ensures { result ≡ begins_in_body name.now.tag (page_of page.now) }
{
    if page.stack.is_in_foreign() {
        return false;
    }
    match page.stack.mode() {
        Mode::InBody => true,
        Mode::InCell => !name.is(Kind::TablePart),
        _ => false,
    }
}

fn other_turn(page: &mut Page, token: Token) -> Result<Option<Token>, AllocError>
    ensures { Turns result (trees.turn (token_of token) (page_of page.old)) (page_of page.new) }
{
    if is_foreign(page, &token) {
        in_foreign(page, token)
    } else {
        by_mode(page, token)
    }
}

fn start_turn(page: &mut Page, start: StartTag) -> Result<Option<Token>, AllocError>
    ensures { Turns result (trees.turn (pages.Start (start_of start)) (page_of page.old))
        (page_of page.new) }
{
    if begins_in_body(page, &start.name) {
        in_body_start(page, start)
    } else {
        other_turn(page, Token::Start(start))
    }
}

fn turn(page: &mut Page, token: Token) -> Result<Option<Token>, AllocError>
    ensures { Turns result (trees.turn (token_of token) (page_of page.old)) (page_of page.new) }
{
    match token {
        Token::Start(start) => start_turn(page, start),
        other => other_turn(page, other),
    }
}

#[tactic(auto, using(crate::proofs::Turning::processed_once, crate::proofs::Turning::processed_out))]
fn process_again(page: &mut Page, most: usize, token: Token) -> Result<(), AllocError>
    ensures { OnOk result (page_of page.new
        ≡ trees.processed most (token_of token) (page_of page.old)) }
{
    let mut token = token;
    for count in 0..most {
        match turn(page, token)? {
            None => return Ok(()),
            Some(again) => token = again,
        }
    }
    Ok(())
}

/// Processes a token until it is taken.
#[tactic(auto, unfolding(crate::specs::PageTrees::processed))]
fn take(page: &mut Page, token: Token) -> Result<(), AllocError>
    ensures { OnOk result (page_of page.new
        ≡ trees.taken_at_last (token_of token) (page_of page.old)) }
{
    let most = page.stack.len() + MOST_TURNS;
    match turn(page, token)? {
        None => Ok(()),
        Some(again) => process_again(page, most, again),
    }
}

/// Closes so many open `template` elements.
#[tactic(auto, using(crate::proofs::Turning::ended_once, crate::proofs::Turning::ended_out))]
fn end_templates(page: &mut Page, most: usize) -> Result<(), AllocError>
    ensures { OnOk result (page_of page.new ≡ trees.templates_ended most (page_of page.old)) }
{
    for count in 0..most {
        page.close_template()?;
    }
    Ok(())
}

/// Handles a token, whose end tag may be that of an element that was too deep to be made.
#[inline(always)]
fn process(page: &mut Page, token: Token) -> Result<(), AllocError>
    ensures { OnOk result (page_of page.new
        ≡ trees.wholly_processed (token_of token) (page_of page.old)) }
{
    match &token {
        Token::End(name) if page.pass_end(&name.tag) => return Ok(()),
        Token::Finish => {
            let most = page.templates.len();
            end_templates(page, most)?;
        }
        _ => {}
    }
    take(page, token)
}

/// Handles a token without a document type before it: a table keeps a `p` open.
fn begin_untyped(page: &mut Page) -> Result<(), AllocError>
    ensures { OnOk result (page_of page.new ≡ trees.begun_untyped (page_of page.old)) }
{
    page.tables = TableRule::KeepsP;
    page.note(PageError::NoDocumentType)
}

/// Returns whether no document type, tag or text was read yet.
pub(crate) fn is_unseen(page: &Page) -> bool
    ensures { result ≡ trees.is_unseen (page_of page.now).tables }
{
    matches!(page.tables, TableRule::Unseen)
}

/// Returns whether each character of a text but U+0000 is appended to the current node.
#[tactic(auto, unfolding(crate::specs::TakenTexts::takes_text))]
#[inline(always)]
pub fn takes_text(page: &Page) -> bool
    ensures { result ≡ takes_text (page_of page.now) }
{
    if is_unseen(page) || !is_barred(page) {
        return false;
    }
    if is_foreign(page, &Token::Char('\0')) {
        return true;
    }
    match page_mode(page) {
        Mode::InText => true,
        Mode::InBody | Mode::InCaption | Mode::InCell => { !page.formats.ends_closed(&page.stack) }
        _ => false,
    }
}

/// Ends a text in a table, as what is no character does: what follows joins it only if both stay
/// there.
pub fn end_text(page: &mut Page) -> Result<(), AllocError>
    ensures { OnOk result (page_of page.new ≡ trees.text_ended (page_of page.old)) }
{
    if page.has_text() && page.stack.holds_table_text() {
        page.settle()
    } else {
        Ok(())
    }
}

fn is_char(token: &Token) -> bool
    ensures { result ≡ trees.is_char (token_of token.now) }
{
    matches!(token, Token::Char(_))
}

/// Processes a token, and ends a text in a table unless the token is a character.
#[tactic(auto, using(crate::proofs::Turning::behind_char, crate::proofs::Turning::behind_other))]
fn process_whole(page: &mut Page, token: Token) -> Result<(), AllocError>
    ensures { OnOk result (page_of page.new ≡ trees.behind_token (token_of token)
        (trees.wholly_processed (token_of token) (page_of page.old))) }
{
    let is_char = is_char(&token);
    process(page, token)?;
    if is_char { Ok(()) } else { end_text(page) }
}

/// Reads a token. Without a document type before it, a table keeps a `p` open (HTML Standard
/// 13.2.6.4.1).
#[tactic(auto, unfolding(crate::specs::PageTrees::token_read))]
pub fn read_token(page: &mut Page, token: Token) -> Result<(), AllocError>
    ensures { OnOk result (page_of page.new
        ≡ trees.token_read (token_of token) (page_of page.old)) }
{
    if is_unseen(page) {
        if is_space_token(&token) {
            return Ok(());
        }
        begin_untyped(page)?;
    }
    process_whole(page, token)
}
