//! Tokens before a body (HTML Standard 13.2.6.4.2 to 13.2.6.4.6), and in elements of text alone
//! (13.2.6.4.8).

ghost use Rattle.std.specs.Prelude.{◌≡◌, OnOk, codes};
ghost use Rattle.html_page_stack.specs.{Endings.{Turns, turn_of}, PageViews.{page_of, start_of, token_of}};
ghost use Rattle.html_page_tree.specs.PageBodies as bodies;

use crate::body_start::{add_to_head, open, open_implied, repeat};
use crate::frameset::allow_frameset;
use html_names_core::{HtmlTag, tag};
use html_page_names::Kind;
use html_page_stack::{Destination, Page, PageError, PageRefusal, StartTag, TagName, Token};
use std::alloc::AllocError;

/// Returns whether it is a tab, a line feed, a form feed, a carriage return or a space.
pub fn is_space(c: char) -> bool
    ensures { result ≡ bodies.is_space c }
{
    matches!(c, '\t' | '\n' | '\u{c}' | '\r' | ' ')
}

/// Returns whether the end tag begins a body, as start tags do (HTML Standard 13.2.6.4.6).
fn opens_body(name: &TagName) -> bool
    ensures { result ≡ bodies.opens_body name.now.tag }
{
    name.is(Kind::Root) || name.is(Kind::Br)
}

/// Passes a token over before which an element had to be made that is too deep: a character stands
/// in the deepest open element.
pub(crate) fn pass(page: &mut Page, token: Token) -> Result<(), AllocError>
    ensures { OnOk result (page_of page.new ≡ bodies.passed (token_of token) (page_of page.old)) }
{
    match token {
        Token::Start(start) => page.pass_start(start.name.tag),
        Token::Char(c) => {
            page.refuse(PageRefusal::TooDeep);
            page.add_char(c)
        }
        Token::End(_) | Token::Finish => {
            page.refuse(PageRefusal::TooDeep);
            Ok(())
        }
    }
}

/// Opens `html`, `head` or `body`, whichever is given, before the token.
fn imply(page: &mut Page, tag: HtmlTag, token: Token) -> Result<Option<Token>, AllocError>
    ensures { Turns result (bodies.implied tag (token_of token) (page_of page.old))
        (page_of page.new) }
{
    if page.is_full() {
        pass(page, token)?;
        return Ok(None);
    }
    open_implied(page, tag)?;
    Ok(Some(token))
}

/// Opens `body` before the token.
#[tactic(auto, unfolding(html_names_core::specs::Tables::known_tags))]
fn imply_body(page: &mut Page, token: Token) -> Result<Option<Token>, AllocError>
    ensures { Turns result (bodies.body_implied (token_of token) (page_of page.old))
        (page_of page.new) }
{
    allow_frameset(page);
    imply(page, tag::body, token)
}

/// Returns the token, to process it again behind an element that it closed, given how many were
/// open. The root stays open, and behind that the token is taken.
pub(crate) fn resume(page: &Page, count: usize, token: Token) -> Option<Token>
    ensures { let p = page_of page.now in
        turn_of result p ≡ bodies.resumed (token_of token) count p }
{
    if page.stack.len() < count {
        Some(token)
    } else {
        None
    }
}

/// Closes the current node before the token.
pub(crate) fn leave(page: &mut Page, token: Token) -> Result<Option<Token>, AllocError>
    ensures { Turns result (bodies.left (token_of token) (page_of page.old)) (page_of page.new) }
{
    let open = page.stack.len();
    page.close(true)?;
    Ok(resume(page, open, token))
}

/// Handles a token before `html` or before `head`, which it begins or implies.
fn before(page: &mut Page, tag: HtmlTag, token: Token) -> Result<Option<Token>, AllocError>
    ensures { Turns result (bodies.before tag (token_of token) (page_of page.old))
        (page_of page.new) }
{
    match token {
        Token::Char(c) if is_space(c) => Ok(None),
        Token::Start(start) if start.name.tag == tag => {
            open(page, start.name, start.attrs)?;
            Ok(None)
        }
        Token::Start(start) if start.name.is(Kind::Html) => {
            repeat(page, start)?;
            Ok(None)
        }
        Token::End(name) if !name.is(Kind::Head) && !opens_body(&name) => {
            page.note(PageError::EndTagWithoutStart)?;
            Ok(None)
        }
        token => imply(page, tag, token),
    }
}

#[tactic(auto, unfolding(html_names_core::specs::Tables::known_tags))]
pub(crate) fn before_html(page: &mut Page, token: Token) -> Result<Option<Token>, AllocError>
    ensures { Turns result (bodies.before (codes "html") (token_of token) (page_of page.old))
        (page_of page.new) }
{
    before(page, tag::html, token)
}

#[tactic(auto, unfolding(html_names_core::specs::Tables::known_tags))]
pub(crate) fn before_head(page: &mut Page, token: Token) -> Result<Option<Token>, AllocError>
    ensures { Turns result (bodies.before (codes "head") (token_of token) (page_of page.old))
        (page_of page.new) }
{
    before(page, tag::head, token)
}

pub(crate) fn in_head(page: &mut Page, token: Token) -> Result<Option<Token>, AllocError>
    ensures { Turns result (bodies.in_head (token_of token) (page_of page.old)) (page_of page.new) }
{
    match token {
        Token::Char(c) if is_space(c) => page.add_char(c)?,
        Token::Start(start) if start.name.is(Kind::Html) => repeat(page, start)?,
        Token::Start(start) if start.name.is(Kind::HeadContent) => {
            add_to_head(page, Destination::Parent, start)?;
        }
        Token::Start(start) if start.name.is(Kind::Noscript) => {
            open(page, start.name, start.attrs)?;
        }
        Token::Start(start) if start.name.is(Kind::Head) => {
            page.note(PageError::SecondStartTag)?;
        }
        Token::End(name) if name.is(Kind::Head) => page.close(true)?,
        Token::End(name) if !opens_body(&name) => {
            page.note(PageError::EndTagWithoutStart)?;
        }
        token => return leave(page, token),
    }
    Ok(None)
}

/// Closes a `noscript` of the head before content that can't stand in it.
fn leave_noscript(page: &mut Page, token: Token) -> Result<Option<Token>, AllocError>
    ensures { Turns result (bodies.noscript_left (token_of token) (page_of page.old))
        (page_of page.new) }
{
    page.note(PageError::UnexpectedInNoscript)?;
    leave(page, token)
}

pub(crate) fn in_head_noscript(page: &mut Page, token: Token) -> Result<Option<Token>, AllocError>
    ensures { Turns result (bodies.in_head_noscript (token_of token) (page_of page.old))
        (page_of page.new) }
{
    match token {
        Token::Char(c) if is_space(c) => page.add_char(c)?,
        Token::Start(start) if start.name.is(Kind::Html) => repeat(page, start)?,
        Token::Start(start) if start.name.is(Kind::NoscriptContent) => {
            add_to_head(page, Destination::Parent, start)?;
        }
        Token::Start(start) if start.name.is(Kind::Head) || start.name.is(Kind::Noscript) => {
            page.note(PageError::IgnoredStartTag)?;
        }
        Token::End(name) if name.is(Kind::Noscript) => page.close(true)?,
        Token::End(name) if !name.is(Kind::Br) => {
            page.note(PageError::EndTagWithoutStart)?;
        }
        token => return leave_noscript(page, token),
    }
    Ok(None)
}

/// Puts an element into the head, which is complete already.
fn reopen_head(page: &mut Page, start: StartTag) -> Result<(), AllocError>
    ensures { OnOk result (page_of page.new
        ≡ bodies.head_reopened (start_of start) (page_of page.old)) }
{
    page.note(PageError::HeadReopened)?;
    add_to_head(page, Destination::Head, start)
}

/// Handles a token between the head and the body.
pub(crate) fn after_head(page: &mut Page, token: Token) -> Result<Option<Token>, AllocError>
    ensures { Turns result (bodies.after_head (token_of token) (page_of page.old))
        (page_of page.new) }
{
    match token {
        Token::Char(c) if is_space(c) => page.add_char(c)?,
        Token::Start(start) if start.name.is(Kind::Html) => repeat(page, start)?,
        Token::Start(start) if start.name.is(Kind::Body) => {
            open(page, start.name, start.attrs)?;
        }
        Token::Start(start) if start.name.is(Kind::Frameset) => {
            open(page, start.name, start.attrs)?;
        }
        Token::Start(start) if start.name.is(Kind::HeadContent) => reopen_head(page, start)?,
        Token::Start(start) if start.name.is(Kind::Head) => {
            page.note(PageError::SecondStartTag)?;
        }
        Token::End(name) if !opens_body(&name) => {
            page.note(PageError::EndTagWithoutStart)?;
        }
        token => return imply_body(page, token),
    }
    Ok(None)
}

/// Handles a token in an element of text alone: its characters, and its end tag.
pub(crate) fn in_text(page: &mut Page, token: Token) -> Result<Option<Token>, AllocError>
    ensures { Turns result (bodies.in_text (token_of token) (page_of page.old)) (page_of page.new) }
{
    match token {
        Token::Char(c) => page.add_char(c)?,
        Token::Start(_) => {}
        Token::End(_) => page.close(true)?,
        Token::Finish => return leave(page, Token::Finish),
    }
    Ok(None)
}
