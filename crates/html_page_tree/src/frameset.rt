//! Framesets (HTML Standard 13.2.6.4.20, 13.2.6.4.21 and 13.2.6.4.23), and whether one may take the
//! place of the body (13.2.6.4.7, frameset-ok flag).

ghost use Rattle.std.specs.Prelude.{◌≡◌, IsTrue, OnOk, if◌then◌else◌, option_map, true};
ghost use Rattle.html_names_core.specs.Names.{is_ascii};
ghost use Rattle.html_dom_tree.specs.{Attributes.{first}, Views.{attrs_view}};
ghost use Rattle.html_page_names.specs.ForeignNames.{lowered};
ghost use Rattle.html_page_stack.specs.{Endings.{Turns}, Formats.{has_value}, PageViews.{page_of, start_of, token_of}, Pages.{closed, reconstructed, with_char}};
ghost use Rattle.html_page_tree.specs.PageBodies as bodies;

use crate::body_start::{add_leaf, add_to_head, open, repeat};
use crate::head::is_space;
use html_dom_tree::HtmlAttrs;
use html_names_core::{HtmlAttr, attr};
use html_page_names::{Kind, is_one_of, is_same_lowered};
use html_page_stack::{Destination, FramesetRule, Page, PageError, StartTag, TagName, Token};
use std::alloc::AllocError;

/// Returns whether the first value of an attribute is that ASCII word, in any ASCII case.
fn is_word(attrs: &HtmlAttrs, attr: &HtmlAttr, word: &'static str) -> bool
    requires { IsTrue (is_ascii word.now) }
    ensures { result ≡ has_value (option_map lowered (first (attrs_view attrs.now) attr.now))
        word.now }
{
    match attrs.get(attr) {
        None => false,
        Some(value) => is_same_lowered(value.as_str(), word),
    }
}

/// Returns whether the start tag is that of a hidden `input`.
#[tactic(auto, unfolding(html_names_core::specs::Tables::known_attrs))]
pub(crate) fn is_hidden_input(start: &StartTag) -> bool
    ensures { result ≡ bodies.is_hidden_input (start_of start.now) }
{
    start.name.is(Kind::Input) && is_word(&start.attrs, &attr::type_, "hidden")
}

/// Says that a `frameset` can no longer take the place of the body.
fn bar(page: &mut Page)
    ensures { page_of page.new ≡ bodies.frameset_barred (page_of page.old) }
{
    page.framesets = FramesetRule::Ignored;
}

/// Says so if the start tag of an element that is shown does.
pub(crate) fn bar_by_tag(page: &mut Page, start: &StartTag)
    ensures { page_of page.new ≡ bodies.barred_by_tag (start_of start.now) (page_of page.old) }
{
    if start.name.is(Kind::BarsFrameset) && !is_hidden_input(start) {
        bar(page);
    }
}

/// Says so if the character is no white space.
pub(crate) fn bar_by_char(page: &mut Page, c: char)
    ensures { page_of page.new ≡ bodies.barred_by_char c (page_of page.old) }
{
    if !is_space(c) {
        bar(page);
    }
}

/// Returns whether a `frameset` is ignored in the body.
pub(crate) fn is_barred(page: &Page) -> bool
    ensures { result ≡ bodies.is_barred (page_of page.now).framesets }
{
    matches!(page.framesets, FramesetRule::Ignored)
}

/// Handles a `frameset` in a body.
pub(crate) fn frameset_in_body(page: &mut Page, start: StartTag) -> Result<(), AllocError>
    ensures { OnOk result (page_of page.new
        ≡ bodies.frameset_in_body (start_of start) (page_of page.old)) }
{
    if is_barred(page) {
        return page.note(PageError::IgnoredStartTag);
    }
    page.keep_root();
    page.note(PageError::BodyReplaced)?;
    open(page, start.name, start.attrs)
}

/// Says what a `frameset` does in the body that no tag begins.
pub(crate) fn allow_frameset(page: &mut Page)
    ensures { page_of page.new ≡ (let p = page_of page.old in
        record p { framesets = bodies.frameset_rule p.stack }) }
{
    page.framesets = if page.stack.holds_template() {
        FramesetRule::Ignored
    } else {
        FramesetRule::ReplacesBody
    };
}

#[tactic(auto, unfolding(crate::specs::PageBodies::is_noframes))]
fn is_noframes(name: &TagName) -> bool
    ensures { result ≡ bodies.is_noframes name.now.tag }
{
    is_one_of(&["noframes"], name.tag.resolve())
}

#[tactic(auto, unfolding(crate::specs::PageBodies::is_frame))]
fn is_frame(name: &TagName) -> bool
    ensures { result ≡ bodies.is_frame name.now.tag }
{
    is_one_of(&["frame"], name.tag.resolve())
}

/// Handles a `</frameset>`.
fn end_frameset(page: &mut Page) -> Result<(), AllocError>
    ensures { OnOk result (page_of page.new
        ≡ bodies.frameset_ended (closed true (page_of page.old))) }
{
    page.close(true)?;
    if !page.stack.is_at(Kind::Frameset) {
        page.framesets = FramesetRule::Behind;
    }
    Ok(())
}

/// Handles a token in a `frameset`.
pub(crate) fn in_frameset(page: &mut Page, token: Token) -> Result<Option<Token>, AllocError>
    ensures { Turns result (bodies.in_frameset (token_of token) (page_of page.old))
        (page_of page.new) }
{
    match token {
        Token::Char(c) if is_space(c) => page.add_char(c)?,
        Token::Char(_) => page.note(PageError::IgnoredText)?,
        Token::Start(start) if start.name.is(Kind::Html) => repeat(page, start)?,
        Token::Start(start) if start.name.is(Kind::Frameset) => {
            open(page, start.name, start.attrs)?;
        }
        Token::Start(start) if is_frame(&start.name) => add_leaf(page, start)?,
        Token::Start(start) if is_noframes(&start.name) => {
            add_to_head(page, Destination::Parent, start)?;
        }
        Token::Start(_) => page.note(PageError::IgnoredStartTag)?,
        Token::End(name) if name.is(Kind::Frameset) => end_frameset(page)?,
        Token::End(_) => page.note(PageError::EndTagWithoutStart)?,
        Token::Finish => {}
    }
    Ok(None)
}

/// Adds white space behind a `frameset`. Behind `</html>` formatting elements are made again before it,
/// as in a body.
fn add_space(page: &mut Page, c: char) -> Result<(), AllocError>
    ensures { OnOk result (page_of page.new ≡ (let p = page_of page.old in
        with_char c (if bodies.is_behind_html p.framesets then reconstructed p else p))) }
{
    if matches!(page.framesets, FramesetRule::BehindHtml) {
        page.reconstruct()?;
    }
    page.add_char(c)
}

/// Handles a token behind a `frameset` in `html`.
pub(crate) fn after_frameset(page: &mut Page, token: Token) -> Result<Option<Token>, AllocError>
    ensures { Turns result (bodies.after_frameset (token_of token) (page_of page.old))
        (page_of page.new) }
{
    match token {
        Token::Char(c) if is_space(c) => add_space(page, c)?,
        Token::Char(_) => page.note(PageError::IgnoredText)?,
        Token::Start(start) if start.name.is(Kind::Html) => repeat(page, start)?,
        Token::Start(start) if is_noframes(&start.name) => {
            add_to_head(page, Destination::Parent, start)?;
        }
        Token::Start(_) => page.note(PageError::IgnoredStartTag)?,
        Token::End(name) if name.is(Kind::Html) => page.framesets = FramesetRule::BehindHtml,
        Token::End(_) => page.note(PageError::EndTagWithoutStart)?,
        Token::Finish => {}
    }
    Ok(None)
}
