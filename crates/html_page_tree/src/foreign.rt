//! Tokens in SVG and MathML (HTML Standard 13.2.6.5).

ghost use Rattle.std.specs.{List.{list_any}, Prelude.{◌≡◌, IfOk, OnOk, length}};
ghost use Rattle.html_dom_tree.specs.Views.{attrs_view};
ghost use Rattle.html_page_names.specs.ForeignNames.{is_font_attr};
ghost use Rattle.html_page_stack.specs.{Endings.{Turns}, PageViews.{element_of, page_of, start_of, token_of}};
ghost use Rattle.html_page_stack.specs.{OpenElements.{at, holds_tags}, Pages.{closed_while}};
ghost use Rattle.html_page_tree.specs.PageBodies as bodies;
ghost use Rattle.html_page_tree.specs.PageTrees as trees;

use crate::frameset::bar_by_char;
use crate::turn::by_mode;
use html_dom_tree::HtmlAttrs;
use html_names_core::{HtmlAttr, HtmlTag};
use html_page_names::{Kind, is_font_attr, kinds_of, math_attr, svg_attr, svg_tag};
use html_page_stack::{
    Bound, Goal, Page, PageElement, PageError, Space, StartTag, TagName, Token, While,
};
use std::alloc::{AllocError, Global};

fn foreign_attr(alloc: Global, space: Space, attr: HtmlAttr) -> Result<HtmlAttr, AllocError>
    ensures { IfOk result (λ made. made ≡ bodies.foreign_attr space attr) }
{
    match space {
        Space::Svg => svg_attr(alloc, attr),
        Space::MathMl => math_attr(alloc, attr),
        Space::Html | Space::Removed => Ok(attr),
    }
}

fn foreign_name(alloc: Global, space: Space, tag: HtmlTag) -> Result<HtmlTag, AllocError>
    ensures { IfOk result (λ made. made ≡ bodies.foreign_name space tag) }
{
    match space {
        Space::Svg => svg_tag(alloc, tag),
        Space::Html | Space::MathMl | Space::Removed => Ok(tag),
    }
}

/// Returns the attributes with the capitals of their names.
fn foreign_attrs(alloc: Global, space: Space, attrs: HtmlAttrs) -> Result<HtmlAttrs, AllocError>
    ensures { IfOk result (λ made. attrs_view made
        ≡ bodies.foreign_attrs space (attrs_view attrs)) }
{
    let mut made = HtmlAttrs::new(alloc);
    for (attr, value) in attrs.0 {
        made.push(foreign_attr(alloc, space, attr)?, value)?;
    }
    Ok(made)
}

fn has_font_attr(attrs: &HtmlAttrs) -> bool
    ensures { result ≡ list_any (λ a. is_font_attr a.0) (attrs_view attrs.now) }
{
    for attr in &attrs.0 {
        if is_font_attr(&attr.0) {
            return true;
        }
    }
    false
}

/// Returns whether such a start tag can stand neither in SVG nor in MathML.
fn breaks_out(start: &StartTag) -> bool
    ensures { result ≡ trees.breaks_out (start_of start.now) }
{
    start.name.is(Kind::Breakout) || (start.name.is(Kind::Font) && has_font_attr(&start.attrs))
}

fn holds_svg(element: &PageElement) -> bool
    ensures { let e = element_of element.now in result ≡ trees.holds_svg_in e.space e }
{
    matches!(element.space, Space::MathMl) && element.has_kind(Kind::AnnotationXml)
}

/// Returns whether the token is read as HTML in this current node (HTML Standard 13.2.6).
fn takes_as_html(element: &PageElement, token: &Token) -> bool
    ensures { result ≡ trees.stands_as_html (token_of token.now) (element_of element.now) }
{
    match token {
        Token::Char(_) => element.holds_tags(),
        Token::Start(start) => {
            element.holds_html()
                || (element.holds_text() && !start.name.is(Kind::Glyph))
                || (holds_svg(element) && start.name.is(Kind::Svg))
        }
        Token::End(_) => element.is_html(),
        Token::Finish => true,
    }
}

/// Opens an element of SVG or MathML, with the capitals of its names.
pub(crate) fn enter(page: &mut Page, space: Space, start: StartTag) -> Result<(), AllocError>
    ensures { OnOk result (page_of page.new
        ≡ bodies.entered space (start_of start) (page_of page.old)) }
{
    let StartTag {
        name,
        attrs,
        closed,
    } = start;
    let tag = foreign_name(page.alloc, space, name.tag)?;
    let attrs = foreign_attrs(page.alloc, space, attrs)?;
    let kinds = kinds_of(tag.resolve());
    if closed {
        page.add_in(space, tag, kinds, attrs)
    } else {
        page.open_in(space, tag, kinds, attrs)
    }
}

/// Returns whether the token is read by the rules for SVG and MathML.
pub(crate) fn is_foreign(page: &Page, token: &Token) -> bool
    ensures { result ≡ trees.is_foreign_token (token_of token.now) (page_of page.now).stack }
{
    match page.stack.items.last() {
        None => false,
        Some(element) => !takes_as_html(element, token),
    }
}

fn close_foreign(page: &mut Page, name: &TagName) -> Result<(), AllocError>
    ensures { OnOk result (page_of page.new
        ≡ trees.foreign_closed name.now.tag (page_of page.old)) }
{
    let goal = Goal::Foreign(&name.tag);
    let agrees = !page.stack.is_goal(goal);
    page.note_if(agrees, PageError::EndTagOverOpenElements)?;
    page.close_to_goal(goal)
}

/// Closes elements of SVG and MathML up to one whose content is read as HTML.
fn leave_foreign(page: &mut Page) -> Result<(), AllocError>
    ensures { OnOk result (page_of page.new ≡ trees.foreign_left (page_of page.old)) }
{
    page.close_while(While::Above(Goal::HoldsTags))
}

/// Handles a tag that can't stand in SVG or MathML, after them.
fn resume_html(page: &mut Page, token: Token) -> Result<Option<Token>, AllocError>
    ensures { Turns result (trees.html_resumed (token_of token) (page_of page.old))
        (page_of page.new) }
{
    page.note(PageError::HtmlInForeign)?;
    leave_foreign(page)?;
    by_mode(page, token)
}

/// Returns the character that a text shows for it: U+FFFD for U+0000.
fn shown(c: char) -> char
    ensures { result ≡ trees.shown c }
{
    if c == '\0' { '\u{fffd}' } else { c }
}

/// Adds a character to SVG or MathML.
fn add_char_to_foreign(page: &mut Page, c: char) -> Result<(), AllocError>
    ensures { OnOk result (page_of page.new ≡ trees.char_in_foreign c (page_of page.old)) }
{
    if c != '\0' {
        bar_by_char(page, c);
    }
    page.add_char(shown(c))
}

fn end_in_foreign(page: &mut Page, name: TagName) -> Result<Option<Token>, AllocError>
    ensures { Turns result (trees.in_foreign_end name.tag (page_of page.old)) (page_of page.new) }
{
    if name.is(Kind::Br) || name.is(Kind::P) {
        return resume_html(page, Token::End(name));
    }
    if !page.stack.reaches(Goal::Foreign(&name.tag), Bound::Html) {
        return by_mode(page, Token::End(name));
    }
    close_foreign(page, &name)?;
    Ok(None)
}

pub(crate) fn in_foreign(page: &mut Page, token: Token) -> Result<Option<Token>, AllocError>
    ensures { Turns result (trees.in_foreign (token_of token) (page_of page.old))
        (page_of page.new) }
{
    match token {
        Token::Char(c) => add_char_to_foreign(page, c)?,
        Token::Start(start) => {
            if breaks_out(&start) {
                return resume_html(page, Token::Start(start));
            }
            let space = page.stack.current_space();
            enter(page, space, start)?;
        }
        Token::End(name) => return end_in_foreign(page, name),
        Token::Finish => {}
    }
    Ok(None)
}
