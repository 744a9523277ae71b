//! Tokens in a `template` (HTML Standard 13.2.6.4.18).

ghost use Rattle.std.specs.Prelude.{◌≡◌, OnOk};
ghost use Rattle.html_page_stack.specs.{Endings.{Turns}, PageViews.{page_of, start_of, token_of}};
ghost use Rattle.html_page_tree.specs.PageTrees as trees;

use crate::body_end::{end_template, in_body};
use crate::body_start::add_to_head;
use crate::table::begins_part;
use html_page_names::Kind;
use html_page_stack::{Destination, Page, PageError, StartTag, TagName, TemplateMode, Token};
use std::alloc::AllocError;

/// Returns the mode in which a start tag is read in a `template` that it is the first to begin
/// something in.
fn template_mode(name: &TagName) -> TemplateMode
    ensures { result ≡ trees.template_mode name.now.tag }
{
    if begins_part(name) {
        TemplateMode::Table
    } else if name.is(Kind::Col) {
        TemplateMode::Columns
    } else if name.is(Kind::Tr) {
        TemplateMode::Section
    } else if name.is(Kind::Cell) {
        TemplateMode::Row
    } else {
        TemplateMode::Body
    }
}

/// Reads the innermost `template` in that mode from now on.
fn set_mode(page: &mut Page, mode: TemplateMode) -> Result<(), AllocError>
    ensures { OnOk result (page_of page.new ≡ trees.in_mode mode (page_of page.old)) }
{
    let _ = page.templates.pop();
    page.templates.push(mode)?;
    Ok(())
}

/// Handles a start tag in a `template` in which nothing but content of the head stands.
fn start_in_template(page: &mut Page, start: StartTag) -> Result<Option<Token>, AllocError>
    ensures { Turns result (trees.start_in_template (start_of start) (page_of page.old))
        (page_of page.new) }
{
    if start.name.is(Kind::HeadContent) {
        add_to_head(page, Destination::Parent, start)?;
        return Ok(None);
    }
    set_mode(page, template_mode(&start.name))?;
    Ok(Some(Token::Start(start)))
}

/// Handles an end tag there.
fn end_in_template(page: &mut Page, name: &TagName) -> Result<(), AllocError>
    ensures { OnOk result (page_of page.new
        ≡ trees.end_in_template name.now.tag (page_of page.old)) }
{
    if name.is(Kind::Template) {
        end_template(page)
    } else {
        page.note(PageError::EndTagWithoutStart)
    }
}

/// Handles a token there.
pub(crate) fn in_template(page: &mut Page, token: Token) -> Result<Option<Token>, AllocError>
    ensures { Turns result (trees.in_template (token_of token) (page_of page.old))
        (page_of page.new) }
{
    match token {
        Token::Start(start) => start_in_template(page, start),
        Token::End(name) => {
            end_in_template(page, &name)?;
            Ok(None)
        }
        token => in_body(page, token),
    }
}
