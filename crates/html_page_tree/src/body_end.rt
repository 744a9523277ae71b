//! Other tokens in a body (HTML Standard 13.2.6.4.7).

ghost use Rattle.std.specs.Prelude.{◌≡◌, [], OnOk, codes};
ghost use Rattle.html_page_stack.specs.{Endings.{Turns}, PageViews.{goal_test, page_of, token_of}};
ghost use Rattle.html_page_stack.specs.Pages as pages;
ghost use Rattle.html_page_stack.specs.declared.modes.Space.TheVariants.{Html};
ghost use Rattle.html_page_tree.specs.PageBodies as bodies;

use crate::adoption::{adopt, close_other};
use crate::body_start::{close_p, in_body_start};
use crate::frameset::bar_by_char;
use html_dom_tree::HtmlAttrs;
use html_names_core::tag;
use html_page_names::Kind;
use html_page_stack::{
    Bound, Goal, Page, PageError, Scope, Space, StartTag, TagName, Target, Token,
};
use std::alloc::AllocError;

/// Closes a `form`, but nothing that is open in it.
fn leave_form(page: &mut Page, goal: Goal<'_>) -> Result<(), AllocError>
    ensures { OnOk result (page_of page.new
        ≡ bodies.form_left (goal_test goal.entry) (page_of page.old)) }
{
    let is_over_others = !page.stack.is_goal(goal);
    page.note_if(is_over_others, PageError::EndTagOverOpenElements)?;
    page.close_around(goal)
}

/// Handles the end tag of a form that was begun.
fn end_form(page: &mut Page, goal: Goal<'_>) -> Result<(), AllocError>
    ensures { OnOk result (page_of page.new
        ≡ bodies.form_ended (goal_test goal.entry) (page_of page.old)) }
{
    if !page.stack.reaches(goal, Bound::Scope(Scope::General)) {
        return page.note(PageError::EndTagWithoutStart);
    }
    page.close_implied(Target::Nothing)?;
    leave_form(page, goal)
}

/// Handles the end tag of a form outside of templates.
#[tactic(auto, unfolding(html_names_core::specs::Tables::known_tags))]
fn close_form(page: &mut Page) -> Result<(), AllocError>
    ensures { OnOk result (page_of page.new
        ≡ bodies.form_closed (page_of page.old).form (page_of page.old)) }
{
    let Some(span) = page.form.take() else {
        return page.note(PageError::EndTagWithoutStart);
    };
    end_form(page, Goal::Opened(&tag::form, span))
}

/// Handles the end tag of a form, which in a `template` is any form.
fn close_any_form(page: &mut Page) -> Result<(), AllocError>
    ensures { OnOk result (page_of page.new ≡ bodies.any_form_closed (page_of page.old)) }
{
    let form = Target::Kind(Kind::Form);
    if page.has_template() {
        page.close_in(Scope::General, form, form, Target::Nothing)
    } else {
        close_form(page)
    }
}

/// Handles a `</template>`.
pub(crate) fn end_template(page: &mut Page) -> Result<(), AllocError>
    ensures { OnOk result (page_of page.new ≡ bodies.template_ended (page_of page.old)) }
{
    if !page.has_template() {
        return page.note(PageError::EndTagWithoutStart);
    }
    page.close_thoroughly()?;
    let is_over_others = !page.stack.is_at(Kind::Template);
    page.note_if(is_over_others, PageError::EndTagOverOpenElements)?;
    page.close_template()
}

#[tactic(auto, unfolding(html_names_core::specs::Tables::known_tags))]
fn add_p(page: &mut Page) -> Result<(), AllocError>
    ensures { OnOk result (page_of page.new
        ≡ pages.added_in Html (codes "p") [] (page_of page.old)) }
{
    let name = TagName::new(tag::p);
    let attrs = HtmlAttrs::new(page.alloc);
    page.add_in(Space::Html, name.tag, name.kinds, attrs)
}

/// Handles a `</p>`, which makes an empty `p` if there is none.
fn end_p(page: &mut Page) -> Result<(), AllocError>
    ensures { OnOk result (page_of page.new ≡ bodies.p_ended (page_of page.old)) }
{
    if page.has_paragraph() {
        return close_p(page);
    }
    page.note(PageError::EndTagWithoutStart)?;
    add_p(page)
}

/// Handles an end tag that closes an element.
fn end_element(page: &mut Page, name: &TagName) -> Result<(), AllocError>
    ensures { OnOk result (page_of page.new
        ≡ bodies.element_ended name.now.tag (page_of page.old)) }
{
    let named = Target::Named(&name.tag);
    if name.is(Kind::Form) {
        close_any_form(page)
    } else if name.is(Kind::P) {
        end_p(page)
    } else if name.is(Kind::ListItem) {
        page.close_in(Scope::ListItem, named, named, named)
    } else if name.is(Kind::DescriptionPart) {
        page.close_in(Scope::General, named, named, named)
    } else if name.is(Kind::Heading) {
        let heading = Target::Kind(Kind::Heading);
        page.close_in(Scope::General, named, heading, Target::Nothing)
    } else if name.is(Kind::ClosesInScope) {
        page.close_in(Scope::General, named, named, Target::Nothing)
    } else if name.is(Kind::Formatting) {
        adopt(page, name)
    } else if name.is(Kind::Template) {
        end_template(page)
    } else {
        close_other(page, name)
    }
}

pub(crate) fn in_body_end(page: &mut Page, name: TagName) -> Result<Option<Token>, AllocError>
    ensures { Turns result (bodies.in_body_end name.tag (page_of page.old)) (page_of page.new) }
{
    if name.is(Kind::Root) {
        return Ok(None);
    }
    if name.is(Kind::Br) {
        page.note(PageError::EndTagBr)?;
        let attrs = HtmlAttrs::new(page.alloc);
        let closed = false;
        let start = StartTag {
            name,
            attrs,
            closed,
        };
        return in_body_start(page, start);
    }
    end_element(page, &name)?;
    Ok(None)
}

/// Adds a character to a body, unless it is U+0000.
fn add_char_to_body(page: &mut Page, c: char) -> Result<(), AllocError>
    ensures { OnOk result (page_of page.new ≡ bodies.char_in_body c (page_of page.old)) }
{
    if c == '\0' {
        return Ok(());
    }
    page.reconstruct()?;
    bar_by_char(page, c);
    page.add_char(c)
}

pub(crate) fn in_body(page: &mut Page, token: Token) -> Result<Option<Token>, AllocError>
    ensures { Turns result (bodies.in_body (token_of token) (page_of page.old)) (page_of page.new) }
{
    match token {
        Token::Char(c) => {
            add_char_to_body(page, c)?;
            Ok(None)
        }
        Token::Start(start) => in_body_start(page, start),
        Token::End(name) => in_body_end(page, name),
        Token::Finish => Ok(None),
    }
}
