//! End tags of formatting elements, and an `a` in an `a` (HTML Standard 13.2.6.4.7).

ghost use Rattle.std.specs.Prelude.{◌≡◌, OnOk};
ghost use Rattle.html_page_stack.specs.{Adoption.{adopted_from, furthest_block}, AdoptionViews.{IsInside}, PageViews.{format_of, page_of}, Pages.{noted}};
ghost use Rattle.html_page_stack.specs.declared.error.PageError.TheVariants.{EndTagOfClosedElement, NodesAdopted};
ghost use Rattle.html_page_tree.specs.Agencies.{Acts};
ghost use Rattle.html_page_tree.specs.PageBodies as bodies;

use html_dom_tree::Span;
use html_page_stack::{Bound, Entry, Format, Goal, Page, PageError, Scope, TagName, Target};
use std::alloc::AllocError;

/// The number of blocks that an end tag moves at most.
const MOST_TURNS: usize = 8;

/// Handles any other end tag.
pub(crate) fn close_other(page: &mut Page, name: &TagName) -> Result<(), AllocError>
    ensures { OnOk result (page_of page.new ≡ bodies.other_closed name.now.tag (page_of page.old)) }
{
    let named = Target::Named(&name.tag);
    if page.stack.reaches(Goal::Of(named), Bound::Special) {
        page.close_over(named, named, named)
    } else {
        page.note(PageError::EndTagWithoutStart)
    }
}

/// Closes the element of an entry with that name and span, and takes the entry off.
fn close_format(page: &mut Page, name: &TagName, span: Span) -> Result<(), AllocError>
    ensures { OnOk result (page_of page.new
        ≡ bodies.format_closed name.now.tag span.0 (page_of page.old)) }
{
    let goal = Goal::Opened(&name.tag, span);
    let is_over_others = !page.stack.is_goal(goal);
    page.note_if(is_over_others, PageError::EndTagOverOpenElements)?;
    page.close_to_goal(goal)
}

/// Takes the last entry of that name off, whose element is closed.
fn remove_closed(page: &mut Page, name: &TagName) -> Result<(), AllocError>
    ensures { OnOk result (page_of page.new ≡ noted EndTagOfClosedElement
        (bodies.format_removed name.now.tag (page_of page.old))) }
{
    page.formats.remove(Entry::Named(&name.tag), 0);
    page.note(PageError::EndTagOfClosedElement)
}

/// Moves a block out of the formatting element of the entry.
fn move_block(page: &mut Page, format: &Format, block: usize) -> Result<(), AllocError>
    requires { IsInside format.now.index block (page_of page.old).stack }
    ensures { OnOk result (page_of page.new ≡ adopted_from (format_of format.now) block
        (noted NodesAdopted (page_of page.old))) }
{
    page.note(PageError::NodesAdopted)?;
    page.adopt(format, block)
}

/// Handles an entry whose element is in scope. Returns whether a block was moved.
fn take_format(page: &mut Page, name: &TagName, format: &Format) -> Result<bool, AllocError>
    ensures { let f = format_of format.now in let p = page_of page.old in Acts result
        (bodies.format_taken name.now.tag f (furthest_block f.index p.stack) p) (page_of page.new) }
{
    match page.stack.furthest_block(format.index) {
        None => {
            close_format(page, name, format.span)?;
            Ok(false)
        }
        Some(block) => {
            move_block(page, format, block)?;
            Ok(true)
        }
    }
}

/// Handles the last entry with that name. Returns whether a block was moved.
fn end_format(page: &mut Page, name: &TagName) -> Result<bool, AllocError>
    ensures { Acts result (bodies.agency name.now.tag (page_of page.old)) (page_of page.new) }
{
    let Some(format) = page.formats.last_named(&name.tag) else {
        close_other(page, name)?;
        return Ok(false);
    };
    if !page.stack.is_open(format) {
        remove_closed(page, name)?;
        return Ok(false);
    }
    let goal = Goal::Opened(&name.tag, format.span);
    if !page.stack.reaches(goal, Bound::Scope(Scope::General)) {
        page.note(PageError::EndTagWithoutStart)?;
        return Ok(false);
    }
    let format = format.try_clone()?;
    take_format(page, name, &format)
}

/// Runs the adoption agency algorithm (HTML Standard 13.2.6.4.7).
#[tactic(auto, using(crate::proofs::Turning::agency_once, crate::proofs::Turning::agency_out))]
fn run_agency(page: &mut Page, name: &TagName) -> Result<(), AllocError>
    ensures { OnOk result (page_of page.new
        ≡ bodies.agency_run 8 name.now.tag (page_of page.old)) }
{
    for turn in 0..MOST_TURNS {
        if !end_format(page, name)? {
            return Ok(());
        }
    }
    Ok(())
}

/// Handles the end tag of a formatting element.
pub(crate) fn adopt(page: &mut Page, name: &TagName) -> Result<(), AllocError>
    ensures { OnOk result (page_of page.new ≡ bodies.adopted name.now.tag (page_of page.old)) }
{
    let is_current = page.stack.is_target(Target::Named(&name.tag));
    if is_current && !page.stack.is_listed(&page.formats) {
        return page.close(true);
    }
    run_agency(page, name)
}

/// Takes the entry of an `a` off, and closes its element if it is open still.
fn leave_anchor(page: &mut Page, name: &TagName, format: &Format) -> Result<(), AllocError>
    ensures { OnOk result (page_of page.new
        ≡ bodies.anchor_left name.now.tag (format_of format.now) (page_of page.old)) }
{
    page.formats.remove(Entry::Same(format), 0);
    if page.stack.is_open(format) {
        page.close_around(Goal::Opened(&name.tag, format.span))?;
    }
    Ok(())
}

/// Closes an `a` before the next.
pub(crate) fn close_anchor(page: &mut Page, name: &TagName) -> Result<(), AllocError>
    ensures { OnOk result (page_of page.new
        ≡ bodies.anchor_closed name.now.tag (page_of page.old)) }
{
    let Some(format) = page.formats.last_named(&name.tag) else {
        return Ok(());
    };
    let format = format.try_clone()?;
    page.note(PageError::NestedElement)?;
    adopt(page, name)?;
    leave_anchor(page, name, &format)
}
