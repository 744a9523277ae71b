//! A page that is being read, and the steps that its tokens take.

ghost use Rattle.std.specs.Prelude.{◌≡◌, ◌+◌, ◌^◌, ◌<◌, ◌==◌, [], OnOk, chars, drop, false, length, map, nat_lt, not, reverse};
ghost use Rattle.html_dom_tree.specs.Views.{attrs_view, text_view};
ghost use Rattle.html_page_names.specs.{Kinds.{IsKindsOf}, PageNames.{of}};
ghost use Rattle.html_page_names.specs.declared.kind.Kind.TheVariants as kind;
ghost use Rattle.html_page_stack.specs.Adoption.{adopted_from, adoption, entries_after, stack_after};
ghost use Rattle.html_page_stack.specs.{Copies.{copy_size, spare_at}, Endings.{Finishes}, Formats.{after_current}, OpenElements.{in_scope, root_alone}};
ghost use Rattle.html_page_stack.specs.PageViews.{element_of, format_of, goal_test, page_of, target_test, while_test};
ghost use Rattle.html_page_stack.specs.Pages as pages;
ghost use Rattle.html_page_stack.specs.{Pages.{most_attrs}, UnmadeNames.{IsLastNamed, PassesEnd}};

use crate::adoption::Adoption;
use crate::before_table::Moved;
use crate::element::PageElement;
use crate::error::PageError;
use crate::fault::PageRefusal;
use crate::formats::{Entry, Format, Formats, copies_size};
use crate::modes::{Destination, FramesetRule, Scope, Space, TableRule, TemplateMode};
use crate::notes::Notes;
use crate::search::{Bound, Goal, Target, While};
use crate::stack::Stack;
use crate::token::TagName;
use html_dom_tree::{HtmlAttrs, HtmlElement, Span, text};
use html_names_core::{HtmlTag, tag};
use html_page_names::{Kind, Kinds};
use std::alloc::{AllocError, Global};

/// The greatest number of attributes of an element.
pub const MOST_ATTRS: usize = 256;

/// The bytes that may be made again for each byte of the page, and beside them.
const COPIES_PER_BYTE: usize = 16;

const SPARE_COPIES: usize = 0x1_0000;

/// Returns whether so many attributes and so many more are too many.
fn is_over(count: usize, more: usize) -> bool
    ensures { result ≡ nat_lt most_attrs (count + more) }
{
    MOST_ATTRS < count || MOST_ATTRS - count < more
}

/// Returns where an element of that name stands: names that begin with `-` stand for those that no
/// element can have.
fn destination_of(tag: &HtmlTag) -> Destination
    ensures { result ≡ pages.destination_of tag.now }
{
    match text::split_first(tag.resolve()) {
        Some(('-', _)) => Destination::Replaced,
        _ => Destination::Parent,
    }
}

/// Returns the index of the last of the names that is the given one, among so many of the last.
fn last_named(names: &[HtmlTag], among: usize, name: &HtmlTag) -> Option<usize>
    ensures { IsLastNamed result names.now among name.now }
{
    let mut outer = names;
    let mut left = among;
    while let Some((last, before)) = outer.split_last() {
        if left == 0 {
            return None;
        }
        if *last == *name {
            return Some(before.len());
        }
        outer = before;
        left -= 1;
    }
    None
}

/// A page that is being read.
#[derive(Drop)]
pub struct Page {
    /// The allocator of its texts and elements.
    pub alloc: Global,
    /// The text since the last child of the current node.
    pub text: String,
    /// Whether it is moved before the nearest table.
    pub moved: bool,
    /// The open elements.
    pub stack: Stack,
    /// The active formatting elements.
    pub formats: Formats,
    /// The bytes of the tags of those elements that were made again.
    pub(crate) copied: usize,
    /// The span of the `form` that was begun last, unless its end tag ended it (HTML Standard
    /// 13.2.4.4).
    pub form: Option<Span>,
    /// The modes of the open `template` elements, outermost first (HTML Standard 13.2.4.1).
    pub templates: Vec<TemplateMode>,
    /// The names of the elements that were too deep to be made, and whose end tags are to come, the
    /// last one last.
    pub(crate) unmade: Vec<HtmlTag>,
    /// What a table does to an open `p`.
    pub tables: TableRule,
    /// What a `frameset` does.
    pub framesets: FramesetRule,
    pub(crate) limit: usize,
    /// The offset of the token in the text, in bytes.
    pub start: usize,
    /// The errors from which the reader recovered.
    pub notes: Notes,
    /// The first reason why the page is refused, with the offset of its place in the text, in bytes.
    pub refusal: Option<(PageRefusal, usize)>,
}

impl Page {
    /// Creates a page of which nothing is read, with a limit on the depth of its elements.
    #[tactic(auto, using(std::proofs::StrCases::chars_of_empty))]
    pub fn new(alloc: Global, limit: usize) -> Page
        ensures { page_of result ≡ pages.first_page limit }
    {
        Page {
            alloc,
            text: String::new(alloc),
            moved: false,
            stack: Stack::new(alloc),
            formats: Formats::new(alloc),
            copied: 0,
            form: None,
            templates: Vec::new(alloc),
            unmade: Vec::new(alloc),
            tables: TableRule::Unseen,
            framesets: FramesetRule::Ignored,
            limit,
            start: 0,
            notes: Notes::new(alloc),
            refusal: None,
        }
    }

    /// Refuses the page for what stands at that offset in the text, in bytes, unless it is refused
    /// already.
    pub fn refuse_at(&mut self, refusal: PageRefusal, place: usize)
        ensures { page_of self.new ≡ pages.refused_at refusal place (page_of self.old) }
    {
        if self.refusal.is_none() {
            self.refusal = Some((refusal, place));
        }
    }

    /// Refuses the page for the token, unless it is refused already.
    pub fn refuse(&mut self, refusal: PageRefusal)
        ensures { page_of self.new ≡ pages.refused refusal (page_of self.old) }
    {
        let place = self.start;
        self.refuse_at(refusal, place);
    }

    /// Records an error at the token.
    pub fn note(&mut self, error: PageError) -> Result<(), AllocError>
        ensures { OnOk result (page_of self.new ≡ pages.noted error (page_of self.old)) }
    {
        let place = self.start;
        self.notes.add(error, place)?;
        Ok(())
    }

    /// Records an error at the token, if there is one.
    pub fn note_if(&mut self, is_error: bool, error: PageError) -> Result<(), AllocError>
        ensures { OnOk result (page_of self.new ≡ pages.noted_if is_error error (page_of self.old)) }
    {
        if is_error { self.note(error) } else { Ok(()) }
    }

    /// Appends a character to the current node.
    pub fn add_char(&mut self, c: char) -> Result<(), AllocError>
        ensures { OnOk result (page_of self.new ≡ pages.with_char c (page_of self.old)) }
    {
        text::add(&mut self.text, c)?;
        Ok(())
    }

    /// Appends a text to the current node.
    pub fn add_text(&mut self, text: &str) -> Result<(), AllocError>
        ensures { OnOk result (page_of self.new ≡ pages.with_chars (chars text.now) (page_of self.old)) }
    {
        text::add_text(&mut self.text, text)?;
        Ok(())
    }

    /// Returns whether there is a text that is no child yet.
    pub fn has_text(&self) -> bool
        ensures { result ≡ not (length (page_of self.now).text == 0) }
    {
        !self.text.as_str().is_empty()
    }

    /// Takes the text that is no child yet.
    pub fn take_text(&mut self) -> String
        ensures taken { text_view result ≡ (page_of self.old).text }
        ensures left { page_of self.new ≡ record (page_of self.old) { text = [] } }
    {
        text::take(self.alloc, &mut self.text)
    }

    /// Makes the text a child of the current node, or of the element around the nearest table.
    pub fn settle(&mut self) -> Result<(), AllocError>
        ensures { OnOk result (page_of self.new ≡ pages.settled (page_of self.old)) }
    {
        let is_moved = self.moved;
        self.moved = false;
        if self.text.as_str().is_empty() {
            return Ok(());
        }
        let text = text::take(self.alloc, &mut self.text);
        if is_moved {
            self.stack.add_before_table(Moved::Text(text))
        } else {
            self.stack.add_text(text)
        }
    }

    /// Returns whether a `template` is open.
    pub fn has_template(&self) -> bool
        ensures { result ≡ pages.has_template (page_of self.now) }
    {
        !self.templates.is_empty()
    }

    fn push(&mut self, element: PageElement) -> Result<(), AllocError>
        ensures { OnOk result (page_of self.new ≡ pages.with_element (element_of element) (page_of self.old)) }
    {
        self.formats.enter(&element, self.stack.len())?;
        if !self.has_template() && element.is(Kind::Form) {
            self.form = Some(element.element.span);
        }
        self.unmade.clear();
        self.stack.push(element)?;
        Ok(())
    }

    /// Opens an element that is not too deep.
    fn open_new(
        &mut self,
        destination: Destination,
        space: Space,
        tag: HtmlTag,
        kinds: Kinds,
        attrs: HtmlAttrs,
    ) -> Result<(), AllocError>
        requires { IsKindsOf tag kinds }
        ensures { OnOk result (page_of self.new ≡ (let p = page_of self.old in pages.with_element
            (pages.made destination space tag (attrs_view attrs) p.start) (pages.settled p))) }
    {
        self.settle()?;
        let span = Span(self.start as u64);
        self.push(PageElement::new(self.alloc, destination, space, tag, kinds, attrs, span))
    }

    /// Returns whether an element was too deep to be made, and its end tag is to come.
    pub fn has_unmade(&self) -> bool
        ensures { result ≡ pages.has_unmade (page_of self.now) }
    {
        !self.unmade.is_empty()
    }

    /// Passes the end tag of an element over that was too deep to be made, and reports whether it is
    /// one: that of the last of that name, among as many as may be open.
    pub fn pass_end(&mut self, tag: &HtmlTag) -> bool
        ensures { PassesEnd result tag.now (page_of self.old) (page_of self.new) }
    {
        let most = if self.is_full() { self.limit } else { 0 };
        match last_named(self.unmade.as_slice(), most, tag) {
            None => false,
            Some(index) => {
                self.unmade.truncate(index);
                true
            }
        }
    }

    /// Returns whether an element in the current node would be too deep.
    pub fn is_full(&self) -> bool
        ensures { result ≡ pages.is_full (page_of self.now) }
    {
        self.limit <= self.stack.len()
    }

    /// Refuses the page for an element that would be too deep, and passes its start tag over.
    #[tactic(auto, using(crate::proofs::Unmade::added_last))]
    pub fn pass_start(&mut self, tag: HtmlTag) -> Result<(), AllocError>
        ensures { OnOk result (page_of self.new ≡ pages.not_made tag (page_of self.old)) }
    {
        self.refuse(PageRefusal::TooDeep);
        self.unmade.push(tag)?;
        Ok(())
    }

    /// Opens an element, unless it would be too deep: then the page is refused (HTML Standard
    /// 13.2.6.1).
    pub fn open_to(
        &mut self,
        destination: Destination,
        space: Space,
        tag: HtmlTag,
        kinds: Kinds,
        attrs: HtmlAttrs,
    ) -> Result<(), AllocError>
        requires { IsKindsOf tag kinds }
        ensures { OnOk result (page_of self.new
            ≡ pages.opened_to destination space tag (attrs_view attrs) (page_of self.old)) }
    {
        if self.is_full() {
            return self.pass_start(tag);
        }
        self.open_new(destination, space, tag, kinds, attrs)
    }

    /// Appends an element without children, unless it would be too deep: then the page is refused.
    pub fn add_to(
        &mut self,
        destination: Destination,
        space: Space,
        tag: HtmlTag,
        kinds: Kinds,
        attrs: HtmlAttrs,
    ) -> Result<(), AllocError>
        requires { IsKindsOf tag kinds }
        ensures { OnOk result (page_of self.new
            ≡ pages.added_to destination space tag (attrs_view attrs) (page_of self.old)) }
    {
        if self.is_full() {
            self.refuse(PageRefusal::TooDeep);
            return Ok(());
        }
        self.open_new(destination, space, tag, kinds, attrs)?;
        self.close(true)
    }

    /// Opens an element where its name and the rules of a body say, unless it would be too deep: then
    /// the page is refused.
    pub fn open_in(
        &mut self,
        space: Space,
        tag: HtmlTag,
        kinds: Kinds,
        attrs: HtmlAttrs,
    ) -> Result<(), AllocError>
        requires { IsKindsOf tag kinds }
        ensures { OnOk result (page_of self.new
            ≡ pages.opened_in space tag (attrs_view attrs) (page_of self.old)) }
    {
        let destination = self.stack.body_destination(destination_of(&tag));
        self.open_to(destination, space, tag, kinds, attrs)
    }

    /// Opens an element of HTML where its name says in the current node, also if that is a table,
    /// unless it would be too deep: then the page is refused.
    pub fn open_here(
        &mut self,
        tag: HtmlTag,
        kinds: Kinds,
        attrs: HtmlAttrs,
    ) -> Result<(), AllocError>
        requires { IsKindsOf tag kinds }
        ensures { OnOk result (page_of self.new
            ≡ pages.opened_here tag (attrs_view attrs) (page_of self.old)) }
    {
        self.open_to(destination_of(&tag), Space::Html, tag, kinds, attrs)
    }

    /// Appends an element without children where its name and the rules of a body say, unless it would
    /// be too deep: then the page is refused.
    pub fn add_in(
        &mut self,
        space: Space,
        tag: HtmlTag,
        kinds: Kinds,
        attrs: HtmlAttrs,
    ) -> Result<(), AllocError>
        requires { IsKindsOf tag kinds }
        ensures { OnOk result (page_of self.new
            ≡ pages.added_in space tag (attrs_view attrs) (page_of self.old)) }
    {
        let destination = self.stack.body_destination(destination_of(&tag));
        self.add_to(destination, space, tag, kinds, attrs)
    }

    /// Gives the attributes of another tag to the element of HTML at that index, outermost first, if
    /// it is of the kind, but for those that it has. Refuses the page if both have more than one
    /// element may have.
    pub fn merge_at(
        &mut self,
        index: usize,
        kind: Kind,
        others: HtmlAttrs,
    ) -> Result<(), AllocError>
        ensures { OnOk result (page_of self.new
            ≡ pages.merged index (of kind) (attrs_view others) (page_of self.old)) }
    {
        let count = self.stack.attr_count_at(index, kind);
        if is_over(count, others.0.len()) {
            self.refuse(PageRefusal::TooManyAttributes);
            return Ok(());
        }
        self.stack.merge_at(self.alloc, index, kind, others)
    }

    /// Removes what the list of active formatting elements loses when the current node is closed, by
    /// its own end tag or another.
    #[tactic(auto, using(crate::proofs::OpenFormats::left_by_others))]
    fn leave_formats(&mut self, own: bool)
        ensures { page_of self.new ≡ (let p = page_of self.old in
            record p { formats = after_current own p.stack p.formats }) }
    {
        if !own {
            return;
        }
        let stack = &self.stack;
        let Some((element, outer)) = stack.items.split_last() else {
            return;
        };
        if element.is(Kind::Marker) {
            self.formats.remove_marker();
        } else if element.is(Kind::Formatting) {
            self.formats.remove(Entry::Of(element, outer.len()), 0);
        }
    }

    /// Forgets the form if the current node is one, and is closed by its own end tag, outside of
    /// templates.
    fn leave_form(&mut self, own: bool)
        ensures { page_of self.new ≡ (let p = page_of self.old in
            record p { form = pages.form_behind own p }) }
    {
        if self.has_template() {
            return;
        }
        match self.stack.items.last() {
            Some(element) if own && element.is(Kind::Form) => self.form = None,
            _ => {}
        }
    }

    /// Closes the current node, by its own end tag or another.
    pub fn close(&mut self, own: bool) -> Result<(), AllocError>
        ensures { OnOk result (page_of self.new ≡ pages.closed own (page_of self.old)) }
    {
        self.settle()?;
        self.leave_formats(own);
        self.leave_form(own);
        self.stack.close_current()?;
        self.stack.uncover()
    }

    /// Closes the nearest element that is the goal, but nothing that is open in it.
    pub fn close_around(&mut self, goal: Goal<'_>) -> Result<(), AllocError>
        ensures { OnOk result (page_of self.new
            ≡ pages.closed_around (goal_test goal.entry) (page_of self.old)) }
    {
        if self.stack.is_goal(goal) {
            return self.close(true);
        }
        self.stack.remove(self.alloc, goal)
    }

    /// Closes the current node as long as the condition holds.
    #[tactic(auto, using(crate::proofs::Closing::while_once, crate::proofs::Closing::while_done))]
    pub fn close_while(&mut self, goes_on: While<'_>) -> Result<(), AllocError>
        ensures { let p = page_of self.old in
            OnOk result (page_of self.new
            ≡ pages.closed_while (while_test goes_on.entry) (length p.stack) p) }
    {
        let most = self.stack.len();
        for count in 0..most {
            if !self.stack.goes_on(goes_on) {
                return Ok(());
            }
            self.close(false)?;
        }
        Ok(())
    }

    /// Closes the nearest element that is the goal, with everything in it.
    pub fn close_to_goal(&mut self, goal: Goal<'_>) -> Result<(), AllocError>
        ensures { OnOk result (page_of self.new ≡ pages.closed_to_goal (goal_test goal.entry) (page_of self.old)) }
    {
        self.close_while(While::Above(goal))?;
        self.close(true)
    }

    /// Closes the nearest element of HTML that the target means, with everything in it.
    pub fn close_to(&mut self, target: Target<'_>) -> Result<(), AllocError>
        ensures { OnOk result (page_of self.new ≡ pages.closed_to (target_test target.entry) (page_of self.old)) }
    {
        self.close_to_goal(Goal::Of(target))
    }

    /// Closes elements whose end tag is implied, except those that `but` means (HTML Standard
    /// 13.2.6.3).
    pub fn close_implied(&mut self, but: Target<'_>) -> Result<(), AllocError>
        ensures { OnOk result (page_of self.new ≡ pages.implied_closed (target_test but.entry) (page_of self.old)) }
    {
        self.close_while(While::Implied(but))
    }

    /// Closes elements whose end tag is implied at the end of a `template` (HTML Standard 13.2.6.3).
    pub fn close_thoroughly(&mut self) -> Result<(), AllocError>
        ensures { OnOk result (page_of self.new ≡ pages.thoroughly_closed (page_of self.old)) }
    {
        self.close_while(While::ImpliedThoroughly)
    }

    /// Opens a `template`, unless it would be too deep: then the page is refused.
    #[tactic(auto, unfolding(html_names_core::specs::Tables::known_tags))]
    pub fn open_template(
        &mut self,
        destination: Destination,
        attrs: HtmlAttrs,
    ) -> Result<(), AllocError>
        ensures { OnOk result (page_of self.new
            ≡ pages.template_opened destination (attrs_view attrs) (page_of self.old)) }
    {
        let is_full = self.is_full();
        let name = TagName::new(tag::template);
        self.open_to(destination, Space::Html, name.tag, name.kinds, attrs)?;
        if is_full {
            return Ok(());
        }
        self.templates.push(TemplateMode::Unset)?;
        self.framesets = FramesetRule::Ignored;
        Ok(())
    }

    /// Forgets the mode of the innermost `template`.
    #[tactic(auto, using(crate::proofs::Templates::outer_modes))]
    pub fn leave_template(&mut self)
        ensures { page_of self.new ≡ (let p = page_of self.old in
            record p { templates = drop 1 p.templates }) }
    {
        let _ = self.templates.pop();
    }

    /// Closes the innermost `template` with everything in it.
    pub fn close_template(&mut self) -> Result<(), AllocError>
        ensures { OnOk result (page_of self.new
            ≡ pages.template_closed (page_of self.old)) }
    {
        self.close_to(Target::Kind(Kind::Template))?;
        self.leave_template();
        Ok(())
    }

    /// Drops the text that is no child yet, and all open elements but the root.
    pub fn keep_root(&mut self)
        ensures { page_of self.new ≡ (let p = page_of self.old in
            record p { text = []; moved = false; stack = root_alone p.stack }) }
    {
        let _ = self.take_text();
        self.moved = false;
        self.stack.keep_root();
    }

    /// Closes such an element, and records an error unless the current node is the named one.
    pub fn close_named(&mut self, named: Target<'_>, target: Target<'_>) -> Result<(), AllocError>
        ensures { OnOk result (page_of self.new ≡ pages.closed_named (target_test named.entry)
            (target_test target.entry) (page_of self.old)) }
    {
        let is_error = !self.stack.is_target(named);
        self.note_if(is_error, PageError::EndTagOverOpenElements)?;
        self.close_to(target)
    }

    /// Closes elements whose end tag is implied, and then such an element.
    pub fn close_over(
        &mut self,
        named: Target<'_>,
        target: Target<'_>,
        but: Target<'_>,
    ) -> Result<(), AllocError>
        ensures { OnOk result (page_of self.new ≡ pages.closed_over (target_test named.entry)
            (target_test target.entry) (target_test but.entry) (page_of self.old)) }
    {
        self.close_implied(but)?;
        self.close_named(named, target)
    }

    /// Returns whether such an element is in scope.
    pub fn in_scope(&self, scope: Scope, target: Target<'_>) -> bool
        ensures { result ≡ in_scope scope (target_test target.entry) (page_of self.now).stack }
    {
        self.stack.reaches(Goal::Of(target), Bound::Scope(scope))
    }

    /// Returns whether a `p` is in button scope.
    pub fn has_paragraph(&self) -> bool
        ensures { result ≡ in_scope Scope.Button (of kind.P) (page_of self.now).stack }
    {
        self.stack.has_paragraph()
    }

    /// Closes such an element by its end tag, if it is in scope.
    pub fn close_in(
        &mut self,
        scope: Scope,
        named: Target<'_>,
        target: Target<'_>,
        but: Target<'_>,
    ) -> Result<(), AllocError>
        ensures { OnOk result (page_of self.new ≡ pages.closed_in scope (target_test named.entry) (target_test target.entry)
            (target_test but.entry) (page_of self.old)) }
    {
        if self.in_scope(scope, target) {
            self.close_over(named, target, but)
        } else {
            self.note(PageError::EndTagWithoutStart)
        }
    }

    /// Opens an element for an entry again that takes so many bytes, and is not too deep.
    fn reopen(&mut self, format: Format, size: usize) -> Result<(), AllocError>
        requires size { size ≡ copy_size (format_of format) }
        requires spare { self.old.copied + size < 2 ^ 64 }
        ensures { OnOk result (page_of self.new
            ≡ pages.reopened (format_of format) (pages.settled (page_of self.old))) }
    {
        self.settle()?;
        self.copied += size;
        self.unmade.clear();
        let element = format.element(self.alloc)?;
        let index = self.stack.len();
        self.stack.insert(element)?;
        self.formats.push(Format { index, ..format })
    }

    /// Refuses the page, and leaves the entry as it is.
    fn keep_closed(&mut self, refusal: PageRefusal, format: Format) -> Result<(), AllocError>
        ensures { OnOk result (page_of self.new
            ≡ pages.kept_closed refusal (format_of format) (page_of self.old)) }
    {
        self.refuse(refusal);
        self.formats.push(format)
    }

    /// Returns the bytes that may still be made again.
    fn spare(&self) -> usize
        ensures { let p = page_of self.now in result ≡ spare_at p.start p.copied }
    {
        let most = self
            .start
            .saturating_mul(COPIES_PER_BYTE)
            .saturating_add(SPARE_COPIES);
        most.saturating_sub(self.copied)
    }

    /// Opens an element for an entry again, unless it would be too deep, or too much was made again:
    /// then the page is refused.
    fn open_again(&mut self, format: Format) -> Result<(), AllocError>
        ensures { OnOk result (page_of self.new ≡ pages.opened_again (format_of format) (page_of self.old)) }
    {
        if self.is_full() {
            return self.keep_closed(PageRefusal::TooDeep, format);
        }
        let spare = self.spare();
        match format.spend(spare) {
            None => self.keep_closed(PageRefusal::TooManyCopies, format),
            Some(left) => self.reopen(format, spare - left),
        }
    }

    /// Opens elements for entries again, the last entry first.
    fn open_all_again(&mut self, closed: Vec<Format>) -> Result<(), AllocError>
        ensures { OnOk result (page_of self.new ≡ pages.all_opened_again
            (reverse (map format_of closed.items)) (page_of self.old)) }
    {
        let mut left = closed;
        while let Some(format) = left.pop() {
            self.open_again(format)?;
        }
        Ok(())
    }

    /// Makes the formatting elements again that other tags closed (HTML Standard 13.2.4.3).
    pub fn reconstruct(&mut self) -> Result<(), AllocError>
        ensures { OnOk result (page_of self.new ≡ pages.reconstructed (page_of self.old)) }
    {
        if !self.formats.ends_closed(&self.stack) {
            return Ok(());
        }
        self.note(PageError::FormattingReopened)?;
        let closed = self.formats.take_closed(self.alloc, &self.stack)?;
        self.open_all_again(closed)
    }

    /// Moves a block whose copies take so many bytes.
    fn move_block(
        &mut self,
        format: &Format,
        block: usize,
        kept: Vec<Format>,
        size: usize,
    ) -> Result<(), AllocError>
        requires order { format.now.index < block }
        requires within { block < length (page_of self.old).stack }
        requires spare { self.old.copied + size < 2 ^ 64 }
        ensures { OnOk result (page_of self.new ≡ (let p = page_of self.old in
            let a = adoption (format_of format.now) block p.stack in
            let kept = map format_of kept.items in record p {
              stack = stack_after a kept;
              formats = reverse (entries_after a (length kept) 0 (reverse p.formats));
              copied = p.copied + size;
            })) }
    {
        let stack = &self.stack;
        let adoption = Adoption::new(format, block, stack);
        self.formats.adopt(self.alloc, adoption, kept.len())?;
        self.copied += size;
        self.stack.move_block(self.alloc, format, block, &kept)
    }

    /// Moves the furthest block at that index out of the formatting element of an entry, unless too
    /// much was made again: then the page is refused (HTML Standard 13.2.6.4.7).
    #[tactic(auto, using(crate::proofs::Adopting::reversed_twice))]
    pub fn adopt(&mut self, format: &Format, block: usize) -> Result<(), AllocError>
        requires order { format.now.index < block }
        requires within { block < length (page_of self.old).stack }
        ensures { OnOk result (page_of self.new
            ≡ adopted_from (format_of format.now) block (page_of self.old)) }
    {
        self.settle()?;
        let stack = &self.stack;
        let adoption = Adoption::new(format, block, stack);
        let kept = adoption.kept_entries(self.alloc, &self.formats)?;
        match copies_size(self.spare(), format, &kept) {
            None => {
                self.refuse(PageRefusal::TooManyCopies);
                Ok(())
            }
            Some(size) => self.move_block(format, block, kept, size),
        }
    }

    /// Returns the root with all its open elements complete, and the errors recovered from.
    pub fn finish(mut self) -> Result<(Option<HtmlElement>, Notes), AllocError>
        ensures { Finishes result (page_of self) }
    {
        self.settle()?;
        let Page { stack, notes, .. } = self;
        let root = stack.into_root()?;
        Ok((root, notes))
    }
}
