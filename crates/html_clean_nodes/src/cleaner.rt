//! The nodes that stay up to a point of a walk over foreign nodes, and the elements around it.

ghost use Rattle.std.specs.Prelude.{◌≡◌, ◌||◌, false, IfOk, OnOk, chars};
ghost use Rattle.html_names_core.specs.Kinds as kinds;
ghost use Rattle.html_page_names.specs.PageNames.{of};
ghost use Rattle.html_page_names.specs.declared.kind.Kind.TheVariants as kind;
ghost use Rattle.html_dom_tree.specs.{Tree.{none}, Views.{element_view, head_of, nodes_view}};
ghost use Rattle.html_dom_walk.specs.Walks.{event_of};
ghost use Rattle.html_clean_values.specs.Replaced.{replaced};
ghost use Rattle.html_clean_policy.specs.PolicyViews.{policy_view};
ghost use Rattle.html_clean_nodes.specs.Cleaned.{kept_head, parts, text_cleaned};
ghost use Rattle.html_clean_nodes.specs.Cleaning.{Stay, cleaning_view, entered, is_skipped, kept_entered, kept_left, left, no_cleaning, past_event, place_given, skips};

use crate::made::{add, add_text, first_text, part};
use html_clean_policy::{Policy, is_dropped};
use html_clean_values::replaced;
use html_dom_tree::{HtmlElement, HtmlNode, Span};
use html_dom_walk::Visit;
use html_names_core::HtmlTag;
use html_names_core::tag::{is_void, is_whitespace_collapsing};
use html_page_names::{Kind, kinds_of};
use html_page_nesting::surroundings::Surroundings;
use std::alloc::{AllocError, Global};
use std::mem;

/// An element that a walk has entered.
#[derive(Drop)]
pub(crate) enum Entry {
    /// One that stays, without its children, the nodes before it, and their surroundings.
    Kept(HtmlElement, Vec<HtmlNode>, Surroundings),
    /// One that gives place to its children, and whether its edges part words.
    GivesPlace(bool),
    /// One that goes with all that is in it.
    LeftOut,
}

#[derive(Drop)]
pub(crate) struct Cleaner {
    alloc: Global,
    /// The surroundings of the nodes that are made.
    around: Surroundings,
    /// The nodes that were made in the innermost element that stays.
    made: Vec<HtmlNode>,
    /// The innermost last.
    opened: Vec<Entry>,
}

/// Returns the element with the attributes that stay and without children.
fn kept_element(
    alloc: Global,
    policy: &Policy,
    element: &HtmlElement,
) -> Result<HtmlElement, AllocError>
    ensures { IfOk result (λ kept. element_view kept
        ≡ (kept_head (policy_view policy.now) (element_view element.now).0, none)) }
{
    let attrs = policy.kept_attrs(&element.tag, &element.attrs)?;
    let mut kept = HtmlElement::new(alloc, element.tag.try_clone()?);
    kept.attrs = attrs;
    kept.span = element.span;
    Ok(kept)
}

/// Returns whether words on both sides of an edge of such an element are apart.
fn parts(tag: &HtmlTag) -> bool
    ensures { result ≡ (kinds.is_whitespace_collapsing tag.now || of kind.ClosesP tag.now) }
{
    is_whitespace_collapsing(tag) || kinds_of(tag.resolve()).has(Kind::ClosesP)
}

/// An element that stays, without its children, and the surroundings of these.
#[derive(Drop)]
struct Stays {
    element: HtmlElement,
    inside: Surroundings,
}

impl Cleaner {
    pub(crate) fn new(alloc: Global) -> Cleaner
        ensures { cleaning_view result ≡ no_cleaning }
    {
        Cleaner {
            alloc,
            around: Surroundings::in_body(),
            made: Vec::new(alloc),
            opened: Vec::new(alloc),
        }
    }

    /// Goes past what a walk comes to. Returns whether what is below it is left out.
    pub(crate) fn pass(&mut self, policy: &Policy, visit: Visit<'_>) -> Result<bool, AllocError>
        ensures past { OnOk result (cleaning_view self.new ≡ past_event
            (policy_view policy.now) (cleaning_view self.old) (event_of visit.entry)) }
        ensures skips { IfOk result (λ skipped. skipped ≡ skips
            (policy_view policy.now) (cleaning_view self.old) (event_of visit.entry)) }
    {
        match visit {
            Visit::Enter(element) => return self.enter(policy, element),
            Visit::Text(text, span) => self.text(text.as_str(), span)?,
            Visit::Leave => self.leave()?,
            Visit::Tag(_) | Visit::Frame(_) => {}
        }
        Ok(false)
    }

    fn text(&mut self, text: &str, span: Span) -> Result<(), AllocError>
        ensures { OnOk result (cleaning_view self.new ≡ (let s = cleaning_view self.old in
            record s { made = text_cleaned s.around s.made (replaced (chars text.now)) span.0 })) }
    {
        let text = replaced(self.alloc, text)?;
        if !self.around.keeps_text(text.as_str()) {
            return Ok(());
        }
        let text = first_text(self.alloc, &self.made, text)?;
        add_text(&mut self.made, text, span)
    }

    /// Returns the element as it stays, if it does.
    fn stay(&self, policy: &Policy, element: &HtmlElement) -> Result<Option<Stays>, AllocError>
        ensures { IfOk result (Stay (policy_view policy.now) self.now.around
            (element_view element.now).0) }
    {
        if !policy.allows(&element.tag) {
            return Ok(None);
        }
        let element = kept_element(self.alloc, policy, element)?;
        match self.around.kept_inside(&element) {
            Some(inside) => Ok(Some(Stays { element, inside })),
            None => Ok(None),
        }
    }

    /// Returns whether what is in the element is left out.
    fn enter(&mut self, policy: &Policy, element: &HtmlElement) -> Result<bool, AllocError>
        ensures entered { OnOk result (cleaning_view self.new ≡ entered (policy_view policy.now)
            (cleaning_view self.old) (element_view element.now).0) }
        ensures skips { IfOk result (λ skipped. skipped ≡ is_skipped (policy_view policy.now)
            (cleaning_view self.old) (element_view element.now).0) }
    {
        if is_dropped(&element.tag) {
            self.opened.push(Entry::LeftOut)?;
            return Ok(true);
        }
        match self.stay(policy, element)? {
            Some(stays) => self.enter_kept(stays),
            None => self.give_place(element),
        }
    }

    /// Returns whether the element is void.
    fn enter_kept(&mut self, stays: Stays) -> Result<bool, AllocError>
        ensures entered { OnOk result (cleaning_view self.new ≡ kept_entered
            (cleaning_view self.old) (element_view stays.element).0 stays.inside) }
        ensures void { IfOk result (λ is_void.
            is_void ≡ kinds.is_void (element_view stays.element).0.name) }
    {
        let Stays { element, inside } = stays;
        let is_void = is_void(&element.tag);
        let made = mem::replace(&mut self.made, Vec::new(self.alloc));
        self.opened.push(Entry::Kept(element, made, self.around))?;
        self.around = inside;
        Ok(is_void)
    }

    fn give_place(&mut self, element: &HtmlElement) -> Result<bool, AllocError>
        ensures entered { OnOk result (cleaning_view self.new ≡ place_given
            (cleaning_view self.old) (parts (element_view element.now).0)) }
        ensures skips { IfOk result (λ skipped. skipped ≡ false) }
    {
        let apart = parts(&element.tag);
        part(self.alloc, apart, &mut self.made)?;
        self.opened.push(Entry::GivesPlace(apart))?;
        Ok(false)
    }

    fn leave(&mut self) -> Result<(), AllocError>
        ensures { OnOk result (cleaning_view self.new ≡ left (cleaning_view self.old)) }
    {
        match self.opened.pop() {
            None | Some(Entry::LeftOut) => Ok(()),
            Some(Entry::GivesPlace(apart)) => part(self.alloc, apart, &mut self.made),
            Some(Entry::Kept(element, made, around)) => self.leave_kept(element, made, around),
        }
    }

    /// Goes on behind an element, which gets the nodes that were made in it.
    fn leave_kept(
        &mut self,
        element: HtmlElement,
        made: Vec<HtmlNode>,
        around: Surroundings,
    ) -> Result<(), AllocError>
        ensures { OnOk result (cleaning_view self.new ≡ kept_left (cleaning_view self.old)
            (head_of element) (nodes_view made.items) around) }
    {
        let children = mem::replace(&mut self.made, made);
        self.around = around;
        add(
            &mut self.made,
            HtmlNode::from(element.with_children(children)),
        )
    }

    pub(crate) fn into_nodes(self) -> Vec<HtmlNode>
        ensures { nodes_view result.items ≡ (cleaning_view self).made }
    {
        self.made
    }
}
