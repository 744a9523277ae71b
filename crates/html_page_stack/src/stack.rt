//! The open elements of a page.

ghost use Rattle.std.proofs.Props.{props};
ghost use Rattle.html_page_stack.specs.Contexts.{AreKnown, contexts_are_set};

use crate::context::Context;
use crate::element::PageElement;
use crate::elements::{
    at, attr_count_at, furthest_block, is_open, merge_at, own_mode, reaches, root_mode,
};
use crate::formats::{Entry, Format, Formats};
use crate::milestone::{Milestone, SPACING, known_of};
use crate::modes::{Destination, Mode, Scope, Space};
use crate::search::{Bound, Goal, Target, While, bounds};
use html_dom_tree::{HtmlAttrs, HtmlElement};
use html_names_core::HtmlTag;
use html_page_names::Kind;
use std::alloc::{AllocError, Global};

/// The open elements of a page, the innermost last.
#[derive(Drop)]
pub struct Stack {
    pub(crate) alloc: Global,
    /// The elements, outermost first.
    pub items: Vec<PageElement>,
    ghost known: { AreKnown items.items } by { Prim.hlevel (props, contexts_are_set) },
}

impl Stack {
    ghost use Rattle.std.specs.Prelude.{◌≡◌, ◌∷◌, [], false, IfOk, IfSome, OnOk, length, option_map, reverse};
    ghost use Rattle.html_dom_tree.specs.Views.{attrs_view, element_view, node_view, text_view};
    ghost use Rattle.html_dom_tree.specs.declared.node.HtmlNode.TheVariants.{Element};
    ghost use Rattle.html_page_names.specs.PageNames.{of};
    ghost use Rattle.html_page_names.specs.declared.kind.Kind.TheVariants as kind;
    ghost use Rattle.html_page_stack.specs.{Contexts.{brought_mode, context}, Milestones.{known_around}};
    ghost use Rattle.html_page_stack.specs.Endings.{Pops};
    ghost use Rattle.html_page_stack.specs.Adoption.{furthest_block, put_in};
    ghost use Rattle.html_page_stack.specs.Pages.{body_destination};
    ghost use Rattle.html_page_stack.specs.AdoptionViews.{IsInside};
    ghost use Rattle.html_page_stack.specs.Formats.{is_last, is_listed, is_open};
    ghost use Rattle.html_page_stack.specs.OpenElements.{OpenElement, at, attr_count_at, hold_template, holds_table_text, root_alone, with_attrs_at, with_last_child, current_name, in_current, in_scope, is_at, is_before_table, is_in_foreign, is_removed, is_table_context, current_space, mode, reaches, removed, root_of, uncovered, with_last_text, without_current};
    ghost use Rattle.html_page_stack.specs.PageViews.{bound_test, element_of, format_of, formats_of, goal_test, stack_of, target_test, while_test};

    /// Creates a stack without elements.
    pub fn new(alloc: Global) -> Stack
        ensures { stack_of result ≡ [] }
    {
        Stack {
            alloc,
            items: Vec::new(alloc),
        }
    }

    pub fn len(&self) -> usize
        ensures { result ≡ length (stack_of self.now) }
    {
        self.items.len()
    }

    /// Returns whether a search from the current node on reaches the goal before the bound.
    pub fn reaches(&self, goal: Goal<'_>, bound: Bound) -> bool
        ensures { result ≡ reaches (goal_test goal.entry) (bound_test bound) (stack_of self.now) }
    {
        reaches(&self.items, goal, bound)
    }

    /// Returns whether the current node is an element of HTML that the target means.
    pub fn is_target(&self, target: Target<'_>) -> bool
        ensures { result ≡ is_at (target_test target.entry) (stack_of self.now) }
    {
        self.is_goal(Goal::Of(target))
    }

    /// Returns whether the current node is the goal.
    pub fn is_goal(&self, goal: Goal<'_>) -> bool
        ensures { result ≡ at (goal_test goal.entry) (stack_of self.now) }
    {
        at(&self.items, goal)
    }

    /// Returns whether the element of the entry is open.
    pub fn is_open(&self, format: &Format) -> bool
        ensures { result ≡ is_open (format_of format.now) (stack_of self.now) }
    {
        is_open(&self.items, format)
    }

    /// Returns the index of the furthest block of the formatting element at that index.
    pub fn furthest_block(&self, index: usize) -> Option<usize>
        ensures block { result ≡ furthest_block index (stack_of self.now) }
        ensures inside { IfSome result (λ block. IsInside index block (stack_of self.now)) }
    {
        furthest_block(&self.items, index)
    }

    /// Returns whether the list of active formatting elements has an entry of the current node.
    #[tactic(auto, using(crate::proofs::OpenFormats::as_many, crate::proofs::Stacks::last_first))]
    pub fn is_listed(&self, formats: &Formats) -> bool
        ensures { result ≡ is_listed (stack_of self.now) (formats_of formats.now) }
    {
        match self.items.split_last() {
            None => false,
            Some((element, outer)) => formats.has(Entry::Of(element, outer.len())),
        }
    }

    /// Returns whether the last entry of the list of active formatting elements is that of the
    /// current node.
    #[tactic(auto, using(crate::proofs::OpenFormats::as_many, crate::proofs::Stacks::last_first))]
    pub fn is_last(&self, formats: &Formats) -> bool
        ensures { result ≡ is_last (stack_of self.now) (formats_of formats.now) }
    {
        match self.items.split_last() {
            None => false,
            Some((element, outer)) => formats.ends_with(Entry::Of(element, outer.len())),
        }
    }

    /// Returns whether more elements must be closed.
    pub(crate) fn goes_on(&self, goes_on: While<'_>) -> bool
        ensures { result ≡ while_test goes_on.entry (stack_of self.now) }
    {
        match goes_on {
            While::Above(goal) => !self.is_goal(goal),
            While::Implied(but) => self.is_at(Kind::Implied) && !self.is_target(but),
            While::ImpliedThoroughly => self.is_at(Kind::Implied) || self.is_at(Kind::TablePart),
            While::InPart(kind) => {
                !(self.is_at(kind) || self.is_at(Kind::Template) || self.is_at(Kind::Html))
            }
        }
    }

    /// Returns whether the current node is an element of HTML of the kind.
    pub fn is_at(&self, kind: Kind) -> bool
        ensures { result ≡ is_at (of kind) (stack_of self.now) }
    {
        self.is_target(Target::Kind(kind))
    }

    /// Returns whether the current node is an element of SVG or MathML.
    pub fn is_in_foreign(&self) -> bool
        ensures { result ≡ is_in_foreign (stack_of self.now) }
    {
        match self.items.last() {
            None => false,
            Some(element) => !element.is_html(),
        }
    }

    /// Returns whether a text in the current node is judged as a whole by the rules of tables (HTML
    /// Standard 13.2.6.4.9).
    pub fn holds_table_text(&self) -> bool
        ensures { result ≡ at holds_table_text (stack_of self.now) }
    {
        match self.items.last() {
            None => false,
            Some(element) => element.holds_table_text(),
        }
    }

    /// Returns whether the current node is a table, a section of it or a row.
    pub fn is_in_table(&self) -> bool
        ensures { result ≡ at is_table_context (stack_of self.now) }
    {
        match self.items.last() {
            None => false,
            Some(element) => element.is_table_context(),
        }
    }

    /// Returns the destination of what the rules of a body insert, where they would put it into the
    /// current node (HTML Standard 13.2.6.1, foster parenting).
    pub fn body_destination(&self, destination: Destination) -> Destination
        ensures { result ≡ body_destination destination (stack_of self.now) }
    {
        if !self.is_in_table() {
            return destination;
        }
        match destination {
            Destination::Replaced => Destination::ReplacedBeforeTable,
            _ => Destination::BeforeTable,
        }
    }

    /// Returns the name of the current node.
    pub fn current_tag(&self) -> Option<&HtmlTag>
        ensures { option_map (λ tag. tag.now) result ≡ current_name (stack_of self.now) }
    {
        match self.items.last() {
            None => None,
            Some(element) => Some(&element.element.tag),
        }
    }

    /// Returns the namespace of the current node.
    pub fn current_space(&self) -> Space
        ensures { result ≡ current_space (stack_of self.now) }
    {
        match self.items.last() {
            None => Space::Html,
            Some(element) => element.space,
        }
    }

    /// Returns the facts about the current node.
    fn context(&self) -> Context
        ensures { result ≡ context (stack_of self.now) }
    {
        match self.items.last() {
            None => Context::OUTSIDE,
            Some(element) => element.context,
        }
    }

    /// Returns the insertion mode (HTML Standard 13.2.4.1).
    #[tactic(auto, using(crate::proofs::Contexts::mode_known))]
    pub fn mode(&self) -> Mode
        ensures { result ≡ mode (stack_of self.now) }
    {
        match self.context().mode {
            None => root_mode(&self.items),
            Some(mode) => mode,
        }
    }

    /// Returns whether a `p` is in button scope.
    pub(crate) fn has_paragraph(&self) -> bool
        ensures { result ≡ in_scope Scope.Button (of kind.P) (stack_of self.now) }
    {
        self.context().has_paragraph
    }

    /// Returns the mode that an element and those around it set once it is the current node.
    #[inline(always)]
    fn mode_with(&self, element: &PageElement) -> Option<Mode>
        ensures { result ≡ brought_mode (element_of element.now ∷ stack_of self.now) }
    {
        match own_mode(element, &self.items) {
            None => self.context().mode,
            Some(mode) => Some(mode),
        }
    }

    /// Returns whether a `p` is in button scope once an element is the current node.
    #[inline(always)]
    fn has_paragraph_with(&self, element: &PageElement) -> bool
        ensures { result
            ≡ in_scope Scope.Button (of kind.P) (element_of element.now ∷ stack_of self.now) }
    {
        element.is(Kind::P) || (!bounds(Scope::Button, element) && self.has_paragraph())
    }

    /// Returns what any element knows of those around it once it is the current node.
    #[inline(always)]
    fn next_milestone(&self) -> Option<Milestone>
        ensures { (o : OpenElement) → result ≡ known_around (o ∷ stack_of self.now) }
    {
        if self.len() % SPACING == 0 {
            Some(known_of(&self.items))
        } else {
            None
        }
    }

    /// Returns the facts about an element once it is the current node.
    #[inline(always)]
    fn context_with(&self, element: &PageElement) -> Context
        ensures { result ≡ context (element_of element.now ∷ stack_of self.now) }
    {
        Context {
            mode: self.mode_with(element),
            has_paragraph: self.has_paragraph_with(element),
            milestone: self.next_milestone(),
        }
    }

    /// Pushes an element that has the facts about it.
    #[inline(always)]
    fn put(&mut self, element: PageElement) -> Result<(), AllocError>
        requires { element.context ≡ context (element_of element ∷ stack_of self.old) }
        ensures { OnOk result (stack_of self.new ≡ element_of element ∷ stack_of self.old) }
    {
        self.items.push(element)?;
        Ok(())
    }

    #[inline(always)]
    pub(crate) fn push(&mut self, element: PageElement) -> Result<(), AllocError>
        ensures { OnOk result (stack_of self.new ≡ element_of element ∷ stack_of self.old) }
    {
        let mut element = element;
        element.context = self.context_with(&element);
        self.put(element)
    }

    /// Pushes an element where the rules of a body insert it.
    pub(crate) fn insert(&mut self, element: PageElement) -> Result<(), AllocError>
        ensures { OnOk result (stack_of self.new
            ≡ put_in (stack_of self.old) (element_of element) ∷ stack_of self.old) }
    {
        let mut element = element;
        element.destination = self.body_destination(Destination::Parent);
        self.push(element)
    }

    /// Appends a text to the current node, unless the text is empty.
    pub(crate) fn add_text(&mut self, text: String) -> Result<(), AllocError>
        ensures { OnOk result (stack_of self.new
            ≡ with_last_text (text_view text) (stack_of self.old)) }
    {
        match self.items.last_mut() {
            None => Ok(()),
            Some(element) => element.add_text(text),
        }
    }

    /// Appends an element to the current node.
    #[inline(always)]
    fn add_child(&mut self, child: HtmlElement) -> Result<(), AllocError>
        ensures { OnOk result (stack_of self.new
            ≡ in_current (with_last_child (node_view (Element child))) (stack_of self.old)) }
    {
        match self.items.last_mut() {
            None => Ok(()),
            Some(element) => element.add_child(child),
        }
    }

    /// Takes the current node off, without completing it.
    #[tactic(auto, using(crate::proofs::Contexts::rest_known, crate::proofs::Stacks::last_first))]
    pub(crate) fn pop(&mut self) -> Option<PageElement>
        ensures { Pops result (stack_of self.old) (stack_of self.new) }
    {
        self.items.pop()
    }

    /// Completes an element that was the current node, and does not stand before a table, unless it is
    /// the root.
    #[inline(never)]
    fn complete_here(&mut self, child: PageElement) -> Result<(), AllocError>
        requires { is_before_table (element_of child) ≡ false }
        ensures { OnOk result (stack_of self.new
            ≡ without_current (element_of child ∷ stack_of self.old)) }
    {
        match self.pop() {
            None => self.push(child),
            Some(parent) => self.push(parent.with_child(child)?),
        }
    }

    /// Completes the current node, which stands in the element around it, unless it is the root.
    #[inline(always)]
    #[tactic(auto, using(crate::proofs::Currents::closed_in))]
    fn close_here(&mut self) -> Result<(), AllocError>
        requires { at is_before_table (stack_of self.old) ≡ false }
        ensures { OnOk result (stack_of self.new ≡ without_current (stack_of self.old)) }
    {
        let Some(child) = self.pop() else {
            return Ok(());
        };
        match child.destination {
            Destination::Parent if self.len() != 0 && child.behind.is_empty() => {
                self.add_child(child.element)
            }
            _ => self.complete_here(child),
        }
    }

    /// Completes the current node, unless it is the root.
    #[inline(always)]
    pub(crate) fn close_current(&mut self) -> Result<(), AllocError>
        ensures { OnOk result (stack_of self.new ≡ without_current (stack_of self.old)) }
    {
        match self.items.last() {
            Some(element) if element.is_before_table() => self.close_before_table(),
            _ => self.close_here(),
        }
    }

    /// Completes the current node as long as it was removed, at least once.
    #[tactic(auto, using(crate::proofs::Uncovering::uncovered_once, crate::proofs::Uncovering::uncovered_done))]
    fn complete_removed(&mut self) -> Result<(), AllocError>
        ensures { OnOk result (stack_of self.new ≡ uncovered (stack_of self.old)) }
    {
        let most = self.len();
        for count in 0..most {
            if !self.is_removed() {
                return Ok(());
            }
            self.close_current()?;
        }
        Ok(())
    }

    /// Returns whether the current node was removed.
    fn is_removed(&self) -> bool
        ensures { result ≡ at (λ o. is_removed o.space) (stack_of self.now) }
    {
        match self.items.last() {
            None => false,
            Some(element) => element.is_removed(),
        }
    }

    /// Completes the current node as long as it was removed.
    #[inline(always)]
    #[tactic(auto, using(crate::proofs::Uncovering::none_removed))]
    pub(crate) fn uncover(&mut self) -> Result<(), AllocError>
        ensures { OnOk result (stack_of self.new ≡ uncovered (stack_of self.old)) }
    {
        if self.is_removed() {
            self.complete_removed()
        } else {
            Ok(())
        }
    }

    /// Removes the nearest element that is the goal, if there is one: it is complete once nothing in
    /// it is open.
    pub(crate) fn remove(&mut self, alloc: Global, goal: Goal<'_>) -> Result<(), AllocError>
        ensures { OnOk result (stack_of self.new
            ≡ removed (goal_test goal.entry) (stack_of self.old)) }
    {
        let mut inside = Vec::new(alloc);
        while let Some(mut element) = self.pop() {
            if goal.is(&element) {
                element.space = Space::Removed;
                self.push(element)?;
                break;
            }
            inside.push(element)?;
        }
        self.put_back(inside)
    }

    /// Returns the number of the attributes of the element at that index, if it is one of HTML of
    /// the kind.
    pub(crate) fn attr_count_at(&self, index: usize, kind: Kind) -> usize
        ensures { result ≡ attr_count_at index (of kind) (reverse (stack_of self.now)) }
    {
        attr_count_at(&self.items, index, kind)
    }

    /// Gives the element at that index those of the attributes that it lacks, if it is one of HTML
    /// of the kind.
    pub(crate) fn merge_at(
        &mut self,
        alloc: Global,
        index: usize,
        kind: Kind,
        others: HtmlAttrs,
    ) -> Result<(), AllocError>
        ensures { OnOk result (stack_of self.new ≡ reverse (with_attrs_at index (of kind)
            (attrs_view others) (reverse (stack_of self.old)))) }
    {
        merge_at(&mut self.items, alloc, index, kind, others)
    }

    /// Drops all elements but the root.
    #[tactic(auto, using(crate::proofs::Roots::alone_past, crate::proofs::Roots::alone_is))]
    pub(crate) fn keep_root(&mut self)
        ensures { stack_of self.new ≡ root_alone (stack_of self.old) }
    {
        while 1 < self.len() {
            let _ = self.pop();
        }
    }

    /// Returns whether an element among the children of the current node has a `template` in it.
    pub fn holds_template(&self) -> bool
        ensures { result ≡ at (λ o. hold_template o.children) (stack_of self.now) }
    {
        match self.items.last() {
            None => false,
            Some(element) => element.holds_template(),
        }
    }

    /// Returns the root, with all its open elements complete.
    pub(crate) fn into_root(mut self) -> Result<Option<HtmlElement>, AllocError>
        ensures { IfOk result (λ root.
            option_map element_view root ≡ root_of (stack_of self)) }
    {
        let count = self.len();
        self.close_times(count)?;
        match self.pop() {
            None => Ok(None),
            Some(root) => Ok(Some(root.element)),
        }
    }
}
