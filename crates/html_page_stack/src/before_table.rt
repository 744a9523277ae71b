//! What is moved before a table, or to the end of a `template` (HTML Standard 13.2.6.1, foster
//! parenting).

ghost use Rattle.std.specs.Prelude.{◌≡◌, ◌∷◌, ◌++◌, IfOk, OnOk, drop, if◌then◌else◌, false, map, true};
ghost use Rattle.html_page_names.specs.PageNames.{of};
ghost use Rattle.html_page_names.specs.declared.kind.Kind.TheVariants as kind;
ghost use Rattle.html_page_stack.specs.OpenElements.{OpenElement, at, before_table, behind_current, in_current, is_before_table, is_of, without_current};
ghost use Rattle.html_page_stack.specs.{MovedViews.{moved_to}, PageViews.{element_of, stack_of}};

use crate::element::PageElement;
use crate::elements::at;
use crate::search::{Goal, Target};
use crate::stack::Stack;
use html_page_names::Kind;
use std::alloc::AllocError;

/// What is moved.
#[derive(Drop)]
pub(crate) enum Moved {
    /// A complete element.
    Element(PageElement),
    /// A text, unless it is empty.
    Text(String),
}

impl Moved {
    /// Adds it to an element.
    fn put_in(self, parent: PageElement) -> Result<PageElement, AllocError>
        ensures { IfOk result (λ grown. element_of grown ≡ moved_to self (element_of parent)) }
    {
        match self {
            Moved::Element(child) => parent.with_child(child),
            Moved::Text(text) => {
                let mut parent = parent;
                parent.add_text(text)?;
                Ok(parent)
            }
        }
    }
}

/// Elements that were taken off.
#[derive(Drop)]
struct Taken {
    /// The elements, the innermost first.
    inside: Vec<PageElement>,
    /// Whether the current node then stands right in a `template`, behind which things are moved.
    is_behind: bool,
}

impl Taken {
    /// Creates those behind whose surroundings things are moved.
    fn behind(inside: Vec<PageElement>) -> Taken
        ensures inside { result.inside.items ≡ inside.items }
        ensures behind { result.is_behind ≡ true }
    {
        Taken {
            inside,
            is_behind: true,
        }
    }

    /// Creates those into whose surroundings things are moved.
    fn around(inside: Vec<PageElement>) -> Taken
        ensures inside { result.inside.items ≡ inside.items }
        ensures behind { result.is_behind ≡ false }
    {
        Taken {
            inside,
            is_behind: false,
        }
    }
}

impl Stack {
    /// Returns whether the element around the current node is a `template`.
    fn is_in_template(&self) -> bool
        ensures { result ≡ at (is_of (of kind.Template)) (drop 1 (stack_of self.now)) }
    {
        match self.items.split_last() {
            None => false,
            Some((_, outer)) => at(outer, Goal::Of(Target::Kind(Kind::Template))),
        }
    }

    /// Takes the elements up to the nearest table off, and that table; or those in the one right in a
    /// nearer `template`; or all but the root, if there is neither.
    #[tactic(auto, using(crate::proofs::BeforeTables::in_template, crate::proofs::BeforeTables::at_table, crate::proofs::BeforeTables::past_other, crate::proofs::BeforeTables::at_root))]
    fn take_table(&mut self) -> Result<Taken, AllocError>
        ensures { IfOk result (λ taken. (add : OpenElement → OpenElement) →
            before_table add (stack_of self.old)
            ≡ map element_of taken.inside.items ++ (if taken.is_behind
            then behind_current add (stack_of self.new) else in_current add (stack_of self.new))) }
    {
        let mut inside = Vec::new(self.alloc);
        while 1 < self.len() {
            if !self.is_at(Kind::Table) && self.is_in_template() {
                return Ok(Taken::behind(inside));
            }
            let Some(element) = self.pop() else {
                break;
            };
            let is_table = element.is(Kind::Table);
            inside.push(element)?;
            if is_table {
                return Ok(Taken::around(inside));
            }
        }
        Ok(Taken::around(inside))
    }

    /// Adds what is moved to the current node.
    fn add_in_current(&mut self, moved: Moved) -> Result<(), AllocError>
        ensures { OnOk result (stack_of self.new
            ≡ in_current (moved_to moved) (stack_of self.old)) }
    {
        match self.pop() {
            None => Ok(()),
            Some(parent) => self.push(moved.put_in(parent)?),
        }
    }

    /// Returns an element in the current node with what is moved right behind it.
    #[tactic(auto, using(crate::proofs::Stacks::last_first))]
    fn with_behind(&self, element: PageElement, moved: Moved) -> Result<PageElement, AllocError>
        ensures { IfOk result (λ grown. element_of grown ∷ stack_of self.now
            ≡ behind_current (moved_to moved) (element_of element ∷ stack_of self.now)) }
    {
        let Some(around) = self.items.last() else {
            return Ok(element);
        };
        let mut element = element;
        let behind = element.take_behind(self.alloc, around.element.span);
        element.put_behind(moved.put_in(behind)?);
        Ok(element)
    }

    /// Adds what is moved right behind the current node.
    fn add_behind_current(&mut self, moved: Moved) -> Result<(), AllocError>
        ensures { OnOk result (stack_of self.new
            ≡ behind_current (moved_to moved) (stack_of self.old)) }
    {
        let Some(element) = self.pop() else {
            return Ok(());
        };
        let element = self.with_behind(element, moved)?;
        self.push(element)
    }

    /// Adds what is moved to the element around the nearest table, or at the end of a nearer
    /// `template`.
    #[inline(never)]
    pub(crate) fn add_before_table(&mut self, moved: Moved) -> Result<(), AllocError>
        ensures { OnOk result (stack_of self.new
            ≡ before_table (moved_to moved) (stack_of self.old)) }
    {
        let Taken { inside, is_behind } = self.take_table()?;
        if is_behind {
            self.add_behind_current(moved)?;
        } else {
            self.add_in_current(moved)?;
        }
        self.put_back(inside)
    }

    /// Completes the current node, which stands before the nearest table, unless it is the root.
    #[inline(never)]
    #[tactic(auto, using(crate::proofs::Stacks::moved_out))]
    pub(crate) fn close_before_table(&mut self) -> Result<(), AllocError>
        requires { at is_before_table (stack_of self.old) ≡ true }
        ensures { OnOk result (stack_of self.new ≡ without_current (stack_of self.old)) }
    {
        let Some(child) = self.pop() else {
            return Ok(());
        };
        if self.len() == 0 {
            return self.push(child);
        }
        self.add_before_table(Moved::Element(child))
    }
}
