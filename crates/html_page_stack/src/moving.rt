//! How open elements move when a block leaves a formatting element.

ghost use Rattle.std.specs.Prelude.{◌≡◌, ◌∷◌, ◌++◌, IfOk, OnOk, drop, map, take};
ghost use Rattle.html_page_stack.specs.Adoption as adoptions;
ghost use Rattle.html_page_stack.specs.OpenElements.{closed_times};
ghost use Rattle.html_page_stack.specs.PageViews.{element_of, format_of, stack_of};

use crate::element::PageElement;
use crate::formats::Format;
use crate::stack::Stack;
use std::alloc::{AllocError, Global};

impl Stack {
    /// Takes the current node off, if there is one, and adds it to others.
    fn take_current(&mut self, inside: &mut Vec<PageElement>) -> Result<(), AllocError>
        ensures inside { OnOk result (map element_of inside.new.items
            ≡ map element_of inside.old.items ++ take 1 (stack_of self.old)) }
        ensures left { OnOk result (stack_of self.new ≡ drop 1 (stack_of self.old)) }
    {
        if let Some(element) = self.pop() {
            inside.push(element)?;
        }
        Ok(())
    }

    /// Takes the elements inside that at the index off, the innermost first.
    #[tactic(auto, using(crate::proofs::Adopting::taken_next))]
    fn take_inside(&mut self, alloc: Global, index: usize) -> Result<Vec<PageElement>, AllocError>
        ensures inside { IfOk result (λ inside. map element_of inside.items
            ≡ adoptions.inside index (stack_of self.old)) }
        ensures left { OnOk result (stack_of self.new ≡ adoptions.outwards index (stack_of self.old)) }
    {
        let mut inside = Vec::new(alloc);
        let count = self.len().saturating_sub(index).saturating_sub(1);
        for taken in 0..count {
            self.take_current(&mut inside)?;
        }
        Ok(inside)
    }

    /// Puts elements back, of which the innermost is the first.
    pub(crate) fn put_back(&mut self, inside: Vec<PageElement>) -> Result<(), AllocError>
        ensures { OnOk result (stack_of self.new ≡ map element_of inside.items ++ stack_of self.old) }
    {
        let mut left = inside;
        while let Some(element) = left.pop() {
            self.push(element)?;
        }
        Ok(())
    }

    /// Completes the current node, so many times.
    #[tactic(auto, using(crate::proofs::Adopting::times_once, crate::proofs::Adopting::times_done))]
    pub(crate) fn close_times(&mut self, times: usize) -> Result<(), AllocError>
        ensures { OnOk result (stack_of self.new ≡ closed_times times (stack_of self.old)) }
    {
        for count in 0..times {
            self.close_current()?;
        }
        Ok(())
    }

    /// Opens elements for entries, the first entry first.
    fn open_all(&mut self, alloc: Global, kept: &[Format]) -> Result<(), AllocError>
        ensures { OnOk result (stack_of self.new
            ≡ adoptions.all_made (map format_of kept.now) (stack_of self.old)) }
    {
        for format in kept {
            self.insert(format.element(alloc)?)?;
        }
        Ok(())
    }

    /// Puts a new element for the formatting element into the block, which becomes the current node
    /// with the block's children, and opens elements for entries around the block.
    fn wrap_block(
        &mut self,
        alloc: Global,
        format: &Format,
        block: PageElement,
        kept: &[Format],
    ) -> Result<(), AllocError>
        ensures { OnOk result (stack_of self.new ≡ (let o = element_of block in
            adoptions.made_for (format_of format.now) o.children ∷ adoptions.emptied o
            (adoptions.all_made (map format_of kept.now) (stack_of self.old)))) }
    {
        let mut block = block;
        let mut inner = format.element(alloc)?;
        inner.take_children(alloc, &mut block);
        self.open_all(alloc, kept)?;
        self.insert(block)?;
        self.push(inner)
    }

    /// Moves the current node, the block, out of the formatting element, which stands so many elements
    /// outside of it.
    fn move_current(
        &mut self,
        alloc: Global,
        format: &Format,
        times: usize,
        kept: &[Format],
    ) -> Result<(), AllocError>
        ensures { OnOk result (stack_of self.new ≡ adoptions.block_moved (format_of format.now)
            times (map format_of kept.now) (stack_of self.old)) }
    {
        let Some(block) = self.pop() else {
            return Ok(());
        };
        self.close_times(times)?;
        self.uncover()?;
        self.wrap_block(alloc, format, block, kept)
    }

    /// Moves the block at that index out of the formatting element of the entry, with elements for the
    /// other entries around it.
    pub(crate) fn move_block(
        &mut self,
        alloc: Global,
        format: &Format,
        block: usize,
        kept: &[Format],
    ) -> Result<(), AllocError>
        ensures { OnOk result (stack_of self.new ≡ adoptions.stack_after
            (adoptions.adoption (format_of format.now) block (stack_of self.old))
            (map format_of kept.now)) }
    {
        let inside = self.take_inside(alloc, block)?;
        let times = block.saturating_sub(format.index);
        self.move_current(alloc, format, times, kept)?;
        self.put_back(inside)
    }
}
