//! The adoption agency algorithm: a block moves out of the formatting element around it (HTML
//! Standard 13.2.6.4.7).

ghost use Rattle.std.specs.Prelude.{◌≡◌, ◌∷◌, [], ◌++◌, ◌^◌, ◌<◌, IfOk, OnOk, length, map, option_map};
ghost use Rattle.html_page_stack.specs.Adoption as adoptions;
ghost use Rattle.html_page_stack.specs.AdoptionViews.{IsInReach, adoption_of};
ghost use Rattle.html_page_stack.specs.PageViews.{entries_of, format_of, stack_of};

use crate::elements::{index_outwards, shown_count};
use crate::formats::{Format, Formats};
use crate::stack::Stack;
use std::alloc::{AllocError, Global};

/// The number of elements around a block that are made again.
const MOST_KEPT: usize = 3;

/// A formatting element and its furthest block, by its entry and the index of the block.
#[derive(Clone, Copy)]
pub(crate) struct Adoption<'a> {
    format: &'a Format,
    block: usize,
    stack: &'a Stack,
    /// The index of the third element around the block.
    third: usize,
    /// How many elements stay open around the formatting element.
    base: usize,
}

fn put(entries: &mut Vec<Option<Format>>, entry: Option<Format>) -> Result<(), AllocError>
    ensures { OnOk result (entries_of entries.new.items
        ≡ entries_of entries.old.items ++ option_map format_of entry ∷ []) }
{
    entries.push(entry)?;
    Ok(())
}

impl<'a> Adoption<'a> {
    /// Creates the adoption of the block at that index.
    pub(crate) fn new(format: &'a Format, block: usize, stack: &'a Stack) -> Adoption<'a>
        requires order { format.now.index < block }
        requires within { block < length (stack_of stack.now) }
        ensures { adoption_of result
            ≡ adoptions.adoption (format_of format.now) block (stack_of stack.now) }
    {
        let items = &stack.items;
        Adoption {
            format,
            block,
            stack,
            third: index_outwards(&items[..block], MOST_KEPT),
            base: shown_count(&items[..format.index]),
        }
    }

    /// Returns whether the element of the entry stands between them.
    fn is_between(self, format: &Format) -> bool
        ensures { result ≡ adoptions.is_between (adoption_of self.entry) (format_of format.now) }
    {
        self.stack.is_open(format) && self.format.index < format.index && format.index < self.block
    }

    /// Returns whether it is made again around the block.
    fn is_kept(self, format: &Format) -> bool
        ensures { result ≡ adoptions.is_kept (adoption_of self.entry) (format_of format.now) }
    {
        self.is_between(format) && self.third <= format.index
    }

    /// Returns the entries of the elements that are made again, the first entry first.
    pub(crate) fn kept_entries(
        self,
        alloc: Global,
        formats: &Formats,
    ) -> Result<Vec<Format>, AllocError>
        ensures { IfOk result (λ kept. map format_of kept.items
            ≡ adoptions.kept_entries (adoption_of self.entry) (entries_of formats.now.entries.items)) }
    {
        let mut kept = Vec::new(alloc);
        for entry in &formats.entries {
            if let Some(format) = entry
                && self.is_kept(format)
            {
                kept.push(format.try_clone()?)?;
            }
        }
        Ok(kept)
    }

    /// Returns the entry of the formatting element, once so many elements are made around the block.
    fn new_entry(self, count: usize) -> Result<Format, AllocError>
        requires { IsInReach (adoption_of self) count }
        ensures { IfOk result (λ entry. format_of entry
            ≡ adoptions.new_entry (adoption_of self.entry) count) }
    {
        let mut entry = self.format.try_clone()?;
        entry.index = self.base + count + 1;
        Ok(entry)
    }

    /// Adds that entry, if it stands here.
    fn put_new(
        self,
        entries: &mut Vec<Option<Format>>,
        is_there: bool,
        count: usize,
    ) -> Result<(), AllocError>
        requires { IsInReach (adoption_of self) count }
        ensures { OnOk result (entries_of entries.new.items ≡ entries_of entries.old.items
            ++ adoptions.entry_if is_there (adoption_of self.entry) count) }
    {
        if !is_there {
            return Ok(());
        }
        put(entries, Some(self.new_entry(count)?))
    }

    /// Returns the entry of an element within the block with its index afterwards, or another as it
    /// is.
    fn entry_within(self, count: usize, format: Format) -> Format
        requires { IsInReach (adoption_of self) count }
        ensures { format_of result
            ≡ adoptions.entry_within (adoption_of self.entry) count (format_of format) }
    {
        if !self.stack.is_open(&format) || format.index <= self.block {
            return format;
        }
        let index = self.base + count + 2 + (format.index - self.block - 1);
        Format { index, ..format }
    }

    /// Adds what becomes of an entry, where so many elements are made, and so many of them come before
    /// it.
    fn put_entry(
        self,
        entries: &mut Vec<Option<Format>>,
        count: usize,
        before: usize,
        entry: Option<Format>,
    ) -> Result<(), AllocError>
        requires reach { IsInReach (adoption_of self) count }
        requires before { before < 2 ^ 63 }
        ensures { OnOk result (entries_of entries.new.items ≡ entries_of entries.old.items
            ++ adoptions.entry_after (adoption_of self.entry) count before
            (option_map format_of entry)) }
    {
        let Some(format) = entry else {
            return put(entries, None);
        };
        if format.is_same(self.format) {
            return self.put_new(entries, count == 0, count);
        }
        if self.is_kept(&format) {
            let index = self.base + before;
            put(entries, Some(Format { index, ..format }))?;
            return self.put_new(entries, before + 1 == count, count);
        }
        if self.is_between(&format) {
            return Ok(());
        }
        put(entries, Some(self.entry_within(count, format)))
    }

    /// Returns how many elements come before the next entry.
    fn count_after(self, before: usize, entry: &Option<Format>) -> usize
        requires { before < 2 ^ 63 }
        ensures { result ≡ adoptions.count_after (adoption_of self.entry) before
            (option_map format_of entry.now) }
    {
        match entry {
            Some(format) if self.is_kept(format) => before + 1,
            _ => before,
        }
    }

    /// Returns the list afterwards, of which so many elements are made.
    #[tactic(auto, using(std::proofs::Common::append_assoc, crate::proofs::Adopting::count_grows))]
    pub(crate) fn entries_after(
        self,
        alloc: Global,
        count: usize,
        entries: Vec<Option<Format>>,
    ) -> Result<Vec<Option<Format>>, AllocError>
        requires { IsInReach (adoption_of self) count }
        ensures { IfOk result (λ after. entries_of after.items
            ≡ adoptions.entries_after (adoption_of self.entry) count 0 (entries_of entries.items)) }
    {
        let mut after = Vec::new(alloc);
        let mut before = 0;
        for entry in entries {
            let next = self.count_after(before, &entry);
            self.put_entry(&mut after, count, before, entry)?;
            before = next;
        }
        Ok(after)
    }
}
