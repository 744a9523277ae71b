//! Takes all memory, so that a call finds none, and then returns a little more each time.

use std::alloc::{AllocError, Global};

/// The greatest number of blocks.
const MOST_BLOCKS: usize = 400_000;

/// The size of the largest block that is tried.
const LARGEST: usize = 1 << 46;

/// The size of a block that is freed for another attempt: no smaller one frees less.
const SMALLEST: usize = 24;

/// The number of times that a size is halved from the largest down to 32 bytes.
const HALVES: usize = 42;

/// The number of sizes that are tried, each 16 bytes above the one before. The allocator keeps
/// freed blocks of these for the next ones of exactly their sizes.
const KEPT_SIZES: usize = 65;

/// The number of blocks of `SPARE_SIZE` that are held back, to be taken in small blocks.
const SPARES: usize = 8;

const SPARE_SIZE: usize = 1 << 16;

/// All memory, in blocks.
#[derive(Drop)]
pub(crate) struct Memory {
    blocks: Vec<Vec<u8>>,
}

impl Memory {
    /// Takes all memory, the last of it in small blocks.
    pub(crate) fn take(alloc: Global) -> Result<Memory, AllocError> {
        let blocks = Vec::with_capacity(alloc, MOST_BLOCKS)?;
        let mut memory = Memory { blocks };
        let mut spares = Vec::with_capacity(alloc, SPARES)?;
        for _ in 0..SPARES {
            spares.push(Vec::<u8>::with_capacity(alloc, SPARE_SIZE)?)?;
        }
        memory.take_halves(alloc);
        drop(spares);
        memory.take_small(alloc);
        Ok(memory)
    }

    /// Takes blocks of half the size whenever no more are there.
    fn take_halves(&mut self, alloc: Global) {
        let mut size = LARGEST;
        for _ in 0..HALVES {
            self.take_blocks(alloc, size);
            size /= 2;
        }
    }

    /// Takes the memory that a call has freed: blocks of each size that is kept for the next one of
    /// that size, the smallest first.
    pub(crate) fn take_small(&mut self, alloc: Global) {
        let mut size = SMALLEST;
        for _ in 0..KEPT_SIZES {
            self.take_blocks(alloc, size);
            size = size.saturating_add(16);
        }
    }

    /// Takes blocks of that size until none is left.
    fn take_blocks(&mut self, alloc: Global, size: usize) {
        for _ in self.blocks.len()..MOST_BLOCKS {
            let Ok(block) = Vec::<u8>::with_capacity(alloc, size) else {
                break;
            };
            if self.blocks.push(block).is_err() {
                break;
            }
        }
    }

    /// Frees the block that was taken last.
    pub(crate) fn free_block(&mut self) {
        self.blocks.pop();
    }
}
