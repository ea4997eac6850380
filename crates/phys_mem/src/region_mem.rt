//! Memory that is made of spans.
ghost use Rattle.std.specs.Prelude.{◌≡◌, MatchOption, length, vec_len};
ghost use Rattle.phys_mem.specs.Frames.{IsRising, NoneBelow, IsFirst};

use crate::frames::add_spans;
use crate::little_endian::{number_at, put_number};
use crate::memory::{PAGE_BYTES, PhysMem};
use crate::spans::MemorySpan;
use muen_num::limits::PAGE;
use muen_num::{AccessSize, NoMemory};
use std::alloc::Global;

/// No program runs it: tests hold `FrameMem`, which runs use, against it (tests_machine/src/memory.rt,
/// machine/stores.rt). It is memory that is made of spans of pages; a page is found by a binary search
/// over the pages' numbers.
#[derive(Debug, Drop)]
pub struct RegionMem {
    numbers: Vec<u64>,
    frames: Vec<[u8; PAGE_BYTES]>,
    ghost paired: { vec_len numbers ≡ vec_len frames },
    ghost rising: { IsRising numbers.items },
}

/// The index of a number among numbers that rise.
pub fn index_of(numbers: &[u64], number: u64) -> Option<usize>
    requires { IsRising numbers.now }
    ensures { MatchOption result (NoneBelow numbers.now number (length numbers.now)) (IsFirst numbers.now number) }
{
    match numbers.binary_search(&number) {
        Ok(i) => Some(i),
        Err(_) => None,
    }
}

impl RegionMem {
    ghost use Rattle.std.specs.Prelude.{MatchOption, IfOk};
    ghost use Rattle.phys_mem.specs.Found.{pages_kept, IsInFrame, IsNowhere};
    ghost use Rattle.phys_mem.specs.Spans.{AreSpans, pages_of_spans};

    /// Memory that has these spans and nothing else. They are made of whole pages, ascend, share no
    /// byte, and end at 2^40 or before it.
    ///
    /// # Errors
    /// Memory is refused.
    pub fn start(alloc: Global, spans: Vec<MemorySpan>) -> Result<RegionMem, NoMemory>
        requires { AreSpans spans.items }
        ensures { IfOk result (λ m. pages_kept m ≡ pages_of_spans spans.items) }
    {
        let mut numbers = Vec::new(alloc);
        let mut frames = Vec::new(alloc);
        add_spans(&mut numbers, &mut frames, spans)?;
        Ok(RegionMem { numbers, frames })
    }

    // Where the page of this number is kept.
    fn find_page(&self, number: u64) -> Option<usize>
        ensures { MatchOption result (IsNowhere self.now.numbers.items self.now.frames.items number) (IsInFrame self.now.numbers.items self.now.frames.items number) }
    {
        index_of(&self.numbers, number)
    }
}

impl PhysMem for RegionMem {
    ghost use Rattle.phys_mem.specs.Found.{pages_kept};

    ghost pages = { pages_kept };

    fn load(&self, at: u64, size: AccessSize) -> Option<u64> {
        let page = self.page(at / PAGE)?;
        Some(number_at(page, (at % PAGE) as usize, size))
    }

    fn store(&mut self, at: u64, size: AccessSize, value: u64) -> bool {
        match self.find_page(at / PAGE) {
            None => false,
            Some(i) => {
                put_number(&mut self.frames[i], (at % PAGE) as usize, size, value);
                true
            }
        }
    }

    fn page(&self, number: u64) -> Option<&[u8; PAGE_BYTES]> {
        let i = self.find_page(number)?;
        Some(&self.frames[i])
    }

    fn page_mut(&mut self, number: u64) -> Option<&mut [u8; PAGE_BYTES]> {
        match self.find_page(number) {
            None => None,
            Some(i) => self.frames.get_mut(i),
        }
    }
}
