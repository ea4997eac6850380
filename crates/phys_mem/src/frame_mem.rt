//! Memory whose pages are found by two tables.
ghost use Rattle.std.specs.Prelude.{◌≡◌, vec_len};
ghost use Rattle.phys_mem.specs.IndexTables.{Tells};

use crate::frames::add_spans;
use crate::index_tables::IndexTables;
use crate::little_endian::{number_at, put_number};
use crate::memory::{PAGE_BYTES, PhysMem};
use crate::spans::MemorySpan;
use muen_num::limits::PAGE;
use muen_num::{AccessSize, NoMemory};
use std::alloc::Global;

/// Memory that is made of spans of pages. A page is found by the upper and the lower bits of its
/// number, in two tables.
#[derive(Debug, Drop)]
pub struct FrameMem {
    numbers: Vec<u64>,
    frames: Vec<[u8; PAGE_BYTES]>,
    tables: IndexTables,
    ghost paired: { vec_len numbers ≡ vec_len frames },
    ghost tells: { Tells tables.upper.items tables.lower.items numbers.items },
}

impl FrameMem {
    ghost use Rattle.std.specs.Prelude.{MatchOption, IfOk};
    ghost use Rattle.phys_mem.specs.Found.{frames_kept, IsInFrame, IsNowhere};
    ghost use Rattle.phys_mem.specs.Spans.{AreSpans, pages_of_spans};

    /// Memory that has these spans and nothing else. They are made of whole pages, ascend, share no
    /// byte, and end at 2^40 or before it.
    ///
    /// # Errors
    /// Memory is refused.
    pub fn start(alloc: Global, spans: Vec<MemorySpan>) -> Result<FrameMem, NoMemory>
        requires { AreSpans spans.items }
        ensures { IfOk result (λ m. frames_kept m ≡ pages_of_spans spans.items) }
    {
        let mut numbers = Vec::new(alloc);
        let mut frames = Vec::new(alloc);
        add_spans(&mut numbers, &mut frames, spans)?;
        let tables = IndexTables::of(alloc, numbers.as_slice())?;
        Ok(FrameMem {
            numbers,
            frames,
            tables,
        })
    }

    // Where the page of this number is kept.
    fn find_page(&self, number: u64) -> Option<usize>
        ensures { MatchOption result (IsNowhere self.now.numbers.items self.now.frames.items number) (IsInFrame self.now.numbers.items self.now.frames.items number) }
    {
        self.tables.find(number)
    }
}

impl PhysMem for FrameMem {
    ghost use Rattle.phys_mem.specs.Found.{frames_kept};

    ghost pages = { frames_kept };

    fn load(&self, at: u64, size: AccessSize) -> Option<u64> {
        let page = self.page(at / PAGE)?;
        Some(number_at(page, (at % PAGE) as usize, size))
    }

    fn store(&mut self, at: u64, size: AccessSize, value: u64) -> bool {
        match self.find_page(at / PAGE) {
            None => false,
            Some(i) => {
                put_number(&mut self.frames[i], (at % PAGE) as usize, size, value);
                true
            }
        }
    }

    fn page(&self, number: u64) -> Option<&[u8; PAGE_BYTES]> {
        let i = self.find_page(number)?;
        Some(&self.frames[i])
    }

    fn page_mut(&mut self, number: u64) -> Option<&mut [u8; PAGE_BYTES]> {
        match self.find_page(number) {
            None => None,
            Some(i) => self.frames.get_mut(i),
        }
    }
}
