//! The entries of tables in any memory.
ghost use Rattle.std.specs.Prelude.{◌≡◌, option_map};
ghost use Rattle.std.proofs.Props.{props};
ghost use Rattle.machine_layout.specs.Memory.{page_of};

use crate::entry_reads::Entries;
use machine_layout::entries::ENTRY_BYTES;
use machine_layout::word_at;
use muen_num::{Tells, Told};
use phys_mem::{PAGE_BYTES, PhysMem};
use std::marker::Model;

// A count, in clauses alone: no value of this type is made.
struct Count {
    none: (),
}

impl Model for Count {
    ghost use Rattle.std.specs.Prelude.{ℕ};

    ghost Value = { ℕ };

    ghost view = { λ _. 0 };
}

// No entry was read.
#[derive(Drop)]
struct Start;

impl Tells<Count> for Start {
    ghost tells = { λ _. 0 };
}

// One more entry was read.
#[derive(Drop)]
struct OneMore<'a> {
    before: &'a Told<Count>,
}

impl Tells<Count> for OneMore<'_> {
    ghost use Rattle.std.specs.Prelude.{suc};

    ghost tells = { λ m. suc m.before.now.value };
}

/// The entries of tables in a memory. The page that was read last is kept, so that one search for it
/// serves all entries of a table that are read on end. Each call of `entry` reads one word.
#[derive(Drop)]
pub struct MemoryEntries<'a, M: PhysMem> {
    mem: &'a M,
    number: u64,
    page: Option<&'a [u8; PAGE_BYTES]>,
    reads: Told<Count>,
    ghost kept: { option_map (λ p. p.now) page ≡ page_of (M.pages mem.now) number } by { Prim.hlevel props },
}

impl<'a, M: PhysMem> MemoryEntries<'a, M> {
    /// Those in this memory; none was read.
    pub fn of(mem: &'a M) -> MemoryEntries<'a, M>
        ensures memory { result.mem.now ≡ mem.now }
        ensures reads { result.reads.value ≡ 0 }
    {
        MemoryEntries {
            mem,
            number: 0,
            page: mem.page(0),
            reads: Told::of(&Start),
        }
    }

    // The bytes of the page of this number, which is kept from now on.
    fn turn_to(&mut self, number: u64) -> Option<&'a [u8; PAGE_BYTES]>
        ensures page { option_map (λ p. p.now) result ≡ page_of (M.pages self.old.mem.now) number }
        ensures memory { self.new.mem ≡ self.old.mem }
        ensures reads { self.new.reads ≡ self.old.reads }
    {
        if number != self.number {
            self.number = number;
            self.page = self.mem.page(number);
        }
        self.page
    }
}

impl<M: PhysMem> Entries for MemoryEntries<'_, M> {
    ghost pages = { λ e. M.pages e.mem.now };

    ghost reads = { λ e. e.reads.value };

    fn entry(&mut self, page: u64, index: u64) -> Option<u64> {
        self.reads = Told::of(&OneMore {
            before: &self.reads,
        });
        match self.turn_to(page) {
            Some(bytes) => Some(word_at(bytes, (ENTRY_BYTES * index) as usize)),
            None => None,
        }
    }

    fn has(&self, page: u64) -> bool {
        self.mem.page(page).is_some()
    }
}
