//! What translates guest addresses.
ghost use Rattle.std.specs.Prelude.{◌≡◌, ◌^◌, ◌<◌, List};
ghost use Rattle.machine_layout.specs.Memory.{Page};
ghost use Rattle.machine_layout.specs.Same.{SameOutside};
ghost use Rattle.machine_layout.specs.Walks.{walk_of};

use machine_layout::Walk;
use muen_num::AccessKind;
use phys_mem::PhysMem;

/// Translates guest addresses, by walking EPT tables or by what it keeps of earlier walks.
pub trait Translate: Drop {
    /// What it keeps is right in a memory of these pages.
    ghost fits: { Self → List Page → Type 0 };

    /// The walk for an access of this kind at a guest address, by the tables of an EPTP as they are
    /// in memory now. The tables may have any content, and the EPTP any value.
    fn walk<M: PhysMem>(&mut self, mem: &M, eptp: u64, addr: u64, kind: AccessKind) -> Walk
        requires fits { fits self.old (M.pages mem.now) }
        requires addr { addr < 2 ^ 48 }
        ensures walk { result ≡ walk_of (M.pages mem.now) eptp addr kind }
        ensures fits { fits self.new (M.pages mem.now) };

    /// It is told that the `len` bytes from the physical address `at` on may have changed.
    fn stored(&mut self, at: u64, len: u64)
        ensures { (old new : List Page) → fits self.old old → SameOutside at len old new → fits self.new new };
}
