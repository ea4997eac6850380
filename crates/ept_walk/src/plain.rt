//! The walk that keeps nothing.
ghost use Rattle.std.specs.Prelude.{◌≡◌, ℕ, List};
ghost use Rattle.machine_layout.specs.Memory.{Page, is_there};
ghost use Rattle.ept_walk.specs.Ends.{judged};

use crate::Translate;
use crate::trace::{End, LEVELS, leaf_end, trace};
use machine_layout::Walk;
use machine_layout::entries::{ALL_RIGHTS, PML4_LEVEL};
use muen_num::AccessKind;
use muen_num::limits::PAGE;
use phys_mem::PhysMem;

/// No program runs it: tests hold `CachedWalk`, which runs use, against it (tests_machine/src/walks.rt,
/// machine/stores.rt). It reads the tables at each walk, one entry of each level at most, and keeps
/// nothing.
#[derive(Clone, Copy, Debug)]
pub struct PlainWalk;

impl PlainWalk {
    ghost use Rattle.ept_walk.specs.Fits.{FitsEvery};

    /// Fits every memory.
    pub fn new() -> PlainWalk
        ensures { (m : List Page) → FitsEvery result m }
    {
        PlainWalk
    }
}

// The walk that ends there, for an access that wants these rights.
fn judge<M: PhysMem>(mem: &M, want: u64, end: End) -> Walk
    ensures { (addr : ℕ) → result ≡ judged (is_there (M.pages mem.now)) addr want end }
{
    match end {
        End::Absent => Walk::Violation(0),
        End::Invalid => Walk::Misconfigured,
        End::Leads(target) => leaf_end(mem, want, target.rights, target.address),
    }
}

impl Translate for PlainWalk {
    ghost use Rattle.ept_walk.specs.Fits.{FitsEvery};

    ghost fits = { FitsEvery };

    fn walk<M: PhysMem>(&mut self, mem: &M, eptp: u64, addr: u64, kind: AccessKind) -> Walk {
        let mut tables = [0; LEVELS];
        let end = trace(mem, addr, PML4_LEVEL, eptp / PAGE, ALL_RIGHTS, &mut tables);
        judge(mem, kind.bit() as u64, end)
    }

    fn stored(&mut self, _at: u64, _len: u64) {}
}
