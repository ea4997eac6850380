ghost use Rattle.std.specs.Prelude.{IfOk};
ghost use Rattle.phys_mem.specs.Spans.{AreSpans};

use crate::agree::{agree, agree_at};
use ept_walk::{CachedWalk, PlainWalk, Translate};
use machine_layout::Walk;
use muen_num::{AccessKind, AccessSize, Seq};
use phys_mem::{FrameMem, MemorySpan, PhysMem, RegionMem};
use std::alloc::Global;
use std::test::Fail;

/// The EPTP whose PML4 table is the first page of the tables.
const EPTP: u64 = 0x10_001e;

/// The page table's address. The page directory is the page before it, and so on up to the PML4
/// table.
const PAGE_TABLE: u64 = 0x10_3000;

/// Seven pages from 1 MiB on, for tables, and one page at 2 GiB.
fn spans(alloc: Global) -> Result<Vec<MemorySpan>, Fail>
    ensures { IfOk result (λ spans. AreSpans spans.items) }
{
    let low = MemorySpan {
        address: 0x10_0000,
        bytes: Seq::of(vec![in alloc; 0; 0x7000]?),
    };
    let high = MemorySpan {
        address: 0x8000_0000,
        bytes: Seq::of(vec![in alloc; 0; 0x1000]?),
    };
    Ok(vec![in alloc; low, high]?)
}

/// Writes an entry into the table of a level, 3 for the PML4 table.
fn write<M: PhysMem>(mem: &mut M, level: u64, index: u64, entry: u64) {
    let address = PAGE_TABLE - 0x1000 * (level % 4) + 8 * (index % 512);
    mem.store(address, AccessSize::Eight, entry);
}

/// Where a walk for reading ends, with an entry in place of the first one of its level.
fn walk_with(mem: &mut RegionMem, level: u64, entry: u64) -> Walk {
    write(mem, 3, 0, 0x10_1007);
    write(mem, 2, 0, 0x10_2007);
    write(mem, 1, 0, 0x10_3007);
    write(mem, 0, 0, 0x10_6037);
    write(mem, level, 0, entry);
    PlainWalk::new().walk(mem, EPTP, 0, AccessKind::Read)
}

/// Entries by their level, and where the walk ends with one.
const ENTRIES: [(u64, u64, Walk); 28] = [
    (3, 0x10_1002, Walk::Misconfigured),
    (3, 0x10_1004, Walk::Misconfigured),
    (3, 0x10_1006, Walk::Misconfigured),
    (3, 0x10_100f, Walk::Misconfigured),
    (3, 0x10_1047, Walk::Misconfigured),
    (3, 0x10_1087, Walk::Misconfigured),
    (3, 0x100_0010_1007, Walk::Misconfigured),
    (2, 0x8_0000_0010_2007, Walk::Misconfigured),
    (2, 0x8000_0097, Walk::Misconfigured),
    (2, 0x8000_00bf, Walk::Misconfigured),
    (2, 0xa000_00b7, Walk::Misconfigured),
    (1, 0x10_3027, Walk::Misconfigured),
    (1, 0x8000_009f, Walk::Misconfigured),
    (1, 0x8010_00b7, Walk::Misconfigured),
    (0, 0x10_6032, Walk::Misconfigured),
    (0, 0x10_6034, Walk::Misconfigured),
    (0, 0x10_6036, Walk::Misconfigured),
    (0, 0x10_6017, Walk::Misconfigured),
    (0, 0x10_601f, Walk::Misconfigured),
    (0, 0x10_603f, Walk::Misconfigured),
    (0, 0x100_0010_6037, Walk::Misconfigured),
    (0, 0xfff0_0000_0010_6f37, Walk::At(0x10_6000)),
    (0, 0x10_60f7, Walk::At(0x10_6000)),
    (1, 0x8000_00b7, Walk::At(0x8000_0000)),
    (2, 0x8000_00b7, Walk::At(0x8000_0000)),
    (3, 0, Walk::Violation(0)),
    (1, 0x9999_9007, Walk::Misconfigured),
    (0, 0x10_7037, Walk::Misconfigured),
];

#[test]
fn each_check(rt: HostRuntime) -> Result<(), Fail> {
    let alloc = rt.alloc();
    let mut mem = RegionMem::start(alloc, spans(alloc)?)?;
    for (row, &(level, entry, end)) in ENTRIES.iter().enumerate() {
        agree_at(&rt, walk_with(&mut mem, level, entry), end, row);
    }
    Ok(())
}

/// Walks over the worked tables: the EPTP, the guest address, what is done there, and where it ends.
const WALKS: [(u64, u32, AccessKind, Walk); 7] = [
    (EPTP, 0x40_0000, AccessKind::Read, Walk::At(0x10_6000)),
    (EPTP, 0x40_0fff, AccessKind::Fetch, Walk::At(0x10_6fff)),
    (EPTP, 0x40_0000, AccessKind::Write, Walk::Violation(5)),
    (EPTP, 0x40_1000, AccessKind::Read, Walk::Violation(0)),
    (EPTP, 0x4000_0123, AccessKind::Write, Walk::At(0x8000_0123)),
    (EPTP, 0x4000_1000, AccessKind::Read, Walk::Misconfigured),
    (u64::MAX, 0, AccessKind::Read, Walk::Misconfigured),
];

// The worked tables.
fn set_tables<M: PhysMem>(mem: &mut M) {
    write(mem, 3, 0, 0x10_1007);
    write(mem, 2, 0, 0x10_2007);
    write(mem, 2, 1, 0x8000_00b3);
    write(mem, 1, 2, 0x10_3007);
    write(mem, 0, 0, 0x10_6035);
}

// Which of four guest addresses are kept, the last of them by no EPTP that there is.
fn kept(walk: &CachedWalk) -> [bool; 4] {
    [
        walk.holds(EPTP, 0x40_0123),
        walk.holds(EPTP, 0x4000_0000),
        walk.holds(EPTP, 0x40_1000),
        walk.holds(u64::MAX, 0),
    ]
}

#[test]
fn worked_tables(rt: HostRuntime) -> Result<(), Fail> {
    let alloc = rt.alloc();
    let mut mem = FrameMem::start(alloc, spans(alloc)?)?;
    set_tables(&mut mem);
    let mut keeping = CachedWalk::new(alloc, 4096)?;
    for (eptp, guest, kind, end) in WALKS {
        let guest = u64::from(guest);
        let plain = PlainWalk::new().walk(&mem, eptp, guest, kind);
        agree_at(&rt, plain, end, guest);
        agree_at(&rt, keeping.walk(&mem, eptp, guest, kind), end, guest);
    }
    // What is kept is given up where its page table changes.
    agree(&rt, kept(&keeping), [true, true, false, false]);
    keeping.stored(PAGE_TABLE + 4, 2);
    agree(&rt, kept(&keeping), [false, true, false, false]);
    Ok(())
}
