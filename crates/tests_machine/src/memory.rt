ghost use Rattle.std.specs.Prelude.{IfOk};
ghost use Rattle.phys_mem.specs.Spans.{AreSpans};

use crate::agree::agree;
use muen_num::{AccessSize, Seq};
use phys_mem::{FrameMem, MemorySpan, PhysMem, RegionMem};
use std::alloc::Global;
use std::test::Fail;

/// Two pages from 1 MiB on, and one page at 2 GiB.
fn spans(alloc: Global) -> Result<Vec<MemorySpan>, Fail>
    ensures { IfOk result (λ spans. AreSpans spans.items) }
{
    let low = MemorySpan {
        address: 0x10_0000,
        bytes: Seq::of(vec![in alloc; 0; 0x2000]?),
    };
    let high = MemorySpan {
        address: 0x8000_0000,
        bytes: Seq::of(vec![in alloc; 7; 0x1000]?),
    };
    Ok(vec![in alloc; low, high]?)
}

/// Loads after the stores of `loads`, and what they answer.
const LOADS: [(u64, AccessSize, Option<u64>); 11] = [
    (0x10_1008, AccessSize::Eight, Some(0x1122_3344_5566_ff88)),
    (0x10_100c, AccessSize::Four, Some(0x1122_3344)),
    (0x10_100a, AccessSize::Two, Some(0x5566)),
    (0x10_1008, AccessSize::One, Some(0x88)),
    (0x10_1010, AccessSize::Eight, Some(0)),
    (0x8000_0ff8, AccessSize::Two, Some(0x0707)),
    (0x10_1fff, AccessSize::One, Some(9)),
    (0x10_0fff, AccessSize::One, Some(0)),
    (0x0f_fff8, AccessSize::Eight, None),
    (0x10_2000, AccessSize::One, None),
    (0x10_0000_0000_1000, AccessSize::Eight, None),
];

// Stores a number and a byte, leaves a byte in a page that is lent, and stores where no page is.
fn store_some<M: PhysMem>(mem: &mut M) -> [bool; 5] {
    let number = mem.store(0x10_1008, AccessSize::Eight, 0x1122_3344_5566_7788);
    let byte = mem.store(0x10_1009, AccessSize::One, 0x1ff);
    if let Some(page) = mem.page_mut(0x101) {
        page[0xfff] = 9;
    }
    let nowhere = mem.store(0x8000_1000, AccessSize::Eight, 1);
    [
        number,
        byte,
        nowhere,
        mem.page(0x102).is_some(),
        mem.page_mut(0).is_some(),
    ]
}

// Whether each load answers what it has to.
fn loads<M: PhysMem>(mem: &M) -> bool {
    LOADS
        .iter()
        .all(|(at, size, value)| mem.load(*at, *size) == *value)
}

#[test]
fn what_is_stored_is_loaded(rt: HostRuntime) -> Result<(), Fail> {
    let alloc = rt.alloc();
    let mut region = RegionMem::start(alloc, spans(alloc)?)?;
    agree(
        &rt,
        store_some(&mut region),
        [true, true, false, false, false],
    );
    assert!(rt; loads(&region));
    let mut frame = FrameMem::start(alloc, spans(alloc)?)?;
    agree(
        &rt,
        store_some(&mut frame),
        [true, true, false, false, false],
    );
    assert!(rt; loads(&frame));
    Ok(())
}
