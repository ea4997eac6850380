//! How steps end: every fault, and what comes of steps without one.
use super::world::{PC, Start, bench, exit, machine, set_register, subject_at};
use crate::agree::agree_at;
use device_bench::Bench;
use guest_isa::{Change, StepEnd};
use muen_num::AccessSize;
use std::alloc::Global;
use std::process::Abort;
use std::test::Fail;

/// The end of guest addresses.
const END: u64 = 1 << 48;

/// `pc`, the word of the instruction, what register 1 holds, and the exit: its reason, qualification
/// and address.
const EXITS: [(u64, u64, u64, u8, u64, u64); 31] = [
    // fetches
    (0x40_0004, 0, 0, 0, 0, 0),
    (END + 4, 0, 0, 0, 0, 0),
    (END, 0, 0, 48, 4, END),
    (0x50_0000, 0, 0, 48, 4, 0x50_0000),
    (0x40_1000, 0, 0, 48, 0x1c, 0x40_1000),
    (0x40_6000, 0, 0, 49, 0, 0x40_6000),
    (0x40_7ff8, 0, 0, 48, 0xc, 0x40_7ff8),
    // loads
    (PC, 0x03_210b, 0x40_1004, 0, 0, 0),
    (PC, 0x02_210b, END + 2, 0, 0, 0),
    (PC, 0x03_210b, END, 48, 1, END),
    (PC, 0x210b, u64::MAX, 48, 1, u64::MAX),
    (PC, 0x210b, 0x50_0000, 48, 1, 0x50_0000),
    (PC, 0x210b, 0x40_6fff, 49, 0, 0x40_6fff),
    // stores
    (PC, 0x01_210c, 0x40_1001, 0, 0, 0),
    (PC, 0x03_210c, END, 48, 2, END),
    (PC, 0x03_210c, 0x50_0000, 48, 2, 0x50_0000),
    (PC, 0x210c, 0x40_0fff, 48, 0x2a, 0x40_0fff),
    (PC, 0x210c, 0x40_7000, 48, 0xa, 0x40_7000),
    (PC, 0x03_210c, 0x40_6000, 49, 0, 0x40_6000),
    // no instructions, and one that halts
    (PC, 0xff, 0, 0, 0, 0),
    (PC, 0xff_0000_0000, 0, 0, 0, 0),
    (PC, 0x17, 0, 12, 0, 0),
    // ports: one that isn't granted, one of four that isn't, and a wrap past the last
    (PC, 0x2111, 0x3f7, 30, 0x3f7_0008, 0),
    (PC, 0x02_2111, 0x3fe, 30, 0x3fe_000b, 0),
    (PC, 0x01_2111, 0xffff, 30, 0xffff_0009, 0),
    (PC, 0x2112, 0x400, 30, 0x400_0000, 0),
    (PC, 0x02_2112, 0xfffe, 30, 0xfffe_0003, 0),
    // MSRs
    (PC, 0x2113, 0x10, 31, 0, 0),
    (PC, 0x2114, 0x10, 32, 0, 0),
    (PC, 0x2113, 0x2000, 31, 0, 0),
    (PC, 0x2114, 0xc000_2000, 32, 0, 0),
];

// Ends the test unless the first instruction ends so.
fn ends_so(
    rt: &impl Abort,
    alloc: Global,
    bench: &Bench,
    start: Start,
    wanted: StepEnd,
) -> Result<(), Fail> {
    let mut machine = machine(alloc, start)?;
    agree_at(rt, machine.step(0, 7, bench), wanted, start);
    Ok(())
}

#[test]
fn exits(rt: HostRuntime) -> Result<(), Fail> {
    let bench = bench(rt.alloc())?;
    for (pc, word, r1, reason, qualification, addr) in EXITS {
        let end = exit(reason, qualification, addr);
        ends_so(&rt, rt.alloc(), &bench, subject_at(pc, word, r1), end)?;
    }
    Ok(())
}

#[test]
fn ends_without_a_fault(rt: HostRuntime) -> Result<(), Fail> {
    let bench = bench(rt.alloc())?;
    let call = StepEnd::Exit {
        reason: 18,
        qualification: 0,
        addr: 0,
        call: 0x3fc,
    };
    let out = StepEnd::Ran(Change::Out {
        size: AccessSize::Two,
        port: 0x3fc,
        value: 7,
    });
    let table = [
        (0, StepEnd::Ran(Change::Plain)),
        (0x0116, call),
        (0x2015, set_register(2, 7)),
        (0x02_2111, set_register(2, 0x0403_0201)),
        (0x2111, set_register(2, 1)),
        (0x01_2112, out),
    ];
    for (word, end) in table {
        ends_so(&rt, rt.alloc(), &bench, subject_at(PC, word, 0x3fc), end)?;
    }
    Ok(())
}
