//! A subject's pages, made by hand. Its tables are four pages from 1 MiB on; behind them lie a page of
//! code, one of data, its state page, I/O bitmaps A and B, its MSR bitmap and its MSR area, and the
//! state page and the MSR area of another subject. A device's page is at 2 GiB.
ghost use Rattle.std.specs.Prelude.{◌≡◌, ◌<◌, ◌^◌, List, length, IfOk};
ghost use Rattle.machine_layout.specs.Memory.{Page};
ghost use Rattle.phys_mem.specs.Spans.{AreSpans};

use device_bench::{Bench, Record};
use ept_walk::{CachedWalk, PlainWalk, Translate};
use guest_isa::{Change, StepEnd};
use muen_num::{AccessSize, Seq};
use phys_mem::{FrameMem, MemorySpan, PhysMem, RegionMem};
use std::alloc::Global;
use std::fmt::{self, Display, Formatter, Write};
use std::test::Fail;
use vmx_machine::{Control, Machine};

pub(super) const CODE: u64 = 0x10_4000;

pub(super) const STATE: u64 = 0x10_6000;

const OTHER_STATE: u64 = 0x10_b000;

const BITMAP_A: u64 = 0x10_7000;

const MSR_BITMAP: u64 = 0x10_9000;

pub(super) const AREA: u64 = 0x10_a000;

const OTHER_AREA: u64 = 0x10_c000;

pub(super) const DEVICE: u64 = 0x8000_0000;

/// What the CPU is told of the subject. Its area has one entry.
pub(super) const CONTROL: Control = Control {
    state: 0x106,
    eptp: 0x10_001e,
    io_bitmaps: 0x107,
    msr_bitmap: 0x109,
    msr_area: 0x10a,
    msrs: 1,
};

/// The other subject has the same tables and bitmaps.
pub(super) const OTHER: Control = Control {
    state: 0x10b,
    eptp: 0x10_001e,
    io_bitmaps: 0x107,
    msr_bitmap: 0x109,
    msr_area: 0x10c,
    msrs: 1,
};

/// The start of the code, as the subjects see it.
pub(super) const PC: u64 = 0x40_0000;

/// The MSR that the subjects may read and write.
pub(super) const MSR: u64 = 0xC000_0082;

/// Words of memory. The guest page at 400000H is the code, and behind it are the data, the page table
/// itself, bitmap A, the MSR bitmap, the area, a page that isn't there, and a page that may only be
/// read. The ports 3F8H to 3FFH are granted, and the MSR.
const WORDS: [(u64, u64); 17] = [
    (0x10_0000, 0x10_1007),
    (0x10_1000, 0x10_2007),
    (0x10_2010, 0x10_3007),
    (0x10_3000, 0x10_4035),
    (0x10_3008, 0x10_5033),
    (0x10_3010, 0x10_3033),
    (0x10_3018, 0x10_7033),
    (0x10_3020, 0x10_9033),
    (0x10_3028, 0x10_a033),
    (0x10_3030, 0x8000_1037),
    (0x10_3038, 0x10_5031),
    (BITMAP_A + 0x78, 0x00ff_ffff_ffff_ffff),
    (MSR_BITMAP + 1040, 0xffff_ffff_ffff_fffb),
    (MSR_BITMAP + 3088, 0xffff_ffff_ffff_fffb),
    (AREA, MSR),
    (AREA + 8, 5),
    (OTHER_AREA, MSR),
];

/// A subject at an instruction, and two of its registers.
#[derive(Clone, Copy)]
pub(super) struct Start {
    pub pc: u64,
    /// The instruction at the start of the code, as a word.
    pub word: u64,
    pub r1: u64,
    pub r2: u64,
}

impl Display for Start {
    fn fmt<W: Write>(&self, f: &mut Formatter<W>) -> Result<(), fmt::Error> {
        let Start { pc, word, r1, r2 } = *self;
        write!(
            f,
            "pc {pc:x}, instruction {word:x}, registers {r1:x} {r2:x}"
        )
    }
}

/// A subject with 7 in register 2.
pub(super) fn subject_at(pc: u64, word: u64, r1: u64) -> Start {
    Start {
        pc,
        word,
        r1,
        r2: 7,
    }
}

fn spans(alloc: Global) -> Result<Vec<MemorySpan>, Fail>
    ensures { IfOk result (λ spans. AreSpans spans.items) }
{
    let low = MemorySpan {
        address: 0x10_0000,
        bytes: Seq::of(vec![in alloc; 0; 0xd000]?),
    };
    let device = MemorySpan {
        address: DEVICE,
        bytes: Seq::of(vec![in alloc; 0; 0x1000]?),
    };
    Ok(vec![in alloc; low, device]?)
}

// The word at an address that is a multiple of eight.
fn set<M: PhysMem>(mem: &mut M, at: u64, word: u64) {
    mem.store(at - at % 8, AccessSize::Eight, word);
}

// All bits of the bitmaps.
fn set_bitmaps<M: PhysMem>(mem: &mut M) {
    for i in 0..0x600u64 {
        set(mem, BITMAP_A + 8 * i, u64::MAX);
    }
}

fn set_words<M: PhysMem>(mem: &mut M) {
    for (at, word) in WORDS {
        set(mem, at, word);
    }
}

fn set_state<M: PhysMem>(mem: &mut M, state: u64, start: Start)
    requires { state < 2 ^ 40 }
{
    set(mem, state + 8, start.r1);
    set(mem, state + 16, start.r2);
    set(mem, state + 128, start.pc);
    set(mem, state + 152, 8);
}

// A machine on which the subject is entered.
fn entered<M: PhysMem, T: Translate>(
    alloc: Global,
    mem: M,
    walk: T,
    start: Start,
) -> Result<Machine<M, T>, Fail>
    requires { (pages : List Page) → T.fits walk pages }
    ensures { IfOk result (λ m. length m.cpus ≡ 1) }
{
    let mut mem = mem;
    set_bitmaps(&mut mem);
    set_words(&mut mem);
    set(&mut mem, CODE, start.word);
    set_state(&mut mem, STATE, start);
    set_state(&mut mem, OTHER_STATE, start);
    let mut machine = Machine::start(alloc, mem, walk, 1)?;
    machine.enter(0, CONTROL);
    Ok(machine)
}

/// A machine on which the subject is entered, and which keeps nothing.
pub(super) fn machine(alloc: Global, start: Start) -> Result<Machine<RegionMem, PlainWalk>, Fail>
    ensures { IfOk result (λ m. length m.cpus ≡ 1) }
{
    let mem = RegionMem::start(alloc, spans(alloc)?)?;
    entered(alloc, mem, PlainWalk::new(), start)
}

/// The same, and it keeps translations.
pub(super) fn keeping_machine(
    alloc: Global,
    start: Start,
) -> Result<Machine<FrameMem, CachedWalk>, Fail>
    ensures { IfOk result (λ m. length m.cpus ≡ 1) }
{
    let mem = FrameMem::start(alloc, spans(alloc)?)?;
    let walk = CachedWalk::new(alloc, 16)?;
    entered(alloc, mem, walk, start)
}

/// Devices of which the input bytes of the ports 3FCH to 3FFH are 1, 2, 3 and 4.
pub(super) fn bench(alloc: Global) -> Result<Bench, Fail> {
    let run = Record {
        end: 9,
        inputs: Seq::new(alloc),
        orders: Seq::new(alloc),
    };
    let mut bench = Bench::start(alloc, run)?;
    for i in 0..4u8 {
        bench.set_port(0x3fc + u16::from(i), i + 1);
    }
    Ok(bench)
}

/// The word of an instruction: its opcode, its registers, its size code and its immediate.
pub(super) fn word(opcode: u8, registers: u8, size: u8, immediate: u32) -> u64 {
    let low = u32::from_le_bytes([opcode, registers, size, 0]);
    u64::from(low) + (u64::from(immediate) << 32)
}

pub(super) fn exit(reason: u8, qualification: u64, addr: u64) -> StepEnd {
    StepEnd::Exit {
        reason,
        qualification,
        addr,
        call: 0,
    }
}

pub(super) fn set_register(reg: u8, value: u64) -> StepEnd {
    StepEnd::Ran(Change::Set { reg, value })
}
