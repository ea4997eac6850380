//! What a subject stores counts from its next access on.
ghost use Rattle.std.specs.Prelude.{◌≡◌, length};

use super::world::{
    AREA, CODE, CONTROL, DEVICE, MSR, OTHER, PC, STATE, Start, bench, exit, keeping_machine,
    machine, set_register, subject_at, word,
};
use crate::agree::{agree, agree_at};
use device_bench::Bench;
use ept_walk::Translate;
use guest_isa::{Change, Finish, StepEnd};
use muen_num::AccessSize;
use phys_mem::PhysMem;
use std::alloc::Global;
use std::test::Fail;
use vmx_machine::{Control, Machine};

// A subject that stores a byte.
fn storing(at: u64, value: u64) -> Start {
    Start {
        pc: PC,
        word: word(0x0c, 0x21, 0, 0),
        r1: at,
        r2: value,
    }
}

// How the instruction behind the first one ends.
fn second_step<M: PhysMem, T: Translate>(
    machine: &mut Machine<M, T>,
    bench: &Bench,
    next: u64,
) -> StepEnd
    requires { length machine.old.cpus ≡ 1 }
    ensures { length machine.new.cpus ≡ 1 }
{
    machine.device_write(CODE + 8, &next.to_le_bytes());
    machine.step(0, 7, bench);
    machine.step(0, 7, bench)
}

// How that instruction ends on a machine that keeps nothing.
fn plain_end(alloc: Global, bench: &Bench, start: Start, next: u64) -> Result<StepEnd, Fail> {
    let mut machine = machine(alloc, start)?;
    Ok(second_step(&mut machine, bench, next))
}

// The same on one that keeps translations.
fn keeping_end(alloc: Global, bench: &Bench, start: Start, next: u64) -> Result<StepEnd, Fail> {
    let mut machine = keeping_machine(alloc, start)?;
    Ok(second_step(&mut machine, bench, next))
}

fn ends_on_both(
    alloc: Global,
    bench: &Bench,
    start: Start,
    next: u64,
) -> Result<[StepEnd; 2], Fail> {
    Ok([
        plain_end(alloc, bench, start, next)?,
        keeping_end(alloc, bench, start, next)?,
    ])
}

#[test]
fn tables_and_bitmaps(rt: HostRuntime) -> Result<(), Fail> {
    let bench = bench(rt.alloc())?;
    let load = word(0x0b, 0x30, 0, 0x40_1000);
    // where which byte is stored, the next instruction, and how it ends
    let cases = [
        // the entry of the data page is no longer present, and then is a misconfiguration
        (0x40_2008, 0, load, exit(48, 1, 0x40_1000)),
        (0x40_2008, 0x32, load, exit(49, 0, 0x40_1000)),
        // the entry of the code itself
        (0x40_2000, 0x31, 0, exit(48, 0xc, 0x40_0008)),
        // port 3F8H isn't granted any more, and port 3F0H is
        (0x40_307f, 1, 0x3f8_0000_3011, exit(30, 0x3f8_0008, 0)),
        (0x40_307e, 0, 0x3f0_0000_3011, set_register(3, 0)),
        // MSR 0 may be read now
        (0x40_4000, 0xfe, 0x3013, set_register(3, 0)),
        // what was stored is loaded
        (0x40_1000, 0x17, load, set_register(3, 0x17)),
    ];
    for (at, value, next, end) in cases {
        let start = storing(at, value);
        let ends = ends_on_both(rt.alloc(), &bench, start, next)?;
        agree_at(&rt, ends, [end, end], start);
    }
    Ok(())
}

/// The index of the area's entry is changed by a byte, at an offset in it: the value that stands there
/// after leaving.
const ENTRIES: [(u64, u64, u64); 3] = [(0, 0x82, 5), (0, 0x83, 0), (3, 0x40, 5)];

// What the entry holds after a step and leaving, and whether nobody is on the CPU then.
fn saved_on_leaving(alloc: Global, start: Start) -> Result<(Option<u64>, bool), Fail> {
    let mut machine = machine(alloc, start)?;
    machine.step(0, 7, &bench(alloc)?);
    machine.leave(0);
    let saved = machine.mem().load(AREA + 8, AccessSize::Eight);
    Ok((saved, machine.state(0).is_none()))
}

#[test]
fn area_by_the_index_on_leaving(rt: HostRuntime) -> Result<(), Fail> {
    for (offset, value, saved) in ENTRIES {
        let found = saved_on_leaving(rt.alloc(), storing(0x40_5000 + offset, value))?;
        agree_at(&rt, found, (Some(saved), true), offset);
    }
    Ok(())
}

// How a step ends of a subject that enters for it and leaves then.
fn turn<M: PhysMem, T: Translate>(
    machine: &mut Machine<M, T>,
    bench: &Bench,
    control: Control,
) -> StepEnd
    requires { length machine.old.cpus ≡ 1 }
    ensures { length machine.new.cpus ≡ 1 }
{
    machine.enter(0, control);
    let end = machine.step(0, 7, bench);
    machine.leave(0);
    end
}

// How the steps end of two subjects that take turns, two each: they write the MSR and read it.
fn turns_of_two(alloc: Global, bench: &Bench) -> Result<[StepEnd; 4], Fail> {
    let start = Start {
        pc: PC,
        word: word(0x14, 0x21, 0, 0),
        r1: MSR,
        r2: 1,
    };
    let mut machine = machine(alloc, start)?;
    machine.device_write(CODE + 8, &word(0x13, 0x31, 0, 0).to_le_bytes());
    machine.device_write(STATE + 0x5010, &[2]);
    Ok([
        turn(&mut machine, bench, CONTROL),
        turn(&mut machine, bench, OTHER),
        turn(&mut machine, bench, CONTROL),
        turn(&mut machine, bench, OTHER),
    ])
}

#[test]
fn msrs_of_two_on_one_cpu(rt: HostRuntime) -> Result<(), Fail> {
    let wrote = |value| {
        StepEnd::Ran(Change::WroteMsr {
            index: 0xC000_0082,
            value,
        })
    };
    let wanted = [wrote(1), wrote(2), set_register(3, 1), set_register(3, 2)];
    agree(&rt, turns_of_two(rt.alloc(), &bench(rt.alloc())?)?, wanted);
    Ok(())
}

fn word_at<M: PhysMem, T: Translate>(machine: &Machine<M, T>, at: u64) -> Option<u64> {
    machine.mem().load(at - at % 8, AccessSize::Eight)
}

// The words of registers, `pc` and flags, and the byte at 200, as a subject leaves that has halted.
fn left_halted<M: PhysMem, T: Translate>(
    machine: &mut Machine<M, T>,
    bench: &Bench,
) -> [Option<u64>; 4]
    requires { length machine.old.cpus ≡ 1 }
    ensures { length machine.new.cpus ≡ 1 }
{
    machine.device_write(STATE + 200, &[1]);
    machine.step(0, 7, bench);
    machine.finish(0, Finish::Halt);
    machine.leave(0);
    [
        word_at(machine, STATE + 8),
        word_at(machine, STATE + 128),
        word_at(machine, STATE + 152),
        word_at(machine, STATE + 200),
    ]
}

// The words of `pc`, the `pc` before it and the flags, as the subject leaves after an event.
fn left_stopped<M: PhysMem, T: Translate>(machine: &mut Machine<M, T>) -> [Option<u64>; 3]
    requires { length machine.old.cpus ≡ 1 }
{
    machine.enter(0, CONTROL);
    machine.inject(0, 40);
    machine.finish(0, Finish::Stop);
    machine.leave(0);
    [
        word_at(machine, STATE + 128),
        word_at(machine, STATE + 136),
        word_at(machine, STATE + 152),
    ]
}

#[test]
fn state_page_of_who_left(rt: HostRuntime) -> Result<(), Fail> {
    let mut machine = machine(rt.alloc(), subject_at(PC, 0x17, 3))?;
    let words = left_halted(&mut machine, &bench(rt.alloc())?);
    agree(&rt, words, [Some(3), Some(PC + 8), Some(0xa), Some(0)]);
    let words = left_stopped(&mut machine);
    agree(&rt, words, [Some(320), Some(PC + 8), Some(4)]);
    Ok(())
}

#[test]
fn bytes_of_a_device(rt: HostRuntime) -> Result<(), Fail> {
    let mut machine = machine(rt.alloc(), subject_at(PC, 0, 0))?;
    machine.device_write(DEVICE + 0xffe, &[1, 2, 3, 4]);
    machine.device_write(DEVICE - 1, &[5, 6]);
    machine.device_write(DEVICE + 9, &[]);
    let words = [
        machine.mem().load(DEVICE + 0xffc, AccessSize::Four),
        machine.mem().load(DEVICE, AccessSize::Eight),
        machine.mem().load(DEVICE + 0x1000, AccessSize::Eight),
    ];
    agree(&rt, words, [Some(0x0201_0000), Some(6), None]);
    Ok(())
}
