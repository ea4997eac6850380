//! What an instruction does to a subject, and how the step ends by it. The subject is at the next
//! instruction already; where its wish exits, it goes back to `pc`, where it was.
ghost use Rattle.std.specs.Prelude.{◌≡◌, ◌<◌, ℕ, not, true, false};
ghost use Rattle.guest_isa.specs.Step.{sets, port_qualification, port_read, port_written, msr_read, msr_written};
ghost use Rattle.vmx_machine.specs.Machine.{load_answer, store_answer, with_store, msr_file_with_write, back_at};

use crate::bus::Bus;
use crate::cpu::Entered;
use crate::msr_file::MsrFile;
use ept_walk::{PhysMem, Translate};
use guest_isa::{Change, Reach, StepEnd, write_register};
use muen_num::limits::{EXIT_IO, EXIT_RDMSR, EXIT_WRMSR};
use muen_num::{AccessKind, AccessSize};
use state_page::SubjectState;

/// The bit of the qualification of a port access for input.
const INPUT: u64 = 1 << 3;

/// The bit of it at which the port begins.
const PORT: u64 = 1 << 16;

// Without an exit.
pub(crate) fn went_on(s: &mut SubjectState, change: Change) -> StepEnd
    ensures state { s.new ≡ record s.old { exited = false } }
    ensures end { result ≡ StepEnd.Ran change }
{
    s.exited = false;
    StepEnd::Ran(change)
}

// With an exit: the kernel acts, and `call` is the number of a call of it.
pub(crate) fn exits(
    s: &mut SubjectState,
    pc: u64,
    reason: u8,
    qualification: u64,
    addr: u64,
    call: u64,
) -> StepEnd
    ensures state { s.new ≡ record s.old { pc = pc; exited = true } }
    ensures end { result ≡ StepEnd.Exit reason qualification addr call }
{
    s.pc = pc;
    s.exited = true;
    StepEnd::Exit {
        reason,
        qualification,
        addr,
        call,
    }
}

// With an exit that is no call.
pub(crate) fn faulted(
    s: &mut SubjectState,
    pc: u64,
    reason: u8,
    qualification: u64,
    addr: u64,
) -> StepEnd
    ensures state { s.new ≡ record s.old { pc = pc; exited = true } }
    ensures end { result ≡ StepEnd.Exit reason qualification addr 0 }
{
    exits(s, pc, reason, qualification, addr, 0)
}

// A register is loaded.
pub(crate) fn sets(s: &mut SubjectState, reg: u8, value: u64) -> StepEnd
    requires { reg < 16 }
    ensures state { s.new ≡ (sets {X = ℕ} s.old reg value).state }
    ensures end { result ≡ (sets {X = ℕ} s.old reg value).end }
{
    write_register(s, reg, value);
    went_on(s, Change::Set { reg, value })
}

// A register is loaded from memory, unless the access exits.
pub(crate) fn load<M: PhysMem, T: Translate>(
    bus: &mut Bus<M, T>,
    on: &mut Entered,
    pc: u64,
    reg: u8,
    addr: u64,
    size: AccessSize,
) -> StepEnd
    requires { reg < 16 }
    ensures pages { bus.new ≡ bus.old }
    ensures on { on.new ≡ record on.old { state = (load_answer bus.old (back_at pc on.old) on.old.state reg addr size).state } }
    ensures end { result ≡ (load_answer bus.old (back_at pc on.old) on.old.state reg addr size).end }
{
    match bus.reach(on.control.eptp, AccessKind::Read, addr, size) {
        Reach::Reached { target, offset } => {
            sets(&mut on.state, reg, bus.load(target, offset, size))
        }
        Reach::Refused {
            reason,
            qualification,
            addr,
        } => faulted(&mut on.state, pc, reason, qualification, addr),
    }
}

// A value is stored in memory, unless the access exits.
pub(crate) fn store<M: PhysMem, T: Translate>(
    bus: &mut Bus<M, T>,
    on: &mut Entered,
    pc: u64,
    addr: u64,
    size: AccessSize,
    value: u64,
) -> StepEnd
    ensures pages { bus.new ≡ with_store (store_answer bus.old (back_at pc on.old) on.old.state addr size value).stored bus.old }
    ensures on { on.new ≡ record on.old { state = (store_answer bus.old (back_at pc on.old) on.old.state addr size value).state } }
    ensures end { result ≡ (store_answer bus.old (back_at pc on.old) on.old.state addr size value).end }
{
    match bus.reach(on.control.eptp, AccessKind::Write, addr, size) {
        Reach::Reached { target, offset } => {
            bus.store_in(target, offset, size, value);
            went_on(&mut on.state, Change::Stored { size, addr, value })
        }
        Reach::Refused {
            reason,
            qualification,
            addr,
        } => faulted(&mut on.state, pc, reason, qualification, addr),
    }
}

// The qualification of a port access.
pub(crate) fn port_qualification(size: AccessSize, input: bool, port: u16) -> u64
    ensures { result ≡ port_qualification size input port }
{
    let direction = if input { INPUT } else { 0 };
    u64::from(size.bytes() - 1) + direction + PORT * u64::from(port)
}

// A register is loaded from ports, unless that exits.
pub(crate) fn port_read(
    s: &mut SubjectState,
    pc: u64,
    reg: u8,
    port: u16,
    size: AccessSize,
    input: Option<u64>,
) -> StepEnd
    requires { reg < 16 }
    ensures state { s.new ≡ (port_read {X = ℕ} (record s.old { pc = pc }) s.old reg port size input).state }
    ensures end { result ≡ (port_read {X = ℕ} (record s.old { pc = pc }) s.old reg port size input).end }
{
    match input {
        Some(value) => sets(s, reg, value),
        None => faulted(s, pc, EXIT_IO, port_qualification(size, true, port), 0),
    }
}

// A value is written to ports, unless that exits.
pub(crate) fn port_write(
    s: &mut SubjectState,
    pc: u64,
    port: u16,
    size: AccessSize,
    value: u32,
    exits: bool,
) -> StepEnd
    ensures state { s.new ≡ (port_written {X = ℕ} (not exits) (record s.old { pc = pc }) s.old port size value).state }
    ensures end { result ≡ (port_written {X = ℕ} (not exits) (record s.old { pc = pc }) s.old port size value).end }
{
    if exits {
        faulted(s, pc, EXIT_IO, port_qualification(size, false, port), 0)
    } else {
        went_on(s, Change::Out { size, port, value })
    }
}

// A register is loaded from an MSR, unless that exits.
pub(crate) fn msr_read(s: &mut SubjectState, pc: u64, reg: u8, value: Option<u64>) -> StepEnd
    requires { reg < 16 }
    ensures state { s.new ≡ (msr_read {X = ℕ} (record s.old { pc = pc }) s.old reg value).state }
    ensures end { result ≡ (msr_read {X = ℕ} (record s.old { pc = pc }) s.old reg value).end }
{
    match value {
        Some(value) => sets(s, reg, value),
        None => faulted(s, pc, EXIT_RDMSR, 0, 0),
    }
}

// A value is written to an MSR, unless that exits.
pub(crate) fn msr_write(
    s: &mut SubjectState,
    pc: u64,
    file: &mut MsrFile,
    index: u32,
    value: u64,
    exits: bool,
) -> StepEnd
    ensures state { s.new ≡ (msr_written {X = ℕ} (not exits) (record s.old { pc = pc }) s.old index value).state }
    ensures file { file.new ≡ msr_file_with_write (msr_written {X = ℕ} (not exits) (record s.old { pc = pc }) s.old index value).msr file.old }
    ensures end { result ≡ (msr_written {X = ℕ} (not exits) (record s.old { pc = pc }) s.old index value).end }
{
    if exits {
        faulted(s, pc, EXIT_WRMSR, 0, 0)
    } else {
        file.put(u64::from(index), value);
        went_on(s, Change::WroteMsr { index, value })
    }
}
