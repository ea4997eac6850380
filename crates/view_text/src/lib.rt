//! The lines that a run prints.
#![tactic(auto)]

ghost use Rattle.std.specs.Prelude.{◌≡◌, ◌+◌, ◌≤◌, ◌++◌, length, take};
ghost use Rattle.view_text.specs.ViewText.{turn_text, what_text, change_text, exit_end_text, printed_flags_of, state_row_text, end_line_text, registers_text, region_text, kind_word};

use guest_isa::Change;
pub use guest_isa::SubjectState;
use muen_num::text::{
    append, append_decimal8, append_decimal32, append_hex4, append_hex8, append_hex16, append_hex32,
};
use muen_num::{AccessSize, Name, Tag};

/// The line of a turn.
#[derive(Clone, Copy, Debug)]
pub struct TurnLine {
    pub tick: u32,
    pub cpu: u8,
    pub subject: Name,
    /// `pc` before the turn.
    pub pc: u64,
    pub what: TurnAction,
}

/// What happened in a turn.
#[derive(Clone, Copy, Debug)]
pub enum TurnAction {
    /// An instruction ran, with this change.
    Ran(Change),
    /// An event was delivered.
    Inject {
        vector: u8,
    },
    /// The subject left to the kernel (exit reasons of Intel SDM volume 3).
    Exit {
        reason: u8,
        qualification: u64,
        addr: u64,
        end: ExitEnd,
    },
}

/// How the kernel ended an exit.
#[derive(Clone, Copy, Debug)]
pub enum ExitEnd {
    /// The subject goes on.
    On,
    /// The subject is halted.
    Halt,
    /// The event of a trap entry was raised.
    Trap,
    /// The subject is stopped.
    Stop,
}

fn append_exit_end(out: &mut [u8], at: usize, end: ExitEnd) -> usize
    requires { at + 4 ≤ length out.old }
    ensures end { result ≤ at + 4 }
    ensures text { take result out.new ≡ take at out.old ++ exit_end_text end }
{
    match end {
        ExitEnd::On => append(out, at, b"on"),
        ExitEnd::Halt => append(out, at, b"halt"),
        ExitEnd::Trap => append(out, at, b"trap"),
        ExitEnd::Stop => append(out, at, b"stop"),
    }
}

fn append_exit(
    out: &mut [u8],
    at: usize,
    reason: u8,
    qualification: u64,
    addr: u64,
    end: ExitEnd,
) -> usize
    requires { at + 47 ≤ length out.old }
    ensures end { result ≤ at + 47 }
    ensures text { take result out.new ≡ take at out.old ++ what_text (TurnAction.Exit reason qualification addr end) }
{
    let at = append(out, at, b"exit ");
    let at = append_decimal8(out, at, reason);
    let at = append(out, at, b" ");
    let at = append_hex16(out, at, qualification);
    let at = append(out, at, b" ");
    let at = append_hex16(out, at, addr);
    let at = append(out, at, b" ");
    append_exit_end(out, at, end)
}

fn append_set(out: &mut [u8], at: usize, reg: u8, value: u64) -> usize
    requires { at + 21 ≤ length out.old }
    ensures end { result ≤ at + 21 }
    ensures text { take result out.new ≡ take at out.old ++ change_text (Change.Set reg value) }
{
    let at = append(out, at, b"r");
    let at = append_decimal8(out, at, reg);
    let at = append(out, at, b"=");
    append_hex16(out, at, value)
}

fn append_stored(out: &mut [u8], at: usize, size: AccessSize, addr: u64, value: u64) -> usize
    requires { at + 43 ≤ length out.old }
    ensures end { result ≤ at + 43 }
    ensures text { take result out.new ≡ take at out.old ++ change_text (Change.Stored size addr value) }
{
    let at = append(out, at, b"store ");
    let at = append_decimal8(out, at, size.bytes());
    let at = append(out, at, b" ");
    let at = append_hex16(out, at, addr);
    let at = append(out, at, b" ");
    append_hex16(out, at, value)
}

fn append_out(out: &mut [u8], at: usize, size: AccessSize, port: u16, value: u32) -> usize
    requires { at + 21 ≤ length out.old }
    ensures end { result ≤ at + 21 }
    ensures text { take result out.new ≡ take at out.old ++ change_text (Change.Out size port value) }
{
    let at = append(out, at, b"out ");
    let at = append_decimal8(out, at, size.bytes());
    let at = append(out, at, b" ");
    let at = append_hex4(out, at, port);
    let at = append(out, at, b" ");
    append_hex8(out, at, value)
}

fn append_wrote_msr(out: &mut [u8], at: usize, index: u32, value: u64) -> usize
    requires { at + 31 ≤ length out.old }
    ensures end { result ≤ at + 31 }
    ensures text { take result out.new ≡ take at out.old ++ change_text (Change.WroteMsr index value) }
{
    let at = append(out, at, b"wrmsr ");
    let at = append_hex8(out, at, index);
    let at = append(out, at, b" ");
    append_hex16(out, at, value)
}

fn append_change(out: &mut [u8], at: usize, change: Change) -> usize
    requires { at + 43 ≤ length out.old }
    ensures end { result ≤ at + 43 }
    ensures text { take result out.new ≡ take at out.old ++ change_text change }
{
    match change {
        Change::Plain => append(out, at, b"-"),
        Change::Set { reg, value } => append_set(out, at, reg, value),
        Change::Stored { size, addr, value } => append_stored(out, at, size, addr, value),
        Change::Out { size, port, value } => append_out(out, at, size, port, value),
        Change::WroteMsr { index, value } => append_wrote_msr(out, at, index, value),
    }
}

fn append_inject(out: &mut [u8], at: usize, vector: u8) -> usize
    requires { at + 10 ≤ length out.old }
    ensures end { result ≤ at + 10 }
    ensures text { take result out.new ≡ take at out.old ++ what_text (TurnAction.Inject vector) }
{
    let at = append(out, at, b"inject ");
    append_decimal8(out, at, vector)
}

fn append_what(out: &mut [u8], at: usize, what: TurnAction) -> usize
    requires { at + 47 ≤ length out.old }
    ensures end { result ≤ at + 47 }
    ensures text { take result out.new ≡ take at out.old ++ what_text what }
{
    match what {
        TurnAction::Ran(change) => append_change(out, at, change),
        TurnAction::Inject { vector } => append_inject(out, at, vector),
        TurnAction::Exit {
            reason,
            qualification,
            addr,
            end,
        } => append_exit(out, at, reason, qualification, addr, end),
    }
}

/// Writes the line of a turn: tick, CPU, subject, `pc` before the turn, and what happened. Answers
/// its length.
#[tactic(auto, unfolding(crate::specs::ViewText::turn_text))]
pub fn turn_line(l: &TurnLine, out: &mut [u8; 256]) -> usize
    ensures within { result ≤ 160 }
    ensures text { take result out.new ≡ turn_text l.now }
{
    let at = append_decimal32(out, 0, l.tick);
    let at = append(out, at, b" ");
    let at = append_decimal8(out, at, l.cpu);
    let at = append(out, at, b" ");
    let at = append(out, at, l.subject.bytes());
    let at = append(out, at, b" ");
    let at = append_hex16(out, at, l.pc);
    let at = append(out, at, b" ");
    let at = append_what(out, at, l.what);
    append(out, at, b"\n")
}

// The flags as one number: interrupts 1, halted 2, stopped 4, exited 8.
fn flags(s: &SubjectState) -> u8
    ensures value { result ≡ printed_flags_of s.now }
    ensures within { result ≤ 15 }
{
    u8::from(s.interrupts)
        + 2 * u8::from(s.halted)
        + 4 * u8::from(s.stopped)
        + 8 * u8::from(s.exited)
}

#[tactic(auto, unfolding(crate::specs::ViewText::end_line_text))]
fn end_line(subject: &Name, s: &SubjectState, out: &mut [u8; 256]) -> usize
    ensures within { result ≤ 160 }
    ensures text { take result out.new ≡ end_line_text subject.now s.now }
{
    let at = append(out, 0, b"end ");
    let at = append(out, at, subject.bytes());
    let at = append(out, at, b" ");
    let at = append_hex16(out, at, s.pc);
    let at = append(out, at, b" ");
    let at = append_hex16(out, at, s.epc);
    let at = append(out, at, b" ");
    let at = append_hex16(out, at, s.vbase);
    let at = append(out, at, b" ");
    let at = append_decimal8(out, at, flags(s));
    append(out, at, b"\n")
}

#[tactic(auto, unfolding(crate::specs::ViewText::registers_text))]
fn registers_line(subject: &Name, regs: &[u64; 16], first: u8, out: &mut [u8; 256]) -> usize
    requires { first + 4 ≤ 16 }
    ensures within { result ≤ 160 }
    ensures text { take result out.new ≡ registers_text subject.now regs.now first }
{
    let at = append(out, 0, b"regs ");
    let at = append(out, at, subject.bytes());
    let at = append(out, at, b" ");
    let at = append_decimal8(out, at, first);
    let at = append(out, at, b" ");
    let at = append_hex16(out, at, regs[first as usize]);
    let at = append(out, at, b" ");
    let at = append_hex16(out, at, regs[first as usize + 1]);
    let at = append(out, at, b" ");
    let at = append_hex16(out, at, regs[first as usize + 2]);
    let at = append(out, at, b" ");
    let at = append_hex16(out, at, regs[first as usize + 3]);
    append(out, at, b"\n")
}

/// Writes a row of a subject's final state: row 0 has `pc`, `epc`, `vbase` and the flags, rows 1 to
/// 4 four registers each. Answers its length.
pub fn state_line(subject: &Name, s: &SubjectState, row: u8, out: &mut [u8; 256]) -> usize
    requires { row ≤ 4 }
    ensures within { result ≤ 160 }
    ensures text { take result out.new ≡ state_row_text subject.now s.now row }
{
    if row == 0 {
        end_line(subject, s, out)
    } else {
        registers_line(subject, &s.regs, 4 * (row - 1), out)
    }
}

/// Writes the final line of a region of memory, or of a device's window: its name, and the SHA-256
/// digest of its bytes. Answers its length.
#[tactic(auto, unfolding(crate::specs::ViewText::region_text))]
pub fn region_line(tag: &Tag, device: bool, digest: &[u8; 32], out: &mut [u8; 256]) -> usize
    ensures within { result ≤ 256 }
    ensures text { take result out.new ≡ region_text tag.now device digest.now }
{
    let mut name = [0u8; 128];
    let len = tag.write(&mut name);
    let at = append(out, 0, kind_word(device));
    let at = append(out, at, b" ");
    let at = append(out, at, &name[..len]);
    let at = append(out, at, b" ");
    let at = append_hex32(out, at, digest);
    append(out, at, b"\n")
}

fn kind_word(device: bool) -> &'static [u8]
    ensures value { result.now ≡ kind_word device }
    ensures within { length result.now ≤ 6 }
{
    if device { b"device" } else { b"region" }
}
