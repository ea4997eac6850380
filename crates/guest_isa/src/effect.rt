// What instructions do.
ghost use Rattle.std.specs.Prelude.{◌≡◌, ◌+◌, ◌*◌, ◌%◌, ◌^◌, ◌<◌};
ghost use Rattle.std.specs.Int.{w32, cast_unsigned};
ghost use Rattle.guest_isa.specs.GuestIsa.{register, advanced, with_register, extended, offset_by, low_bytes, port_of, set_register, jumped, jumped_if, resumed, effect_of, CanExit, IsValid, IsValidWish, IsSmall};

use crate::instr::{Instr, Wish};
use crate::opcode::Opcode;
use muen_num::AccessSize;
use state_page::SubjectState;

/// How many bytes an instruction has.
const INSTRUCTION: u64 = 8;

fn register(s: &SubjectState, r: u8) -> u64
    requires { r < 16 }
    ensures { result ≡ register s.now r }
{
    s.regs[r as usize]
}

/// `pc` goes to the next instruction.
pub(crate) fn advance(s: &mut SubjectState)
    ensures { s.new ≡ advanced s.old }
{
    s.pc = s.pc.wrapping_add(INSTRUCTION);
}

/// A register has another value.
pub fn write_register(s: &mut SubjectState, reg: u8, value: u64)
    requires { reg < 16 }
    ensures { s.new ≡ with_register s.old reg value }
{
    s.regs[reg as usize] = value;
}

// An immediate, sign-extended.
fn extended(imm: i32) -> u64
    ensures { result ≡ extended imm }
{
    i64::from(imm).cast_unsigned()
}

fn offset_by(n: u64, imm: i32) -> u64
    ensures { result ≡ offset_by n imm }
{
    n.wrapping_add(extended(imm))
}

// The lowest bytes of a value.
fn low_bytes(size: AccessSize, value: u64) -> u64
    ensures { result ≡ low_bytes size value }
{
    match size {
        AccessSize::One => value % (1 << 8),
        AccessSize::Two => value % (1 << 16),
        AccessSize::Four => value % (1 << 32),
        AccessSize::Eight => value,
    }
}

// The lowest bytes of a value, at most four.
fn few_low_bytes(size: AccessSize, value: u64) -> u32
    requires { IsSmall size }
    ensures { result ≡ low_bytes size value }
{
    match size {
        AccessSize::One => (value % (1 << 8)) as u32,
        AccessSize::Two => (value % (1 << 16)) as u32,
        AccessSize::Four => low_half(value),
        AccessSize::Eight => unreachable!(),
    }
}

// Bits 31:0 of a value.
fn low_half(value: u64) -> u32
    ensures { result ≡ value % 2 ^ 32 }
{
    (value % (1 << 32)) as u32
}

// The port at a register's value and an immediate.
fn port_of(n: u64, imm: i32) -> u16
    ensures { result ≡ port_of n imm }
{
    (offset_by(n, imm) % (1 << 16)) as u16
}

// On to the next instruction, and this is asked for.
fn pass(wish: Wish, s: &mut SubjectState) -> Wish
    ensures after { s.new ≡ advanced s.old }
    ensures wish { result ≡ wish }
{
    advance(s);
    wish
}

fn set(reg: u8, value: u64, s: &mut SubjectState) -> Wish
    requires { reg < 16 }
    ensures after { s.new ≡ (set_register s.old reg value).after }
    ensures wish { result ≡ (set_register s.old reg value).wish }
{
    write_register(s, reg, value);
    advance(s);
    Wish::Set { reg, value }
}

// A jump from the instruction's own address.
fn jump(imm: i32, s: &mut SubjectState) -> Wish
    ensures after { s.new ≡ (jumped s.old imm).after }
    ensures wish { result ≡ Wish.Nothing }
{
    s.pc = offset_by(s.pc, imm);
    Wish::Nothing
}

fn jump_if(test: bool, imm: i32, s: &mut SubjectState) -> Wish
    ensures after { s.new ≡ (jumped_if test s.old imm).after }
    ensures wish { result ≡ (jumped_if test s.old imm).wish }
    ensures nothing { result ≡ Wish.Nothing }
{
    if test {
        jump(imm, s)
    } else {
        pass(Wish::Nothing, s)
    }
}

// Events are let in or kept out.
fn let_in(interrupts: bool, s: &mut SubjectState) -> Wish
    ensures after { s.new ≡ advanced (record s.old { interrupts = interrupts }) }
    ensures wish { result ≡ Wish.Nothing }
{
    s.interrupts = interrupts;
    pass(Wish::Nothing, s)
}

// The event handlers are elsewhere.
fn set_handlers(vbase: u64, s: &mut SubjectState) -> Wish
    ensures after { s.new ≡ advanced (record s.old { vbase = vbase }) }
    ensures wish { result ≡ Wish.Nothing }
{
    s.vbase = vbase;
    pass(Wish::Nothing, s)
}

// Back from an event handler.
fn resume(s: &mut SubjectState) -> Wish
    ensures after { s.new ≡ (resumed s.old).after }
    ensures wish { result ≡ Wish.Nothing }
{
    s.pc = s.epc;
    s.interrupts = true;
    Wish::Nothing
}

// The value with other bits 63:32.
fn with_high(value: u64, imm: i32) -> u64
    ensures { result ≡ value % 2 ^ 32 + cast_unsigned w32 imm * 2 ^ 32 }
{
    value % (1 << 32) + (u64::from(imm.cast_unsigned()) << 32)
}

/// An instruction is done in place, and what it asks for is returned. Where that can exit, the state
/// is as it was but for `pc`, which is at the next instruction.
#[tactic(auto, unfolding(crate::specs::GuestIsa::row_of))]
pub fn carry_out(s: &mut SubjectState, i: Instr) -> Wish
    requires { IsValid i }
    ensures after { s.new ≡ (effect_of s.old i).after }
    ensures wish { result ≡ (effect_of s.old i).wish }
    ensures valid { IsValidWish result }
    ensures passed { CanExit result → s.new ≡ advanced s.old }
{
    let Instr {
        opcode,
        rd: reg,
        rs,
        size,
        imm,
    } = i;
    let (own, other) = (register(s, reg), register(s, rs));
    let (addr, port, index) = (offset_by(other, imm), port_of(other, imm), low_half(other));
    match opcode {
        Opcode::Nop => pass(Wish::Nothing, s),
        Opcode::Li => set(reg, extended(imm), s),
        Opcode::Lih => set(reg, with_high(own, imm), s),
        Opcode::Mov => set(reg, other, s),
        Opcode::Add => set(reg, own.wrapping_add(other), s),
        Opcode::Sub => set(reg, own.wrapping_sub(other), s),
        Opcode::And => set(reg, own & other, s),
        Opcode::Or => set(reg, own | other, s),
        Opcode::Xor => set(reg, own ^ other, s),
        Opcode::Shl => set(reg, own << (other % 64), s),
        Opcode::Shr => set(reg, own >> (other % 64), s),
        Opcode::Load => pass(Wish::Load { reg, addr, size }, s),
        Opcode::Store => {
            let value = low_bytes(size, own);
            pass(Wish::Store { addr, size, value }, s)
        }
        Opcode::Jmp => jump(imm, s),
        Opcode::Jz => jump_if(own == 0, imm, s),
        Opcode::Jnz => jump_if(own != 0, imm, s),
        Opcode::Jb => jump_if(own < other, imm, s),
        Opcode::In => pass(Wish::PortIn { reg, port, size }, s),
        Opcode::Out => {
            let value = few_low_bytes(size, own);
            pass(Wish::PortOut { port, size, value }, s)
        }
        Opcode::Rdmsr => pass(Wish::ReadMsr { reg, index }, s),
        Opcode::Wrmsr => pass(Wish::WriteMsr { index, value: own }, s),
        Opcode::Rdtsc => pass(Wish::Tick { reg }, s),
        Opcode::Vmcall => pass(Wish::Call { number: other }, s),
        Opcode::Hlt => pass(Wish::Halt, s),
        Opcode::Sti => let_in(true, s),
        Opcode::Cli => let_in(false, s),
        Opcode::Setv => set_handlers(other, s),
        Opcode::Reti => resume(s),
    }
}
