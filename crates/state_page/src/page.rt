//! Reading and writing state pages.
ghost use Rattle.std.specs.Prelude.{◌≡◌, ◌==◌, ◌+◌, ℕ, ◌^◌, ◌<◌, ◌≤◌, [], slice_index, length, if◌then◌else◌, flat_map};
ghost use Rattle.machine_layout.specs.Memory.{le_bytes};
ghost use Rattle.machine_layout.specs.PageFields.{padded};
ghost use Rattle.state_page.specs.StatePage.{flag, flags_of, has_flag, page_bytes, registers_in, state_in};

use crate::SubjectState;
use machine_layout::{clear_all, put_bytes, put_word, word_at};
use muen_num::limits::PAGE;

/// How many registers a subject has; they begin at byte 0.
const REGISTERS: usize = 16;

/// The bytes of a word.
const WORD: usize = 8;

/// The byte at which `pc` begins.
const PC: usize = 128;

/// The byte at which `epc` begins.
const EPC: usize = 136;

/// The byte at which `vbase` begins.
const VBASE: usize = 144;

/// The byte of the flags.
const FLAGS: usize = 152;

/// The bit of the flags that says that events may be delivered.
const INTERRUPTS: u32 = 0;

/// The bit that says that the subject waits for an event.
const HALTED: u32 = 1;

/// The bit that says that the subject doesn't run any more.
const STOPPED: u32 = 2;

/// The bit that says that the last turn ended with an exit.
const EXITED: u32 = 3;

// The registers on a page.
fn registers(page: &[u8]) -> [u64; REGISTERS]
    requires { length page.now ≡ PAGE }
    ensures { result ≡ registers_in REGISTERS page.now }
{
    let mut registers = [0; REGISTERS];
    for (i, register) in registers.iter_mut().enumerate() {
        *register = word_at(page, WORD * i);
    }
    registers
}

// Whether a flag is set on a page.
fn has(page: &[u8], bit: u32) -> bool
    requires page { length page.now ≡ PAGE }
    requires bit { bit < 8 }
    ensures { result ≡ has_flag page.now bit }
{
    (page[FLAGS] >> bit) & 1 == 1
}

/// The state that a state page holds. Bits and bytes in which no state is kept don't matter.
pub fn read(page: &[u8]) -> SubjectState
    requires { length page.now ≡ PAGE }
    ensures { result ≡ state_in page.now }
{
    SubjectState {
        regs: registers(page),
        pc: word_at(page, PC),
        epc: word_at(page, EPC),
        vbase: word_at(page, VBASE),
        interrupts: has(page, INTERRUPTS),
        halted: has(page, HALTED),
        stopped: has(page, STOPPED),
        exited: has(page, EXITED),
    }
}

// The flags byte of one flag.
fn flag_byte(is_set: bool, bit: u32) -> u8
    requires { bit < 4 }
    ensures value { result ≡ flag is_set bit }
    ensures small { result ≤ 8 }
{
    if is_set { 1 << bit } else { 0 }
}

// The flags byte of a state.
fn flags(state: &SubjectState) -> u8
    ensures { result ≡ flags_of state.now }
{
    flag_byte(state.interrupts, INTERRUPTS)
        + flag_byte(state.halted, HALTED)
        + flag_byte(state.stopped, STOPPED)
        + flag_byte(state.exited, EXITED)
}

// Writes the registers onto a page of zeros; each is a word.
fn put_registers(page: &mut [u8], registers: &[u64; REGISTERS])
    requires page { length page.old ≡ PAGE }
    requires zeros { page.old ≡ padded (length page.old) [] }
    ensures page { page.new ≡ padded (length page.old) (flat_map (le_bytes WORD) registers.now) }
    ensures words { (i : ℕ) → slice_index registers.now i < 2 ^ 64 }
{
    for (i, register) in registers.iter().enumerate() {
        put_word(page, WORD * i, *register);
    }
}

/// Writes the state page of a state, whatever stood there before: the registers from byte 0 on,
/// `pc` at byte 128, `epc` at 136, `vbase` at 144, the flags at 152, and zeros behind them. Reading
/// the page gives the state back.
pub fn write(state: &SubjectState, page: &mut [u8])
    requires { length page.old ≡ PAGE }
    ensures page { page.new ≡ page_bytes state.now }
    ensures back { state_in page.new ≡ state.now }
{
    clear_all(page);
    put_registers(page, &state.regs);
    put_word(page, PC, state.pc);
    put_word(page, EPC, state.epc);
    put_word(page, VBASE, state.vbase);
    put_bytes(page, FLAGS, &[flags(state)]);
}
