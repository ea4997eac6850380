//! What the kernel makes of a subject's state.
ghost use Rattle.std.specs.Prelude.{◌≡◌};
ghost use Rattle.guest_isa.specs.Finish.{injected, finished, finish_of};

use crate::effect::advance;
use muen_num::limits::{EXIT_HLT, EXIT_VMCALL};
use state_page::SubjectState;

/// How many bytes the handler of a vector has.
const HANDLER: u64 = 8;

/// How a subject goes on after an exit.
#[derive(Clone, Copy, Debug, PartialEq, Eq)]
pub enum Finish {
    /// At the next instruction.
    On,
    /// At the next instruction, once an event is delivered.
    Halt,
    /// Not any more.
    Stop,
}

impl Finish {
    /// How a subject goes on after an exit of this reason: HLT halts it, a call of the kernel lets it
    /// go on, and any other exit does where the subject has a trap entry for it, and else stops it.
    pub fn after(reason: u8, has_trap: bool) -> Finish
        ensures { result ≡ finish_of reason has_trap }
    {
        match reason {
            EXIT_HLT => Finish::Halt,
            EXIT_VMCALL => Finish::On,
            _ if has_trap => Finish::On,
            _ => Finish::Stop,
        }
    }

    /// The subject goes on.
    pub fn apply(self, s: &mut SubjectState)
        ensures { s.new ≡ finished self s.old }
    {
        match self {
            Finish::On => advance(s),
            Finish::Halt => {
                advance(s);
                s.halted = true;
            }
            Finish::Stop => s.stopped = true,
        }
    }
}

/// An event of this vector is delivered: the subject is at its handler, lets no events in, and isn't
/// halted.
pub fn inject(s: &mut SubjectState, vector: u8)
    ensures { s.new ≡ injected vector s.old }
{
    s.epc = s.pc;
    s.pc = s.vbase.wrapping_add(HANDLER * u64::from(vector));
    s.interrupts = false;
    s.halted = false;
    s.exited = false;
}
