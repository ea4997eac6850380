//! Turns.
ghost use Rattle.std.specs.Prelude.{◌≡◌};
ghost use Rattle.kernel_core.specs.Kernel.{turn_line_of, turn_standing_of};

use guest_isa::SubjectState;
use muen_num::Name;
use view_text::{TurnAction, TurnLine};

/// Who takes a turn, and when.
#[derive(Clone, Copy)]
pub(crate) struct Turn {
    pub tick: u32,
    pub cpu: u8,
    pub subject: Name,
    /// `pc` before the turn.
    pub pc: u64,
}

/// What a turn goes by, of the state of who is on the CPU.
#[derive(Clone, Copy)]
pub(crate) struct Standing {
    pub pc: u64,
    pub interrupts: bool,
    pub halted: bool,
    pub stopped: bool,
    pub exited: bool,
}

impl Standing {
    /// That of a state.
    pub(crate) fn of(s: &SubjectState) -> Standing
        ensures { result ≡ turn_standing_of s.now }
    {
        Standing {
            pc: s.pc,
            interrupts: s.interrupts,
            halted: s.halted,
            stopped: s.stopped,
            exited: s.exited,
        }
    }
}

impl Turn {
    /// Its line, where this happened.
    pub(crate) fn line(&self, what: TurnAction) -> TurnLine
        ensures { result ≡ turn_line_of self.now what }
    {
        TurnLine {
            tick: self.tick,
            cpu: self.cpu,
            subject: self.subject,
            pc: self.pc,
            what,
        }
    }
}
