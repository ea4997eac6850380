//! The state of a subject.
ghost use Rattle.std.specs.Prelude.{◌≡◌, []};
ghost use Rattle.state_page.specs.StatePage.{state_in};
ghost use Rattle.state_page.specs.States.{started};

/// What a subject's processor holds (this project's own machine; on a state page of its kernel it
/// has 4,096 bytes).
#[derive(Clone, Copy, Debug, PartialEq, Eq)]
pub struct SubjectState {
    /// The sixteen registers.
    pub regs: [u64; 16],
    /// The guest address of the next instruction.
    pub pc: u64,
    /// Where the last event interrupted the subject.
    pub epc: u64,
    /// Where the subject's event handlers begin, 8 bytes for each vector.
    pub vbase: u64,
    /// Events may be delivered.
    pub interrupts: bool,
    /// The subject waits for an event.
    pub halted: bool,
    /// The subject doesn't run any more.
    pub stopped: bool,
    /// Its last turn ended with an exit.
    pub exited: bool,
}

impl SubjectState {
    /// The state that is kept nowhere: all zero, as on a page that has no bytes.
    #[tactic(auto, unfolding(crate::specs::StatePage::state_in, crate::specs::StatePage::registers_in, machine_layout::specs::PageFields::number_at))]
    pub fn zero() -> SubjectState
        ensures { result ≡ state_in [] }
    {
        SubjectState {
            regs: [0; 16],
            pc: 0,
            epc: 0,
            vbase: 0,
            interrupts: false,
            halted: false,
            stopped: false,
            exited: false,
        }
    }

    /// The state in which a subject with this entry begins: all zero, and exited.
    #[tactic(auto, unfolding(crate::specs::States::started))]
    pub fn start(entry: u64) -> SubjectState
        ensures { result ≡ started entry }
    {
        SubjectState {
            regs: [0; 16],
            pc: entry,
            epc: 0,
            vbase: 0,
            interrupts: false,
            halted: false,
            stopped: false,
            exited: true,
        }
    }
}
