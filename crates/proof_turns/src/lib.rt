//! When a machine and its kernel stand for the abstract system of a policy, and that a run keeps
//! this.
//!
//! The definitions stand in specs/: which numbers stand for which subjects and things (`Ground`), what
//! holds as long as both run (`Fixed`), where a subject's own state is (`Held`), when the machine stands
//! for the system (`Stands`), and the laws (`Laws`). The functions here carry these; no command calls one.
#![tactic(auto)]

ghost use Rattle.proof_turns.specs.Laws.{InputsKeepStanding, TheEndKeepsStanding, TicksKeepStanding, TurnsKeepStanding};

/// A turn of any CPU, in any tick and whoever had turns before: the machine that stands for a system
/// before the turn stands for the system after it, and both have the same line. So entering and
/// leaving, tables, bitmaps and MSR areas change nothing that a subject could tell from being alone.
pub fn turns_keep_standing()
    ensures { TurnsKeepStanding }
{}

/// So does the begin of a tick, with the major frame that it may choose.
pub fn ticks_keep_standing()
    ensures { TicksKeepStanding }
{}

/// So does an input, where what reaches the machine is the same by numbers: one effect, none, or, of a
/// line of direct memory access, a write for each part of it.
pub fn inputs_keep_standing()
    ensures { InputsKeepStanding }
{}

/// So does the end, at which all CPUs are left.
pub fn the_end_keeps_standing()
    ensures { TheEndKeepsStanding }
{}
