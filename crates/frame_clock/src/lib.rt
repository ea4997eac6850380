//! The scheduling plan by numbers, which frame a CPU has at a tick, and what a run over ticks is.
//!
//! The definitions lay a plan's frames out tick by tick; the code counts ticks instead. Which major
//! frame runs goes on from tick to tick (`FrameAt`, `advance`), and tells each CPU's slot (`slot`). A
//! run over ticks (`Run` in specs/) is defined whatever its system is, with a law in proofs/
//! (`AlikeRuns`): systems that are alike, and take alike inputs and orders in each tick, run alike.
#![tactic(auto)]

mod frame_at;
mod plan;

ghost use Rattle.std.specs.Prelude.{◌≡◌, map, option_map, slice_get};
ghost use Rattle.std.specs.List.{flat_map};
ghost use Rattle.frame_clock.specs.Plan.{frame_of_minor};
ghost use Rattle.frame_clock.specs.Slot.{frame_slots};
ghost use Rattle.frame_clock.specs.FrameSlot.{slot_of};

pub use frame_at::{FrameAt, advance, slot};
pub use plan::{GroupPart, Major, Minor, Plan};

/// The frame of a CPU at a tick.
#[derive(Clone, Copy, Debug, PartialEq, Eq)]
pub struct FrameSlot {
    /// The number of the major frame.
    pub major: usize,
    /// The number of the scheduling group that has the CPU.
    pub group: u8,
    /// Whether it is the first tick of its minor frame.
    pub first: bool,
    /// How many ticks of the minor frame remain, with this one counted.
    pub remaining: u32,
}

// The slot at a tick of a major frame, of a CPU with these minor frames in it. None behind them.
fn in_frames(frames: &[Minor], major: usize, tick: u32) -> Option<FrameSlot>
    ensures { slice_get (flat_map (frame_slots major) (map frame_of_minor frames.now)) tick ≡ option_map slot_of result }
{
    let mut rest = tick;
    for frame in frames {
        if rest < frame.ticks {
            return Some(FrameSlot {
                major,
                group: frame.group,
                first: rest == 0,
                remaining: frame.ticks - rest,
            });
        }
        rest -= frame.ticks;
    }
    None
}
