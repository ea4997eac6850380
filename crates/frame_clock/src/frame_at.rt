//! The major frame that runs, and the slots in it.
ghost use Rattle.std.specs.Prelude.{◌≡◌, ◌<◌, map, option_map, slice_get};
ghost use Rattle.frame_clock.specs.Plan.{frames_in};
ghost use Rattle.frame_clock.specs.FrameSlot.{slot_of};
ghost use Rattle.frame_clock.specs.Frames.{next_major, frame_at_tick, slot_in, ticks_of_plan_majors, first_frame};

use crate::{FrameSlot, Major, Minor, Plan, in_frames};
use muen_num::Seq;

/// A major frame that runs, and since when.
#[derive(Clone, Copy, Debug, PartialEq, Eq)]
pub struct FrameAt {
    /// The number of the major frame.
    pub major: usize,
    /// Its first tick.
    pub start: u32,
}

impl FrameAt {
    /// The first major frame, from tick 0 on.
    pub fn first() -> FrameAt
        ensures { result ≡ first_frame }
    {
        FrameAt { major: 0, start: 0 }
    }
}

// How many ticks a major frame has. None where there is no such.
fn ticks_of(majors: &[Major], major: usize) -> Option<u32>
    ensures { result ≡ slice_get (map (λ m. m.ticks) majors.now) major }
{
    Some(majors.get(major)?.ticks)
}

// A major frame by its number.
fn major_at(majors: &[Major], major: usize) -> Option<&Major>
    ensures { option_map (λ m. m.now) result ≡ slice_get majors.now major }
{
    majors.get(major)
}

// The minor frames of a CPU in a major frame.
fn frames_of(major: &Major, cpu: usize) -> Option<&Seq<Minor>>
    ensures { option_map (λ f. f.now) result ≡ slice_get major.now.cpus cpu }
{
    major.cpus.items().get(cpu)
}

// The major frame after one of so many.
fn next_major(count: usize, major: usize, pick: Option<u8>) -> usize
    requires { major < count }
    ensures { result ≡ next_major count major pick }
{
    match pick {
        Some(pick) => {
            if usize::from(pick) < count {
                usize::from(pick)
            } else {
                major
            }
        }
        None => { if major + 1 < count { major + 1 } else { 0 } }
    }
}

/// The major frame at a tick, by that at the tick before: where its ticks are over, the next major
/// frame begins. That is the one that is picked, by its number, and the same one again where
/// there is no such; where nothing is picked it is the one behind it, and the first behind the last.
pub fn advance(p: &Plan, at: FrameAt, pick: Option<u8>, tick: u32) -> FrameAt
    ensures { result ≡ frame_at_tick (ticks_of_plan_majors p.now) at pick tick }
{
    let majors = p.majors.items();
    let ticks = match ticks_of(majors, at.major) {
        None => return at,
        Some(ticks) => ticks,
    };
    if u64::from(tick) == u64::from(at.start) + u64::from(ticks) {
        FrameAt {
            major: next_major(majors.len(), at.major, pick),
            start: tick,
        }
    } else {
        at
    }
}

/// The slot of a CPU at a tick, by the major frame that runs then. None where the plan has no such
/// CPU, major frame or tick in it.
pub fn slot(p: &Plan, at: FrameAt, cpu: u8, tick: u32) -> Option<FrameSlot>
    ensures { option_map slot_of result ≡ slot_in (frames_in p.now cpu) at tick }
{
    match major_at(p.majors.items(), at.major) {
        None => None,
        Some(major) => match frames_of(major, cpu as usize) {
            None => None,
            Some(frames) => in_frames(frames.items(), at.major, tick.saturating_sub(at.start)),
        },
    }
}
