//! The slots that CPUs have, kept from turn to turn.
ghost use Rattle.std.specs.Prelude.{◌≡◌, List, None, Some, IfOk, IfSome, option_map, replicate};
ghost use Rattle.muen_num.specs.Frame.{Frame};
ghost use Rattle.muen_num.specs.ListChange.{change_at};
ghost use Rattle.frame_clock.specs.Frames.{slot_in};
ghost use Rattle.frame_clock.specs.FrameSlot.{slot_of};
ghost use Rattle.frame_clock.specs.Plan.{frames_in};
ghost use Rattle.frame_clock.specs.declared.plan.Plan.{Plan};
ghost use Rattle.kernel_core.specs.Slots.{AreSlotsKept, IsSlotKept};

use frame_clock::{FrameAt, FrameSlot, Plan, slot};
use muen_num::NoMemory;
use std::alloc::Global;

/// A slot that was found for a CPU, at a tick of the major frame that ran then. It tells the slots
/// of the ticks behind it too, as far as its minor frame goes.
#[derive(Clone, Copy)]
pub(crate) struct KeptSlot {
    pub at: FrameAt,
    pub tick: u32,
    pub slot: FrameSlot,
}

impl KeptSlot {
    /// The slot at a tick, by the major frame that runs then. None where it isn't in the same minor
    /// frame.
    fn at_tick(&self, at: FrameAt, tick: u32) -> Option<FrameSlot>
        ensures { (frames : List (List Frame)) → IsSlotKept frames self.now → IfSome result (λ s. slot_in frames at tick ≡ Some (slot_of s)) }
    {
        if self.at != at {
            return None;
        }
        let passed = tick.checked_sub(self.tick)?;
        if passed < self.slot.remaining {
            Some(FrameSlot {
                first: self.slot.first && passed == 0,
                remaining: self.slot.remaining - passed,
                ..self.slot
            })
        } else {
            None
        }
    }
}

/// Nothing is kept for so many CPUs.
#[tactic(auto, using(crate::proofs::KeptSlots::none_kept))]
pub(crate) fn no_slots(alloc: Global, cpus: u8) -> Result<Vec<Option<KeptSlot>>, NoMemory>
    ensures items { IfOk result (λ v. v.items ≡ replicate cpus None) }
    ensures kept { IfOk result (λ v. (plan : Plan) → AreSlotsKept plan v.items) }
{
    Ok(vec![in alloc; None; cpus as usize]?)
}

// It is kept for a CPU, where there is such a CPU.
#[tactic(auto, using(muen_num::proofs::ChangeLaws::set_is, muen_num::proofs::ChangeLaws::past_is))]
fn keep(slots: &mut [Option<KeptSlot>], cpu: usize, kept: KeptSlot)
    ensures { slots.new ≡ change_at cpu (λ _. Some kept) slots.old }
{
    if cpu < slots.len() {
        slots[cpu] = Some(kept);
    }
}

// The slot of a CPU at a tick, where what is kept tells it.
fn told_slot(slots: &[Option<KeptSlot>], at: FrameAt, cpu: u8, tick: u32) -> Option<FrameSlot>
    ensures { (plan : Plan) → AreSlotsKept plan slots.now → IfSome result (λ s. slot_in (frames_in plan cpu) at tick ≡ Some (slot_of s)) }
{
    match slots.get(cpu as usize) {
        Some(Some(kept)) => kept.at_tick(at, tick),
        _ => None,
    }
}

/// The slot of a CPU at a tick, by the major frame that runs then, as `frame_clock::slot` tells it:
/// by what is kept, where that tells it; else it is searched for, and kept.
pub(crate) fn slot_at(
    slots: &mut [Option<KeptSlot>],
    plan: &Plan,
    at: FrameAt,
    cpu: u8,
    tick: u32,
) -> Option<FrameSlot>
    requires { AreSlotsKept plan.now slots.old }
    ensures slot { option_map slot_of result ≡ slot_in (frames_in plan.now cpu) at tick }
    ensures kept { AreSlotsKept plan.now slots.new }
{
    if let Some(slot) = told_slot(slots, at, cpu, tick) {
        return Some(slot);
    }
    let slot = slot(plan, at, cpu, tick)?;
    if at.start <= tick {
        keep(slots, cpu as usize, KeptSlot { at, tick, slot });
    }
    Some(slot)
}
