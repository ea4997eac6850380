//! Where in a record the inputs and the order of a tick stand.
ghost use Rattle.std.specs.Prelude.{ℕ, ◌≡◌, ◌+◌, ◌<◌, ◌≤◌, ◌^◌};
ghost use Rattle.std.specs.List.Sorted.{IsNonDecreasingBy};
ghost use Rattle.device_bench.specs.Before.{Splits, StandBefore};
ghost use Rattle.device_bench.specs.Devices.{IsRecordInOrder};

use crate::effect::Effect;
use record_text::{Record, TickInput, TickOrder};

/// What stands in a record by its tick.
pub(crate) trait Ticked {
    /// The tick.
    ghost tick: { Self → ℕ };

    /// The tick.
    fn tick(&self) -> u32
        ensures { result ≡ tick self.now };
}

impl Ticked for TickInput<Effect> {
    ghost tick = { λ i. i.tick };

    fn tick(&self) -> u32 {
        self.tick
    }
}

impl Ticked for TickOrder {
    ghost tick = { λ o. o.tick };

    fn tick(&self) -> u32 {
        self.tick
    }
}

// How many of these stand before a tick.
fn count_before<T: Ticked>(items: &[T], tick: u64) -> usize
    requires { IsNonDecreasingBy T.tick items.now }
    ensures { Splits T.tick tick items.now result }
{
    items.partition_point(|item| u64::from(item.tick()) < tick)
}

// How many of these stand before a tick, where so many do at least.
fn count_from<T: Ticked>(items: &[T], at_least: usize, tick: u64) -> usize
    requires order { IsNonDecreasingBy T.tick items.now }
    requires before { StandBefore T.tick tick items.now at_least }
    ensures { Splits T.tick tick items.now result }
{
    let mut count = at_least;
    while count < items.len() && u64::from(items[count].tick()) < tick {
        count += 1;
    }
    count
}

/// A tick, how many inputs and how many orders of a record stand before it, and how many inputs before
/// the next one.
#[derive(Clone, Copy, Debug)]
pub(crate) struct AtTick {
    pub tick: u32,
    pub first: usize,
    pub past: usize,
    pub orders: usize,
}

impl AtTick {
    ghost use Rattle.device_bench.specs.AtTick.{IsAtTick};

    // The first tick.
    pub(crate) fn start(run: &Record<Effect>) -> AtTick
        requires { IsRecordInOrder run.now }
        ensures { IsAtTick run.now result }
    {
        AtTick {
            tick: 0,
            first: 0,
            past: count_from(run.inputs.items(), 0, 1),
            orders: 0,
        }
    }

    // Any tick, in time that grows with the logarithm of the record.
    pub(crate) fn search(run: &Record<Effect>, tick: u32) -> AtTick
        requires { IsRecordInOrder run.now }
        ensures there { IsAtTick run.now result }
        ensures tick { result.tick ≡ tick }
    {
        let inputs = run.inputs.items();
        let at = u64::from(tick);
        AtTick {
            tick,
            first: count_before(inputs, at),
            past: count_before(inputs, at + 1),
            orders: count_before(run.orders.items(), at),
        }
    }

    // A later tick, in time that grows with what stands between.
    pub(crate) fn later(self, run: &Record<Effect>, tick: u32) -> AtTick
        requires order { IsRecordInOrder run.now }
        requires here { IsAtTick run.now self }
        requires later { self.tick < tick }
        ensures there { IsAtTick run.now result }
        ensures tick { result.tick ≡ tick }
    {
        let inputs = run.inputs.items();
        let at = u64::from(tick);
        let first = count_from(inputs, self.past, at);
        AtTick {
            tick,
            first,
            past: count_from(inputs, first, at + 1),
            orders: count_from(run.orders.items(), self.orders, at),
        }
    }
}
