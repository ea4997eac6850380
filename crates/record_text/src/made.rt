//! A record as far as its lines are read.
ghost use Rattle.std.specs.Prelude.{◌≡◌, ◌==◌, ◌&&◌, ◌≤◌, Err, Ok, map, not};
ghost use Rattle.std.specs.List.{list_any};
ghost use Rattle.muen_num.specs.Answers.{Answers};
ghost use Rattle.record_text.specs.Made.{IsInOrder, RisesTo, made_line, made_order, nothing, with_end, with_input, with_order};
ghost use Rattle.muen_num.specs.Numbers.{are_distinct};

use crate::fault::{LineWant, RecordFault};
use crate::line::{RecordLine, Says};
use crate::record::{Input, TickInput, TickOrder};
use muen_num::Seq;
use std::alloc::Global;

/// A record as far as its lines are read.
#[derive(Drop)]
pub(crate) struct Made {
    /// The tick of the last line; 0 before the first.
    pub tick: u32,
    /// Whether a line has ended the record.
    pub ended: bool,
    pub inputs: Seq<TickInput<Input>>,
    pub orders: Seq<TickOrder>,
}

// Whether no number stands twice.
fn are_distinct(numbers: &[u8]) -> bool
    ensures { result ≡ are_distinct numbers.now }
{
    let mut rest = numbers;
    while let [first, later @ ..] = rest {
        if later.contains(first) {
            return false;
        }
        rest = later;
    }
    true
}

// Whether the tick, which no order is past, has an order: the last one tells.
#[tactic(auto, using(crate::proofs::Ticks::last_tells))]
fn has_order(orders: &[TickOrder], tick: u32) -> bool
    requires { RisesTo tick (map (λ o. o.tick) orders.now) }
    ensures { result ≡ list_any (λ t. t == tick) (map (λ o. o.tick) orders.now) }
{
    match orders.last() {
        Some(order) => order.tick == tick,
        None => false,
    }
}

// Whether the order names no CPU twice, and its tick has none yet.
fn is_new_order(made: &Made, tick: u32, cpus: &[u8]) -> bool
    requires { RisesTo tick (map (λ o. o.tick) made.now.orders) }
    ensures { result ≡ (are_distinct cpus.now && not (list_any (λ t. t == tick) (map (λ o. o.tick) made.now.orders))) }
{
    are_distinct(cpus) && !has_order(made.orders.items(), tick)
}

/// Nothing yet. It takes no memory.
pub(crate) fn nothing(alloc: Global) -> Made
    ensures { result ≡ nothing }
{
    Made {
        tick: 0,
        ended: false,
        inputs: Seq::new(alloc),
        orders: Seq::new(alloc),
    }
}

fn with_input(mut made: Made, tick: u32, input: Input) -> Result<Made, RecordFault>
    ensures { Answers RecordFault.NoMemory (Ok (with_input made tick input)) result }
{
    made.inputs.push(TickInput { tick, input })?;
    made.tick = tick;
    Ok(made)
}

fn with_order(mut made: Made, tick: u32, cpus: Seq<u8>) -> Result<Made, RecordFault>
    ensures { Answers RecordFault.NoMemory (Ok (with_order made tick cpus)) result }
{
    made.orders.push(TickOrder { tick, cpus })?;
    made.tick = tick;
    Ok(made)
}

// An order, where it is new.
fn with_new_order(made: Made, number: u64, tick: u32, cpus: Seq<u8>) -> Result<Made, RecordFault>
    requires { RisesTo tick (map (λ o. o.tick) made.orders) }
    ensures { Answers RecordFault.NoMemory (made_order made number tick cpus) result }
{
    if !is_new_order(&made, tick, cpus.items()) {
        return Err(RecordFault::Line {
            line: number,
            want: LineWant::Order,
        });
    }
    with_order(made, tick, cpus)
}

fn with_end(mut made: Made, tick: u32) -> Made
    ensures { result ≡ with_end made tick }
{
    made.tick = tick;
    made.ended = true;
    made
}

/// What was read, with one line more, or the fault of that line, where its words have none.
#[tactic(auto, using(crate::proofs::Ticks::weaker))]
pub(crate) fn with_line(made: Made, number: u64, line: RecordLine) -> Result<Made, RecordFault>
    requires { IsInOrder made }
    ensures { Answers RecordFault.NoMemory (made_line made number line) result }
{
    let RecordLine { tick, says } = line;
    if tick < made.tick {
        return Err(RecordFault::Back { line: number });
    }
    match says {
        Says::Input(None) => Err(RecordFault::Unknown { line: number }),
        Says::Input(Some(input)) => with_input(made, tick, input),
        Says::Order(cpus) => with_new_order(made, number, tick, cpus),
        Says::End => Ok(with_end(made, tick)),
    }
}
