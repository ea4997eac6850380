//! The devices of a run.
ghost use Rattle.std.specs.Prelude.{◌≡◌, ◌+◌, ◌^◌, ◌==◌, ◌<◌, ◌≤◌, slice_get, slice_set, length, filter, option_map, IfOk};
ghost use Rattle.std.specs.List.{find};
ghost use Rattle.std.specs.List.Sorted.{IsNonDecreasingBy};
ghost use Rattle.machine_layout.specs.Memory.{le_number};
ghost use Rattle.muen_num.specs.AccessSize.{bytes_of};
ghost use Rattle.device_bench.specs.Before.{Splits};
ghost use Rattle.device_bench.specs.Devices.{IsRecordInOrder, inputs_at, order_at, no_inputs, value_of_ports};
ghost use Rattle.muen_num.specs.Numbers.{zeros};

use crate::at_tick::AtTick;
use crate::effect::Effect;
use muen_num::limits::LAST_PORT;
use muen_num::{AccessSize, NoMemory};
use record_text::{Record, TickInput, TickOrder};
use std::alloc::Global;
use std::marker::Model;

/// How many I/O ports there are.
const PORTS: usize = LAST_PORT as usize + 1;

/// How many values a byte has.
const BYTE_VALUES: u32 = 256;

/// The devices of a run, by its record: what they do in each tick, and the input byte of each I/O
/// port.
#[derive(Debug, Drop)]
pub struct Bench {
    run: Record<Effect>,
    ports: Vec<u8>,
    at: AtTick,
}

impl Model for Bench {
    ghost use Rattle.device_bench.specs.AtTick.{IsAtTick};
    ghost use Rattle.device_bench.specs.Devices.{BenchState, IsBench};

    ghost Value = { BenchState };

    ghost view = { λ b. record { run = b.run; ports = b.ports.items } };

    ghost invariant = { λ b. IsBench (record { run = b.run; ports = b.ports.items }) × IsAtTick b.run b.at };
}

// The inputs of a tick.
fn inputs_of(inputs: &[TickInput<Effect>], at: AtTick) -> &[TickInput<Effect>]
    requires first { Splits (λ i. i.tick) at.tick inputs.now at.first }
    requires past { Splits (λ i. i.tick) (at.tick + 1) inputs.now at.past }
    ensures { result.now ≡ filter (λ i. i.tick == at.tick) inputs.now }
{
    &inputs[at.first..at.past]
}

// The order at an index.
fn order_at(orders: &[TickOrder], index: usize) -> Option<&TickOrder>
    ensures { option_map (λ o. o.now) result ≡ slice_get orders.now index }
{
    orders.get(index)
}

// The order of a tick.
fn order_of(orders: &[TickOrder], at: AtTick) -> Option<&TickOrder>
    requires order { IsNonDecreasingBy (λ o. o.tick) orders.now }
    requires before { Splits (λ o. o.tick) at.tick orders.now at.orders }
    ensures { option_map (λ o. o.now) result ≡ find (λ o. o.tick == at.tick) orders.now }
{
    match order_at(orders, at.orders) {
        None => None,
        Some(order) => {
            if order.tick == at.tick {
                Some(order)
            } else {
                None
            }
        }
    }
}

// The number that bytes spell, the lowest first.
fn number_of(bytes: &[u8]) -> u32
    requires { length bytes.now ≤ 4 }
    ensures { result ≡ le_number bytes.now }
{
    match bytes {
        [] => 0,
        [first, rest @ ..] => u32::from(*first) + BYTE_VALUES * number_of(rest),
    }
}

// So many zeros.
#[tactic(auto, unfolding(muen_num::specs::Numbers::zeros))]
fn zeros(alloc: Global, count: usize) -> Result<Vec<u8>, NoMemory>
    ensures zeros { IfOk result (λ z. z.items ≡ zeros count) }
    ensures length { IfOk result (λ z. length z.items ≡ count) }
{
    Ok(vec![in alloc; 0; count]?)
}

impl Bench {
    ghost use Rattle.device_bench.specs.AtTick.{IsAtTick};

    /// The devices of a run with this record, which is in order. No port has had an input.
    ///
    /// # Errors
    /// Memory is refused.
    pub fn start(alloc: Global, run: Record<Effect>) -> Result<Bench, NoMemory>
        requires { IsRecordInOrder run }
        ensures { IfOk result (λ b. b ≡ record { run = run; ports = no_inputs }) }
    {
        let at = AtTick::start(&run);
        Ok(Bench {
            run,
            ports: zeros(alloc, PORTS)?,
            at,
        })
    }

    /// A tick begins: what is asked of it until a later one begins is told at once. What is asked of
    /// another tick is found in time that grows with the logarithm of the record.
    pub fn begin(&mut self, tick: u32)
        ensures { self.new ≡ self.old }
    {
        if self.at.tick < tick {
            self.at = self.at.later(&self.run, tick);
        }
    }

    // Where what is of a tick stands.
    fn at_tick(&self, tick: u32) -> AtTick
        ensures there { IsAtTick self.now.run result }
        ensures tick { result.tick ≡ tick }
    {
        if self.at.tick == tick {
            self.at
        } else {
            AtTick::search(&self.run, tick)
        }
    }

    /// The inputs of a tick, in their order.
    pub fn inputs(&self, tick: u32) -> &[TickInput<Effect>]
        ensures { result.now ≡ inputs_at self.now.run tick }
    {
        inputs_of(self.run.inputs.items(), self.at_tick(tick))
    }

    /// The order in which the CPUs take their turns in a tick. None where the record gives none, and
    /// they take them by number.
    pub fn order(&self, tick: u32) -> Option<&[u8]>
        ensures { option_map (λ o. o.now) result ≡ order_at self.now.run tick }
    {
        let order = order_of(self.run.orders.items(), self.at_tick(tick))?;
        Some(order.cpus.items())
    }

    /// How many ticks the run has.
    pub fn end(&self) -> u32
        ensures { result ≡ self.now.run.end }
    {
        self.run.end
    }

    /// The input byte of a port becomes this value.
    pub fn set_port(&mut self, port: u16, value: u8)
        ensures { self.new ≡ record self.old { ports = slice_set self.old.ports port value } }
    {
        self.ports[port as usize] = value;
    }

    /// What is read of so many ports from this one on, at most four of them and none past the last:
    /// the byte of the lowest port is the lowest.
    pub fn port_in(&self, port: u16, size: AccessSize) -> u32
        requires few { bytes_of size ≤ 4 }
        requires end { port + bytes_of size ≤ LAST_PORT + 1 }
        ensures { result ≡ value_of_ports self.now.ports port (bytes_of size) }
    {
        let first = port as usize;
        number_of(&self.ports[first..first + size.bytes() as usize])
    }
}
