//! A run that is made by hand.
ghost use Rattle.std.specs.Prelude.{◌≡◌, IfOk};
ghost use Rattle.device_bench.specs.Devices.{IsRecordInOrder};

use crate::agree::{agree, agree_at};
use device_bench::{Bench, Effect, Record, TickInput, TickOrder};
use muen_num::{AccessSize, Seq};
use std::alloc::Global;
use std::test::Fail;

/// The byte of this port becomes 7.
fn port(tick: u32, port: u16) -> TickInput<Effect>
    ensures { result.tick ≡ tick }
{
    TickInput {
        tick,
        input: Effect::Port { port, value: 7 },
    }
}

/// An order of two CPUs.
fn order(alloc: Global, tick: u32, cpus: [u8; 2]) -> Result<TickOrder, Fail>
    ensures { IfOk result (λ o. o.tick ≡ tick) }
{
    Ok(TickOrder {
        tick,
        cpus: Seq::of(Vec::from_array(alloc, cpus)?),
    })
}

/// Inputs in the ticks 0, 3, 3, 3 and 8, and orders in 3 and 9.
fn record(alloc: Global) -> Result<Record<Effect>, Fail>
    ensures { IfOk result IsRecordInOrder }
{
    let inputs = [port(0, 1), port(3, 2), port(3, 1), port(3, 4), port(8, 5)];
    let orders = [order(alloc, 3, [1, 0])?, order(alloc, 9, [0, 1])?];
    Ok(Record {
        end: 9,
        inputs: Seq::of(Vec::from_array(alloc, inputs)?),
        orders: Seq::of(Vec::from_array(alloc, orders)?),
    })
}

fn bench(alloc: Global) -> Result<Bench, Fail> {
    Ok(Bench::start(alloc, record(alloc)?)?)
}

/// The first CPU of a tick's order.
fn first_of(bench: &Bench, tick: u32) -> Option<u8> {
    match bench.order(tick) {
        None => None,
        Some(order) => order.first().copied(),
    }
}

/// Ticks with how many inputs they have, and the first CPU of their orders.
const TICKS: [(u32, usize, Option<u8>); 6] = [
    (0, 1, None),
    (1, 0, None),
    (3, 3, Some(1)),
    (8, 1, None),
    (9, 0, Some(0)),
    (u32::MAX, 0, None),
];

#[test]
fn inputs_and_orders(rt: HostRuntime) -> Result<(), Fail> {
    let bench = bench(rt.alloc())?;
    agree(&rt, bench.end(), 9);
    for (tick, count, first) in TICKS {
        agree_at(&rt, bench.inputs(tick).len(), count, tick);
        agree_at(&rt, first_of(&bench, tick), first, tick);
    }
    agree(&rt, bench.inputs(3).last(), Some(&port(3, 4)));
    Ok(())
}

#[test]
fn bytes_of_ports(rt: HostRuntime) -> Result<(), Fail> {
    let mut bench = bench(rt.alloc())?;
    agree(&rt, bench.port_in(0xfffe, AccessSize::Two), 0);
    bench.set_port(0xffff, 0x12);
    bench.set_port(0xfffc, 0xff);
    bench.set_port(0xfffc, 0x34);
    agree(&rt, bench.port_in(0xfffc, AccessSize::Four), 0x1200_0034);
    Ok(())
}
