ghost use Rattle.std.specs.Prelude.{◌≡◌, ◌≤◌, take, length, IsTrue, OnOk};
ghost use Rattle.std.specs.Io.KnownBytes.{Appends};
ghost use Rattle.muen_outside.specs.Devices.{NoneFailed};
ghost use Rattle.muen_outside.specs.Puts.{Puts};
ghost use Rattle.muen_outside.specs.States.{nothing_given};
ghost use Rattle.muen_outside.specs.WriterSink.{TookGiven};

use crate::device::Device;
use crate::sink::{Sink, SinkFault};
use muen_num::{Tells, Told};
use std::io::{Stderr, Stdout};
use std::marker::Model;

// What a sink has handed on, in clauses alone: no value of this type is made.
struct Given {
    none: (),
}

impl Model for Given {
    ghost use Rattle.muen_outside.specs.States.{SinkState, nothing_given};

    ghost Value = { SinkState };

    ghost view = { λ _. nothing_given };
}

// Nothing was handed on.
#[derive(Drop)]
struct Start;

impl Tells<Given> for Start {
    ghost use Rattle.muen_outside.specs.States.{nothing_given};

    ghost tells = { λ _. nothing_given };
}

// These bytes were handed on.
#[derive(Drop)]
struct Gave<'a> {
    before: &'a Told<Given>,
    bytes: &'a [u8],
}

impl Tells<Given> for Gave<'_> {
    ghost use Rattle.muen_outside.specs.Puts.{gave};

    ghost tells = { λ g. gave g.before.now.value g.bytes.now };
}

// These bytes were handed on by a call that failed.
#[derive(Drop)]
struct Lost<'a> {
    before: &'a Told<Given>,
    bytes: &'a [u8],
}

impl Tells<Given> for Lost<'_> {
    ghost use Rattle.std.specs.Prelude.{◌+◌, ◌++◌};

    ghost tells = { λ g. record { given = g.before.now.value.given ++ g.bytes.now; faults = g.before.now.value.faults + 1 } };
}

/// A sink over a device, as each writer is one. Every error of the device is a fault, also an
/// interrupted call and a flush that fails, and so is a write that takes none of the bytes.
///
/// The history is for clauses alone. That it is what was handed on is said by `put`, which names what
/// the device has taken.
#[derive(Drop)]
pub struct WriterSink<D: Device> {
    device: D,
    history: Told<Given>,
}

impl<D: Device> WriterSink<D> {
    /// Over this device; nothing was handed on.
    pub fn new(device: D) -> WriterSink<D>
        ensures history { result.history.value ≡ nothing_given }
        ensures device { result.device ≡ device }
    {
        WriterSink {
            device,
            history: Told::of(&Start),
        }
    }
}

impl WriterSink<Stdout> {
    /// Over the standard output of this runtime.
    pub fn standard_output(rt: &HostRuntime) -> WriterSink<Stdout>
        ensures { result.history.value ≡ nothing_given }
    {
        WriterSink::new(rt.stdout())
    }
}

impl WriterSink<Stderr> {
    /// Over the standard error of this runtime.
    pub fn standard_error(rt: &HostRuntime) -> WriterSink<Stderr>
        ensures { result.history.value ≡ nothing_given }
    {
        WriterSink::new(rt.stderr())
    }
}

// Writes the bytes piece by piece, and answers how many were taken before the first error.
#[tactic(auto, using(crate::proofs::Writes::writes))]
fn write_out<D: Device>(device: &mut D, bytes: &[u8]) -> usize
    ensures bound { result ≤ length bytes.now }
    ensures taken { Appends (D.contents device.old) (D.contents device.new) (take result bytes.now) }
    ensures calm { result ≡ length bytes.now → NoneFailed (D.failed device.old) (D.failed device.new) }
{
    let mut at = 0;
    for _ in 0..u64::MAX {
        if at == bytes.len() {
            return at;
        }
        let (_, rest) = bytes.split_at(at);
        match device.take_front(rest) {
            Ok(n) => {
                if n == 0 {
                    return at;
                }
                at += n;
            }
            Err(_) => return at,
        }
    }
    at
}

// Writes the bytes and hands on what the device may have kept back. Answers how many were taken, and
// whether all went well.
#[tactic(auto, using(crate::proofs::Writes::writes))]
pub(crate) fn write_through<D: Device>(device: &mut D, bytes: &[u8]) -> (usize, bool)
    ensures bound { result.0 ≤ length bytes.now }
    ensures taken { Appends (D.contents device.old) (D.contents device.new) (take result.0 bytes.now) }
    ensures whole { IsTrue result.1 → result.0 ≡ length bytes.now }
    ensures calm { IsTrue result.1 → NoneFailed (D.failed device.old) (D.failed device.new) }
    ensures flushed { IsTrue result.1 → D.is_flushed device.new }
{
    let count = write_out(device, bytes);
    if count < bytes.len() {
        return (count, false);
    }
    match device.hand_on() {
        Ok(()) => (count, true),
        Err(_) => (count, false),
    }
}

impl<D: Device> Sink for WriterSink<D> {
    ghost state = { λ s. s.history.value };

    fn put(&mut self, bytes: &[u8]) -> Result<(), SinkFault>
        ensures puts { Puts bytes.now self.old.history.value self.new.history.value result }

        // The device has taken the same bytes.
        ensures taken { TookGiven self.old.history.value self.new.history.value (D.contents self.old.device) (D.contents self.new.device) }

        // It has handed them on, and none of its calls has failed.
        ensures flushed { OnOk result (D.is_flushed self.new.device) }
        ensures calm { OnOk result (NoneFailed (D.failed self.old.device) (D.failed self.new.device)) }
    {
        let (count, whole) = write_through(&mut self.device, bytes);
        let taken = &bytes[..count];
        if whole {
            self.history = Told::of(&Gave {
                before: &self.history,
                bytes: taken,
            });
            return Ok(());
        }
        self.history = Told::of(&Lost {
            before: &self.history,
            bytes: taken,
        });
        Err(SinkFault)
    }
}
