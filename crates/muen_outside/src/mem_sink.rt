ghost use Rattle.std.specs.Prelude.{◌≡◌, ◌+◌, ◌≤◌, ◌<◌, ◌++◌, ◌-◌, ◌↔◌, [], take, length, false, OnOk, OnErr, IfOk, IsErr, IsTrue, vec_len, vec_capacity, min};
ghost use Rattle.muen_outside.specs.MemFiles.{next_call_count};
ghost use Rattle.muen_outside.specs.Puts.{Puts};
ghost use Rattle.muen_outside.specs.MemSink.{taken, fails_at, next_sink_call_fails, sink_of};

use crate::fault_count::{Count, OneMore, Start};
use crate::mem_files::is_listed;
use crate::sink::{Sink, SinkFault};
use muen_num::{NoMemory, Told};
use std::alloc::Global;
use std::marker::Model;

/// A sink in memory, whose room is made before. It fails at the calls whose numbers are listed, and
/// at those whose bytes don't fit.
#[derive(Drop)]
pub struct MemSink {
    text: Vec<u8>,
    room: usize,
    fails: Vec<u64>,
    keep: usize,
    calls: u64,
    faults: Told<Count>,
}

impl Model for MemSink {
    ghost use Rattle.std.specs.Prelude.{◌≤◌, vec_len, vec_capacity};
    ghost use Rattle.muen_outside.specs.MemSink.{Filling};

    ghost Value = { Filling };

    ghost view = { λ s. record { text = s.text.items; room = s.room; fails = s.fails.items; keep = s.keep; calls = s.calls; faults = s.faults.value } };

    ghost invariant = { λ s. (s.room ≤ vec_capacity s.text) × (vec_len s.text ≤ s.room) };
}

impl MemSink {
    /// Empty, with room for `room` bytes made; no call was made. The calls whose numbers, from 0, are
    /// in `fails` fail, and append the first `keep` of their bytes, as far as there are so many and
    /// they fit. A call that is not listed and whose bytes don't fit fails and fills the room.
    pub fn make(
        alloc: Global,
        room: usize,
        fails: Vec<u64>,
        keep: usize,
    ) -> Result<MemSink, NoMemory>
        ensures { IfOk result (λ s. s ≡ record { text = []; room = room; fails = fails.items; keep = keep; calls = 0; faults = 0 }) }
    {
        let text = Vec::with_capacity(alloc, room)?;
        Ok(MemSink {
            text,
            room,
            fails,
            keep,
            calls: 0,
            faults: Told::of(&Start),
        })
    }

    /// How many calls there were.
    pub fn calls(&self) -> u64
        ensures { result ≡ self.now.calls }
    {
        self.calls
    }

    /// What was written, lent.
    pub fn text(&self) -> &[u8]
        ensures { result.now ≡ self.now.text }
    {
        &self.text
    }
}

// Appends the bytes up to the limit and to the room, and answers how many.
fn append_front(text: &mut Vec<u8>, room: usize, bytes: &[u8], most: usize) -> usize
    requires room { room ≤ vec_capacity text.old }
    requires fits { vec_len text.old ≤ room }
    ensures taken { result ≡ min (min most (length bytes.now)) (room - vec_len text.old) }
    ensures text { text.new.items ≡ text.old.items ++ take result bytes.now }
    ensures room { room ≤ vec_capacity text.new }
    ensures fits { vec_len text.new ≤ room }
    ensures full { result < most → result < length bytes.now → length text.new.items ≡ room }
{
    let n = most.min(bytes.len()).min(room - text.len());
    let _ = text.extend_from_slice(&bytes[..n]);
    n
}

impl Sink for MemSink {
    ghost state = { sink_of };

    fn put(&mut self, bytes: &[u8]) -> Result<(), SinkFault>
        ensures puts { Puts bytes.now (sink_of self.old) (sink_of self.new) result }

        // Which calls fail, and how much those write.
        ensures fails { IsErr result ↔ IsTrue (fails_at self.old (length bytes.now)) }
        ensures text { self.new.text ≡ self.old.text ++ take (taken self.old (length bytes.now)) bytes.now }
        ensures full { OnErr result (next_sink_call_fails self.old ≡ false → length self.new.text ≡ self.old.room) }

        // What it counts, and what stays.
        ensures calls { self.new.calls ≡ next_call_count self.old.calls }
        ensures fault { OnErr result (self.new.faults ≡ self.old.faults + 1) }
        ensures quiet { OnOk result (self.new.faults ≡ self.old.faults) }
        ensures same { (self.new.room ≡ self.old.room) × (self.new.fails ≡ self.old.fails) × (self.new.keep ≡ self.old.keep) }
    {
        let listed = is_listed(&self.fails, self.calls);
        self.calls = self.calls.saturating_add(1);
        let most = if listed { self.keep } else { bytes.len() };
        let n = append_front(&mut self.text, self.room, bytes, most);
        if listed || n < bytes.len() {
            self.faults = Told::of(&OneMore {
                before: &self.faults,
            });
            return Err(SinkFault);
        }
        Ok(())
    }
}
