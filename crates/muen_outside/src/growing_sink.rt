ghost use Rattle.std.specs.Prelude.{◌≡◌, ◌+◌, ◌<◌, [], length, OnErr};
ghost use Rattle.muen_outside.specs.GrowingSink.{growing_state};
ghost use Rattle.muen_outside.specs.Puts.{Puts};

use crate::fault_count::{Count, OneMore, Start};
use crate::sink::{Sink, SinkFault};
use muen_num::Told;
use std::alloc::Global;
use std::marker::Model;

/// A sink in memory whose room grows with what it is given. So it is never full: a call fails where more
/// memory has to be asked for, and is refused.
#[derive(Drop)]
pub struct GrowingSink {
    text: Vec<u8>,
    faults: Told<Count>,
}

impl Model for GrowingSink {
    ghost use Rattle.std.specs.Prelude.{vec_capacity};
    ghost use Rattle.muen_outside.specs.GrowingSink.{Growing};

    ghost Value = { Growing };

    ghost view = { λ s. record { given = s.text.items; room = vec_capacity s.text; faults = s.faults.value } };
}

impl GrowingSink {
    /// Empty; no call has failed. It takes no memory.
    pub fn new(alloc: Global) -> GrowingSink
        ensures given { result.given ≡ [] }
        ensures faults { result.faults ≡ 0 }
    {
        GrowingSink {
            text: Vec::new(alloc),
            faults: Told::of(&Start),
        }
    }

    /// What it was given, lent.
    pub fn text(&self) -> &[u8]
        ensures { result.now ≡ self.now.given }
    {
        &self.text
    }
}

impl Sink for GrowingSink {
    ghost state = { growing_state };

    fn put(&mut self, bytes: &[u8]) -> Result<(), SinkFault>
        ensures puts { Puts bytes.now (growing_state self.old) (growing_state self.new) result }
        // It fails only where there is no room for the bytes, so that more is asked for; and has then taken none of them.
        ensures full { OnErr result (self.old.room < length self.old.given + length bytes.now) }
        ensures none { OnErr result (self.new.given ≡ self.old.given) }
    {
        if self.text.extend_from_slice(bytes).is_err() {
            self.faults = Told::of(&OneMore {
                before: &self.faults,
            });
            return Err(SinkFault);
        }
        Ok(())
    }
}
