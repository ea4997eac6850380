ghost use Rattle.std.specs.Prelude.{◌≡◌, Some};
ghost use Rattle.muen_outside.specs.ErrorTexts.{sink_fault_text};
ghost use Rattle.muen_outside.specs.States.{SinkState};
ghost use Rattle.muen_outside.specs.Puts.{Puts};

use std::fmt;
use thiserror::Error;

/// A sink failed.
#[derive(Clone, Copy, Debug, PartialEq, Eq, Error)]
pub struct SinkFault;

impl SinkFault {
    /// The text of the error.
    pub fn as_str(self) -> &'static str
        ensures { result.now ≡ sink_fault_text }
    {
        "output fault"
    }
}

impl fmt::Display for SinkFault {
    ghost use Rattle.muen_outside.specs.ErrorTexts.{sink_fault_text};

    ghost output = { λ _. Some sink_fault_text };

    fn fmt<W: fmt::Write>(&self, f: &mut fmt::Formatter<W>) -> fmt::Result {
        f.write_str(self.as_str())
    }
}

/// Takes bytes, each after the other. Clauses see what it has handed on; its value is for them
/// alone, and code that is generic over a sink can change it by puts only.
pub trait Sink {
    /// The bytes that it has handed on, and how many calls have failed.
    ghost state: { Self → SinkState };

    /// Hands on the bytes. Where it fails it has handed on a front of them, maybe all or none. No
    /// call takes memory, but that of a `GrowingSink`.
    fn put(&mut self, bytes: &[u8]) -> Result<(), SinkFault>
        ensures { Puts bytes.now (state self.old) (state self.new) result };
}
