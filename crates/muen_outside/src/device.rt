ghost use Rattle.std.specs.Prelude.{ℕ, List, Option, None, OnOk};
ghost use Rattle.std.specs.Io.{WritesAtMost};
ghost use Rattle.std.specs.Io.KnownBytes.{Keeps, WriteAppends};
ghost use Rattle.muen_outside.specs.Devices.{CountsFailed};

use std::io;
use std::io::Write;

/// Takes bytes, and may keep some back until it is told to hand them on. What its calls have done, it
/// may tell or not. What is proved of code over every device holds over those that tell, so that such
/// code hands on the same bytes, and swallows no failure, over one that tells nothing too.
pub trait Device {
    /// The bytes that it has taken, where it tells them.
    ghost contents: { Self → Option (List ℕ) } = { λ _. None };

    /// How many of its calls have failed, where it tells that.
    ghost failed: { Self → Option ℕ } = { λ _. None };

    /// It keeps nothing back.
    ghost is_flushed: { Self → Type 0 } = { λ _. Unit {0} };

    /// Takes a front of the bytes, and answers how many.
    fn take_front(&mut self, bytes: &[u8]) -> io::Result<usize>
        ensures bound { WritesAtMost result bytes.now }
        ensures bytes { WriteAppends (contents self.old) (contents self.new) result bytes.now }
        ensures failed { CountsFailed (failed self.old) (failed self.new) result };

    /// Hands on what it has kept back.
    fn hand_on(&mut self) -> io::Result<()>
        ensures bytes { Keeps (contents self.old) (contents self.new) }
        ensures failed { CountsFailed (failed self.old) (failed self.new) result }
        ensures flushed { OnOk result (is_flushed self.new) };
}

/// Each writer is a device, by its own two calls. It tells no more than its bytes.
impl<W: Write> Device for W {
    ghost contents = { W.contents };

    fn take_front(&mut self, bytes: &[u8]) -> io::Result<usize> {
        self.write(bytes)
    }

    fn hand_on(&mut self) -> io::Result<()> {
        self.flush()
    }
}
