ghost use Rattle.std.specs.List.{flat_map};
ghost use Rattle.muen_outside.specs.Prints.{Empties, Prints};

use crate::buffer::Buffer;
use crate::lines::PrintedLine;
use crate::sink::{Sink, SinkFault};

/// A sink and the buffer that stands before it, lent for as long as a text is printed.
#[derive(Drop)]
pub struct BufferedSink<'a, S> {
    /// What waits for the sink.
    pub buffer: &'a mut Buffer,
    pub sink: &'a mut S,
}

impl<S: Sink> BufferedSink<'_, S> {
    /// Puts the bytes behind those that wait. Where the sink fails it has taken a front of them all,
    /// and what waited is given up.
    pub fn put(&mut self, bytes: &[u8]) -> Result<(), SinkFault>
        ensures { Prints S.state bytes.now self.old self.new result }
    {
        self.buffer.put(bytes, self.sink)
    }

    /// Puts the line behind the bytes that wait. Where the sink fails it has taken a front of what
    /// waited, and that is given up.
    pub fn put_line<L: PrintedLine>(&mut self, line: &L) -> Result<(), SinkFault>
        ensures { Prints S.state (L.text line.now) self.old self.new result }
    {
        self.buffer.put_line(line, self.sink)
    }

    /// Puts the lines, one after another, up to the first fault.
    #[tactic(auto, using(crate::proofs::Buffered::items))]
    pub fn put_lines<L: PrintedLine>(&mut self, lines: &[L]) -> Result<(), SinkFault>
        ensures { Prints S.state (flat_map L.text lines.now) self.old self.new result }
    {
        for line in lines {
            self.put_line(line)?;
        }
        Ok(())
    }

    /// Puts all that waits to the sink. Where it fails it has taken a front of that, and the rest is
    /// given up.
    pub fn flush(&mut self) -> Result<(), SinkFault>
        ensures { Empties S.state self.old self.new result }
    {
        self.buffer.flush(self.sink)
    }
}
