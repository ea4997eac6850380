//! A source of bytes.
ghost use Rattle.std.specs.Prelude.{◌≡◌, ◌≤◌, ◌++◌, [], codes, length};
ghost use Rattle.muen_outside.specs.Prints.{Prints};
ghost use Rattle.muen_outside.specs.Puts.{Puts};
ghost use Rattle.asm_listing.specs.Source.{chunk_text, source_of};

use crate::spelling::append_chunk;
use muen_num::text::append;
use muen_outside::{Buffer, BufferedSink, Sink, SinkFault};

// The line of a chunk, spelled in this space.
fn put_line<S: Sink>(
    space: &mut [u8; 104],
    chunk: &[u8],
    out: &mut BufferedSink<'_, S>,
) -> Result<(), SinkFault>
    requires { length chunk.now ≤ 8 }
    ensures { Prints S.state (chunk_text chunk.now ++ codes "\n") out.old out.new result }
{
    let end = append_chunk(space, 0, chunk);
    let end = append(space, end, b"\n");
    out.put(&space[..end])
}

// The lines of all chunks.
fn put_lines<S: Sink>(bytes: &[u8], out: &mut BufferedSink<'_, S>) -> Result<(), SinkFault>
    ensures { Prints S.state (source_of bytes.now) out.old out.new result }
{
    let mut space = [0u8; 104];
    let mut rest = bytes;
    while !rest.is_empty() {
        let (chunk, more) = rest.split_at(rest.len().min(8));
        put_line(&mut space, chunk, out)?;
        rest = more;
    }
    Ok(())
}

/// Puts a source of the bytes: a line for each eight, with the instruction that they spell, or else
/// as data; so with the last, which may be fewer. The text goes through the buffer, in which nothing
/// may wait before, and takes no memory. Where the sink fails it has a front of the text.
#[tactic(auto, using(muen_outside::proofs::Buffered::gives))]
pub fn put_source<S: Sink>(bytes: &[u8], buffer: &mut Buffer, out: &mut S) -> Result<(), SinkFault>
    requires { buffer.old ≡ [] }
    ensures { Puts (source_of bytes.now) (S.state out.old) (S.state out.new) result }
{
    let mut out = BufferedSink { buffer, sink: out };
    put_lines(bytes, &mut out)?;
    out.flush()
}
