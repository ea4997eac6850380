//! A listing of bytes.
ghost use Rattle.std.specs.Prelude.{◌≡◌, ◌+◌, ◌≤◌, ◌++◌, [], length, take};
ghost use Rattle.muen_outside.specs.Prints.{Prints};
ghost use Rattle.muen_outside.specs.Puts.{Puts};
ghost use Rattle.asm_listing.specs.Listing.{digits_text, listing_line, listing_of};

use crate::spelling::append_chunk;
use muen_num::text::{append, append_hex16};
use muen_outside::{Buffer, BufferedSink, Sink, SinkFault};

// The bytes in two digits each, and blanks behind those of fewer than eight.
fn digits_of(chunk: &[u8]) -> [u8; 16]
    requires { length chunk.now ≤ 8 }
    ensures { result ≡ digits_text chunk.now }
{
    let mut digits = [b' '; 16];
    let _ = hex::encode_to_slice(chunk, &mut digits[..2 * chunk.len()]);
    digits
}

#[tactic(auto, unfolding(crate::specs::Listing::listing_line))]
fn append_line(out: &mut [u8], at: usize, address: u64, chunk: &[u8]) -> usize
    requires short { length chunk.now ≤ 8 }
    requires room { at + 134 ≤ length out.old }
    ensures end { result ≤ at + 134 }
    ensures text { take result out.new ≡ take at out.old ++ listing_line address chunk.now }
{
    let at = append_hex16(out, at, address);
    let at = append(out, at, b"  ");
    let at = append(out, at, &digits_of(chunk));
    let at = append(out, at, b"  ");
    let at = append_chunk(out, at, chunk);
    append(out, at, b"\n")
}

// The line of a chunk at this address, spelled in this space.
fn put_line<S: Sink>(
    space: &mut [u8; 136],
    address: u64,
    chunk: &[u8],
    out: &mut BufferedSink<'_, S>,
) -> Result<(), SinkFault>
    requires { length chunk.now ≤ 8 }
    ensures { Prints S.state (listing_line address chunk.now) out.old out.new result }
{
    let end = append_line(space, 0, address, chunk);
    out.put(&space[..end])
}

// The lines of all chunks.
fn put_lines<S: Sink>(
    base: u64,
    bytes: &[u8],
    out: &mut BufferedSink<'_, S>,
) -> Result<(), SinkFault>
    ensures { Prints S.state (listing_of base bytes.now) out.old out.new result }
{
    let mut space = [0u8; 136];
    let mut address = base;
    let mut rest = bytes;
    while !rest.is_empty() {
        let (chunk, more) = rest.split_at(rest.len().min(8));
        put_line(&mut space, address, chunk, out)?;
        address = address.wrapping_add(8);
        rest = more;
    }
    Ok(())
}

/// Puts a listing of the bytes: a line for each eight, with its address from the base on, the bytes,
/// and what a source has for them. The text goes through the buffer, in which nothing may wait
/// before, and takes no memory. Where the sink fails it has a front of the text.
#[tactic(auto, using(muen_outside::proofs::Buffered::gives))]
pub fn put_listing<S: Sink>(
    base: u64,
    bytes: &[u8],
    buffer: &mut Buffer,
    out: &mut S,
) -> Result<(), SinkFault>
    requires { buffer.old ≡ [] }
    ensures { Puts (listing_of base bytes.now) (S.state out.old) (S.state out.new) result }
{
    let mut out = BufferedSink { buffer, sink: out };
    put_lines(base, bytes, &mut out)?;
    out.flush()
}
