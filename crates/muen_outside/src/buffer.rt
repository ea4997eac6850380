ghost use Rattle.std.specs.Prelude.{◌≡◌, ◌+◌, ◌≤◌, ◌++◌, [], length, take, IfOk, OnOk};
ghost use Rattle.muen_num.specs.declared.limits.TheConstants.{OUTPUT_BLOCK};
ghost use Rattle.muen_outside.specs.Puts.{Puts};
ghost use Rattle.muen_outside.specs.Buffered.{Gives, Flushed, behind};

use crate::lines::PrintedLine;
use crate::sink::{Sink, SinkFault};
use muen_num::NoMemory;
use muen_num::limits::OUTPUT_BLOCK;
use muen_num::text::append;
use std::alloc::Global;
use std::marker::Model;

/// Bytes that wait for a sink, so that many short texts reach it in few puts. Contracts see the
/// bytes. The sink is lent to each call, and is to be the same one until the buffer is flushed.
#[derive(Debug, Drop)]
pub struct Buffer {
    block: Vec<u8>,
    used: usize,
}

impl Model for Buffer {
    ghost use Rattle.std.specs.Prelude.{◌≡◌, ◌≤◌, ℕ, List, take, vec_len};
    ghost use Rattle.muen_num.specs.declared.limits.TheConstants.{OUTPUT_BLOCK};

    ghost Value = { List ℕ };

    ghost view = { λ b. take b.used b.block.items };

    ghost invariant = { λ b. (vec_len b.block ≡ OUTPUT_BLOCK) × (b.used ≤ OUTPUT_BLOCK) };
}

// Writes the line.
fn write_whole<L: PrintedLine>(space: &mut [u8; 256], line: &L) -> usize
    ensures within { result ≤ 256 }
    ensures text { take result space.new ≡ L.text line.now }
    ensures whole { length space.new ≡ 256 }
{
    line.write(space)
}

// Writes the line to the front of the space, and answers how many bytes it has.
fn write_front<L: PrintedLine>(space: &mut [u8], line: &L) -> usize
    requires { 256 ≤ length space.old }
    ensures within { result ≤ 256 }
    ensures text { take result space.new ≡ L.text line.now }
{
    let Some(front) = space.first_chunk_mut::<256>() else {
        unreachable!()
    };
    write_whole(front, line)
}

// Writes the line behind the first bytes of the block, and answers where it ends.
fn write_behind<L: PrintedLine>(block: &mut [u8], at: usize, line: &L) -> usize
    requires { at + 256 ≤ length block.old }
    ensures within { result ≤ at + 256 }
    ensures text { take result block.new ≡ take at block.old ++ L.text line.now }
{
    let (_, free) = block.split_at_mut(at);
    at + write_front(free, line)
}

impl Buffer {
    /// Empty. All its memory, 64 KiB, is taken here.
    pub fn make(alloc: Global) -> Result<Buffer, NoMemory>
        ensures { IfOk result (λ b. b ≡ []) }
    {
        let block = vec![in alloc; 0; OUTPUT_BLOCK]?;
        Ok(Buffer { block, used: 0 })
    }

    // How many bytes fit behind those that wait.
    fn room(&self) -> usize
        ensures { length self.now + result ≡ OUTPUT_BLOCK }
    {
        OUTPUT_BLOCK - self.used
    }

    // Writes the bytes behind those that wait.
    fn append(&mut self, bytes: &[u8])
        requires { length self.old + length bytes.now ≤ OUTPUT_BLOCK }
        ensures { self.new ≡ self.old ++ bytes.now }
    {
        self.used = append(self.block.as_mut_slice(), self.used, bytes);
    }

    // Writes the line behind the bytes that wait.
    fn append_line<L: PrintedLine>(&mut self, line: &L)
        requires { length self.old + 256 ≤ OUTPUT_BLOCK }
        ensures { self.new ≡ self.old ++ L.text line.now }
    {
        self.used = write_behind(self.block.as_mut_slice(), self.used, line);
    }

    // Puts all that waits to the sink.
    fn hand_on<S: Sink>(&mut self, out: &mut S) -> Result<(), SinkFault>
        ensures puts { Puts self.old (S.state out.old) (S.state out.new) result }
        ensures empty { self.new ≡ [] }
    {
        let result = out.put(&self.block[..self.used]);
        self.used = 0;
        result
    }

    // Hands on what waits where fewer than 256 bytes would fit behind it.
    fn make_room<S: Sink>(&mut self, out: &mut S) -> Result<(), SinkFault>
        ensures given { Gives [] (behind (S.state out.old) self.old) (behind (S.state out.new) self.new) result }
        ensures room { OnOk result (length self.new + 256 ≤ OUTPUT_BLOCK) }
    {
        if self.room() >= 256 {
            return Ok(());
        }
        self.hand_on(out)
    }

    /// Puts the bytes behind those that wait. Where they don't fit, those that wait go on to the
    /// sink first. Where the sink fails it has taken a front of them all, and what waited is given
    /// up. No call takes memory.
    #[tactic(auto, using(crate::proofs::Buffered::buffered))]
    pub fn put<S: Sink>(&mut self, bytes: &[u8], out: &mut S) -> Result<(), SinkFault>
        ensures { Gives bytes.now (behind (S.state out.old) self.old) (behind (S.state out.new) self.new) result }
    {
        if bytes.len() <= self.room() {
            self.append(bytes);
            return Ok(());
        }
        self.hand_on(out)?;
        if bytes.len() <= OUTPUT_BLOCK {
            self.append(bytes);
            return Ok(());
        }
        out.put(bytes)
    }

    /// Puts the line behind the bytes that wait: it is written there, and not copied. Where fewer
    /// than 256 bytes would fit, those that wait go on to the sink first. Where the sink fails it
    /// has taken a front of them, and they are given up. No call takes memory.
    #[tactic(auto, using(crate::proofs::Buffered::buffered))]
    pub fn put_line<S: Sink, L: PrintedLine>(
        &mut self,
        line: &L,
        out: &mut S,
    ) -> Result<(), SinkFault>
        ensures { Gives (L.text line.now) (behind (S.state out.old) self.old) (behind (S.state out.new) self.new) result }
    {
        self.make_room(out)?;
        self.append_line(line);
        Ok(())
    }

    /// Puts all that waits to the sink. Where it fails it has taken a front of that, and the rest is
    /// given up.
    pub fn flush<S: Sink>(&mut self, out: &mut S) -> Result<(), SinkFault>
        ensures { Flushed (behind (S.state out.old) self.old) (behind (S.state out.new) self.new) result }
    {
        self.hand_on(out)
    }
}
