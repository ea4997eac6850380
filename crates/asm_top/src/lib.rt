//! The commands of the assembler `muen_asm`.
#![tactic(auto)]

ghost use Rattle.std.specs.Prelude.{IfSome, map, string_bytes};
ghost use Rattle.muen_outside.specs.Looks.{HeldAfter, ShowAll, looks_since, writes_since};
ghost use Rattle.command_shell.specs.Calls.{ends};
ghost use Rattle.asm_top.specs.Calls.{IsCall, IsComplete};

mod command;
mod limits;
mod reading;
mod refusal;
mod status;
mod work;

use muen_outside::{Files, Sink};
pub use status::{AssemblerStatus, Status};
use std::alloc::Global;

/// Does what the words after the program's name ask for, and answers the status.
///
/// `hex SOURCE` reads a source and puts its bytes to `out` in hexadecimal digits, with a line feed behind
/// them. `lines SOURCE BASE` puts them as a listing, with addresses from BASE on, which is a number below
/// 2^48. `bin SOURCE FILE` writes them under the name FILE, which is another, in one call of `files`.
/// Before SOURCE may stand NAMES, another file, which is read first: the bytes are those of both texts, one
/// after the other, with a line feed between them. `text FILE` reads a file of any bytes and puts a source of
/// them. On every status but 0 one line that begins with `muen_asm: ` is put to `err`; a fault of `err` changes
/// no status.
///
/// | Status | Comes | Line |
/// |---|---|---|
/// | 0 | the text was put, or the bytes were written | |
/// | 1 | the words are none of the forms | `usage: ..` |
/// | 2 | the source is refused | `line LINE, column COLUMN: WHY`; with NAMES `file NAME, line ..`, of the file whose line it is |
/// | 3 | a file isn't there, or is longer than 16 MiB (NAMES, SOURCE) or 64 MiB (FILE of `text`) | `missing file NAME`, `file NAME has LENGTH bytes` |
/// | 4 | a look at `files` failed; or the write, and what stands under its name may have changed | `file fault` |
/// | 7 | a call on `out` failed; a front of the text was put | `output fault` |
/// | 8 | memory was refused, and nothing was put; where that was for the write, what stands under its name may have changed | `out of memory` |
pub fn muen_asm<F: Files, S: Sink, E: Sink>(
    alloc: Global,
    words: &[String],
    files: &mut F,
    out: &mut S,
    err: &mut E,
) -> Status
    // One look at each file that the words name to be read, and exactly what is answered to what they gave: a text, a write,
    // or the reason why not; each failed call, and refused memory, with its status.
    ensures call { IsCall (map string_bytes words.now) (ends (F.history files.old) (F.history files.new) (S.state out.old) (S.state out.new) (E.state err.old) (E.state err.new) result) }
    // Where no look, no write and no put fails, and memory suffices, it does the whole of what the words are answered over
    // each store that agrees with the looks, and nothing else: so 4 and 7 come of a failure alone.
    ensures complete { IsComplete (map string_bytes words.now) (ends (F.history files.old) (F.history files.new) (S.state out.old) (S.state out.new) (E.state err.old) (E.state err.new) result) }
    // What files tell of what they hold agrees with these looks, and changes as the write has it.
    ensures agrees { IfSome (F.held files.old) (λ m. ShowAll m (looks_since (F.history files.old) (F.history files.new))) }
    ensures held { HeldAfter (writes_since (F.history files.old) (F.history files.new)) (F.held files.old) (F.held files.new) }
{
    work::call(alloc, words, files, out, err)
}
