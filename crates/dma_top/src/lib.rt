//! The commands of the program `muen_dma`, on devices that reach memory by themselves.
#![tactic(auto)]

ghost use Rattle.std.specs.Prelude.{◌≡◌, IfSome, map, string_bytes};
ghost use Rattle.muen_outside.specs.Looks.{ShowAll, looks_since};
ghost use Rattle.command_shell.specs.Calls.{ends};
ghost use Rattle.dma_top.specs.Accepting.{VerifyAccepts};
ghost use Rattle.dma_top.specs.Calls.{IsCall};
ghost use Rattle.dma_top.specs.Complete.{IsComplete};

mod call;
mod command;
mod hex_digits;
mod lines;
mod policies;
mod reading;
mod refusal;
mod status;
mod twice;
mod verify;

use muen_outside::{Files, Sink};
pub use status::{DmaStatus, Status};
use std::alloc::Global;
pub use twice::muen_dma_twice;

/// Does what the words after the program's name ask for, and answers the status.
///
/// `verify IMAGE POLICY DMA` reads an image, a policy and the files that its contents name, and judges the image for them
/// as `muen verify` does; where it is sound, it reads a file of tables for direct memory access, and puts `sound` to
/// `out` where they lead each source of requests where the policy and the image declare it, and nowhere else. `lines
/// IMAGE RECORD DMA` reads an image, a file of tables and a device record for the image, and puts what each line `dma`
/// of the record did: where it wrote, or why it was dropped. `map POLICY` reads a policy and puts where its devices
/// reach memory by themselves, `flows POLICY` on whom each subject can depend, through devices too; neither looks at a
/// component file. On every status but 0 one line that begins with `muen_dma: ` is put to `err`; a fault of `err`
/// changes no status.
///
/// | Status | Comes | Line |
/// |---|---|---|
/// | 0 | the text was put | |
/// | 1 | the words are none of the forms | `usage: ..` |
/// | 2 | the policy is no JSON text, breaks the schema or a rule, has more bytes for a region than there is room (`verify`), or has a region that can't be placed (`map`) | as `muen` tells it |
/// | 3 | a file isn't there, or is longer than 4 MiB (policy), 64 MiB (a content, tables), 96 MiB (image) or 16 MiB (record) | `missing file NAME`, `file NAME has LENGTH bytes` |
/// | 4 | a look at `files` failed | `file fault` |
/// | 5 | the image is refused | `image refused at AT: FIELD` |
/// | 6 | the record is refused | `record refused at line LINE: WHY` |
/// | 7 | a call on `out` failed; a front of the text was put | `output fault` |
/// | 8 | memory was refused, and nothing was put | `out of memory` |
/// | 9 | the image isn't sound for the policy and its files; or the tables don't fit both: their list of devices, or a source at an address | `not sound: FAULT`; `not sound: device NAME`, `not sound: KIND BUS:DEVICE.FUNCTION ADDRESS`, where KIND is `outside`, `twice`, `leak` or `lacks` |
/// | 10 | the tables are refused | `dma refused at AT: FIELD` |
pub fn muen_dma<F: Files, S: Sink, E: Sink>(
    alloc: Global,
    words: &[String],
    files: &mut F,
    out: &mut S,
    err: &mut E,
) -> Status
    // Exactly the looks of the command, one at each of its files, and exactly what is answered to what they gave: a text,
    // or the reason why not; each failed call, and refused memory, with its status.
    ensures call { IsCall (map string_bytes words.now) (F.held files.old) (ends (F.history files.old) (F.history files.new) (S.state out.old) (S.state out.new) (E.state err.old) (E.state err.new) result) }
    // Where no look and no put fails, and memory suffices, it does the whole of what the words are answered over each
    // store that agrees with the looks, and nothing else: so 4 and 7 come of a failure alone.
    ensures complete { IsComplete (map string_bytes words.now) (ends (F.history files.old) (F.history files.new) (S.state out.old) (S.state out.new) (E.state err.old) (E.state err.new) result) }
    // `verify` with status 0 has found a policy whose contents fit, an image that is sound for it, and tables that fit both.
    ensures accepts { VerifyAccepts (map string_bytes words.now) (looks_since (F.history files.old) (F.history files.new)) result }
    // What files tell of what they hold agrees with these looks, and stays.
    ensures agrees { IfSome (F.held files.old) (λ m. ShowAll m (looks_since (F.history files.old) (F.history files.new))) }
    ensures held { F.held files.new ≡ F.held files.old }
{
    call::call(alloc, words, files, out, err)
}
