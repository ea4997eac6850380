//! The command of the program `muen_lint`: all that a policy is refused for.
#![tactic(auto)]

ghost use Rattle.std.specs.Prelude.{◌≡◌, IfSome, map, string_bytes};
ghost use Rattle.command_shell.specs.Calls.{ends};
ghost use Rattle.lint_top.specs.Calls.{IsCall};
ghost use Rattle.lint_top.specs.Complete.{IsComplete};
ghost use Rattle.muen_outside.specs.Looks.{ShowAll, looks_since};

mod lines;
mod program;
mod refusal;
mod status;
mod work;

use muen_outside::{Files, Sink};
pub use status::{LintStatus, Status};
use std::alloc::Global;

/// Tells all that a policy is refused for, and answers the status.
///
/// The only word after the program's name is that of the policy's file. Each refusal is put to `out` in a
/// line, in the words in which `muen build` tells the first of them: that the file is no JSON text; else the
/// first place that breaks the schema; else the first rule on names that is broken; else all other rules that
/// are; else, by number, each region whose contents are refused, and the first for which there is no room.
/// The files that contents name are looked at, each once. On every status but 0 one line that begins with
/// `muen_lint: ` is put to `err`; a fault of `err` changes no status.
///
/// | Status | Comes | Line |
/// |---|---|---|
/// | 0 | the policy is accepted, and nothing was put | |
/// | 1 | the words are none or more than one | `usage: POLICY` |
/// | 2 | the policy is refused, and all refusals were put | `refusals: COUNT` |
/// | 3 | the policy's file isn't there, or is longer than 4 MiB | `missing file NAME`, `file NAME has LENGTH bytes` |
/// | 4 | a look at `files` failed | `file fault` |
/// | 7 | a call on `out` failed; a front of the lines was put | `output fault` |
/// | 8 | memory was refused, and nothing was put | `out of memory` |
pub fn muen_lint<F: Files, S: Sink, E: Sink>(
    alloc: Global,
    words: &[String],
    files: &mut F,
    out: &mut S,
    err: &mut E,
) -> Status
    // One look at the policy's file, then looks at component files, and exactly the lines of all refusals, over whatever files
    // agree with the looks, with their count; or the reason why not.
    ensures call { IsCall (map string_bytes words.now) (F.held files.old) (ends (F.history files.old) (F.history files.new) (S.state out.old) (S.state out.new) (E.state err.old) (E.state err.new) result) }
    // Where no look and no put fails, and memory suffices, all refusals over each store that agrees with the looks are put, and
    // nothing else: so 4 and 7 come of a failure alone.
    ensures complete { IsComplete (map string_bytes words.now) (ends (F.history files.old) (F.history files.new) (S.state out.old) (S.state out.new) (E.state err.old) (E.state err.new) result) }
    // What files tell of what they hold agrees with these looks, and stays.
    ensures agrees { IfSome (F.held files.old) (λ m. ShowAll m (looks_since (F.history files.old) (F.history files.new))) }
    ensures held { F.held files.new ≡ F.held files.old }
{
    work::call(alloc, words, files, out, err)
}
