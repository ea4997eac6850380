//! What the words ask for is done, and its end told.
ghost use Rattle.std.specs.Prelude.{◌≡◌, IfSome, map, string_bytes};
ghost use Rattle.command_shell.specs.Calls.{ends};
ghost use Rattle.muen_outside.specs.Looks.{ShowAll, looks_since};
ghost use Rattle.dma_top.specs.Accepting.{VerifyAccepts};
ghost use Rattle.dma_top.specs.Calls.{IsCall};
ghost use Rattle.dma_top.specs.Complete.{IsComplete};
ghost use Rattle.dma_top.specs.Commands.{command_of};
ghost use Rattle.dma_top.specs.Outcomes.{ComesOf};

use crate::command::{Command, program};
use crate::lines::lines;
use crate::policies::{flows, map};
use crate::refusal::Refusal;
use crate::status::Status;
use crate::verify::verify;
use command_shell::{CommandError, finish};
use muen_outside::{Files, Sink};
use std::alloc::Global;

// Does what the words ask for.
#[tactic(auto, using(crate::proofs::Ending::command_as))]
fn work<'a, F: Files, S: Sink>(
    alloc: Global,
    words: &'a [String],
    files: &mut F,
    out: &mut S,
) -> Result<(), CommandError<'a, Refusal>>
    ensures came { ComesOf (command_of (map string_bytes words.now)) (F.held files.old) (F.held files.new) (F.history files.old) (F.history files.new) (S.state out.old) (S.state out.new) result }
    ensures held { F.held files.new ≡ F.held files.old }
{
    match Command::parse(words) {
        None => Err(CommandError::Usage),
        Some(
            Command::Verify {
                image,
                policy,
                tables,
            },
        ) => verify(alloc, image, policy, tables, files, out),
        Some(
            Command::Lines {
                image,
                inputs,
                tables,
            },
        ) => lines(alloc, image, inputs, tables, files, out),
        Some(Command::Map(policy)) => map(alloc, policy, files, out),
        Some(Command::Flows(policy)) => flows(alloc, policy, files, out),
    }
}

/// Does what the words ask for, tells how it ended, and answers its status.
pub(crate) fn call<F: Files, S: Sink, E: Sink>(
    alloc: Global,
    words: &[String],
    files: &mut F,
    out: &mut S,
    err: &mut E,
) -> Status
    ensures call { IsCall (map string_bytes words.now) (F.held files.old) (ends (F.history files.old) (F.history files.new) (S.state out.old) (S.state out.new) (E.state err.old) (E.state err.new) result) }
    ensures complete { IsComplete (map string_bytes words.now) (ends (F.history files.old) (F.history files.new) (S.state out.old) (S.state out.new) (E.state err.old) (E.state err.new) result) }
    ensures accepts { VerifyAccepts (map string_bytes words.now) (looks_since (F.history files.old) (F.history files.new)) result }
    ensures agrees { IfSome (F.held files.old) (λ m. ShowAll m (looks_since (F.history files.old) (F.history files.new))) }
    ensures held { F.held files.new ≡ F.held files.old }
{
    let outcome = work(alloc, words, files, out);
    finish(&program(), &outcome, err)
}
