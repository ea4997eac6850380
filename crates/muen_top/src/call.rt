// The whole call: the words are parsed, their command is done, and its end is reported.
ghost use Rattle.std.specs.Prelude.{◌≡◌, None, map, string_bytes};
ghost use Rattle.muen_top.specs.Calls.{ComesOfCommand, IsCallOf};
ghost use Rattle.muen_top.specs.Commands.{command_of};

use crate::boot::boot;
use crate::build::build;
use crate::command::Command;
use crate::load::load;
use crate::outcome::{CommandError, Outcome};
use crate::policy_commands;
use crate::report::{report, status};
use crate::run::run;
use crate::status::Status;
use crate::verify::verify;
use muen_outside::{Files, Sink};
use std::alloc::Global;

// Does what the words ask for.
#[tactic(auto, using(crate::proofs::Ending::command_as))]
fn work<'a, F: Files, S: Sink>(
    alloc: Global,
    words: &'a [String],
    files: &mut F,
    out: &mut S,
) -> Outcome<'a>
    ensures came { ComesOfCommand (command_of (map string_bytes words.now)) (F.held files.old) (F.held files.new) (F.history files.old) (F.history files.new) (S.state out.old) (S.state out.new) result }
    ensures no_command { command_of (map string_bytes words.now) ≡ None → (result ≡ Outcome.Stopped CommandError.Usage) × (F.history files.new ≡ F.history files.old) }
{
    match Command::parse(words) {
        Command::Usage => Outcome::Stopped(CommandError::Usage),
        Command::Build {
            policy,
            image,
            tables,
        } => build(alloc, policy, image, tables, files),
        Command::Boot { policy, inputs } => boot(alloc, policy, inputs, files, out),
        Command::Run {
            image,
            inputs,
            tables,
        } => run(alloc, image, inputs, tables, files, out),
        Command::Map(policy) => policy_commands::map(alloc, policy, files, out),
        Command::Flows(policy) => policy_commands::flows(alloc, policy, files, out),
        Command::Verify { image, policy } => verify(alloc, image, policy, files, out),
        Command::Load(number) => load(alloc, number, out),
    }
}

/// Does what the words ask for, tells how it ended, and answers its status.
pub(crate) fn call<F: Files, S: Sink, E: Sink>(
    alloc: Global,
    words: &[String],
    files: &mut F,
    out: &mut S,
    err: &mut E,
) -> Status
    ensures ran { IsCallOf (map string_bytes words.now) (F.held files.old) (F.held files.new) (F.history files.old) (F.history files.new) (S.state out.old) (S.state out.new) (E.state err.old) (E.state err.new) result }
    ensures no_command { command_of (map string_bytes words.now) ≡ None → (result ≡ Status.Usage) × (F.history files.new ≡ F.history files.old) }
{
    let outcome = work(alloc, words, files, out);
    report(&outcome, err);
    status(&outcome)
}
