//! The command `verify`: an image and a policy are judged, as `muen verify` does it, and then a file of tables
//! for both.
ghost use Rattle.std.specs.Prelude.{◌≡◌, IfErr, IfOk};
ghost use Rattle.command_shell.specs.Outcomes.{PutsTo};
ghost use Rattle.image_verify.specs.Verdict.{AreOfFiles};
ghost use Rattle.muen_top.specs.Reports.{sound_text};
ghost use Rattle.dma_top.specs.Outcomes.{ComesSo};
ghost use Rattle.dma_top.specs.Verdicts.{AreFit, AreUnfit, IsAccepted, IsUnsound, IsVerify, told_as};

use crate::reading::read_tables;
use crate::refusal::Refusal;
use command_shell::CommandError;
use dma_check::{ImageSpans, check_spans};
use expand_kernel::{Expanded, expand};
use muen_num::NoMemory;
use muen_outside::{Files, Sink, SinkFault, put_pieces};
use muen_top::{CommandError as MuenError, ToJudge, read_to_judge};
use std::alloc::Global;

// Why nothing is judged, as this program tells it.
fn told_as<'a>(error: MuenError<'a>) -> CommandError<'a, Refusal>
    ensures { result ≡ told_as error.entry }
{
    match error {
        MuenError::Usage => CommandError::Usage,
        MuenError::Missing(name) => CommandError::Missing(name),
        MuenError::TooLong(name, length) => CommandError::TooLong(name, length),
        MuenError::Refused(refusal) => CommandError::Own(Refusal::Policy(refusal)),
        MuenError::ImageRefused(fault) => CommandError::Own(Refusal::Image(fault)),
        MuenError::DmaRefused(fault) => CommandError::Own(Refusal::Tables(fault)),
        MuenError::RecordRefused(fault) => CommandError::Own(Refusal::Record(fault)),
        MuenError::NotSound(fault) => CommandError::Own(Refusal::Unsound(fault)),
        MuenError::FileFault => CommandError::FileFault,
        MuenError::NoMemory => CommandError::NoMemory,
    }
}

// A policy with all that follows from it, and the spans of an image that is sound for it.
#[derive(Drop)]
struct Accepted {
    expanded: Expanded,
    spans: ImageSpans,
}

// Judges the image. Of it the spans are kept.
fn judge_image<'a>(alloc: Global, read: ToJudge) -> Result<Accepted, CommandError<'a, Refusal>>
    requires { AreOfFiles read.policy read.things }
    ensures ok { IfOk result (IsAccepted read.parts read.policy read.things) }
    ensures err { IfErr result (IsUnsound read.parts read.policy read.things) }
{
    let ToJudge {
        parts,
        policy,
        things,
    } = read;
    let Ok(spans) = ImageSpans::of(alloc, &parts) else {
        return Err(CommandError::NoMemory);
    };
    let Ok(expanded) = expand(alloc, policy) else {
        return Err(CommandError::NoMemory);
    };
    match image_verify::verify(alloc, &expanded, things, parts) {
        Ok(None) => Ok(Accepted { expanded, spans }),
        Ok(Some(fault)) => Err(CommandError::Own(Refusal::Unsound(fault))),
        Err(NoMemory) => Err(CommandError::NoMemory),
    }
}

// Judges the tables of this file.
fn judge_tables<'a, F: Files>(
    alloc: Global,
    accepted: &Accepted,
    tables: &'a str,
    files: &mut F,
) -> Result<(), CommandError<'a, Refusal>>
    ensures ok { IfOk result (λ _. AreFit accepted.now tables.now (F.held files.old) (F.history files.old) (F.history files.new)) }
    ensures err { IfErr result (AreUnfit accepted.now tables.now (F.held files.old) (F.history files.old) (F.history files.new)) }
    ensures held { F.held files.new ≡ F.held files.old }
{
    let tables = read_tables(alloc, tables, files)?;
    let policy = accepted.expanded.lawful().resolved();
    match check_spans(alloc, policy, &accepted.spans, &tables) {
        Ok(None) => Ok(()),
        Ok(Some(fault)) => Err(CommandError::Own(Refusal::Unfit(fault))),
        Err(NoMemory) => Err(CommandError::NoMemory),
    }
}

fn put_sound<'a, S: Sink>(out: &mut S) -> Result<(), CommandError<'a, Refusal>>
    ensures { PutsTo sound_text (S.state out.old) (S.state out.new) result }
{
    match put_pieces(&["sound\n"], out) {
        Ok(()) => Ok(()),
        Err(SinkFault) => Err(CommandError::OutputFault),
    }
}

/// Tells whether an image is sound for a policy and the files that its contents name, and tables fit both.
pub(crate) fn verify<'a, F: Files, S: Sink>(
    alloc: Global,
    image: &'a str,
    policy: &'a str,
    tables: &'a str,
    files: &mut F,
    out: &mut S,
) -> Result<(), CommandError<'a, Refusal>>
    ensures came { ComesSo (IsVerify image.now policy.now tables.now (F.held files.old)) (F.held files.old) (F.held files.new) (F.history files.old) (F.history files.new) (S.state out.old) (S.state out.new) result }
    ensures held { F.held files.new ≡ F.held files.old }
{
    let read = match read_to_judge(alloc, image, policy, files) {
        Ok(read) => read,
        Err(error) => return Err(told_as(error)),
    };
    let accepted = match judge_image(alloc, read) {
        Ok(accepted) => accepted,
        Err(error) => return Err(error),
    };
    match judge_tables(alloc, &accepted, tables, files) {
        Ok(()) => put_sound(out),
        Err(error) => Err(error),
    }
}
