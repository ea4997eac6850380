// The line that tells how a command ended, and its status.
ghost use Rattle.std.specs.Prelude.{◌≡◌, codes};
ghost use Rattle.muen_num.specs.Pieces.{whole};
ghost use Rattle.muen_outside.specs.Puts.{Puts};
ghost use Rattle.muen_top.specs.Reports.{error_text, error_line, refusal_status, status_of, usage_text, Reported};

use crate::outcome::{CommandError, Outcome};
use crate::status::Status;
use dma_tables::dma_fault_pieces;
use image_verify::AddressDigits;
use itoa::Buffer;
use muen_num::Pieces;
use muen_outside::{Sink, SinkFault, put_pieces};
use policy_lawful::Refusal;

// Words that are too long for the search among others.
#[tactic(auto, unfolding(crate::specs::Reports::usage_text))]
fn usage() -> &'static str
    ensures { result.now ≡ usage_text }
{
    "usage: build POLICY IMAGE, run IMAGE RECORD, boot POLICY RECORD, map POLICY, flows POLICY, load NUMBER, verify IMAGE POLICY, build POLICY IMAGE DMA, run IMAGE RECORD DMA"
}

// The text of an error in pieces.
fn pieces<'a>(
    error: &'a CommandError<'_>,
    one: &'a mut Buffer,
    two: &'a mut Buffer,
    digits: &'a mut AddressDigits,
) -> Pieces<'a>
    ensures { whole result ≡ error_text error.now }
{
    match error {
        CommandError::Usage => usage().into(),
        CommandError::Missing(name) => ("missing file ", *name).into(),
        CommandError::TooLong(name, length) => {
            let length = one.format(*length);
            ("file ", *name, " has ", length, " bytes").into()
        }
        CommandError::Refused(refusal) => refusal.pieces(one, two),
        CommandError::ImageRefused(fault) => fault.pieces(one),
        CommandError::DmaRefused(fault) => dma_fault_pieces(*fault, one),
        CommandError::RecordRefused(fault) => fault.pieces(one),
        CommandError::NotSound(fault) => fault.pieces(digits),
        CommandError::FileFault => "file fault".into(),
        CommandError::NoMemory => "out of memory".into(),
    }
}

fn output_fault() -> Pieces<'static>
    ensures { whole result ≡ codes "output fault" }
{
    "output fault".into()
}

// The line with this text.
fn put_line<S: Sink>(text: &Pieces<'_>, err: &mut S) -> Result<(), SinkFault>
    ensures { Puts (error_line (whole text.now)) (S.state err.old) (S.state err.new) result }
{
    let Pieces(a, b, c, d, e, f, g, last) = *text;
    put_pieces(&["muen: ", a, b, c, d, e, f, g, last, "\n"], err)
}

/// Puts the line of how a command ended; none where it is done.
pub(crate) fn report<S: Sink>(outcome: &Outcome<'_>, err: &mut S)
    ensures { Reported (S.state err.old) (S.state err.new) outcome.now }
{
    match outcome {
        Outcome::Done => {}
        Outcome::Stopped(error) => {
            let mut one = Buffer::new();
            let mut two = Buffer::new();
            let mut digits = AddressDigits::new();
            let _ = put_line(&pieces(error, &mut one, &mut two, &mut digits), err);
        }
        Outcome::OutputFault => {
            let _ = put_line(&output_fault(), err);
        }
    }
}

fn refusal_status(refusal: &Refusal) -> Status
    ensures { result ≡ refusal_status refusal.now }
{
    match refusal {
        Refusal::NotJson
        | Refusal::Shape { .. }
        | Refusal::Rule { .. }
        | Refusal::FileFit { .. }
        | Refusal::NoRoom { .. } => Status::PolicyRefused,
        Refusal::Missing { .. } | Refusal::TooLong { .. } => Status::FileMissing,
        Refusal::NoMemory => Status::NoMemory,
    }
}

/// The status of how a command ended.
pub(crate) fn status(outcome: &Outcome<'_>) -> Status
    ensures { result ≡ status_of outcome.now }
{
    match outcome {
        Outcome::Done => Status::Done,
        Outcome::Stopped(CommandError::Usage) => Status::Usage,
        Outcome::Stopped(CommandError::Refused(refusal)) => refusal_status(refusal),
        Outcome::Stopped(CommandError::Missing(_) | CommandError::TooLong(_, _)) =>
            Status::FileMissing,
        Outcome::Stopped(CommandError::FileFault) => Status::FileFault,
        Outcome::Stopped(CommandError::ImageRefused(_)) => Status::ImageRefused,
        Outcome::Stopped(CommandError::DmaRefused(_)) => Status::DmaRefused,
        Outcome::Stopped(CommandError::RecordRefused(_)) => Status::RecordRefused,
        Outcome::Stopped(CommandError::NotSound(_)) => Status::NotSound,
        Outcome::OutputFault => Status::OutputFault,
        Outcome::Stopped(CommandError::NoMemory) => Status::NoMemory,
    }
}
