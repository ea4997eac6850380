//! How a command's end is told: its line, and its status.
ghost use Rattle.std.specs.Prelude.{◌≡◌};
ghost use Rattle.muen_num.specs.Pieces.{whole};
ghost use Rattle.muen_outside.specs.Puts.{Puts};
ghost use Rattle.command_shell.specs.Errors.{Reported, error_status, error_text, status_of, telling};
ghost use Rattle.command_shell.specs.Texts.{error_line, too_long_text};

use crate::error::{CommandError, Reason};
use crate::form::Program;
use crate::status::Status;
use crate::usage::put_usage;
use itoa::Buffer;
use muen_num::Pieces;
use muen_outside::{FileError, Sink, SinkFault, put_pieces};

/// Puts the line that tells a text: the program's name, the text, a line feed.
pub fn put_error_line<E: Sink>(
    program: &str,
    text: &Pieces<'_>,
    err: &mut E,
) -> Result<(), SinkFault>
    ensures { Puts (error_line program.now (whole text.now)) (E.state err.old) (E.state err.new) result }
{
    let Pieces(a, b, c, d, e, f, g, last) = *text;
    put_pieces(&[program, ": ", a, b, c, d, e, f, g, last, "\n"], err)
}

// The text of a file that has so many bytes, more than its limit.
fn too_long<'a>(name: &'a str, length: u64, digits: &'a mut Buffer) -> Pieces<'a>
    ensures { whole result ≡ too_long_text name.now length }
{
    let length = digits.format(length);
    ("file ", name, " has ", length, " bytes").into()
}

fn put_error<C, R: Reason, E: Sink>(
    program: &Program<'_, C>,
    error: &CommandError<'_, R>,
    err: &mut E,
) -> Result<(), SinkFault>
    ensures { Puts (error_line program.now.name.now (error_text (telling program.now R.text R.status) error.now)) (E.state err.old) (E.state err.new) result }
{
    match error {
        CommandError::Usage => put_usage(program, err),
        CommandError::Missing(name) => {
            put_error_line(program.name, &("missing file ", *name).into(), err)
        }
        CommandError::TooLong(name, length) => {
            let mut digits = Buffer::new();
            put_error_line(program.name, &too_long(name, *length, &mut digits), err)
        }
        CommandError::FileFault => {
            put_error_line(program.name, &FileError::Failed.as_str().into(), err)
        }
        CommandError::OutputFault => {
            put_error_line(program.name, &SinkFault.as_str().into(), err)
        }
        CommandError::NoMemory => {
            put_error_line(program.name, &FileError::NoMemory.as_str().into(), err)
        }
        CommandError::Own(reason) => reason.put_line(program.name, err),
    }
}

fn error_status<R: Reason>(error: &CommandError<'_, R>) -> Status<R::Status>
    ensures { result ≡ error_status R.status error.now }
{
    match error {
        CommandError::Usage => Status::Usage,
        CommandError::Missing(_) | CommandError::TooLong(_, _) => Status::FileMissing,
        CommandError::FileFault => Status::FileFault,
        CommandError::OutputFault => Status::OutputFault,
        CommandError::NoMemory => Status::NoMemory,
        CommandError::Own(reason) => reason.status(),
    }
}

/// Tells how a command ended, in one line on `err` where it isn't done, and answers the status. A fault of `err`
/// changes no status.
pub fn finish<C, R: Reason, E: Sink>(
    program: &Program<'_, C>,
    outcome: &Result<(), CommandError<'_, R>>,
    err: &mut E,
) -> Status<R::Status>
    ensures status { result ≡ status_of R.status outcome.now }
    ensures told { Reported (telling program.now R.text R.status) (E.state err.old) (E.state err.new) outcome.now }
{
    match outcome {
        Ok(()) => Status::Done,
        Err(error) => {
            let _ = put_error(program, error, err);
            error_status(error)
        }
    }
}
