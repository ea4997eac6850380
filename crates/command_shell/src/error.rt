//! Why a command isn't done.
ghost use Rattle.std.specs.Prelude.{◌≡◌, ℕ, List};
ghost use Rattle.muen_outside.specs.Puts.{Puts};
ghost use Rattle.command_shell.specs.Texts.{error_line};
ghost use Rattle.command_shell.specs.declared.status.Status.{Status};

use crate::status::{OwnStatus, Status};
use muen_num::NoMemory;
use muen_outside::{FileError, Sink, SinkFault};

/// A reason of one program's own why a command isn't done.
pub trait Reason: Drop {
    type Status: OwnStatus;

    /// What its line says.
    ghost text: { Self → List ℕ };

    /// The status with which the call ends then: one of the program's own, or of every program.
    ghost status: { Self → Status Self.Status };

    fn status(&self) -> Status<Self::Status>
        ensures { result ≡ status self.now };

    /// Puts its line, which begins with the program's name.
    fn put_line<E: Sink>(&self, program: &str, err: &mut E) -> Result<(), SinkFault>
        ensures { Puts (error_line program.now (text self.now)) (E.state err.old) (E.state err.new) result };
}

/// Why nothing was printed, or nothing was written whole.
#[derive(Drop)]
pub enum CommandError<'a, R> {
    /// The words have no command's form.
    Usage,
    /// There is no file of this name.
    Missing(&'a str),
    /// The file of this name has so many bytes, more than its limit.
    TooLong(&'a str, u64),
    /// A call on files failed.
    FileFault,
    /// A front of the text was printed, and the output failed.
    OutputFault,
    /// Memory was refused.
    NoMemory,
    /// A reason of the program's own.
    Own(R),
}

impl<'a, R> From<NoMemory> for CommandError<'a, R> {
    ghost use Rattle.std.specs.Prelude.{◌≡◌};
    ghost use Rattle.command_shell.specs.declared.error.CommandError.TheVariants as errors;

    ghost from_gives = { λ _ error. error ≡ errors.NoMemory };

    fn from(_: NoMemory) -> CommandError<'a, R> {
        CommandError::NoMemory
    }
}

impl<'a, R> From<SinkFault> for CommandError<'a, R> {
    ghost use Rattle.std.specs.Prelude.{◌≡◌};
    ghost use Rattle.command_shell.specs.declared.error.CommandError.TheVariants as errors;

    ghost from_gives = { λ _ error. error ≡ errors.OutputFault };

    fn from(_: SinkFault) -> CommandError<'a, R> {
        CommandError::OutputFault
    }
}

impl<'a, R> From<FileError> for CommandError<'a, R> {
    ghost use Rattle.std.specs.Prelude.{◌≡◌};
    ghost use Rattle.command_shell.specs.Errors.{error_of_files};

    ghost from_gives = { λ fault error. error ≡ error_of_files fault };

    fn from(fault: FileError) -> CommandError<'a, R> {
        match fault {
            FileError::Failed => CommandError::FileFault,
            FileError::NoMemory => CommandError::NoMemory,
        }
    }
}
