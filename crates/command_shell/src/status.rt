//! The status with which a call of a program ends.
ghost use Rattle.std.specs.Prelude.{◌≡◌, ℕ};

use std::process::ExitCode;

/// The statuses of a program's own, beside those of every program.
pub trait OwnStatus: Copy {
    /// The number of a status: none of 0, 1, 3, 4, 7 and 8.
    ghost number: { Self → ℕ };

    /// Its number.
    fn number(&self) -> u8
        ensures { result ≡ number self.now };
}

/// How a call has ended. Its number is the exit status of the program.
#[derive(Clone, Copy, Debug)]
pub enum Status<O> {
    /// 0: the text was put, or the bytes were written.
    Done,
    /// 1: the words have no command's form.
    Usage,
    /// 3: a file isn't there, or is too long.
    FileMissing,
    /// 4: a call on files failed.
    FileFault,
    /// 7: a call on the output failed.
    OutputFault,
    /// 8: memory was refused.
    NoMemory,
    /// A status of the program's own.
    Own(O),
}

impl<O: OwnStatus> From<Status<O>> for u8 {
    ghost use Rattle.std.specs.Prelude.{◌≡◌};
    ghost use Rattle.command_shell.specs.Statuses.{code_of};

    ghost from_gives = { λ status code. code ≡ code_of O.number status };

    fn from(status: Status<O>) -> u8 {
        match status {
            Status::Done => 0,
            Status::Usage => 1,
            Status::FileMissing => 3,
            Status::FileFault => 4,
            Status::OutputFault => 7,
            Status::NoMemory => 8,
            Status::Own(own) => own.number(),
        }
    }
}

impl<O: OwnStatus> From<Status<O>> for ExitCode {
    ghost use Rattle.std.specs.Prelude.{◌≡◌};
    ghost use Rattle.std.specs.Process.{exit_status};
    ghost use Rattle.command_shell.specs.Statuses.{code_of};

    ghost from_gives = { λ status code. exit_status code ≡ code_of O.number status };

    fn from(status: Status<O>) -> ExitCode {
        ExitCode::from(u8::from(status))
    }
}
