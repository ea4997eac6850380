//! The status with which a call of the program ends.
use std::process::ExitCode;

/// How a call has ended. Its number is the exit status of the program.
#[derive(Clone, Copy, Debug)]
pub enum Status {
    /// 0: the text was put, or the image was written.
    Done,
    /// 1: the words have no command's form.
    Usage,
    /// 2: the policy is refused.
    PolicyRefused,
    /// 3: a file isn't there, or is too long.
    FileMissing,
    /// 4: a call on files failed.
    FileFault,
    /// 5: the image is refused.
    ImageRefused,
    /// 6: the device record is refused.
    RecordRefused,
    /// 7: a call on the output failed.
    OutputFault,
    /// 8: memory was refused.
    NoMemory,
    /// 9: the image isn't sound for the policy and its files.
    NotSound,
    /// 10: the tables for direct memory access are refused.
    DmaRefused,
}

impl From<Status> for u8 {
    ghost use Rattle.std.specs.Prelude.{◌≡◌};
    ghost use Rattle.muen_top.specs.Statuses.{code_of};

    ghost from_gives = { λ status code. code ≡ code_of status };

    fn from(status: Status) -> u8 {
        match status {
            Status::Done => 0,
            Status::Usage => 1,
            Status::PolicyRefused => 2,
            Status::FileMissing => 3,
            Status::FileFault => 4,
            Status::ImageRefused => 5,
            Status::RecordRefused => 6,
            Status::OutputFault => 7,
            Status::NoMemory => 8,
            Status::NotSound => 9,
            Status::DmaRefused => 10,
        }
    }
}

impl From<Status> for ExitCode {
    ghost use Rattle.std.specs.Prelude.{◌≡◌};
    ghost use Rattle.std.specs.Process.{exit_status};
    ghost use Rattle.muen_top.specs.Statuses.{code_of};

    ghost from_gives = { λ status code. exit_status code ≡ code_of status };

    fn from(status: Status) -> ExitCode {
        ExitCode::from(u8::from(status))
    }
}
