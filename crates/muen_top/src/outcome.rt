// How a command comes to an end.
ghost use Rattle.std.specs.Prelude.{◌≡◌};
ghost use Rattle.muen_top.specs.CommandErrors.{error_of_record_fault, error_of_refusal};

use image_pack::ImageFault;
use image_verify::Fault;
use muen_build::BuildError;
use muen_num::NoMemory;
use policy_lawful::Refusal;
use record_text::RecordFault;

/// Why nothing was printed, and not all was written whole.
#[derive(Drop)]
pub enum CommandError<'a> {
    /// The words have no command's form.
    Usage,
    /// There is no file of this name.
    Missing(&'a str),
    /// The file of this name has so many bytes, more than its limit.
    TooLong(&'a str, u64),
    /// The policy is refused.
    Refused(Refusal),
    /// The image is refused.
    ImageRefused(ImageFault),
    /// The tables for direct memory access are refused.
    DmaRefused(ImageFault),
    /// The device record is refused.
    RecordRefused(RecordFault),
    /// The image isn't sound for the policy and its files.
    NotSound(Fault),
    /// A call on files failed.
    FileFault,
    /// Memory was refused.
    NoMemory,
}

impl<'a> From<NoMemory> for CommandError<'a> {
    ghost use Rattle.std.specs.Prelude.{◌≡◌};
    ghost use Rattle.muen_top.specs.declared.outcome.CommandError.TheVariants as errors;

    ghost from_gives = { λ refused error. error ≡ errors.NoMemory };

    fn from(refused: NoMemory) -> CommandError<'a> {
        let NoMemory = refused;
        CommandError::NoMemory
    }
}

impl<'a> From<Refusal> for CommandError<'a> {
    ghost use Rattle.std.specs.Prelude.{◌≡◌};
    ghost use Rattle.muen_top.specs.CommandErrors.{error_of_refusal};

    ghost from_gives = { λ refusal error. error ≡ error_of_refusal refusal };

    fn from(refusal: Refusal) -> CommandError<'a> {
        if refusal.is_no_memory() {
            CommandError::NoMemory
        } else {
            CommandError::Refused(refusal)
        }
    }
}

impl<'a> From<BuildError> for CommandError<'a> {
    ghost use Rattle.std.specs.Prelude.{◌≡◌};
    ghost use Rattle.muen_top.specs.CommandErrors.{error_of_build};

    ghost from_gives = { λ build_error error. error ≡ error_of_build build_error };

    fn from(build_error: BuildError) -> CommandError<'a> {
        match build_error {
            BuildError::Refused(refusal) => CommandError::from(refusal),
            BuildError::FileFault => CommandError::FileFault,
        }
    }
}

impl<'a> From<ImageFault> for CommandError<'a> {
    ghost use Rattle.std.specs.Prelude.{◌≡◌};
    ghost use Rattle.muen_top.specs.CommandErrors.{error_of_image_fault};

    ghost from_gives = { λ fault error. error ≡ error_of_image_fault fault };

    fn from(fault: ImageFault) -> CommandError<'a> {
        match fault {
            ImageFault::NoMemory => CommandError::NoMemory,
            _ => CommandError::ImageRefused(fault),
        }
    }
}

impl<'a> From<RecordFault> for CommandError<'a> {
    ghost use Rattle.std.specs.Prelude.{◌≡◌};
    ghost use Rattle.muen_top.specs.CommandErrors.{error_of_record_fault};

    ghost from_gives = { λ fault error. error ≡ error_of_record_fault fault };

    fn from(fault: RecordFault) -> CommandError<'a> {
        match fault {
            RecordFault::NoMemory => CommandError::NoMemory,
            _ => CommandError::RecordRefused(fault),
        }
    }
}

/// How a command comes to an end.
#[derive(Drop)]
pub(crate) enum Outcome<'a> {
    /// All was printed, or all was written.
    Done,
    /// Nothing was printed.
    Stopped(CommandError<'a>),
    /// The sink of the output failed; a front of the text was printed.
    OutputFault,
}
