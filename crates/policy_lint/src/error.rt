//! Why a document isn't told of.
ghost use Rattle.policy_lint.specs.declared.error.LintError.TheVariants.{NoMemory as OutOfMemory};

use muen_num::NoMemory;
use muen_outside::FileError;

/// Why no answer was found of what a document is refused for.
#[derive(Clone, Copy, Debug, PartialEq, Eq)]
pub enum LintError {
    /// The last look at files failed.
    FileFault,
    /// Memory was refused.
    NoMemory,
}

impl From<NoMemory> for LintError {
    ghost use Rattle.std.specs.Prelude.{◌≡◌};

    ghost from_gives = { λ _ error. error ≡ OutOfMemory };

    fn from(_: NoMemory) -> LintError {
        LintError::NoMemory
    }
}

impl From<FileError> for LintError {
    ghost use Rattle.std.specs.Prelude.{◌≡◌};
    ghost use Rattle.policy_lint.specs.Seen.{error_of_look};

    ghost from_gives = { λ fault error. error ≡ error_of_look fault };

    fn from(fault: FileError) -> LintError {
        match fault {
            FileError::Failed => LintError::FileFault,
            FileError::NoMemory => LintError::NoMemory,
        }
    }
}
