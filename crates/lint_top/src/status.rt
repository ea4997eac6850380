//! The status with which a call of the program ends.
ghost use Rattle.lint_top.specs.Statuses.{number_of};

use command_shell::OwnStatus;

/// The statuses of the program's own.
#[derive(Clone, Copy, Debug)]
pub enum LintStatus {
    /// 2: the policy is refused.
    PolicyRefused,
}

impl OwnStatus for LintStatus {
    ghost number = { number_of };

    fn number(&self) -> u8 {
        match self {
            LintStatus::PolicyRefused => 2,
        }
    }
}

/// How a call of the program has ended. Its number is the exit status.
pub type Status = command_shell::Status<LintStatus>;
