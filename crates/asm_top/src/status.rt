//! The status with which a call of the assembler ends.
ghost use Rattle.asm_top.specs.Statuses.{number_of};

use command_shell::OwnStatus;

/// The statuses of the assembler's own.
#[derive(Clone, Copy, Debug)]
pub enum AssemblerStatus {
    /// 2: the source is refused.
    SourceRefused,
}

impl OwnStatus for AssemblerStatus {
    ghost number = { number_of };

    fn number(&self) -> u8 {
        match self {
            AssemblerStatus::SourceRefused => 2,
        }
    }
}

/// How a call of the assembler has ended. Its number is the exit status of the program.
pub type Status = command_shell::Status<AssemblerStatus>;
