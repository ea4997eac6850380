//! The status with which a call of the program ends.
ghost use Rattle.dma_top.specs.Statuses.{number_of};

use command_shell::OwnStatus;

/// The statuses of the program's own.
#[derive(Clone, Copy, Debug)]
pub enum DmaStatus {
    /// 2: the policy is refused.
    PolicyRefused,
    /// 5: the image is refused.
    ImageRefused,
    /// 6: the device record is refused.
    RecordRefused,
    /// 9: the image isn't sound for the policy, or the tables don't fit both.
    NotSound,
    /// 10: the tables are refused.
    TablesRefused,
}

impl OwnStatus for DmaStatus {
    ghost number = { number_of };

    fn number(&self) -> u8 {
        match self {
            DmaStatus::PolicyRefused => 2,
            DmaStatus::ImageRefused => 5,
            DmaStatus::RecordRefused => 6,
            DmaStatus::NotSound => 9,
            DmaStatus::TablesRefused => 10,
        }
    }
}

/// How a call of the program has ended. Its number is the exit status of the program.
pub type Status = command_shell::Status<DmaStatus>;
