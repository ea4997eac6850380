//! How steps end.
use muen_num::AccessSize;

/// What an instruction that ran has changed.
#[derive(Clone, Copy, Debug, PartialEq, Eq)]
pub enum Change {
    /// Nothing but `pc` and flags.
    Plain,
    /// The register has this value now.
    Set {
        reg: u8,
        value: u64,
    },
    /// This value was stored at a guest address.
    Stored {
        size: AccessSize,
        addr: u64,
        value: u64,
    },
    /// This value was written to a port.
    Out {
        size: AccessSize,
        port: u16,
        value: u32,
    },
    /// This value was written to the machine-specific register of this index.
    WroteMsr {
        index: u32,
        value: u64,
    },
}

/// How a step ended, before the kernel acts.
#[derive(Clone, Copy, Debug, PartialEq, Eq)]
pub enum StepEnd {
    /// The subject goes on, with this change.
    Ran(Change),
    /// The subject left, by an exit of the processor (Intel SDM volume 3).
    Exit {
        /// The exit reason.
        reason: u8,
        /// The exit qualification.
        qualification: u64,
        /// The guest-physical address of an exit by EPT; else 0.
        addr: u64,
        /// The number of a call of the kernel; else 0.
        call: u64,
    },
}
