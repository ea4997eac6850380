//! What a device record may name, and where it goes.
ghost use Rattle.std.specs.Prelude.{◌+◌, ◌^◌, ◌<◌, ◌≤◌, length};
ghost use Rattle.muen_num.specs.declared.limits.TheConstants.{MOST_DEVICES};

use muen_num::{IrqTarget, Name, PortSpan, Seq};

/// The CPUs and the devices of a system. Where two devices have one name, the first counts.
#[derive(Debug, Drop)]
pub struct Devices {
    /// How many logical CPUs there are, numbered from 0.
    pub cpus: u8,
    /// The devices, by number.
    pub devices: Seq<RecordDevice>,
    pub ghost few: { length devices ≤ MOST_DEVICES },
}

/// A device, with what a record may name of it. Where two of its memories or of its interrupts have
/// one name, the first counts.
#[derive(Debug, Drop)]
pub struct RecordDevice {
    pub name: Name,
    /// Its I/O ports.
    pub ports: Seq<PortSpan>,
    /// Its memories.
    pub memories: Seq<RecordMemory>,
    /// Its interrupts.
    pub irqs: Seq<RecordIrq>,
}

/// A memory of a device.
#[derive(Debug, Drop)]
pub struct RecordMemory {
    pub name: Name,
    /// The physical address of its first byte.
    pub address: u64,
    /// How many bytes it has.
    pub bytes: u64,
    pub ghost fits: { address + bytes < 2 ^ 64 },
}

/// An interrupt of a device.
#[derive(Clone, Copy, Debug)]
pub struct RecordIrq {
    pub name: Name,
    /// Where it goes; `None` where nobody has it.
    pub target: Option<IrqTarget>,
}
