//! What reaches a machine from its devices.
use muen_num::Seq;

/// What a device does to a machine.
#[derive(Debug, PartialEq, Eq, Drop)]
pub enum Effect {
    /// The input byte of an I/O port becomes this value.
    Port { port: u16, value: u8 },
    /// Bytes are written from a physical address on.
    Mem { at: u64, bytes: Seq<u8> },
    /// An interrupt is raised: its subject's number and its vector.
    Irq { subject: u8, vector: u8 },
}
