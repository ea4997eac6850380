//! The device record of a run, by addresses and numbers.
use muen_num::Seq;

/// The most bytes of one input into memory; there is at least one.
pub const INPUT_MOST: usize = 64;

/// What a line of a record says that a device does.
#[derive(Debug, Drop)]
pub enum Input {
    /// The input byte of an I/O port becomes this value.
    Port {
        port: u16,
        value: u8,
    },
    /// Bytes are written from a physical address on.
    Mem {
        at: u64,
        bytes: Seq<u8>,
    },
    /// An interrupt is raised: its subject's number and its vector.
    Irq {
        subject: u8,
        vector: u8,
    },
    /// An interrupt that nobody has is raised; nothing happens.
    Idle,
    /// A device, by its number, writes bytes from an address of its own on.
    Dma {
        device: u8,
        addr: u64,
        bytes: Seq<u8>,
    },
}

/// An input with its tick.
#[derive(Debug, PartialEq, Eq, Drop)]
pub struct TickInput<I> {
    pub tick: u32,
    pub input: I,
}

/// The order in which the CPUs take their turns in a tick.
#[derive(Debug, Drop)]
pub struct TickOrder {
    pub tick: u32,
    /// Each CPU's number, once.
    pub cpus: Seq<u8>,
}

/// The device record of a run, over what it has of devices: what its lines say (`Input`), or what of
/// it reaches a machine.
#[derive(Debug, Drop)]
pub struct Record<I> {
    /// How many ticks the run has, at most 100,000. An input of this very tick has no effect.
    pub end: u32,
    /// The inputs, in the order in which they come.
    pub inputs: Seq<TickInput<I>>,
    /// The orders, by rising ticks; in any other tick the CPUs take their turns by number.
    pub orders: Seq<TickOrder>,
}
