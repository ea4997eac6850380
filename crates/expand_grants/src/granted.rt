//! What is granted to a subject, and routes of interrupts.
use muen_num::{EventMode, Seq};
use policy_lawful::{MsrGrant, PortRange, Rights, ThingIndex};

/// The way in which a subject raises an event.
#[derive(Clone, Copy, Debug)]
pub enum Way {
    /// The hypercall of this number.
    Call(u8),
    /// A trap of this exit reason (Intel SDM volume 3).
    Trap(u8),
}

/// An event that a subject raises.
#[derive(Clone, Copy, Debug)]
pub struct EventEntry {
    pub way: Way,
    pub mode: EventMode,
    /// The index of the subject that it reaches.
    pub target: usize,
    /// The vector that becomes pending there, if any.
    pub vector: Option<u8>,
}

/// Where an interrupt of a device goes.
#[derive(Clone, Copy, Debug)]
pub struct Route {
    /// The device's index.
    pub device: usize,
    /// The index among the device's interrupt lines.
    pub irq: usize,
    /// The index of the subject that it reaches.
    pub subject: usize,
    pub vector: u8,
}

/// A window that is granted to a subject: `size` bytes from the guest address `guest` on show the
/// whole of a thing.
#[derive(Clone, Copy, Debug)]
pub struct GrantedWindow {
    pub guest: u64,
    /// In bytes.
    pub size: u64,
    pub rights: Rights,
    /// The number of what it shows.
    pub thing: ThingIndex,
}

/// What is granted to a subject.
#[derive(Debug, Drop)]
pub struct Grants {
    /// Its windows, by guest address.
    pub windows: Seq<GrantedWindow>,
    pub ports: Seq<PortRange>,
    pub msrs: Seq<MsrGrant>,
    /// The events that it raises, each way once.
    pub events: Seq<EventEntry>,
}
