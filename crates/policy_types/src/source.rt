//! The elements of a policy document. A name is read by `muen_num`'s grammar of names, a number is
//! below 2^64, an absent list is empty, and another absent key has its default or is `None`.
use crate::rights::{Caching, MsrRights, Rights, Role};
use muen_num::{EventMode, Name, Seq};

/// What a policy document says of a system: the elements of a Muen system policy, in this project's profile. Numbers are as in the document, and nothing is resolved or checked.
#[derive(Debug, Drop)]
pub struct Source {
    pub processor: Processor,
    pub memory_blocks: Seq<Block>,
    pub devices: Seq<Device>,
    pub memory: Seq<Region>,
    pub channels: Seq<Channel>,
    pub components: Seq<Component>,
    pub events: Seq<Event>,
    pub subjects: Seq<Subject>,
    pub scheduling: Scheduling,
    pub device_domains: Seq<Domain>,
}

/// The processor.
#[derive(Debug, Drop)]
pub struct Processor {
    /// How many logical CPUs there are.
    pub logical_cpus: u64,
}

/// A block of physical memory.
#[derive(Debug, Drop)]
pub struct Block {
    pub name: Name,
    pub physical_address: u64,
    /// In bytes.
    pub size: u64,
}

/// A device with its resources.
#[derive(Debug, Drop)]
pub struct Device {
    pub name: Name,
    pub memory: Seq<DeviceMemory>,
    pub io_ports: Seq<Ports>,
    pub irqs: Seq<Irq>,
    /// Where it is on the PCI bus, for a device in a domain.
    pub bdf: Option<Bdf>,
}

/// Where a device is on the PCI bus.
#[derive(Clone, Copy, Debug)]
pub struct Bdf {
    pub bus: u8,
    pub device: u64,
    pub function: u64,
}

/// Memory of a device.
#[derive(Debug, Drop)]
pub struct DeviceMemory {
    pub name: Name,
    pub physical_address: u64,
    /// In bytes.
    pub size: u64,
}

/// A range of I/O ports, both ends included.
#[derive(Debug, Drop)]
pub struct Ports {
    pub name: Name,
    pub start: u64,
    pub end: u64,
}

/// An interrupt line of a device.
#[derive(Debug, Drop)]
pub struct Irq {
    pub name: Name,
}

/// A region of memory.
#[derive(Debug, Drop)]
pub struct Region {
    pub name: Name,
    /// In bytes.
    pub size: u64,
    pub caching: Caching,
    /// In bytes.
    pub alignment: u64,
    /// Where it has to be, if anywhere.
    pub physical_address: Option<u64>,
    pub content: Content,
    /// The subjects that share it, several of which may write; empty for a region that isn't shared.
    pub shared_memory: Seq<Name>,
}

/// What a region holds at the start; what it says less than the size is followed by zeros.
#[derive(Debug, Drop)]
pub enum Content {
    /// Zeros.
    Zero,
    /// This byte, repeated.
    Fill(u8),
    /// These bytes.
    Inline(Seq<u8>),
    /// Bytes of a file from an offset, at most so many.
    File {
        name: Name,
        offset: u64,
        length: Option<u64>,
    },
}

/// A one-way channel.
#[derive(Debug, Drop)]
pub struct Channel {
    pub name: Name,
    /// In bytes.
    pub size: u64,
    pub has_event: Option<EventMode>,
}

/// A component that subjects may use.
#[derive(Debug, Drop)]
pub struct Component {
    pub name: Name,
    pub provides: Seq<Provided>,
    pub memory: Seq<Required>,
    pub channels: Seq<ComponentChannel>,
}

/// A region that a component brings along, one for each of its subjects.
#[derive(Debug, Drop)]
pub struct Provided {
    pub logical: Name,
    pub virtual_address: u64,
    /// In bytes.
    pub size: u64,
    pub rights: Rights,
    pub content: Content,
}

/// A region that a component asks for.
#[derive(Debug, Drop)]
pub struct Required {
    pub logical: Name,
    pub virtual_address: u64,
    /// In bytes.
    pub size: u64,
    pub rights: Rights,
}

/// A channel that a component asks for.
#[derive(Debug, Drop)]
pub struct ComponentChannel {
    pub logical: Name,
    pub role: Role,
    pub virtual_address: u64,
    /// In bytes.
    pub size: u64,
    pub call: Option<u64>,
    pub vector: Option<u64>,
}

/// An event.
#[derive(Debug, Drop)]
pub struct Event {
    pub name: Name,
    pub mode: EventMode,
}

/// A subject.
#[derive(Debug, Drop)]
pub struct Subject {
    pub name: Name,
    pub cpu: u64,
    /// The guest address of its first instruction.
    pub entry: u64,
    pub component: Option<ComponentUse>,
    pub memory: Seq<Mapping>,
    pub channels: Seq<ChannelUse>,
    pub devices: Seq<DeviceUse>,
    pub msrs: Seq<Msrs>,
    pub sources: Seq<EventSource>,
    pub targets: Seq<EventTarget>,
    pub monitors: Seq<Monitor>,
}

/// The component of a subject.
#[derive(Debug, Drop)]
pub struct ComponentUse {
    /// The component's name.
    pub used: Name,
    pub map: Seq<MapEntry>,
}

/// What a component's logical name stands for.
#[derive(Debug, Drop)]
pub struct MapEntry {
    pub logical: Name,
    pub physical: Name,
    pub rights: Option<Rights>,
}

/// A window of a subject, or of a domain of devices, on a region of memory.
#[derive(Debug, Drop)]
pub struct Mapping {
    pub region: Name,
    /// The address of its first byte, as the subject or the devices see it.
    pub virtual_address: u64,
    pub rights: Rights,
}

/// A subject's end of a channel.
#[derive(Debug, Drop)]
pub struct ChannelUse {
    pub channel: Name,
    pub role: Role,
    pub virtual_address: u64,
    pub call: Option<u64>,
    pub vector: Option<u64>,
}

/// What a subject is granted of a device.
#[derive(Debug, Drop)]
pub struct DeviceUse {
    pub device: Name,
    pub memory: Seq<DeviceMapping>,
    pub io_ports: Seq<Name>,
    pub irqs: Seq<IrqUse>,
}

/// A window of a subject on a device's memory.
#[derive(Debug, Drop)]
pub struct DeviceMapping {
    pub memory: Name,
    pub virtual_address: u64,
    pub rights: Rights,
}

/// An interrupt line that is granted to a subject.
#[derive(Debug, Drop)]
pub struct IrqUse {
    pub irq: Name,
    pub vector: u64,
}

/// A range of MSRs that is granted to a subject, both ends included.
#[derive(Debug, Drop)]
pub struct Msrs {
    pub start: u64,
    pub end: u64,
    pub rights: MsrRights,
}

/// How a subject raises an event.
#[derive(Debug, Drop)]
pub struct EventSource {
    pub event: Name,
    pub way: SourceWay,
}

/// The way in which a subject raises an event.
#[derive(Clone, Copy, Debug)]
pub enum SourceWay {
    /// A call of this number.
    Call(u64),
    /// A trap of this exit reason.
    Trap(u64),
}

/// An event that reaches a subject.
#[derive(Debug, Drop)]
pub struct EventTarget {
    pub event: Name,
    pub vector: Option<u64>,
}

/// A window of a subject on the state of another, which it monitors.
#[derive(Debug, Drop)]
pub struct Monitor {
    /// The monitored subject.
    pub subject: Name,
    /// The guest address of the window's first byte.
    pub virtual_address: u64,
    pub rights: Rights,
}

/// The scheduling plan.
#[derive(Debug, Drop)]
pub struct Scheduling {
    pub groups: Seq<Group>,
    pub major_frames: Seq<MajorFrame>,
    /// Who chooses the next major frame, if anyone does.
    pub tau0: Option<Tau0>,
}

/// The subject that chooses the next major frame, by the first byte of a region.
#[derive(Clone, Copy, Debug)]
pub struct Tau0 {
    pub subject: Name,
    pub region: Name,
}

/// A scheduling group.
#[derive(Debug, Drop)]
pub struct Group {
    pub name: Name,
    pub cpu: u64,
    /// Its members; the first is active at the start.
    pub subjects: Seq<Name>,
}

/// A major frame.
#[derive(Debug, Drop)]
pub struct MajorFrame {
    pub cpus: Seq<CpuFrames>,
}

/// The minor frames of a CPU in a major frame.
#[derive(Debug, Drop)]
pub struct CpuFrames {
    pub cpu: u64,
    pub minor_frames: Seq<MinorFrame>,
}

/// A minor frame.
#[derive(Debug, Drop)]
pub struct MinorFrame {
    pub group: Name,
    pub ticks: u64,
}

/// A domain of devices, which confines what these may reach in memory by themselves (DMA).
#[derive(Debug, Drop)]
pub struct Domain {
    pub name: Name,
    /// Its devices.
    pub devices: Seq<Name>,
    /// Its windows on regions; their addresses are the devices'.
    pub memory: Seq<Mapping>,
}
