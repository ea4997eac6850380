//! The elements of a policy whose references are resolved: where the document names a declared
//! thing, its index in the list that declares it stands. All else is as in the document.
ghost use Rattle.std.specs.Prelude.{◌≡◌, map, IfOk};
ghost use Rattle.policy_lawful.specs.Resolution.{IsResolved};
ghost use Rattle.policy_lawful.specs.Views.{seen_by};

use crate::thing::{ContentIndex, Thing};
use crate::things::{device_things, placed_things};
use crate::view::{IndexedEnd, Seen, View};
use muen_num::{Name, NoMemory, Seq};
use policy_types::source::{
    Block, Channel, Component, Content, Device, Domain, Event, Msrs, Processor, Provided, Region,
    SourceWay, Tau0,
};
use policy_types::{Rights, Role};
use std::alloc::Global;
use std::marker::Model;

/// The elements of a policy.
#[derive(Debug, Drop)]
pub struct Elements {
    pub processor: Processor,
    pub memory_blocks: Seq<Block>,
    pub devices: Seq<Device>,
    pub memory: Seq<Region>,
    pub channels: Seq<Channel>,
    pub components: Seq<Component>,
    pub events: Seq<Event>,
    pub subjects: Seq<Subject>,
    pub scheduling: Scheduling,
    /// The domains of devices, by names.
    pub device_domains: Seq<Domain>,
}

/// A policy whose references are resolved: names are unique for each kind, and each reference names
/// a declared thing. What its subjects see is kept with it.
#[derive(Debug, Drop)]
pub struct Resolved {
    elements: Elements,
    // For each subject, in order.
    seen: Seq<Seen>,
    things: Seq<Thing>,
    // How many of the things are placed: the first ones.
    placed: usize,
}

impl Model for Resolved {
    ghost use Rattle.std.specs.Prelude.{◌≡◌, map};
    ghost use Rattle.policy_lawful.specs.Resolution.{Resolution, IsResolved};
    ghost use Rattle.policy_lawful.specs.Things.{AreThings};
    ghost use Rattle.policy_lawful.specs.Views.{seen_by};

    ghost Value = { Resolution };

    ghost view = { λ r. r.elements };

    ghost invariant = { λ r. IsResolved r.elements × (r.seen ≡ map (seen_by r.elements) r.elements.subjects) × AreThings r.elements r.placed r.things };
}

impl Resolved {
    /// The policy of these elements, of which each subject sees this, in order.
    ///
    /// Answers `NoMemory` where memory was refused.
    pub fn make(alloc: Global, elements: Elements, seen: Seq<Seen>) -> Result<Resolved, NoMemory>
        requires resolved { IsResolved elements }
        requires seen { seen ≡ map (seen_by elements) elements.subjects }
        ensures { IfOk result (λ resolved. resolved ≡ elements) }
    {
        let mut things = placed_things(alloc, &elements)?;
        let placed = things.len();
        let memory = device_things(alloc, &elements)?;
        things.extend_from_slice(&memory)?;
        Ok(Resolved {
            elements,
            seen,
            things: Seq::of(things),
            placed,
        })
    }
}

/// A subject.
#[derive(Debug, Drop)]
pub struct Subject {
    pub name: Name,
    pub cpu: u64,
    /// The guest address of its first instruction.
    pub entry: u64,
    pub component: Option<ComponentUse>,
    pub memory: Seq<Mapping>,
    pub channels: Seq<ChannelUse>,
    pub devices: Seq<DeviceUse>,
    pub msrs: Seq<Msrs>,
    pub sources: Seq<EventSource>,
    pub targets: Seq<EventTarget>,
    pub monitors: Seq<Monitor>,
}

/// The component of a subject.
#[derive(Debug, Drop)]
pub struct ComponentUse {
    /// The component's index.
    pub used: usize,
    pub map: Seq<MapEntry>,
}

/// A logical name of a component that wants something.
#[derive(Clone, Copy, Debug)]
pub enum Wanted {
    /// The index among the regions that the component asks for.
    Memory(usize),
    /// The index among its channels.
    Channel(usize),
}

/// What a component's logical name stands for.
#[derive(Debug, Drop)]
pub struct MapEntry {
    pub logical: Wanted,
    /// The index of a region or a channel, as the logical name wants.
    pub physical: usize,
    pub rights: Option<Rights>,
}

/// A window of a subject on a region of memory.
#[derive(Debug, Drop)]
pub struct Mapping {
    /// The region's index.
    pub region: usize,
    /// The guest address of its first byte.
    pub virtual_address: u64,
    pub rights: Rights,
}

/// A subject's end of a channel.
#[derive(Debug, Drop)]
pub struct ChannelUse {
    /// The channel's index.
    pub channel: usize,
    pub role: Role,
    pub virtual_address: u64,
    pub call: Option<u64>,
    pub vector: Option<u64>,
}

/// What a subject is granted of a device.
#[derive(Debug, Drop)]
pub struct DeviceUse {
    /// The device's index.
    pub device: usize,
    pub memory: Seq<DeviceMapping>,
    /// Indexes among the device's ports.
    pub io_ports: Seq<usize>,
    pub irqs: Seq<IrqUse>,
}

/// A window of a subject on a device's memory.
#[derive(Debug, Drop)]
pub struct DeviceMapping {
    /// The index among the device's memory.
    pub memory: usize,
    pub virtual_address: u64,
    pub rights: Rights,
}

/// An interrupt line that is granted to a subject.
#[derive(Debug, Drop)]
pub struct IrqUse {
    /// The index among the device's interrupt lines.
    pub irq: usize,
    pub vector: u64,
}

/// How a subject raises an event.
#[derive(Debug, Drop)]
pub struct EventSource {
    /// The event's index.
    pub event: usize,
    pub way: SourceWay,
}

/// An event that reaches a subject.
#[derive(Debug, Drop)]
pub struct EventTarget {
    /// The event's index.
    pub event: usize,
    pub vector: Option<u64>,
}

/// A window of a subject on the state of another, which it monitors.
#[derive(Debug, Drop)]
pub struct Monitor {
    /// The index of the monitored subject.
    pub subject: usize,
    /// The guest address of the window's first byte.
    pub virtual_address: u64,
    pub rights: Rights,
}

/// The scheduling plan.
#[derive(Debug, Drop)]
pub struct Scheduling {
    pub groups: Seq<Group>,
    pub major_frames: Seq<MajorFrame>,
    /// Who chooses the next major frame, if anyone does; by names.
    pub tau0: Option<Tau0>,
}

/// A scheduling group.
#[derive(Debug, Drop)]
pub struct Group {
    pub name: Name,
    pub cpu: u64,
    /// The indexes of its members; the first is active at the start.
    pub subjects: Seq<usize>,
}

impl Group {
    ghost use Rattle.std.specs.Prelude.{◌==◌};
    ghost use Rattle.std.specs.List.{list_any};

    /// Whether the subject at an index is a member.
    pub fn has_member(&self, index: usize) -> bool
        ensures { result ≡ list_any (λ n. n == index) self.now.subjects }
    {
        self.subjects.items().iter().any(|n| *n == index)
    }
}

impl Scheduling {
    ghost use Rattle.std.specs.Prelude.{◌==◌, position};
    ghost use Rattle.std.specs.List.{list_any};

    /// The number of the first group that has the subject at an index.
    pub fn group_with(&self, index: usize) -> Option<usize>
        ensures { result ≡ position (λ g. list_any (λ n. n == index) g.subjects) self.now.groups }
    {
        let groups = self.groups.items();
        groups.iter().position(|group| group.has_member(index))
    }
}

/// A major frame.
#[derive(Debug, Drop)]
pub struct MajorFrame {
    pub cpus: Seq<CpuFrames>,
}

/// The minor frames of a CPU in a major frame.
#[derive(Debug, Drop)]
pub struct CpuFrames {
    pub cpu: u64,
    pub minor_frames: Seq<MinorFrame>,
}

impl CpuFrames {
    ghost use Rattle.policy_lawful.specs.ByIndex.{ticks_in};

    /// All ticks of its minor frames, below 2^64 for each.
    pub fn ticks(&self) -> u128
        ensures { result ≡ ticks_in self.now }
    {
        let frames = self.minor_frames.items();
        frames.iter().map(|frame| u128::from(frame.ticks)).sum()
    }
}

/// A minor frame.
#[derive(Debug, Drop)]
pub struct MinorFrame {
    /// The group's index.
    pub group: usize,
    pub ticks: u64,
}

impl Resolved {
    ghost use Rattle.std.specs.Prelude.{option_map};
    ghost use Rattle.policy_lawful.specs.ByIndex.{provided_at};
    ghost use Rattle.policy_lawful.specs.Resolution.{IsResolved, source_of};
    ghost use Rattle.policy_lawful.specs.Thing.{device_items, items_of, placed_items};
    ghost use Rattle.policy_lawful.specs.Things.{AreDeclared, content_found, device_things, placed_things, things_by_number};
    ghost use Rattle.policy_lawful.specs.Views.{channel_ends_at, views_at};

    /// The processor.
    pub fn processor(&self) -> &Processor
        ensures { result.now ≡ self.now.processor }
    {
        &self.elements.processor
    }

    /// The blocks of physical memory.
    pub fn memory_blocks(&self) -> &[Block]
        ensures { result.now ≡ self.now.memory_blocks }
    {
        self.elements.memory_blocks.items()
    }

    /// The devices.
    pub fn devices(&self) -> &[Device]
        ensures value { result.now ≡ self.now.devices }
        ensures resolved { IsResolved self.now }
    {
        self.elements.devices.items()
    }

    /// The regions of memory.
    pub fn memory(&self) -> &[Region]
        ensures value { result.now ≡ self.now.memory }
        ensures resolved { IsResolved self.now }
    {
        self.elements.memory.items()
    }

    /// The channels.
    pub fn channels(&self) -> &[Channel]
        ensures { result.now ≡ self.now.channels }
    {
        self.elements.channels.items()
    }

    /// The components.
    pub fn components(&self) -> &[Component]
        ensures { result.now ≡ self.now.components }
    {
        self.elements.components.items()
    }

    /// The events.
    pub fn events(&self) -> &[Event]
        ensures { result.now ≡ self.now.events }
    {
        self.elements.events.items()
    }

    /// The subjects.
    pub fn subjects(&self) -> &[Subject]
        ensures value { result.now ≡ self.now.subjects }
        ensures resolved { IsResolved self.now }
    {
        self.elements.subjects.items()
    }

    /// The scheduling plan.
    pub fn scheduling(&self) -> &Scheduling
        ensures value { result.now ≡ self.now.scheduling }
        ensures resolved { IsResolved self.now }
    {
        &self.elements.scheduling
    }

    /// The domains of devices, by names.
    pub fn device_domains(&self) -> &[Domain]
        ensures { result.now ≡ self.now.device_domains }
    {
        self.elements.device_domains.items()
    }

    /// The things, by number: those that are placed, and then the devices' memory.
    #[tactic(auto, using(crate::proofs::ThingsByIndex::things_by_index))]
    pub fn things(&self) -> &[Thing]
        ensures value { result.now ≡ things_by_number self.now }
        ensures declared { AreDeclared self.now (items_of (source_of self.now)) result.now }
    {
        self.things.items()
    }

    /// The things that are placed, by number: memory, channels, what each subject's component brings
    /// along.
    #[tactic(auto, using(crate::proofs::ThingLists::first_things, crate::proofs::ThingLists::placed_within, crate::proofs::ThingsByIndex::placed_by_index))]
    pub fn placed_things(&self) -> &[Thing]
        ensures value { result.now ≡ placed_things self.now }
        ensures declared { AreDeclared self.now (placed_items (source_of self.now)) result.now }
    {
        &self.things.items()[..self.placed]
    }

    /// The devices' memory, in order.
    #[tactic(auto, using(crate::proofs::ThingLists::last_things, crate::proofs::ThingLists::placed_within, crate::proofs::ThingLists::last_declared))]
    pub fn device_things(&self) -> &[Thing]
        ensures value { result.now ≡ device_things self.now }
        ensures declared { AreDeclared self.now (device_items (source_of self.now)) result.now }
    {
        &self.things.items()[self.placed..]
    }

    /// The content that an index tells, if it tells one.
    pub fn content(&self, index: ContentIndex) -> Option<&Content>
        ensures { option_map (λ content. content.now) result ≡ content_found self.now index }
    {
        match index {
            ContentIndex::Zeros => None,
            ContentIndex::Memory(index) => match self.elements.memory.items().get(index) {
                None => None,
                Some(region) => Some(&region.content),
            },
            ContentIndex::Provided(component, index) => {
                match self.elements.components.items().get(component) {
                    None => None,
                    Some(component) => match component.provides.items().get(index) {
                        None => None,
                        Some(provided) => Some(&provided.content),
                    },
                }
            }
        }
    }

    /// The windows of the subject at an index: its mappings, its channels, its devices' memory, those
    /// of its component, the state pages that it monitors. None, where no subject is there.
    pub fn views(&self, index: usize) -> &[View]
        ensures { result.now ≡ views_at self.now index }
    {
        match self.seen.items().get(index) {
            None => &[],
            Some(seen) => seen.views.items(),
        }
    }

    /// The ends of channels of the subject at an index, its own and then those of its component.
    /// None, where no subject is there.
    pub fn channel_ends(&self, index: usize) -> &[IndexedEnd]
        ensures { result.now ≡ channel_ends_at self.now index }
    {
        match self.seen.items().get(index) {
            None => &[],
            Some(seen) => seen.channel_ends.items(),
        }
    }

    /// The regions that the component of a subject brings along.
    pub fn provided_by(&self, subject: &Subject) -> &[Provided]
        ensures { result.now ≡ provided_at self.now.components subject.now.component }
    {
        match &subject.component {
            None => &[],
            Some(used) => match self.elements.components.items().get(used.used) {
                None => &[],
                Some(component) => component.provides.items(),
            },
        }
    }
}
