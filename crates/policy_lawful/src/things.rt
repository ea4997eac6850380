//! The things of a policy in the order of their numbers: its memory, its channels, what each subject's
//! component brings along; then the memory of its devices.
ghost use Rattle.std.specs.Prelude.{◌≡◌, [], map, slice_get, IfOk};
ghost use Rattle.std.specs.Option.{option_map_or};
ghost use Rattle.std.specs.List.{enumerate_from, flat_map};
ghost use Rattle.policy_lawful.specs.Things.{brought_things, channel_thing, device_thing, device_things, device_things_of, own_thing, placed_things, provided_thing};

use crate::resolved::{ComponentUse, Elements, Subject};
use crate::thing::{ContentIndex, RegionKind, Thing};
use muen_num::limits::PAGE;
use muen_num::{Name, Tag, TagPart};
use policy_types::Caching;
use policy_types::source::{Channel, Component, Device, DeviceMemory, Provided, Region as Memory};
use std::alloc::{AllocError, Global};

fn own_thing(index: usize, memory: &Memory) -> Thing
    ensures { result ≡ own_thing (index, memory.now) }
{
    Thing {
        tag: Tag {
            owner: memory.name,
            part: TagPart::Whole,
        },
        kind: RegionKind::Own,
        size: memory.size,
        alignment: memory.alignment,
        fixed: memory.physical_address,
        caching: memory.caching,
        content: ContentIndex::Memory(index),
    }
}

fn channel_thing(channel: &Channel) -> Thing
    ensures { result ≡ channel_thing channel.now }
{
    Thing {
        tag: Tag {
            owner: channel.name,
            part: TagPart::Whole,
        },
        kind: RegionKind::Channel,
        size: channel.size,
        alignment: PAGE,
        fixed: None,
        caching: Caching::Wb,
        content: ContentIndex::Zeros,
    }
}

fn provided_thing(subject: Name, component: usize, index: usize, provided: &Provided) -> Thing
    ensures { result ≡ provided_thing subject component (index, provided.now) }
{
    Thing {
        tag: Tag {
            owner: subject,
            part: TagPart::Named(provided.logical),
        },
        kind: RegionKind::Provided,
        size: provided.size,
        alignment: PAGE,
        fixed: None,
        caching: Caching::Wb,
        content: ContentIndex::Provided(component, index),
    }
}

fn device_thing(device: Name, memory: &DeviceMemory) -> Thing
    ensures { result ≡ device_thing device memory.now }
{
    Thing {
        tag: Tag {
            owner: device,
            part: TagPart::Named(memory.name),
        },
        kind: RegionKind::Device,
        size: memory.size,
        alignment: PAGE,
        fixed: Some(memory.physical_address),
        caching: Caching::Uc,
        content: ContentIndex::Zeros,
    }
}

// The regions of memory, in order.
fn of_memory(alloc: Global, memory: &[Memory]) -> Result<Vec<Thing>, AllocError>
    ensures { IfOk result (λ v. v.items ≡ map own_thing (enumerate_from 0 memory.now)) }
{
    memory
        .iter()
        .enumerate()
        .map(|(index, region)| own_thing(index, region))
        .collect(alloc)
}

// The channels, in order.
fn of_channels(alloc: Global, channels: &[Channel]) -> Result<Vec<Thing>, AllocError>
    ensures { IfOk result (λ v. v.items ≡ map channel_thing channels.now) }
{
    channels
        .iter()
        .map(|channel| channel_thing(channel))
        .collect(alloc)
}

// What the component at an index provides, for the subject of this name.
fn of_provided(
    alloc: Global,
    subject: Name,
    component: usize,
    provides: &[Provided],
) -> Result<Vec<Thing>, AllocError>
    ensures { IfOk result (λ v. v.items ≡ map (provided_thing subject component) (enumerate_from 0 provides.now)) }
{
    provides
        .iter()
        .enumerate()
        .map(|(index, provided)| provided_thing(subject, component, index, provided))
        .collect(alloc)
}

// What the component at an index provides; nothing, where none is there.
fn provided_by(components: &[Component], index: usize) -> &[Provided]
    ensures { result.now ≡ option_map_or (λ c. c.provides) (slice_get components.now index) [] }
{
    match components.get(index) {
        None => &[],
        Some(component) => component.provides.items(),
    }
}

// What a subject's component brings along.
fn of_subject(
    alloc: Global,
    components: &[Component],
    subject: &Subject,
) -> Result<Vec<Thing>, AllocError>
    ensures { IfOk result (λ v. v.items ≡ brought_things components.now subject.now) }
{
    match &subject.component {
        None => Ok(Vec::new(alloc)),
        Some(used) => {
            let provides = provided_by(components, used.used);
            of_provided(alloc, subject.name, used.used, provides)
        }
    }
}

// What each subject's component brings along, in the order of the subjects.
fn of_subjects(
    alloc: Global,
    components: &[Component],
    subjects: &[Subject],
) -> Result<Vec<Thing>, AllocError>
    ensures { IfOk result (λ v. v.items ≡ flat_map (brought_things components.now) subjects.now) }
{
    let mut things = Vec::new(alloc);
    for subject in subjects {
        let brought = of_subject(alloc, components, subject)?;
        things.extend_from_slice(&brought)?;
    }
    Ok(things)
}

// A device's memory.
fn of_device(alloc: Global, device: &Device) -> Result<Vec<Thing>, AllocError>
    ensures { IfOk result (λ v. v.items ≡ device_things_of device.now) }
{
    let name = device.name;
    let memory = device.memory.items();
    memory
        .iter()
        .map(|memory| device_thing(name, memory))
        .collect(alloc)
}

/// The things that are placed, in the order of their numbers.
#[tactic(auto, unfolding(crate::specs::Things::placed_things))]
pub(crate) fn placed_things(alloc: Global, policy: &Elements) -> Result<Vec<Thing>, AllocError>
    ensures { IfOk result (λ v. v.items ≡ placed_things policy.now) }
{
    let subjects = policy.subjects.items();
    let mut things = of_memory(alloc, policy.memory.items())?;
    let channels = of_channels(alloc, policy.channels.items())?;
    things.extend_from_slice(&channels)?;
    let brought = of_subjects(alloc, policy.components.items(), subjects)?;
    things.extend_from_slice(&brought)?;
    Ok(things)
}

/// The devices' memory, in order.
#[tactic(auto, unfolding(crate::specs::Things::device_things))]
pub(crate) fn device_things(alloc: Global, policy: &Elements) -> Result<Vec<Thing>, AllocError>
    ensures { IfOk result (λ v. v.items ≡ device_things policy.now) }
{
    let mut things = Vec::new(alloc);
    for device in policy.devices.items() {
        let memory = of_device(alloc, device)?;
        things.extend_from_slice(&memory)?;
    }
    Ok(things)
}
