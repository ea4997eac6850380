// Rule 20: the limits.
ghost use Rattle.std.specs.Prelude.{◌≡◌, ◌+◌, ◌≤◌, ◌^◌, length, IfOk, is_some};
ghost use Rattle.std.specs.List.{count_by, list_all, sum_by, enumerate_from};
ghost use Rattle.muen_num.specs.Search.{first_in};
ghost use Rattle.policy_lawful.specs.Resolution.{source_of};
ghost use Rattle.policy_lawful.specs.Rules.{device_limit, offence_20};
ghost use Rattle.policy_lawful.specs.ByIndex.{is_short};
ghost use Rattle.policy_rules.specs.Limits.{blocks_limit, declared_limit, device_memory_limit, devices_limit, resolved_major_limit, majors_limit, msr_count_in, name_limit, names_limit, regions_limit, regions_of_subject, subject_limit_at, subject_limit_with, subjects_limit};

use crate::keys::Key;
use muen_num::limits::{
    KERNEL_REGIONS, MOST_BLOCK_BYTES, MOST_BLOCKS, MOST_CHANNELS, MOST_COMPONENTS,
    MOST_DEVICE_BYTES, MOST_DEVICE_WINDOWS, MOST_DEVICES, MOST_EVENTS, MOST_LOGICAL_NAMES,
    MOST_MAJOR_FRAMES, MOST_MINOR_FRAMES, MOST_MSRS, MOST_PER_DEVICE, MOST_REGIONS, MOST_SUBJECTS,
    MOST_TICKS, MOST_WINDOWS,
};
use muen_num::{NoMemory, first, first_numbered};
use policy_lawful::frame_names::major_name;
use policy_lawful::resolved::{CpuFrames, MajorFrame, Subject};
use policy_lawful::source::{Block, Channel, Component, Device, Event, Msrs, Provided};
use policy_lawful::{Extent, Offence, View};
use policy_views::Linked;
use rules_extents::device_extents;
use std::alloc::Global;

// ---- what is declared before the subjects

// The bytes of these blocks.
fn block_bytes(blocks: &[Block]) -> u128
    ensures { result ≡ sum_by (λ b. b.size) blocks.now }
{
    blocks.iter().map(|block| u128::from(block.size)).sum()
}

// The limits on blocks.
fn of_blocks(blocks: &[Block]) -> Option<Offence>
    ensures { result ≡ blocks_limit blocks.now }
{
    Key::MemoryBlocks
        .unless(blocks.len() <= MOST_BLOCKS)
        .or_else(|| Key::MemoryBlocks.unless(block_bytes(blocks) <= u128::from(MOST_BLOCK_BYTES)))
}

// The first device with too much.
fn each_device(devices: &[Device]) -> Option<Offence>
    ensures { result ≡ first_in device_limit devices.now }
{
    first(devices, |device| {
        Offence::alone(device.name).unless(
            device.memory.len() <= MOST_PER_DEVICE
                && device.io_ports.len() <= MOST_PER_DEVICE
                && device.irqs.len() <= MOST_PER_DEVICE,
        )
    })
}

// The limits on devices, and on each.
fn of_devices(devices: &[Device]) -> Option<Offence>
    ensures { result ≡ devices_limit devices.now }
{
    Key::Devices
        .unless(devices.len() <= MOST_DEVICES)
        .or_else(|| each_device(devices))
}

// The bytes of these ranges.
fn bytes(extents: &[Extent]) -> u128
    ensures { result ≡ sum_by (λ e. e.size) extents.now }
{
    extents.iter().map(|extent| u128::from(extent.size)).sum()
}

// The limits on these ranges, which are the memory of all devices.
fn of_ranges(extents: &[Extent]) -> Option<Offence>
    ensures { result ≡ device_memory_limit (length extents.now) (sum_by (λ e. e.size) extents.now) }
{
    Key::Devices
        .unless(extents.len() <= MOST_DEVICE_WINDOWS)
        .or_else(|| Key::Devices.unless(bytes(extents) <= u128::from(MOST_DEVICE_BYTES)))
}

// The limits on the memory of all devices.
#[tactic(auto, using(crate::proofs::LimitsByIndex::memory_counted))]
fn of_device_memory(alloc: Global, devices: &[Device]) -> Result<Option<Offence>, NoMemory>
    ensures { IfOk result (λ o. o ≡ device_memory_limit (sum_by (λ d. length d.memory) devices.now) (sum_by (λ d. sum_by (λ m. m.size) d.memory) devices.now)) }
{
    let extents = device_extents(alloc, devices)?;
    Ok(of_ranges(&extents))
}

// The first component with too many logical names.
fn each_component(components: &[Component]) -> Option<Offence>
    ensures { result ≡ first_in name_limit components.now }
{
    first(components, |component| {
        let names = component.provides.len() as u128
            + component.memory.len() as u128
            + component.channels.len() as u128;
        Offence::alone(component.name).unless(names <= MOST_LOGICAL_NAMES as u128)
    })
}

// How many channels have an event.
#[tactic(auto, using(crate::proofs::LimitsByIndex::kept_counted))]
fn with_events(channels: &[Channel]) -> usize
    ensures { result ≡ count_by (λ c. is_some c.has_event) channels.now }
{
    channels
        .iter()
        .filter(|channel| channel.has_event.is_some())
        .count()
}

// The limits on channels, components and events.
fn of_names(channels: &[Channel], components: &[Component], events: &[Event]) -> Option<Offence>
    ensures { result ≡ names_limit channels.now components.now events.now }
{
    let all_events = events.len() as u128 + with_events(channels) as u128;
    Key::Channels
        .unless(channels.len() <= MOST_CHANNELS)
        .or_else(|| Key::Components.unless(components.len() <= MOST_COMPONENTS))
        .or_else(|| each_component(components))
        .or_else(|| Key::Events.unless(all_events <= MOST_EVENTS as u128))
}

// The limits on what is declared before the subjects.
fn of_declared(alloc: Global, policy: &Linked) -> Result<Option<Offence>, NoMemory>
    ensures { IfOk result (λ o. o ≡ declared_limit policy.now) }
{
    let devices = policy.devices();
    if let Some(offence) = of_blocks(policy.memory_blocks()).or_else(|| of_devices(devices)) {
        return Ok(Some(offence));
    }
    if let Some(offence) = of_device_memory(alloc, devices)? {
        return Ok(Some(offence));
    }
    Ok(of_names(policy.channels(), policy.components(), policy.events()))
}

// ---- subjects

fn msrs_in(range: &Msrs) -> u128
    ensures value { result ≡ msr_count_in range.now }
    ensures room { result ≤ 2 ^ 64 }
{
    (u128::from(range.end) + 1).saturating_sub(u128::from(range.start))
}

// All MSRs of these ranges.
fn msrs(ranges: &[Msrs]) -> u128
    ensures { result ≡ sum_by msr_count_in ranges.now }
{
    let mut total = 0;
    for range in ranges {
        total += msrs_in(range);
    }
    total
}

// The limits on a subject with windows in front of those that its component provides, and behind them.
fn of_subject(
    subject: &Subject,
    front: &[View],
    provided: &[Provided],
    behind: &[View],
) -> Option<Offence>
    ensures { result ≡ subject_limit_with (length front.now + length provided.now + length behind.now) subject.now }
{
    let windows = front.len() as u128 + provided.len() as u128 + behind.len() as u128;
    let msrs = msrs(subject.msrs.items());
    Offence::alone(subject.name).unless(
        windows <= MOST_WINDOWS as u128 && msrs <= MOST_MSRS as u128,
    )
}

fn each_subject(policy: &Linked) -> Option<Offence>
    ensures { result ≡ first_in (subject_limit_at policy.now) policy.now.subjects }
{
    first_numbered(policy.subjects(), |index, subject| {
        of_subject(
            subject,
            policy.front(index),
            policy.provided_by(subject),
            policy.behind(index),
        )
    })
}

// The limits on subjects, and on each.
fn of_subjects(policy: &Linked) -> Option<Offence>
    ensures { result ≡ subjects_limit policy.now }
{
    let subjects = policy.subjects().len();
    Key::Subjects
        .unless(1 <= subjects && subjects <= MOST_SUBJECTS)
        .or_else(|| each_subject(policy))
}

// ---- regions

fn regions_of(policy: &Linked, subject: &Subject) -> u128
    ensures value { result ≡ regions_of_subject policy.now subject.now }
    ensures room { result ≤ 2 ^ 65 }
{
    policy.provided_by(subject).len() as u128 + KERNEL_REGIONS as u128
}

fn regions_of_subjects(policy: &Linked, subjects: &[Subject]) -> u128
    ensures value { result ≡ sum_by (regions_of_subject policy.now) subjects.now }
    ensures room { result ≤ 2 ^ 127 }
{
    let mut total = 0;
    for subject in subjects {
        total += regions_of(policy, subject);
    }
    total
}

// The limit on all regions.
fn of_regions(policy: &Linked) -> Option<Offence>
    ensures { result ≡ regions_limit policy.now }
{
    let declared = policy.memory().len() as u128 + policy.channels().len() as u128;
    let all = declared + regions_of_subjects(policy, policy.subjects());
    Key::Memory.unless(all <= MOST_REGIONS as u128)
}

// ---- major frames

// Whether each entry is short enough.
fn are_short(entries: &[CpuFrames]) -> bool
    ensures { result ≡ list_all is_short entries.now }
{
    entries.iter().all(|entry| {
        entry.ticks() <= u128::from(MOST_TICKS) && entry.minor_frames.len() <= MOST_MINOR_FRAMES
    })
}

// The first major frame that is too long.
fn frames(majors: &[MajorFrame]) -> Option<Offence>
    ensures { result ≡ first_in resolved_major_limit (enumerate_from 0 majors.now) }
{
    first_numbered(majors, |index, major| {
        Offence::alone(major_name(index)).unless(are_short(major.cpus.items()))
    })
}

// The limits on major frames.
fn of_frames(majors: &[MajorFrame]) -> Option<Offence>
    ensures { result ≡ majors_limit majors.now }
{
    Key::MajorFrames
        .unless(1 <= majors.len() && majors.len() <= MOST_MAJOR_FRAMES)
        .or_else(|| frames(majors))
}

/// Rule 20: the limits, in their order.
///
/// Answers `NoMemory` where memory was refused.
#[tactic(auto, using(crate::proofs::LimitsByIndex::limits_by_index))]
pub fn limits(alloc: Global, policy: &Linked) -> Result<Option<Offence>, NoMemory>
    ensures { IfOk result (λ o. o ≡ offence_20 (source_of policy.now)) }
{
    let majors = policy.scheduling().major_frames.items();
    if let Some(offence) = of_declared(alloc, policy)? {
        return Ok(Some(offence));
    }
    Ok(
        of_subjects(policy)
            .or_else(|| of_regions(policy))
            .or_else(|| of_frames(majors)),
    )
}
