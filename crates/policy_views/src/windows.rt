//! The windows of a subject, in order.
ghost use Rattle.std.specs.Prelude.{◌≡◌, map, IfOk};
ghost use Rattle.std.specs.List.{filter_map, flat_map, enumerate_from};
ghost use Rattle.policy_lawful.specs.Windows.{role_rights};
ghost use Rattle.std.specs.BTreeMap.{IsOrdered};
ghost use Rattle.std.specs.Ordering.{nat_cmp};
ghost use Rattle.policy_lawful.specs.ByIndex.{provided_at};
ghost use Rattle.policy_views.specs.Entries.{chosen_channel, chosen_region};
ghost use Rattle.policy_views.specs.Parts.{behind_views, component_asks, front_views, use_asks};
ghost use Rattle.policy_lawful.specs.Views.{channel_view, component_channel_view, device_view, monitor_view, provided_view, region_view, required_view, views_of};

use crate::entries::{Choice, Choices, Wants, choices};
use muen_num::NoMemory;
use muen_num::limits::PAGE;
use policy_lawful::resolved::{
    ChannelUse, ComponentUse, DeviceMapping, DeviceUse, MapEntry, Mapping, Monitor, Subject,
};
use policy_lawful::source::{Component, ComponentChannel, Provided, Required};
use policy_lawful::{Elements, Rights, Role, Shown, View};
use std::alloc::{AllocError, Global};

// A writer may read and write its channel, a reader may read it.
fn role_rights(role: Role) -> Rights
    ensures { result ≡ role_rights role }
{
    match role {
        Role::Writer => Rights::Rw,
        Role::Reader => Rights::R,
    }
}

fn region_view(policy: &Elements, index: usize, guest: u64, rights: Rights) -> Option<View>
    ensures { result ≡ region_view policy.now index guest rights }
{
    let region = policy.memory.items().get(index)?;
    Some(View {
        name: region.name,
        guest,
        size: region.size,
        rights,
        shows: Shown::Memory(index),
    })
}

fn channel_view(policy: &Elements, index: usize, guest: u64, role: Role) -> Option<View>
    ensures { result ≡ channel_view policy.now index guest role }
{
    let channel = policy.channels.items().get(index)?;
    Some(View {
        name: channel.name,
        guest,
        size: channel.size,
        rights: role_rights(role),
        shows: Shown::Channel(index),
    })
}

// Of memory of the device at an index.
fn device_view(policy: &Elements, device: usize, mapping: &DeviceMapping) -> Option<View>
    ensures { result ≡ device_view policy.now device mapping.now }
{
    let memory = policy
        .devices
        .items()
        .get(device)?
        .memory
        .items()
        .get(mapping.memory)?;
    Some(View {
        name: memory.name,
        guest: mapping.virtual_address,
        size: memory.size,
        rights: mapping.rights,
        shows: Shown::Device(device, mapping.memory),
    })
}

// Of the state page of the subject that is monitored.
fn monitor_view(policy: &Elements, monitor: &Monitor) -> Option<View>
    ensures { result ≡ monitor_view policy.now monitor.now }
{
    let subject = policy.subjects.items().get(monitor.subject)?;
    Some(View {
        name: subject.name,
        guest: monitor.virtual_address,
        size: PAGE,
        rights: monitor.rights,
        shows: Shown::State(monitor.subject),
    })
}

fn provided_view(index: usize, provided: &Provided) -> View
    ensures { result ≡ provided_view (index, provided.now) }
{
    View {
        name: provided.logical,
        guest: provided.virtual_address,
        size: provided.size,
        rights: provided.rights,
        shows: Shown::Provided(index),
    }
}

// On the region that is chosen for the required memory at an index of these.
fn chosen_region(
    policy: &Elements,
    memory: &[Required],
    index: usize,
    choice: &Choice,
) -> Option<View>
    ensures { result ≡ chosen_region policy.now memory.now (index, choice.now) }
{
    let required = memory.get(index)?;
    region_view(
        policy,
        choice.physical,
        required.virtual_address,
        choice.rights.unwrap_or(required.rights),
    )
}

// On the channel that is chosen for the channel at an index of these.
fn chosen_channel(
    policy: &Elements,
    channels: &[ComponentChannel],
    index: usize,
    choice: &Choice,
) -> Option<View>
    ensures { result ≡ chosen_channel policy.now channels.now (index, choice.now) }
{
    let channel = channels.get(index)?;
    channel_view(
        policy,
        choice.physical,
        channel.virtual_address,
        channel.role,
    )
}

fn of_mappings(
    alloc: Global,
    policy: &Elements,
    mappings: &[Mapping],
) -> Result<Vec<View>, AllocError>
    ensures { IfOk result (λ v. v.items ≡ filter_map (λ m. region_view policy.now m.region m.virtual_address m.rights) mappings.now) }
{
    mappings
        .iter()
        .filter_map(|m| region_view(policy, m.region, m.virtual_address, m.rights))
        .collect(alloc)
}

fn of_channels(
    alloc: Global,
    policy: &Elements,
    channels: &[ChannelUse],
) -> Result<Vec<View>, AllocError>
    ensures { IfOk result (λ v. v.items ≡ filter_map (λ c. channel_view policy.now c.channel c.virtual_address c.role) channels.now) }
{
    channels
        .iter()
        .filter_map(|c| channel_view(policy, c.channel, c.virtual_address, c.role))
        .collect(alloc)
}

fn of_device(alloc: Global, policy: &Elements, device: &DeviceUse) -> Result<Vec<View>, AllocError>
    ensures { IfOk result (λ v. v.items ≡ filter_map (device_view policy.now device.now.device) device.now.memory) }
{
    let mappings = device.memory.items();
    mappings
        .iter()
        .filter_map(|mapping| device_view(policy, device.device, mapping))
        .collect(alloc)
}

fn of_devices(
    alloc: Global,
    policy: &Elements,
    devices: &[DeviceUse],
) -> Result<Vec<View>, NoMemory>
    ensures { IfOk result (λ v. v.items ≡ flat_map (λ d. filter_map (device_view policy.now d.device) d.memory) devices.now) }
{
    let mut views = Vec::new(alloc);
    for device in devices {
        let part = of_device(alloc, policy, device)?;
        views.extend_from_slice(&part)?;
    }
    Ok(views)
}

fn of_provided(alloc: Global, provides: &[Provided]) -> Result<Vec<View>, AllocError>
    ensures { IfOk result (λ v. v.items ≡ map provided_view (enumerate_from 0 provides.now)) }
{
    provides
        .iter()
        .enumerate()
        .map(|(index, provided)| provided_view(index, provided))
        .collect(alloc)
}

fn chosen_regions(
    alloc: Global,
    policy: &Elements,
    choices: &Choices,
    memory: &[Required],
) -> Result<Vec<View>, NoMemory>
    ensures value { IfOk result (λ v. v.items ≡ filter_map (chosen_region policy.now memory.now) choices.now.entries) }
    ensures ordered { IsOrdered nat_cmp choices.now }
{
    let mut views = Vec::new(alloc);
    for (index, choice) in choices.iter() {
        if let Some(view) = chosen_region(policy, memory, *index, choice) {
            views.push(view)?;
        }
    }
    Ok(views)
}

#[tactic(auto, using(crate::proofs::EntriesNoted::regions_chosen))]
fn of_required(
    alloc: Global,
    policy: &Elements,
    entries: &[MapEntry],
    memory: &[Required],
) -> Result<Vec<View>, NoMemory>
    ensures { IfOk result (λ v. v.items ≡ filter_map (required_view policy.now entries.now) (enumerate_from 0 memory.now)) }
{
    let choices = choices(alloc, Wants::Memory, entries)?;
    let views = chosen_regions(alloc, policy, &choices, memory)?;
    Ok(views)
}

fn chosen_channels(
    alloc: Global,
    policy: &Elements,
    choices: &Choices,
    channels: &[ComponentChannel],
) -> Result<Vec<View>, NoMemory>
    ensures value { IfOk result (λ v. v.items ≡ filter_map (chosen_channel policy.now channels.now) choices.now.entries) }
    ensures ordered { IsOrdered nat_cmp choices.now }
{
    let mut views = Vec::new(alloc);
    for (index, choice) in choices.iter() {
        if let Some(view) = chosen_channel(policy, channels, *index, choice) {
            views.push(view)?;
        }
    }
    Ok(views)
}

#[tactic(auto, using(crate::proofs::EntriesNoted::channels_chosen))]
fn of_component_channels(
    alloc: Global,
    policy: &Elements,
    entries: &[MapEntry],
    channels: &[ComponentChannel],
) -> Result<Vec<View>, NoMemory>
    ensures { IfOk result (λ v. v.items ≡ filter_map (component_channel_view policy.now entries.now) (enumerate_from 0 channels.now)) }
{
    let choices = choices(alloc, Wants::Channel, entries)?;
    let views = chosen_channels(alloc, policy, &choices, channels)?;
    Ok(views)
}

// On what a component asks for: its memory, then its channels.
fn of_component(
    alloc: Global,
    policy: &Elements,
    entries: &[MapEntry],
    component: &Component,
) -> Result<Vec<View>, NoMemory>
    ensures { IfOk result (λ v. v.items ≡ component_asks policy.now entries.now component.now) }
{
    let mut views = of_required(alloc, policy, entries, component.memory.items())?;
    let channels = of_component_channels(alloc, policy, entries, component.channels.items())?;
    views.extend_from_slice(&channels)?;
    Ok(views)
}

fn of_use(
    alloc: Global,
    policy: &Elements,
    used: &Option<ComponentUse>,
) -> Result<Vec<View>, NoMemory>
    ensures { IfOk result (λ v. v.items ≡ use_asks policy.now used.now) }
{
    match used {
        None => Ok(Vec::new(alloc)),
        Some(used) => match policy.components.items().get(used.used) {
            None => Ok(Vec::new(alloc)),
            Some(component) => of_component(alloc, policy, used.map.items(), component),
        },
    }
}

// The regions that a subject's component brings along.
pub(crate) fn provided<'a>(policy: &'a Elements, used: &Option<ComponentUse>) -> &'a [Provided]
    ensures { result.now ≡ provided_at policy.now.components used.now }
{
    match used {
        None => &[],
        Some(used) => match policy.components.items().get(used.used) {
            None => &[],
            Some(component) => component.provides.items(),
        },
    }
}

fn of_monitors(
    alloc: Global,
    policy: &Elements,
    monitors: &[Monitor],
) -> Result<Vec<View>, AllocError>
    ensures { IfOk result (λ v. v.items ≡ filter_map (monitor_view policy.now) monitors.now) }
{
    monitors
        .iter()
        .filter_map(|monitor| monitor_view(policy, monitor))
        .collect(alloc)
}

/// The windows of a subject before those on what its component provides: its mappings, its channels,
/// its devices' memory.
///
/// Answers `NoMemory` where memory was refused.
pub(crate) fn front(
    alloc: Global,
    policy: &Elements,
    subject: &Subject,
) -> Result<Vec<View>, NoMemory>
    ensures { IfOk result (λ v. v.items ≡ front_views policy.now subject.now) }
{
    let mut views = of_mappings(alloc, policy, subject.memory.items())?;
    let channels = of_channels(alloc, policy, subject.channels.items())?;
    views.extend_from_slice(&channels)?;
    let devices = of_devices(alloc, policy, subject.devices.items())?;
    views.extend_from_slice(&devices)?;
    Ok(views)
}

/// Those behind them: on what its component asks for, and on the state pages that it monitors.
///
/// Answers `NoMemory` where memory was refused.
pub(crate) fn behind(
    alloc: Global,
    policy: &Elements,
    subject: &Subject,
) -> Result<Vec<View>, NoMemory>
    ensures { IfOk result (λ v. v.items ≡ behind_views policy.now subject.now) }
{
    let mut views = of_use(alloc, policy, &subject.component)?;
    let monitors = of_monitors(alloc, policy, subject.monitors.items())?;
    views.extend_from_slice(&monitors)?;
    Ok(views)
}

/// All windows of a subject: its mappings, its channels, its devices' memory, those of its
/// component, the state pages that it monitors.
///
/// Answers `NoMemory` where memory was refused.
#[tactic(auto, using(crate::proofs::ViewsInParts::in_parts))]
pub(crate) fn views(
    alloc: Global,
    policy: &Elements,
    subject: &Subject,
) -> Result<Vec<View>, NoMemory>
    ensures { IfOk result (λ v. v.items ≡ views_of policy.now subject.now) }
{
    let mut views = front(alloc, policy, subject)?;
    let given = of_provided(alloc, provided(policy, &subject.component))?;
    views.extend_from_slice(&given)?;
    let behind = behind(alloc, policy, subject)?;
    views.extend_from_slice(&behind)?;
    Ok(views)
}
