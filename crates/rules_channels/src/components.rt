//! Rule 7: each logical name of a subject's component has one entry, that gives what it asks for.
ghost use Rattle.std.specs.Prelude.{◌≡◌, ◌==◌, ◌&&◌, [], IfOk};
ghost use Rattle.std.specs.List.{enumerate_from, filter_map, list_all};
ghost use Rattle.muen_num.specs.Search.{first_in, unless};
ghost use Rattle.policy_lawful.specs.MoreRules.{are_within, offence_7};
ghost use Rattle.policy_lawful.specs.Resolution.{source_of};
ghost use Rattle.rules_channels.specs.Components.{memory_grant, channel_grant, gives_region, gives_channel, is_memory_given, is_channel_given, memory_fault, component_channel_fault, memory_offence, channel_offence, component_map_offence, component_use_offence, subject_offence};

use crate::by_index::{at, by_index};
use muen_num::{Name, NoMemory, Seq, first_numbered};
use policy_lawful::resolved::{ComponentUse, MapEntry, Subject, Wanted};
use policy_lawful::source::{Channel, Component, ComponentChannel, Region, Required};
use policy_lawful::{Offence, Rights};
use policy_views::Linked;
use std::alloc::{AllocError, Global};

/// What an entry gives to a logical name.
#[derive(Clone, Copy)]
struct Grant {
    /// The index of a region or a channel.
    physical: usize,
    rights: Option<Rights>,
}

// What an entry gives, where its logical name wants a region: with that name's index.
fn memory_grant(entry: &MapEntry) -> Option<(usize, Grant)>
    ensures { result ≡ memory_grant entry.now entry.now.logical }
{
    match entry.logical {
        Wanted::Memory(index) => Some((
            index,
            Grant {
                physical: entry.physical,
                rights: entry.rights,
            },
        )),
        Wanted::Channel(_) => None,
    }
}

// The same, where its logical name wants a channel.
fn channel_grant(entry: &MapEntry) -> Option<(usize, Grant)>
    ensures { result ≡ channel_grant entry.now entry.now.logical }
{
    match entry.logical {
        Wanted::Memory(_) => None,
        Wanted::Channel(index) => Some((
            index,
            Grant {
                physical: entry.physical,
                rights: entry.rights,
            },
        )),
    }
}

fn memory_grants(alloc: Global, entries: &[MapEntry]) -> Result<Vec<(usize, Grant)>, AllocError>
    ensures { IfOk result (λ v. v.items ≡ filter_map (λ e. memory_grant e e.logical) entries.now) }
{
    entries.iter().filter_map(memory_grant).collect(alloc)
}

fn channel_grants(alloc: Global, entries: &[MapEntry]) -> Result<Vec<(usize, Grant)>, AllocError>
    ensures { IfOk result (λ v. v.items ≡ filter_map (λ e. channel_grant e e.logical) entries.now) }
{
    entries.iter().filter_map(channel_grant).collect(alloc)
}

// No more rights than these.
fn are_within(most: Rights, rights: Option<Rights>) -> bool
    ensures { result ≡ are_within most rights }
{
    match rights {
        None => true,
        Some(rights) => most.includes(rights),
    }
}

// Whether a region of the size that is asked for is given, with no more rights.
fn gives_region(regions: &[Region], wanted: &Required, grant: &Grant) -> bool
    ensures { result ≡ gives_region regions.now wanted.now grant.now }
{
    match regions.get(grant.physical) {
        None => false,
        Some(region) => region.size == wanted.size && are_within(wanted.rights, grant.rights),
    }
}

// Whether a channel of the size that is asked for is given, with no word on rights.
fn gives_channel(channels: &[Channel], wanted: &ComponentChannel, grant: &Grant) -> bool
    ensures { result ≡ gives_channel channels.now wanted.now grant.now }
{
    match channels.get(grant.physical) {
        None => false,
        Some(channel) => channel.size == wanted.size && grant.rights.is_none(),
    }
}

fn give_region(regions: &[Region], wanted: &Required, grants: &[Grant]) -> bool
    ensures { result ≡ list_all (gives_region regions.now wanted.now) grants.now }
{
    grants
        .iter()
        .all(|grant| gives_region(regions, wanted, grant))
}

fn give_channel(channels: &[Channel], wanted: &ComponentChannel, grants: &[Grant]) -> bool
    ensures { result ≡ list_all (gives_channel channels.now wanted.now) grants.now }
{
    grants
        .iter()
        .all(|grant| gives_channel(channels, wanted, grant))
}

// Whether a required region is given by one entry, and as it is asked for.
fn is_memory_mapped(regions: &[Region], wanted: &Required, grants: &[Grant]) -> bool
    ensures { result ≡ is_memory_given regions.now wanted.now grants.now }
{
    grants.len() == 1 && give_region(regions, wanted, grants)
}

// Whether a channel is given by one entry, and as it is asked for.
fn is_channel_mapped(channels: &[Channel], wanted: &ComponentChannel, grants: &[Grant]) -> bool
    ensures { result ≡ is_channel_given channels.now wanted.now grants.now }
{
    grants.len() == 1 && give_channel(channels, wanted, grants)
}

// A required region that isn't given.
fn memory_fault(
    regions: &[Region],
    by: &Name,
    grants: &[Seq<Grant>],
    index: usize,
    wanted: &Required,
) -> Option<Offence>
    ensures { result ≡ memory_fault regions.now by.now grants.now (index, wanted.now) }
{
    let offence = Offence {
        first: *by,
        second: wanted.logical,
    };
    offence.unless(is_memory_mapped(regions, wanted, at(grants, index)))
}

// A channel that isn't given.
fn channel_fault(
    channels: &[Channel],
    by: &Name,
    grants: &[Seq<Grant>],
    index: usize,
    wanted: &ComponentChannel,
) -> Option<Offence>
    ensures { result ≡ component_channel_fault channels.now by.now grants.now (index, wanted.now) }
{
    let offence = Offence {
        first: *by,
        second: wanted.logical,
    };
    offence.unless(is_channel_mapped(channels, wanted, at(grants, index)))
}

fn first_memory(
    regions: &[Region],
    by: &Name,
    grants: &[Seq<Grant>],
    wanted: &[Required],
) -> Option<Offence>
    ensures { result ≡ first_in (memory_fault regions.now by.now grants.now) (enumerate_from 0 wanted.now) }
{
    first_numbered(
        wanted,
        |index, x| memory_fault(regions, by, grants, index, x),
    )
}

fn first_channel(
    channels: &[Channel],
    by: &Name,
    grants: &[Seq<Grant>],
    wanted: &[ComponentChannel],
) -> Option<Offence>
    ensures { result ≡ first_in (component_channel_fault channels.now by.now grants.now) (enumerate_from 0 wanted.now) }
{
    first_numbered(
        wanted,
        |index, x| channel_fault(channels, by, grants, index, x),
    )
}

// The first required region that the entries don't give.
#[tactic(auto, using(crate::proofs::ComponentsByIndex::memory_noted))]
fn memory_offence(
    alloc: Global,
    regions: &[Region],
    by: &Name,
    entries: &[MapEntry],
    wanted: &[Required],
) -> Result<Option<Offence>, NoMemory>
    ensures { IfOk result (λ o. o ≡ memory_offence regions.now by.now entries.now wanted.now) }
{
    let grants = memory_grants(alloc, entries)?;
    let grants = by_index(alloc, &grants, wanted.len())?;
    Ok(first_memory(regions, by, &grants, wanted))
}

// The first channel that the entries don't give.
#[tactic(auto, using(crate::proofs::ComponentsByIndex::channels_noted))]
fn channel_offence(
    alloc: Global,
    channels: &[Channel],
    by: &Name,
    entries: &[MapEntry],
    wanted: &[ComponentChannel],
) -> Result<Option<Offence>, NoMemory>
    ensures { IfOk result (λ o. o ≡ channel_offence channels.now by.now entries.now wanted.now) }
{
    let grants = channel_grants(alloc, entries)?;
    let grants = by_index(alloc, &grants, wanted.len())?;
    Ok(first_channel(channels, by, &grants, wanted))
}

// The first logical name of a component that these entries don't serve.
fn component_offence(
    alloc: Global,
    policy: &Linked,
    by: &Name,
    entries: &[MapEntry],
    component: &Component,
) -> Result<Option<Offence>, NoMemory>
    ensures { IfOk result (λ o. o ≡ component_map_offence policy.now by.now entries.now component.now) }
{
    let offence = memory_offence(
        alloc,
        policy.memory(),
        by,
        entries,
        component.memory.items(),
    )?;
    if offence.is_some() {
        return Ok(offence);
    }
    channel_offence(
        alloc,
        policy.channels(),
        by,
        entries,
        component.channels.items(),
    )
}

// The first logical name of a subject's component that has no fitting entry.
fn use_offence(
    alloc: Global,
    policy: &Linked,
    by: &Name,
    used: &Option<ComponentUse>,
) -> Result<Option<Offence>, NoMemory>
    ensures { IfOk result (λ o. o ≡ component_use_offence policy.now by.now used.now) }
{
    match used {
        None => Ok(None),
        Some(used) => match policy.components().get(used.used) {
            None => Ok(None),
            Some(component) => component_offence(alloc, policy, by, used.map.items(), component),
        },
    }
}

fn first_use(
    alloc: Global,
    policy: &Linked,
    subjects: &[Subject],
) -> Result<Option<Offence>, NoMemory>
    ensures { IfOk result (λ o. o ≡ first_in (subject_offence policy.now) subjects.now) }
{
    for subject in subjects {
        let offence = use_offence(alloc, policy, &subject.name, &subject.component)?;
        if offence.is_some() {
            return Ok(offence);
        }
    }
    Ok(None)
}

/// The first offence against rule 7, if any: a logical name of a subject's component that hasn't
/// exactly one entry, or whose entry gives another size than is asked for, more rights than a region
/// may have, or rights to a channel.
///
/// Answers `NoMemory` where memory was refused.
#[tactic(auto, using(crate::proofs::ComponentsByIndex::mapped_by_index))]
pub fn mapped(alloc: Global, policy: &Linked) -> Result<Option<Offence>, NoMemory>
    ensures { IfOk result (λ o. o ≡ offence_7 (source_of policy.now)) }
{
    first_use(alloc, policy, policy.subjects())
}
