//! Rule 13: which subjects an event may join, by its mode.
ghost use Rattle.std.specs.Prelude.{◌≡◌, ◌==◌, ◌&&◌, ◌++◌, [], map, IfOk};
ghost use Rattle.std.specs.Option.{option_or};
ghost use Rattle.std.specs.List.{enumerate_from, list_all};
ghost use Rattle.muen_num.specs.Search.{first_in, unless};
ghost use Rattle.policy_lawful.specs.MoreRules.{offence_13};
ghost use Rattle.policy_lawful.specs.Resolution.{source_of};
ghost use Rattle.rules_events.specs.Directions.{parties_fit_mode, source_fault, mode_fault, channel_mode, channel_mode_fault, event_direction_fault, parties_of, channels_fault, events_fault};

use crate::listings::Listings;
use muen_num::{EventMode, Name, NoMemory, Seq, first_numbered};
use policy_lawful::Offence;
use policy_lawful::source::{Channel, Event};
use policy_views::Linked;
use rules_channels::by_index::at;
use rules_channels::channel_ends::{Met, readers_by_channel, writers_by_channel};
use rules_channels::parties::{Party, sources_by_event, targets_by_event};
use std::alloc::{AllocError, Global};

// Whether an event of this mode may join these subjects, of which the groups are noted.
fn fits_mode(groups: &Listings, mode: EventMode, source: &Party, target: &Party) -> bool
    ensures { result ≡ parties_fit_mode groups.now mode source.now target.now }
{
    match mode {
        EventMode::Own => source.name == target.name,
        EventMode::Switch => {
            source.name != target.name && groups.share(source.index, target.index)
        }
        _ => source.name != target.name,
    }
}

fn fits_all(groups: &Listings, mode: EventMode, source: &Party, targets: &[Party]) -> bool
    ensures { result ≡ list_all (parties_fit_mode groups.now mode source.now) targets.now }
{
    targets
        .iter()
        .all(|target| fits_mode(groups, mode, source, target))
}

// A source that the mode doesn't let raise the event at all its targets.
fn source_fault(
    groups: &Listings,
    mode: EventMode,
    name: &Name,
    source: &Party,
    targets: &[Party],
) -> Option<Offence>
    ensures { result ≡ source_fault groups.now mode name.now targets.now source.now }
{
    let offence = Offence {
        first: *name,
        second: source.name,
    };
    offence.unless(fits_all(groups, mode, source, targets))
}

// The first such source. Where each event has one target (rules 6 and 12), each source is looked at
// once.
fn mode_fault(
    groups: &Listings,
    mode: EventMode,
    name: &Name,
    sources: &[Party],
    targets: &[Party],
) -> Option<Offence>
    ensures { result ≡ first_in (source_fault groups.now mode name.now targets.now) sources.now }
{
    for source in sources {
        if let Some(offence) = source_fault(groups, mode, name, source, targets) {
            return Some(offence);
        }
    }
    None
}

fn channel_mode(
    groups: &Listings,
    channel: &Channel,
    writers: &[Party],
    readers: &[Party],
) -> Option<Offence>
    ensures { result ≡ channel_mode groups.now channel.now channel.now.has_event writers.now readers.now }
{
    mode_fault(groups, channel.has_event?, &channel.name, writers, readers)
}

fn first_channel(
    groups: &Listings,
    writers: &[Seq<Party>],
    readers: &[Seq<Party>],
    channels: &[Channel],
) -> Option<Offence>
    ensures { result ≡ first_in (channel_mode_fault groups.now writers.now readers.now) (enumerate_from 0 channels.now) }
{
    first_numbered(channels, |index, channel| {
        channel_mode(groups, channel, at(writers, index), at(readers, index))
    })
}

fn first_event(
    groups: &Listings,
    sources: &[Seq<Party>],
    targets: &[Seq<Party>],
    events: &[Event],
) -> Option<Offence>
    ensures { result ≡ first_in (event_direction_fault groups.now sources.now targets.now) (enumerate_from 0 events.now) }
{
    first_numbered(events, |index, event| {
        mode_fault(
            groups,
            event.mode,
            &event.name,
            at(sources, index),
            at(targets, index),
        )
    })
}

fn parties_of_channel_ends(alloc: Global, ends: &[Met]) -> Result<Vec<Party>, AllocError>
    ensures { IfOk result (λ v. v.items ≡ map (λ m. m.party) ends.now) }
{
    ends.iter().map(|end| end.party).collect(alloc)
}

// The parties of ends, list by list.
fn parties_of(alloc: Global, lists: &[Seq<Met>]) -> Result<Vec<Seq<Party>>, NoMemory>
    ensures { IfOk result (λ v. v.items ≡ parties_of lists.now) }
{
    let mut parties = Vec::new(alloc);
    for list in lists {
        let of_list = parties_of_channel_ends(alloc, list.items())?;
        parties.push(Seq::of(of_list))?;
    }
    Ok(parties)
}

// Each source of an event that switches, with each of its targets.
fn note_switches(
    pairs: &mut Vec<(usize, usize)>,
    mode: Option<EventMode>,
    sources: &[Party],
    targets: &[Party],
) -> Result<(), NoMemory> {
    if mode == Some(EventMode::Switch) {
        for source in sources {
            for target in targets {
                pairs.push((source.index, target.index))?;
            }
        }
    }
    Ok(())
}

// Finds out which groups list both ends of a channel whose event switches.
fn find_out_channels(
    alloc: Global,
    groups: &mut Listings,
    channels: &[Channel],
    writers: &[Seq<Party>],
    readers: &[Seq<Party>],
) -> Result<(), NoMemory>
    ensures { groups.new ≡ groups.old }
{
    let mut pairs = Vec::new(alloc);
    for (index, channel) in channels.iter().enumerate() {
        note_switches(
            &mut pairs,
            channel.has_event,
            at(writers, index),
            at(readers, index),
        )?;
    }
    groups.find_out(alloc, pairs)
}

// The same of events with their sources and targets.
fn find_out_events(
    alloc: Global,
    groups: &mut Listings,
    events: &[Event],
    sources: &[Seq<Party>],
    targets: &[Seq<Party>],
) -> Result<(), NoMemory>
    ensures { groups.new ≡ groups.old }
{
    let mut pairs = Vec::new(alloc);
    for (index, event) in events.iter().enumerate() {
        note_switches(
            &mut pairs,
            Some(event.mode),
            at(sources, index),
            at(targets, index),
        )?;
    }
    groups.find_out(alloc, pairs)
}

// The first channel whose mode doesn't fit its ends.
#[tactic(auto, using(crate::proofs::ModesByIndex::channels_noted))]
fn channel_modes(
    alloc: Global,
    groups: &mut Listings,
    policy: &Linked,
) -> Result<Option<Offence>, NoMemory>
    ensures value { IfOk result (λ o. o ≡ channels_fault policy.now groups.old) }
    ensures groups { groups.new ≡ groups.old }
{
    let writers = parties_of(alloc, &writers_by_channel(alloc, policy)?)?;
    let readers = parties_of(alloc, &readers_by_channel(alloc, policy)?)?;
    let channels = policy.channels();
    find_out_channels(alloc, groups, channels, &writers, &readers)?;
    Ok(first_channel(groups, &writers, &readers, channels))
}

// The first event whose mode doesn't fit its sources and targets.
#[tactic(auto, using(crate::proofs::ModesByIndex::events_noted))]
fn event_modes(
    alloc: Global,
    groups: &mut Listings,
    policy: &Linked,
) -> Result<Option<Offence>, NoMemory>
    ensures { IfOk result (λ o. o ≡ events_fault policy.now groups.old) }
{
    let events = policy.events();
    let sources = sources_by_event(alloc, policy.subjects(), events.len())?;
    let targets = targets_by_event(alloc, policy.subjects(), events.len())?;
    find_out_events(alloc, groups, events, &sources, &targets)?;
    Ok(first_event(groups, &sources, &targets, events))
}

// The first channel, else the first event, whose mode doesn't fit.
fn of_modes(
    alloc: Global,
    groups: &mut Listings,
    policy: &Linked,
) -> Result<Option<Offence>, NoMemory>
    ensures { IfOk result (λ o. o ≡ option_or (channels_fault policy.now groups.old) (events_fault policy.now groups.old)) }
{
    let offence = channel_modes(alloc, groups, policy)?;
    if offence.is_some() {
        return Ok(offence);
    }
    event_modes(alloc, groups, policy)
}

/// The first offence against rule 13, if any, of the channels' events and then of the events: a
/// source that is, or isn't, the target, as the mode asks, or that no scheduling group lists with a
/// target to which the mode switches.
///
/// Answers `NoMemory` where memory was refused.
#[tactic(auto, using(crate::proofs::ModesByIndex::modes_by_index))]
pub fn modes(alloc: Global, policy: &Linked) -> Result<Option<Offence>, NoMemory>
    ensures { IfOk result (λ o. o ≡ offence_13 (source_of policy.now)) }
{
    let listed = policy.scheduling().groups.items();
    let mut groups = Listings::of(alloc, listed, policy.subjects().len())?;
    of_modes(alloc, &mut groups, policy)
}
