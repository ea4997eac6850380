//! The events that a subject raises.
ghost use Rattle.std.specs.Prelude.{◌≡◌, ◌++◌, true, slice_get, Some, IfOk};
ghost use Rattle.std.specs.List.{filter_map, list_all};
ghost use Rattle.expand_grants.specs.Raising.{all_readers, all_targets, call_entry, channel_end_entry, event_entries_of, entry, fits_channel_end, fits_channel_ends, fits_source, fits_sources, fits_way, source_entry, granted_way_of, writer_call};

use crate::append::push_some;
use crate::granted::{EventEntry, Way};
use crate::reached::{Reached, first_reached, small};
use muen_num::{EventMode, NoMemory, Seq};
use policy_lawful::resolved::{EventSource, Subject};
use policy_lawful::source::{Channel, Event, SourceWay};
use policy_lawful::{IndexedEnd, Resolved, Role};
use std::alloc::Global;

fn way_of(way: SourceWay) -> Way
    requires { fits_way way ≡ true }
    ensures { result ≡ granted_way_of way }
{
    match way {
        SourceWay::Call(number) => Way::Call(number as u8),
        SourceWay::Trap(reason) => Way::Trap(reason as u8),
    }
}

fn entry(way: Way, mode: EventMode, reached: Reached) -> EventEntry
    ensures { result ≡ entry way mode reached }
{
    EventEntry {
        way,
        mode,
        target: reached.subject,
        vector: reached.vector,
    }
}

// The event that a source raises.
fn source_entry(events: &[Event], targets: &[Reached], source: &EventSource) -> Option<EventEntry>
    requires { fits_source source.now ≡ true }
    ensures { result ≡ source_entry events.now targets.now source.now }
{
    let event = events.get(source.event)?;
    let reached = first_reached(targets, source.event)?;
    Some(entry(way_of(source.way), event.mode, reached))
}

// Appends the events that sources raise.
fn add_sources(
    entries: &mut Vec<EventEntry>,
    events: &[Event],
    targets: &[Reached],
    sources: &[EventSource],
) -> Result<(), NoMemory>
    requires { list_all fits_source sources.now ≡ true }
    ensures { IfOk result (λ _. entries.new.items ≡ entries.old.items ++ filter_map (source_entry events.now targets.now) sources.now) }
{
    for source in sources {
        push_some(entries, source_entry(events, targets, source))?;
    }
    Ok(())
}

// The event of the channel at an index, raised by a call.
fn call_entry(
    channels: &[Channel],
    readers: &[Reached],
    channel: usize,
    call: u8,
) -> Option<EventEntry>
    ensures { result ≡ call_entry channels.now readers.now channel call }
{
    let mode = channels.get(channel)?.has_event?;
    let reached = first_reached(readers, channel)?;
    Some(entry(Way::Call(call), mode, reached))
}

// The call of an end by which an event may be raised: a writer's.
fn writer_call(end: &IndexedEnd) -> Option<u8>
    requires { fits_channel_end end.now ≡ true }
    ensures { result ≡ writer_call end.now end.now.role }
{
    match end.role {
        Role::Writer => small(end.call),
        Role::Reader => None,
    }
}

// The event that an end of a channel raises.
fn channel_end_entry(
    channels: &[Channel],
    readers: &[Reached],
    end: &IndexedEnd,
) -> Option<EventEntry>
    requires { fits_channel_end end.now ≡ true }
    ensures { result ≡ channel_end_entry channels.now readers.now end.now }
{
    match writer_call(end) {
        None => None,
        Some(call) => call_entry(channels, readers, end.channel, call),
    }
}

// Appends the events that ends of channels raise.
fn add_channel_ends(
    entries: &mut Vec<EventEntry>,
    channels: &[Channel],
    readers: &[Reached],
    ends: &[IndexedEnd],
) -> Result<(), NoMemory>
    requires { list_all fits_channel_end ends.now ≡ true }
    ensures { IfOk result (λ _. entries.new.items ≡ entries.old.items ++ filter_map (channel_end_entry channels.now readers.now) ends.now) }
{
    for end in ends {
        push_some(entries, channel_end_entry(channels, readers, end))?;
    }
    Ok(())
}

/// The events that the subject at an index raises, by its sources and then by its ends of channels, where this is
/// reached by events and by channels.
///
/// Answers `NoMemory` where memory was refused.
pub(crate) fn entries_of(
    alloc: Global,
    policy: &Resolved,
    targets: &[Reached],
    readers: &[Reached],
    index: usize,
    subject: &Subject,
) -> Result<Seq<EventEntry>, NoMemory>
    requires at { slice_get policy.now.subjects index ≡ Some subject.now }
    requires sources { fits_sources subject.now ≡ true }
    requires ends { fits_channel_ends policy.now subject.now ≡ true }
    requires targets { targets.now ≡ all_targets policy.now.subjects }
    requires readers { readers.now ≡ all_readers policy.now }
    ensures { IfOk result (λ entries. entries ≡ event_entries_of policy.now subject.now) }
{
    let mut entries = Vec::new(alloc);
    add_sources(
        &mut entries,
        policy.events(),
        targets,
        subject.sources.items(),
    )?;
    add_channel_ends(
        &mut entries,
        policy.channels(),
        readers,
        policy.channel_ends(index),
    )?;
    Ok(Seq::of(entries))
}
