//! Rule 6: each channel has one writer and some readers, other subjects than the writer, whose calls
//! and vectors fit the mode of the channel's event.
ghost use Rattle.std.specs.Prelude.{◌≡◌, ◌==◌, ◌&&◌, ◌||◌, [], IfOk};
ghost use Rattle.std.specs.List.{enumerate_from, list_all};
ghost use Rattle.muen_num.specs.Search.{first_in, unless};
ghost use Rattle.policy_lawful.specs.MoreRules.{is_switch, offence_6};
ghost use Rattle.policy_lawful.specs.Resolution.{source_of};
ghost use Rattle.rules_channels.specs.Channels.{is_apart_from_readers, are_ends_apart, has_neither, has_call, is_reached, ends_fit_event, are_ends_connected, channel_fault};

use crate::by_index::at;
use crate::channel_ends::{Met, readers_by_channel, writers_by_channel};
use muen_num::{EventMode, NoMemory, Seq, first_numbered};
use policy_lawful::Offence;
use policy_lawful::source::Channel;
use policy_views::Linked;
use std::alloc::Global;

/// Whether an event of this mode switches: its target also becomes active.
pub fn is_switch(mode: EventMode) -> bool
    ensures { result ≡ is_switch mode }
{
    match mode {
        EventMode::Switch => true,
        _ => false,
    }
}

// Whether none of these readers is this writer's subject.
fn is_apart(readers: &[Met], writer: &Met) -> bool
    ensures { result ≡ is_apart_from_readers readers.now writer.now }
{
    readers
        .iter()
        .all(|reader| reader.party.name != writer.party.name)
}

fn are_apart(writers: &[Met], readers: &[Met]) -> bool
    ensures { result ≡ are_ends_apart writers.now readers.now }
{
    writers.iter().all(|writer| is_apart(readers, writer))
}

// Neither a call nor a vector.
fn has_neither(met: &Met) -> bool
    ensures { result ≡ has_neither met.now }
{
    met.end.call.is_none() && met.end.vector.is_none()
}

fn have_neither(ends: &[Met]) -> bool
    ensures { result ≡ list_all has_neither ends.now }
{
    ends.iter().all(has_neither)
}

// A writer that raises an event: a call and no vector.
fn has_call(met: &Met) -> bool
    ensures { result ≡ has_call met.now }
{
    met.end.call.is_some() && met.end.vector.is_none()
}

fn have_calls(ends: &[Met]) -> bool
    ensures { result ≡ list_all has_call ends.now }
{
    ends.iter().all(has_call)
}

// A reader that an event of this mode reaches: no call, and a vector unless the event switches.
fn is_reached(mode: EventMode, met: &Met) -> bool
    ensures { result ≡ is_reached mode met.now }
{
    met.end.call.is_none() && (met.end.vector.is_some() || is_switch(mode))
}

fn are_reached(mode: EventMode, ends: &[Met]) -> bool
    ensures { result ≡ list_all (is_reached mode) ends.now }
{
    ends.iter().all(|end| is_reached(mode, end))
}

// What the mode of a channel's event, or its absence, asks of the ends.
fn fits_event(writers: &[Met], readers: &[Met], mode: Option<EventMode>) -> bool
    ensures { result ≡ ends_fit_event writers.now readers.now mode }
{
    match mode {
        None => have_neither(writers) && have_neither(readers),
        Some(mode) => readers.len() == 1 && have_calls(writers) && are_reached(mode, readers),
    }
}

fn is_connected(writers: &[Met], readers: &[Met], mode: Option<EventMode>) -> bool
    ensures { result ≡ are_ends_connected writers.now readers.now mode }
{
    writers.len() == 1
        && !readers.is_empty()
        && are_apart(writers, readers)
        && fits_event(writers, readers, mode)
}

// The first channel whose ends don't fit.
fn first_fault(writers: &[Seq<Met>], readers: &[Seq<Met>], channels: &[Channel]) -> Option<Offence>
    ensures { result ≡ first_in (channel_fault writers.now readers.now) (enumerate_from 0 channels.now) }
{
    first_numbered(channels, |index, channel| {
        Offence::alone(channel.name).unless(is_connected(
            at(writers, index),
            at(readers, index),
            channel.has_event,
        ))
    })
}

/// The first offence against rule 6, if any: a channel that hasn't one writer and a reader, that its
/// writer reads, or with calls and vectors that don't fit the mode of its event.
///
/// Answers `NoMemory` where memory was refused.
#[tactic(auto, using(crate::proofs::ChannelsByIndex::connected_by_index))]
pub fn connected(alloc: Global, policy: &Linked) -> Result<Option<Offence>, NoMemory>
    ensures { IfOk result (λ o. o ≡ offence_6 (source_of policy.now)) }
{
    let writers = writers_by_channel(alloc, policy)?;
    let readers = readers_by_channel(alloc, policy)?;
    Ok(first_fault(&writers, &readers, policy.channels()))
}
