//! Rule 15: the vectors of a subject's targets, of its channels and of its devices' interrupts.
ghost use Rattle.std.specs.Prelude.{◌≡◌, ◌&&◌, ◌++◌, IfOk, map};
ghost use Rattle.std.specs.List.{filter_map, flat_map, list_all};
ghost use Rattle.muen_num.specs.Search.{first_in};
ghost use Rattle.policy_lawful.specs.MoreRules.{are_vectors, offence_15};
ghost use Rattle.policy_lawful.specs.Resolution.{IsResolved, source_of};
ghost use Rattle.rules_events.specs.Vectors.{target_has_vector, has_vectors_with, switches, vector_offence, vectors_with};

use crate::numbers::are_distinct_in;
use muen_num::NoMemory;
use muen_num::limits::{FIRST_VECTOR, LAST_VECTOR};
use policy_lawful::resolved::{DeviceUse, EventTarget, IrqUse, Subject};
use policy_lawful::source::Event;
use policy_lawful::{IndexedEnd, Offence};
use policy_views::Linked;
use rules_channels::is_switch;
use std::alloc::{AllocError, Global};

// Whether the event at an index switches.
fn switches(events: &[Event], index: usize) -> bool
    ensures { result ≡ switches events.now index }
{
    match events.get(index) {
        None => false,
        Some(event) => is_switch(event.mode),
    }
}

// Whether a target has a vector, or its event needs none.
fn has_vector(events: &[Event], target: &EventTarget) -> bool
    ensures { result ≡ target_has_vector events.now target.now }
{
    target.vector.is_some() || switches(events, target.event)
}

fn have_vectors(events: &[Event], targets: &[EventTarget]) -> bool
    ensures { result ≡ list_all (target_has_vector events.now) targets.now }
{
    targets.iter().all(|target| has_vector(events, target))
}

fn vectors_of_targets(alloc: Global, targets: &[EventTarget]) -> Result<Vec<u64>, AllocError>
    ensures { IfOk result (λ v. v.items ≡ filter_map (λ t. t.vector) targets.now) }
{
    targets.iter().filter_map(|t| t.vector).collect(alloc)
}

fn vectors_of_channel_ends(alloc: Global, ends: &[IndexedEnd]) -> Result<Vec<u64>, AllocError>
    ensures { IfOk result (λ v. v.items ≡ filter_map (λ e. e.vector) ends.now) }
{
    ends.iter().filter_map(|e| e.vector).collect(alloc)
}

// Appends the vectors of these interrupts.
fn add_irqs(vectors: &mut Vec<u64>, irqs: &[IrqUse]) -> Result<(), NoMemory>
    ensures { IfOk result (λ _. vectors.new.items ≡ vectors.old.items ++ map (λ i. i.vector) irqs.now) }
{
    for irq in irqs {
        vectors.push(irq.vector)?;
    }
    Ok(())
}

// Appends the vectors of these devices' interrupts.
fn add_devices(vectors: &mut Vec<u64>, devices: &[DeviceUse]) -> Result<(), NoMemory>
    ensures { IfOk result (λ _. vectors.new.items ≡ vectors.old.items ++ flat_map (λ d. map (λ i. i.vector) d.irqs) devices.now) }
{
    for device in devices {
        add_irqs(vectors, device.irqs.items())?;
    }
    Ok(())
}

// The vectors of a subject with these ends of channels.
#[tactic(auto, using(std::proofs::lemmas::List::append_assoc))]
fn vectors_with(alloc: Global, subject: &Subject, ends: &[IndexedEnd]) -> Result<Vec<u64>, NoMemory>
    ensures { IfOk result (λ v. v.items ≡ vectors_with ends.now subject.now) }
{
    let mut vectors = vectors_of_targets(alloc, subject.targets.items())?;
    let more = vectors_of_channel_ends(alloc, ends)?;
    vectors.extend_from_slice(&more)?;
    add_devices(&mut vectors, subject.devices.items())?;
    Ok(vectors)
}

// Whether the numbers are vectors for interrupts, no two equal.
fn are_vectors(numbers: &[u64]) -> bool
    ensures { result ≡ are_vectors numbers.now }
{
    are_distinct_in(numbers, FIRST_VECTOR, LAST_VECTOR)
}

fn has_vectors(
    alloc: Global,
    events: &[Event],
    subject: &Subject,
    ends: &[IndexedEnd],
) -> Result<bool, NoMemory>
    ensures { IfOk result (λ b. b ≡ has_vectors_with events.now ends.now subject.now) }
{
    let vectors = vectors_with(alloc, subject, ends)?;
    Ok(have_vectors(events, subject.targets.items()) && are_vectors(&vectors))
}

// The first subject with a vector that offends.
fn first_vector(alloc: Global, policy: &Linked) -> Result<Option<Offence>, NoMemory>
    ensures value { IfOk result (λ o. o ≡ first_in (vector_offence policy.now) policy.now.subjects) }
    ensures resolved { IsResolved policy.now }
{
    for (index, subject) in policy.subjects().iter().enumerate() {
        if !has_vectors(alloc, policy.events(), subject, policy.channel_ends(index))? {
            return Ok(Some(Offence::alone(subject.name)));
        }
    }
    Ok(None)
}

/// The first offence against rule 15, if any: a subject with a target that lacks a vector though
/// its event doesn't switch, or with a vector that is none for interrupts or stands twice.
///
/// Answers `NoMemory` where memory was refused.
#[tactic(auto, using(crate::proofs::NumbersByIndex::vectors_by_index))]
pub fn vectors(alloc: Global, policy: &Linked) -> Result<Option<Offence>, NoMemory>
    ensures { IfOk result (λ o. o ≡ offence_15 (source_of policy.now)) }
{
    first_vector(alloc, policy)
}
