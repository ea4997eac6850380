//! The subjects that events, and events of channels, reach.
ghost use Rattle.std.specs.Prelude.{◌≡◌, ◌++◌, ◌==◌, true, map, option_map, IfOk};
ghost use Rattle.std.specs.List.{filter_map, find, list_all};
ghost use Rattle.expand_grants.specs.Raising.{all_readers, all_targets, first_reached, fits_channel_end, fits_channel_ends, fits_number, fits_target, fits_targets, reader_reached, target_reached};

use crate::append::push_some;
use muen_num::NoMemory;
use policy_lawful::resolved::{EventTarget, Subject};
use policy_lawful::{IndexedEnd, Resolved, Role};
use std::alloc::Global;

/// A subject that is reached.
#[derive(Clone, Copy)]
pub(crate) struct Reached {
    /// The index of the event, or of the channel, by which it is reached.
    pub(crate) by: usize,
    /// The subject's index.
    pub(crate) subject: usize,
    /// The vector that becomes pending there, if any.
    pub(crate) vector: Option<u8>,
}

/// A number of a policy that fits.
pub(crate) fn small(number: Option<u64>) -> Option<u8>
    requires { fits_number number ≡ true }
    ensures { result ≡ number }
{
    match number {
        None => None,
        Some(number) => Some(number as u8),
    }
}

fn target_reached(index: usize, target: &EventTarget) -> Reached
    requires { fits_target target.now ≡ true }
    ensures { result ≡ target_reached index target.now }
{
    Reached {
        by: target.event,
        subject: index,
        vector: small(target.vector),
    }
}

// Notes that a subject is reached by its targets.
fn note_targets(
    noted: &mut Vec<Reached>,
    index: usize,
    targets: &[EventTarget],
) -> Result<(), NoMemory>
    requires { list_all fits_target targets.now ≡ true }
    ensures { IfOk result (λ _. noted.new.items ≡ noted.old.items ++ map (target_reached index) targets.now) }
{
    for target in targets {
        noted.push(target_reached(index, target))?;
    }
    Ok(())
}

/// What is reached by events, in the order of the subjects.
///
/// Answers `NoMemory` where memory was refused.
pub(crate) fn all_targets(alloc: Global, subjects: &[Subject]) -> Result<Vec<Reached>, NoMemory>
    requires { list_all fits_targets subjects.now ≡ true }
    ensures { IfOk result (λ v. v.items ≡ all_targets subjects.now) }
{
    let mut noted = Vec::new(alloc);
    for (index, subject) in subjects.iter().enumerate() {
        note_targets(&mut noted, index, subject.targets.items())?;
    }
    Ok(noted)
}

fn reader_reached(index: usize, end: &IndexedEnd) -> Option<Reached>
    requires { fits_channel_end end.now ≡ true }
    ensures { result ≡ reader_reached index end.now end.now.role }
{
    match end.role {
        Role::Writer => None,
        Role::Reader => Some(Reached {
            by: end.channel,
            subject: index,
            vector: small(end.vector),
        }),
    }
}

// Notes that a subject is reached by those of its ends that read.
fn note_readers(noted: &mut Vec<Reached>, index: usize, ends: &[IndexedEnd]) -> Result<(), NoMemory>
    requires { list_all fits_channel_end ends.now ≡ true }
    ensures { IfOk result (λ _. noted.new.items ≡ noted.old.items ++ filter_map (λ e. reader_reached index e e.role) ends.now) }
{
    for end in ends {
        push_some(noted, reader_reached(index, end))?;
    }
    Ok(())
}

/// What is reached by channels, in the order of the subjects.
///
/// Answers `NoMemory` where memory was refused.
pub(crate) fn all_readers(alloc: Global, policy: &Resolved) -> Result<Vec<Reached>, NoMemory>
    requires { list_all (fits_channel_ends policy.now) policy.now.subjects ≡ true }
    ensures { IfOk result (λ v. v.items ≡ all_readers policy.now) }
{
    let mut noted = Vec::new(alloc);
    for index in 0..policy.subjects().len() {
        note_readers(&mut noted, index, policy.channel_ends(index))?;
    }
    Ok(noted)
}

// The first that is reached by the event, or by the channel, at an index.
fn first_lent(list: &[Reached], index: usize) -> Option<&Reached>
    ensures { option_map (λ x. x.now) result ≡ first_reached list.now index }
{
    list.iter().find(|reached| reached.by == index)
}

/// The first that is reached by the event, or by the channel, at an index.
pub(crate) fn first_reached(list: &[Reached], index: usize) -> Option<Reached>
    ensures { result ≡ first_reached list.now index }
{
    match first_lent(list, index) {
        None => None,
        Some(reached) => Some(*reached),
    }
}
