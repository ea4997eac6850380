//! Rule 14: the numbers of a subject's calls, those of its channels among them, and of its traps.
ghost use Rattle.std.specs.Prelude.{◌≡◌, ◌&&◌, ◌++◌, IfOk};
ghost use Rattle.std.specs.List.{filter_map};
ghost use Rattle.muen_num.specs.Search.{first_in};
ghost use Rattle.policy_lawful.specs.Events.{trap_number};
ghost use Rattle.policy_lawful.specs.MoreRules.{call_number, are_numbers, offence_14};
ghost use Rattle.policy_lawful.specs.Resolution.{IsResolved, source_of};
ghost use Rattle.rules_events.specs.Calls.{call_offence, calls_with, has_numbers_with};

use crate::numbers::are_distinct_in;
use muen_num::NoMemory;
use muen_num::limits::MOST_CALLS;
use policy_lawful::resolved::{EventSource, Subject};
use policy_lawful::source::SourceWay;
use policy_lawful::{IndexedEnd, Offence};
use policy_views::Linked;
use std::alloc::{AllocError, Global};

fn call_number(way: SourceWay) -> Option<u64>
    ensures { result ≡ call_number way }
{
    match way {
        SourceWay::Call(number) => Some(number),
        SourceWay::Trap(_) => None,
    }
}

fn trap_number(way: SourceWay) -> Option<u64>
    ensures { result ≡ trap_number way }
{
    match way {
        SourceWay::Call(_) => None,
        SourceWay::Trap(reason) => Some(reason),
    }
}

fn calls_of(alloc: Global, sources: &[EventSource]) -> Result<Vec<u64>, AllocError>
    ensures { IfOk result (λ v. v.items ≡ filter_map (λ e. call_number e.way) sources.now) }
{
    sources
        .iter()
        .filter_map(|e| call_number(e.way))
        .collect(alloc)
}

fn traps_of(alloc: Global, sources: &[EventSource]) -> Result<Vec<u64>, AllocError>
    ensures { IfOk result (λ v. v.items ≡ filter_map (λ e. trap_number e.way) sources.now) }
{
    sources
        .iter()
        .filter_map(|e| trap_number(e.way))
        .collect(alloc)
}

fn calls_of_channel_ends(alloc: Global, ends: &[IndexedEnd]) -> Result<Vec<u64>, AllocError>
    ensures { IfOk result (λ v. v.items ≡ filter_map (λ e. e.call) ends.now) }
{
    ends.iter().filter_map(|e| e.call).collect(alloc)
}

// Whether the numbers are below the end of calls and traps, no two equal.
#[tactic(auto, using(crate::proofs::NumbersByIndex::numbers_in))]
fn are_numbers(numbers: &[u64]) -> bool
    ensures { result ≡ are_numbers numbers.now }
{
    are_distinct_in(numbers, 0, MOST_CALLS - 1)
}

// The numbers of a subject's calls, those of these ends of channels behind those of its sources.
fn calls_with(alloc: Global, subject: &Subject, ends: &[IndexedEnd]) -> Result<Vec<u64>, NoMemory>
    ensures { IfOk result (λ v. v.items ≡ calls_with ends.now subject.now) }
{
    let mut calls = calls_of(alloc, subject.sources.items())?;
    let more = calls_of_channel_ends(alloc, ends)?;
    calls.extend_from_slice(&more)?;
    Ok(calls)
}

fn has_numbers(alloc: Global, subject: &Subject, ends: &[IndexedEnd]) -> Result<bool, NoMemory>
    ensures { IfOk result (λ b. b ≡ has_numbers_with ends.now subject.now) }
{
    let calls = calls_with(alloc, subject, ends)?;
    let traps = traps_of(alloc, subject.sources.items())?;
    Ok(are_numbers(&calls) && are_numbers(&traps))
}

// The first subject with a number that offends.
fn first_call(alloc: Global, policy: &Linked) -> Result<Option<Offence>, NoMemory>
    ensures value { IfOk result (λ o. o ≡ first_in (call_offence policy.now) policy.now.subjects) }
    ensures resolved { IsResolved policy.now }
{
    for (index, subject) in policy.subjects().iter().enumerate() {
        if !has_numbers(alloc, subject, policy.channel_ends(index))? {
            return Ok(Some(Offence::alone(subject.name)));
        }
    }
    Ok(None)
}

/// The first offence against rule 14, if any: a subject with two calls of the same number, or two
/// traps, or with a number that is too great.
///
/// Answers `NoMemory` where memory was refused.
#[tactic(auto, using(crate::proofs::NumbersByIndex::calls_by_index))]
pub fn calls(alloc: Global, policy: &Linked) -> Result<Option<Offence>, NoMemory>
    ensures { IfOk result (λ o. o ≡ offence_14 (source_of policy.now)) }
{
    first_call(alloc, policy)
}
