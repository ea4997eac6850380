//! Rule 11: each range of MSRs of a subject lies in one of the two ranges of an MSR bitmap, and no
//! two share an MSR.
ghost use Rattle.std.specs.Prelude.{◌≡◌, map, true, IfOk};
ghost use Rattle.std.specs.List.{list_all};
ghost use Rattle.muen_num.specs.Search.{first_in};
ghost use Rattle.policy_lawful.specs.MoreRules.{is_msr_range, msrs_apart, offence_11};
ghost use Rattle.policy_lawful.specs.Resolution.{source_of};
ghost use Rattle.policy_lawful.specs.Rules.{first_overlap};
ghost use Rattle.rules_devices.specs.Ranges.{msr_extent, msrs_offence};

use muen_num::limits::{HIGH_MSR_FIRST, HIGH_MSR_LAST, LOW_MSR_LAST};
use muen_num::{Name, NoMemory};
use policy_lawful::resolved::Subject;
use policy_lawful::source::Msrs;
use policy_lawful::{Extent, Offence};
use policy_views::Linked;
use rules_extents::first_overlap;
use std::alloc::{AllocError, Global};

// Whether both ends are in the same range of an MSR bitmap, the first one not behind the last.
fn is_msr_range(range: &Msrs) -> bool
    ensures { result ≡ is_msr_range range.now }
{
    range.start <= range.end
        && (range.end <= LOW_MSR_LAST
            || (HIGH_MSR_FIRST <= range.start && range.end <= HIGH_MSR_LAST))
}

fn are_msr_ranges(ranges: &[Msrs]) -> bool
    ensures { result ≡ list_all is_msr_range ranges.now }
{
    ranges.iter().all(is_msr_range)
}

// As a range of addresses under this name.
fn msr_extent(name: Name, range: &Msrs) -> Extent
    ensures { result ≡ msr_extent name range.now }
{
    Extent {
        name,
        address: range.start,
        size: range.end.saturating_sub(range.start).saturating_add(1),
    }
}

fn msr_extents(alloc: Global, name: Name, ranges: &[Msrs]) -> Result<Vec<Extent>, AllocError>
    ensures { IfOk result (λ v. v.items ≡ map (msr_extent name) ranges.now) }
{
    ranges
        .iter()
        .map(|range| msr_extent(name, range))
        .collect(alloc)
}

// The first two of these ranges that share an MSR, under this name.
fn overlap(alloc: Global, name: Name, ranges: &[Msrs]) -> Result<Option<Offence>, NoMemory>
    ensures { IfOk result (λ o. o ≡ first_overlap (map (msr_extent name) ranges.now)) }
{
    let extents = msr_extents(alloc, name, ranges)?;
    first_overlap(alloc, &extents)
}

// Whether no two of these ranges of a subject share an MSR.
#[tactic(auto, using(crate::proofs::MsrsByExtent::no_overlap, crate::proofs::MsrsByExtent::some_overlap))]
fn are_apart(alloc: Global, name: Name, ranges: &[Msrs]) -> Result<bool, NoMemory>
    requires { list_all is_msr_range ranges.now ≡ true }
    ensures { IfOk result (λ b. b ≡ msrs_apart ranges.now) }
{
    match overlap(alloc, name, ranges)? {
        None => Ok(true),
        Some(_) => Ok(false),
    }
}

// A subject with a range that isn't one, or with two that share an MSR.
fn of_subject(alloc: Global, subject: &Subject) -> Result<Option<Offence>, NoMemory>
    ensures { IfOk result (λ o. o ≡ msrs_offence subject.now) }
{
    let ranges = subject.msrs.items();
    if !are_msr_ranges(ranges) {
        return Ok(Some(Offence::alone(subject.name)));
    }
    let apart = are_apart(alloc, subject.name, ranges)?;
    Ok(Offence::alone(subject.name).unless(apart))
}

// The first such subject.
fn of_subjects(alloc: Global, subjects: &[Subject]) -> Result<Option<Offence>, NoMemory>
    ensures { IfOk result (λ o. o ≡ first_in msrs_offence subjects.now) }
{
    for subject in subjects {
        if let Some(offence) = of_subject(alloc, subject)? {
            return Ok(Some(offence));
        }
    }
    Ok(None)
}

/// The first offence against rule 11, if any: a subject, alone.
///
/// Answers `NoMemory` where memory was refused.
#[tactic(auto, using(crate::proofs::MsrsByExtent::msrs_by_index))]
pub fn msr_ranges(alloc: Global, policy: &Linked) -> Result<Option<Offence>, NoMemory>
    ensures { IfOk result (λ o. o ≡ offence_11 (source_of policy.now)) }
{
    of_subjects(alloc, policy.subjects())
}
