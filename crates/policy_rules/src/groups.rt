//! Rule 17: each group has members, all on its CPU, and each subject is a member once.
ghost use Rattle.std.specs.Prelude.{◌≡◌, length, IfOk};
ghost use Rattle.std.specs.List.{list_all, enumerate_from};
ghost use Rattle.muen_num.specs.Search.{first_in};
ghost use Rattle.policy_lawful.specs.Rules.{offence_17};
ghost use Rattle.policy_lawful.specs.Resolution.{source_of};
ghost use Rattle.policy_lawful.specs.Counts.{Adds};
ghost use Rattle.policy_rules.specs.Groups.{is_subject_on_cpu, is_resolved_group, group_offence, times_in, AreMemberCounts, groups_offence, counted_offence};

use muen_num::{NoMemory, first, first_numbered};
use policy_lawful::resolved::{Group, Subject};
use policy_lawful::{Counts, Offence};
use policy_views::Linked;
use std::alloc::{AllocError, Global};

// Whether the subject at an index is on this CPU.
fn is_member(subjects: &[Subject], cpu: u64, index: usize) -> bool
    ensures { result ≡ is_subject_on_cpu subjects.now cpu index }
{
    match subjects.get(index) {
        None => false,
        Some(subject) => subject.cpu == cpu,
    }
}

fn are_members(subjects: &[Subject], cpu: u64, indexes: &[usize]) -> bool
    ensures { result ≡ list_all (is_subject_on_cpu subjects.now cpu) indexes.now }
{
    indexes.iter().all(|index| is_member(subjects, cpu, *index))
}

// It has members, and all are on its CPU.
fn is_group(subjects: &[Subject], group: &Group) -> bool
    ensures { result ≡ is_resolved_group subjects.now group.now }
{
    !group.subjects.is_empty() && are_members(subjects, group.cpu, group.subjects.items())
}

fn first_group(subjects: &[Subject], groups: &[Group]) -> Option<Offence>
    ensures { result ≡ first_in (group_offence subjects.now) groups.now }
{
    first(
        groups,
        |group| Offence::alone(group.name).unless(is_group(subjects, group)),
    )
}

// Counts each index on by how often it stands among the members of the groups.
fn count_members(groups: &[Group], counts: &mut Counts)
    ensures room { length counts.new ≡ length counts.old }
    ensures adds { Adds counts.old counts.new (times_in groups.now) }
{
    for group in groups {
        counts.count(group.subjects.items());
    }
}

// How often each of so many indexes stands among the members of the groups.
fn times_of(alloc: Global, groups: &[Group], count: usize) -> Result<Counts, AllocError>
    ensures { IfOk result (λ counts. AreMemberCounts counts count groups.now) }
{
    let mut counts = Counts::zeros(alloc, count)?;
    count_members(groups, &mut counts);
    Ok(counts)
}

// The first subject that wasn't met once.
fn first_counted(subjects: &[Subject], counts: &Counts) -> Option<Offence>
    ensures { result ≡ first_in (counted_offence counts.now) (enumerate_from 0 subjects.now) }
{
    first_numbered(subjects, |index, subject| {
        Offence::alone(subject.name).unless(counts.times(index) == 1)
    })
}

// The first group that offends, else the first subject that isn't listed once.
#[tactic(auto, using(crate::proofs::GroupsByIndex::by_counts))]
fn of_groups(
    alloc: Global,
    subjects: &[Subject],
    groups: &[Group],
) -> Result<Option<Offence>, AllocError>
    ensures { IfOk result (λ o. o ≡ groups_offence subjects.now groups.now) }
{
    if let Some(offence) = first_group(subjects, groups) {
        return Ok(Some(offence));
    }
    let counts = times_of(alloc, groups, subjects.len())?;
    Ok(first_counted(subjects, &counts))
}

/// The first offence against rule 17, if any.
#[tactic(auto, using(crate::proofs::GroupsByIndex::groups_by_index))]
pub fn groups(alloc: Global, policy: &Linked) -> Result<Option<Offence>, NoMemory>
    ensures { IfOk result (λ o. o ≡ offence_17 (source_of policy.now)) }
{
    let offence = of_groups(alloc, policy.subjects(), policy.scheduling().groups.items())?;
    Ok(offence)
}
