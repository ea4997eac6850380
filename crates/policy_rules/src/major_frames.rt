//! Rule 16: in each major frame every CPU is listed once, with minor frames of its own groups that
//! have ticks, and the ticks of all CPUs are the same.
ghost use Rattle.std.specs.Prelude.{◌≡◌, []};
ghost use Rattle.std.specs.Option.{option_or};
ghost use Rattle.std.specs.List.{list_all, enumerate_from};
ghost use Rattle.muen_num.specs.Range.{numbers_below};
ghost use Rattle.muen_num.specs.Search.{first_in, first_after};
ghost use Rattle.policy_lawful.specs.Offences.{two};
ghost use Rattle.policy_lawful.specs.Rules.{major_name, cpu_name, is_on, offence_16, tau0_offence};
ghost use Rattle.policy_lawful.specs.Resolution.{IsResolved, source_of};
ghost use Rattle.policy_rules.specs.Majors.{cpu_of_group, is_resolved_frame, has_first_ticks, is_listed_cpu, is_resolved_major_entry, cpu_frames_offence, missing_offence, resolved_major_offence, frames_offence};

use crate::tau0::tau0;
use muen_num::first_numbered;
use policy_lawful::Offence;
use policy_lawful::frame_names::{cpu_name, major_name};
use policy_lawful::resolved::{CpuFrames, Group, MajorFrame, MinorFrame};
use policy_views::Linked;

// Whether the group at an index is on this CPU.
fn is_on(groups: &[Group], index: usize, cpu: u64) -> bool
    ensures { result ≡ is_on (cpu_of_group groups.now index) cpu }
{
    match groups.get(index) {
        None => false,
        Some(group) => group.cpu == cpu,
    }
}

// A minor frame of this CPU: it has ticks, and its group is on the CPU.
fn is_frame(groups: &[Group], cpu: u64, frame: &MinorFrame) -> bool
    ensures { result ≡ is_resolved_frame groups.now cpu frame.now }
{
    0 < frame.ticks && is_on(groups, frame.group, cpu)
}

fn are_frames(groups: &[Group], cpu: u64, frames: &[MinorFrame]) -> bool
    ensures { result ≡ list_all (is_resolved_frame groups.now cpu) frames.now }
{
    frames.iter().all(|frame| is_frame(groups, cpu, frame))
}

// As many ticks as the first of these entries has, if there is one.
fn has_first_ticks(before: &[CpuFrames], entry: &CpuFrames) -> bool
    ensures { result ≡ has_first_ticks before.now entry.now }
{
    match before.first() {
        None => true,
        Some(first) => first.ticks() == entry.ticks(),
    }
}

fn is_listed(cpus: &[CpuFrames], cpu: u64) -> bool
    ensures { result ≡ is_listed_cpu cpus.now cpu }
{
    cpus.iter().any(|entry| entry.cpu == cpu)
}

// An entry behind these: its CPU isn't among theirs; it has a minor frame; each is one of its CPU;
// its ticks are those of the first entry.
fn is_entry(groups: &[Group], before: &[CpuFrames], entry: &CpuFrames) -> bool
    ensures { result ≡ is_resolved_major_entry groups.now before.now entry.now }
{
    !is_listed(before, entry.cpu)
        && !entry.minor_frames.is_empty()
        && are_frames(groups, entry.cpu, entry.minor_frames.items())
        && has_first_ticks(before, entry)
}

fn at_cpu(index: usize, cpu: u64) -> Offence
    ensures { result ≡ two (major_name index) (cpu_name cpu) }
{
    Offence {
        first: major_name(index),
        second: cpu_name(cpu),
    }
}

// The first entry that offends. Each is held against those before it, which are of different CPUs,
// so with CPUs below 8 at most nine are looked at.
fn first_entry(groups: &[Group], index: usize, cpus: &[CpuFrames]) -> Option<Offence>
    ensures { result ≡ first_after (cpu_frames_offence groups.now index) [] cpus.now }
{
    for (i, entry) in cpus.iter().enumerate() {
        if !is_entry(groups, &cpus[..i], entry) {
            return Some(at_cpu(index, entry.cpu));
        }
    }
    None
}

// The first of so many CPUs that isn't listed.
#[tactic(auto, using(muen_num::proofs::FirstNumber::number_found, muen_num::proofs::FirstNumber::numbers_none_more))]
fn first_missing(cpus: &[CpuFrames], index: usize, count: u64) -> Option<Offence>
    ensures { result ≡ first_in (missing_offence cpus.now index) (numbers_below count) }
{
    for cpu in 0..count {
        if !is_listed(cpus, cpu) {
            return Some(at_cpu(index, cpu));
        }
    }
    None
}

// Of a major frame and its index: the first entry that offends, else the first CPU that isn't
// listed.
fn of_entries(groups: &[Group], count: u64, index: usize, cpus: &[CpuFrames]) -> Option<Offence>
    ensures { result ≡ option_or (first_after (cpu_frames_offence groups.now index) [] cpus.now) (first_in (missing_offence cpus.now index) (numbers_below count)) }
{
    first_entry(groups, index, cpus).or_else(|| first_missing(cpus, index, count))
}

// The first such offence of all major frames, for so many CPUs.
fn of_majors(groups: &[Group], count: u64, majors: &[MajorFrame]) -> Option<Offence>
    ensures { result ≡ first_in (resolved_major_offence groups.now count) (enumerate_from 0 majors.now) }
{
    first_numbered(
        majors,
        |index, major| of_entries(groups, count, index, major.cpus.items()),
    )
}

// The first offence of a major frame of the policy.
fn of_frames(policy: &Linked) -> Option<Offence>
    ensures value { result ≡ frames_offence policy.now }
    ensures resolved { IsResolved policy.now }
{
    let plan = policy.scheduling();
    of_majors(
        plan.groups.items(),
        policy.processor().logical_cpus,
        plan.major_frames.items(),
    )
}

// The first offence of a major frame, else of who chooses them.
fn of_all(policy: &Linked) -> Option<Offence>
    ensures value { result ≡ option_or (frames_offence policy.now) (tau0_offence (source_of policy.now) policy.now.scheduling.tau0) }
    ensures resolved { IsResolved policy.now }
{
    of_frames(policy).or_else(|| tau0(policy))
}

/// The first offence against rule 16, if any: of a major frame, else of who chooses them.
#[tactic(auto, using(crate::proofs::MajorsByIndex::majors_by_index))]
pub fn major_frames(policy: &Linked) -> Option<Offence>
    ensures { result ≡ offence_16 (source_of policy.now) }
{
    of_all(policy)
}
