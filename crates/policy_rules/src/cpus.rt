// Rule 3: CPUs.
ghost use Rattle.std.specs.Prelude.{◌≡◌, ◌&&◌, nat_lt};
ghost use Rattle.std.specs.List.{enumerate_from};
ghost use Rattle.muen_num.specs.Search.{first_in, unless};
ghost use Rattle.policy_lawful.specs.Offences.{alone, two};
ghost use Rattle.policy_lawful.specs.Resolution.{IsResolved, source_of};
ghost use Rattle.policy_lawful.specs.Rules.{major_name, cpu_name, offence_3};
ghost use Rattle.policy_rules.specs.Cpus.{cpus_offence, plan_cpus_offence};

use crate::keys::Key;
use muen_num::limits::MOST_CPUS;
use muen_num::{first, first_numbered};
use policy_lawful::Offence;
use policy_lawful::frame_names::{cpu_name, major_name};
use policy_lawful::resolved::{CpuFrames, Group, MajorFrame, Subject};
use policy_views::Linked;

// The first subject whose CPU there isn't.
fn subjects(subjects: &[Subject], cpus: u64) -> Option<Offence>
    ensures { result ≡ first_in (λ s. unless (nat_lt s.cpu cpus) (alone s.name)) subjects.now }
{
    first(
        subjects,
        |subject| Offence::alone(subject.name).unless(subject.cpu < cpus),
    )
}

// The first entry of the major frame at an index whose CPU there isn't.
fn entries(index: usize, entries: &[CpuFrames], cpus: u64) -> Option<Offence>
    ensures { result ≡ first_in (λ c. unless (nat_lt c.cpu cpus) (two (major_name index) (cpu_name c.cpu))) entries.now }
{
    first(entries, |entry| {
        Offence {
            first: major_name(index),
            second: cpu_name(entry.cpu),
        }
        .unless(entry.cpu < cpus)
    })
}

// The first such entry of all major frames.
fn majors(majors: &[MajorFrame], cpus: u64) -> Option<Offence>
    ensures { result ≡ first_in (λ m. first_in (λ c. unless (nat_lt c.cpu cpus) (two (major_name m.0) (cpu_name c.cpu))) m.1.cpus) (enumerate_from 0 majors.now) }
{
    first_numbered(
        majors,
        |index, major| entries(index, major.cpus.items(), cpus),
    )
}

// The first group or entry whose CPU there isn't.
fn of_plan(groups: &[Group], frames: &[MajorFrame], cpus: u64) -> Option<Offence>
    ensures { result ≡ plan_cpus_offence cpus groups.now frames.now }
{
    first(
        groups,
        |group| Offence::alone(group.name).unless(group.cpu < cpus),
    )
    .or_else(|| majors(frames, cpus))
}

// There are CPUs, as many as there may be, and the subjects and the plan have CPUs that there are.
fn of_elements(
    cpus: u64,
    all: &[Subject],
    groups: &[Group],
    frames: &[MajorFrame],
) -> Option<Offence>
    ensures { result ≡ cpus_offence cpus all.now groups.now frames.now }
{
    Key::Processor
        .unless(1 <= cpus && cpus <= MOST_CPUS)
        .or_else(|| subjects(all, cpus))
        .or_else(|| of_plan(groups, frames, cpus))
}

/// Rule 3: the number of CPUs, and the CPUs of subjects, groups and frames.
#[tactic(auto, using(crate::proofs::CpusByIndex::cpus_by_index))]
pub fn cpus(policy: &Linked) -> Option<Offence>
    ensures offence { result ≡ offence_3 (source_of policy.now) }
    // Each name refers to what is there, since the policy's type says so.
    ensures resolved { IsResolved policy.now }
{
    of_elements(
        policy.processor().logical_cpus,
        policy.subjects(),
        policy.scheduling().groups.items(),
        policy.scheduling().major_frames.items(),
    )
}
