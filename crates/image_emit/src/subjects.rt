//! The subjects of an image.
ghost use Rattle.std.specs.Prelude.{◌≡◌, ◌+◌, ◌==◌, ◌<◌, ◌≤◌, ◌^◌, map, zip, length, position, IfOk, unwrap_or};
ghost use Rattle.std.specs.List.{enumerate_from, list_any};
ghost use Rattle.std.specs.Str.{bytes_eq};
ghost use Rattle.expand_kernel.specs.Regions.{kernel_number};
ghost use Rattle.image_emit.specs.Fitting.{AreFew};
ghost use Rattle.image_emit.specs.Made.{choice_region, subject_part};
ghost use Rattle.msrbm_emit.specs.Area.{msr_count, size_of};

use ept_emit::eptp;
use event_emit::EventTables;
use expand_kernel::{Grants, KernelRegion};
use image_pack::SubjectPart;
use muen_num::limits::{KERNEL_REGIONS, MOST_MSRS, MOST_REGIONS};
use muen_num::{Name, NoMemory, Seq};
use policy_lawful::resolved::{Scheduling, Subject};
use policy_lawful::source::Region;
use policy_lawful::{MsrGrant, Resolved};
use region_alloc::Placed;
use std::alloc::Global;
use subject_emit::tables_at;

// The number of the group in which the subject at an index stands.
fn group_at(scheduling: &Scheduling, index: usize) -> u8
    requires { length scheduling.now.groups ≤ 32 }
    ensures { result ≡ unwrap_or (position (λ g. list_any (λ n. n == index) g.subjects) scheduling.now.groups) 0 }
{
    match scheduling.group_with(index) {
        None => 0,
        Some(number) => number as u8,
    }
}

// How many MSRs a grant has.
fn size_of(grant: &MsrGrant) -> u64
    ensures { result ≡ size_of grant.now }
{
    (u64::from(grant.end) + 1).saturating_sub(u64::from(grant.start))
}

// How many MSRs are granted.
#[tactic(auto, unfolding(msrbm_emit::specs::Area::msr_count))]
fn count_of(msrs: &[MsrGrant]) -> u64
    requires { msr_count msrs.now ≤ MOST_MSRS }
    ensures { result ≡ msr_count msrs.now }
{
    let mut count = 0;
    for grant in msrs {
        count += size_of(grant);
    }
    count
}

// The number of a region of the kernel, by that of its subject's first.
fn number_of(region: KernelRegion, first: usize) -> u16
    requires { first + KERNEL_REGIONS ≤ MOST_REGIONS }
    ensures { result ≡ kernel_number region first }
{
    region.number(first) as u16
}

// The subject at an index, which is granted this and raises these events.
fn subject_part(
    placed: &Placed,
    index: usize,
    subject: &Subject,
    granted: &Grants,
    events: EventTables,
) -> SubjectPart
    requires few { AreFew placed.now }
    requires there { index < length placed.now.expanded.lawful.subjects }
    requires cpu { subject.now.cpu < 2 ^ 8 }
    requires msrs { msr_count granted.now.msrs ≤ MOST_MSRS }
    ensures { result ≡ subject_part placed.now (index, (subject.now, (granted.now, events))) }
{
    let policy = placed.expanded().lawful().resolved();
    let first = placed.expanded().kernel_first(index);
    let EventTables { calls, traps } = events;
    SubjectPart {
        cpu: subject.cpu as u8,
        group: group_at(policy.scheduling(), index),
        msrs: count_of(granted.msrs.items()) as u8,
        state: number_of(KernelRegion::State, first),
        iobm: number_of(KernelRegion::IoBitmaps, first),
        msrbm: number_of(KernelRegion::MsrBitmap, first),
        area: number_of(KernelRegion::MsrArea, first),
        eptp: eptp(tables_at(placed, index)),
        name: subject.name,
        calls,
        traps,
    }
}

/// The subjects of a placed policy.
pub(crate) fn subjects_of(placed: &Placed) -> &[Subject]
    ensures { result.now ≡ placed.now.expanded.lawful.subjects }
{
    placed.expanded().lawful().resolved().subjects()
}

/// What is granted to each subject of a placed policy.
pub(crate) fn grants_of(placed: &Placed) -> &[Grants]
    ensures { result.now ≡ placed.now.expanded.grants }
{
    placed.expanded().grants()
}

/// The subjects of the image, in order; what each raises is handed in.
pub(crate) fn subject_parts(
    alloc: Global,
    placed: &Placed,
    events: Seq<EventTables>,
) -> Result<Seq<SubjectPart>, NoMemory>
    requires few { AreFew placed.now }
    requires as_many { length events ≡ length placed.now.expanded.lawful.subjects }
    ensures { IfOk result (λ parts. parts ≡ map (subject_part placed.now) (enumerate_from 0 (zip placed.now.expanded.lawful.subjects (zip placed.now.expanded.grants events)))) }
{
    let subjects = subjects_of(placed);
    let grants = grants_of(placed);
    let mut parts = Seq::new(alloc);
    for tables in events.into_vec() {
        let index = parts.len();
        let part = subject_part(placed, index, &subjects[index], &grants[index], tables);
        parts.push(part)?;
    }
    Ok(parts)
}

fn region_named(memory: &[Region], name: Name) -> Option<usize>
    ensures { result ≡ position (λ m. bytes_eq m.name name) memory.now }
{
    memory.iter().position(|region| region.name == name)
}

/// The number of the region whose first byte chooses the next major frame, if one does.
pub(crate) fn choice_of(policy: &Resolved) -> Option<u16>
    requires { length policy.now.memory ≤ MOST_REGIONS }
    ensures { result ≡ choice_region policy.now }
{
    match &policy.scheduling().tau0 {
        None => None,
        Some(chooser) => match region_named(policy.memory(), chooser.region) {
            None => None,
            Some(number) => Some(number as u16),
        },
    }
}
