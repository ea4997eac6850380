//! The image as a whole.
ghost use Rattle.std.specs.Prelude.{◌≡◌, ◌<◌, ◌^◌, length, IfOk};
ghost use Rattle.image_emit.specs.Fitting.{AreFew};
ghost use Rattle.image_emit.specs.Gathered.{AreAllPages, AreParts, IsHeld};
ghost use Rattle.image_emit.specs.Made.{IsEmitted, IsFilled};
ghost use Rattle.image_pack.specs.SpanConditions.{HaveDifferentNumbers};

use crate::span_bytes::{contents, region_bytes};
use crate::subjects::{choice_of, grants_of, subject_parts, subjects_of};
use event_emit::{devices, tables};
use image_pack::{Parts, SpanPart, SubjectPart};
use muen_num::{NoMemory, Seq};
use plan_emit::plan;
use policy_lawful::Resolved;
use region_alloc::Placed;
use span_emit::spans;
use std::alloc::Global;
use subject_emit::{SubjectPages, pages};

// The pages of each subject.
fn all_pages(alloc: Global, placed: &Placed) -> Result<Seq<SubjectPages>, NoMemory>
    requires as_many { length placed.now.expanded.grants ≡ length placed.now.expanded.lawful.subjects }
    ensures { IfOk result (AreAllPages placed.now) }
{
    let subjects = subjects_of(placed);
    let grants = grants_of(placed);
    let mut all = Seq::new(alloc);
    for index in 0..subjects.len() {
        let of_subject = pages(alloc, placed, index, &subjects[index], &grants[index])?;
        all.push(of_subject)?;
    }
    Ok(all)
}

// What the spans hold.
fn held(
    alloc: Global,
    placed: &Placed,
    things: Seq<Seq<u8>>,
    spans: &[SpanPart],
) -> Result<Seq<Seq<u8>>, NoMemory>
    requires as_many { length placed.now.expanded.grants ≡ length placed.now.expanded.lawful.subjects }
    requires numbers { HaveDifferentNumbers spans.now }
    ensures { IfOk result (IsHeld placed.now things spans.now) }
{
    let pages = all_pages(alloc, placed)?;
    let bytes = region_bytes(things, pages)?;
    contents(alloc, spans, bytes)
}

// The subjects with the events that they raise.
fn subjects(alloc: Global, placed: &Placed) -> Result<Seq<SubjectPart>, NoMemory>
    requires { AreFew placed.now }
    ensures { IfOk result (AreParts placed.now) }
{
    let events = tables(alloc, placed.expanded())?;
    subject_parts(alloc, placed, events)
}

fn policy_of(placed: &Placed) -> &Resolved
    ensures { result.now ≡ placed.now.expanded.lawful }
{
    placed.expanded().lawful().resolved()
}

fn cpus(placed: &Placed) -> u8
    requires { placed.now.expanded.lawful.processor.logical_cpus < 2 ^ 8 }
    ensures { result ≡ placed.now.expanded.lawful.processor.logical_cpus }
{
    policy_of(placed).processor().logical_cpus as u8
}

// The number of the first span of a device's memory, behind those of the regions.
fn first_device(placed: &Placed) -> u16
    requires { length placed.now.expanded.regions < 2 ^ 16 }
    ensures { result ≡ length placed.now.expanded.regions }
{
    placed.expanded().regions().len() as u16
}

/// The image of a placed policy, whose regions that aren't the kernel's hold these bytes, by number.
/// For files with which they are what the policy says, the image is sound for the policy. Each region
/// lies where the policy's placement has it, no table is read at two paths, and each window is mapped by
/// the greatest pages that it allows.
///
/// Each region has as many bytes as its size says. Answers `NoMemory` where memory was refused.
pub fn emit(alloc: Global, placed: &Placed, things: Seq<Seq<u8>>) -> Result<Parts, NoMemory>
    requires filled { IsFilled placed.now things }
    ensures { IfOk result (IsEmitted placed.now things) }
{
    let expanded = placed.expanded();
    let policy = policy_of(placed);
    let spans = spans(alloc, placed)?;
    let held = held(alloc, placed, things, spans.items())?;
    let subjects = subjects(alloc, placed)?;
    let plan = plan(alloc, expanded.lawful())?;
    let devices = devices(alloc, expanded, first_device(placed))?;
    let tau0 = choice_of(policy);
    Ok(Parts::make(cpus(placed), tau0, spans, subjects, plan, devices, held))
}
