//! The verdict on an image.
ghost use Rattle.std.specs.Prelude.{◌≡◌, ◌<◌, ◌⊎◌, Option, None, Some, length, IfOk};
ghost use Rattle.image_checks.specs.PlanFault.{IsPlanFault};
ghost use Rattle.image_soundness.specs.ThingBytes.{thing_bytes};
ghost use Rattle.image_pack.specs.Parts.{IsParts};
ghost use Rattle.image_pack.specs.declared.parts.Image.{Image};
ghost use Rattle.image_soundness.specs.Sound.{AreFilesHeld, IsSound};
ghost use Rattle.image_verify.specs.Verdict.{AreOfFiles, FirstOf, IsReadyFor, IsTableFault, IsTwice, IsVerdict, device_owner, in_order, named, plan_owner, subject_name, subject_owner};
ghost use Rattle.image_verify.specs.declared.fault.Fault.{Fault};
ghost use Rattle.image_verify.specs.declared.fault.Fault.TheVariants.{Fails};
ghost use Rattle.image_verify.specs.declared.fault.Owner.TheVariants.{Named};
ghost use Rattle.policy_lawful.specs.Contents.{Held};
ghost use Rattle.policy_lawful.specs.Lawful.{IsLawful};
ghost use Rattle.policy_lawful.specs.Resolution.{source_of};
ghost use Rattle.policy_lawful.specs.source.Source.{Source};
ghost use Rattle.image_soundness.specs.Paths.{HasOnePathPerTable};

use crate::fault::{Condition, Fault, Owner};
use crate::pages::table_pages;
use crate::windows::subject_tables;
use ept_check::{FaultKind, MemoryEntries, TableFault, check};
use expand_kernel::Expanded;
use image_checks::{
    PlanOwner, contents_fault, first_by_area, first_by_bitmaps, first_by_own_pages, first_by_state,
    plan_fault,
};
use image_memory::memory_of;
use image_pack::{Image, Parts};
use muen_num::{Name, NoMemory, Seq};
use policy_lawful::Resolved;
use std::alloc::Global;

fn policy_of(expanded: &Expanded) -> &Resolved
    ensures { result.now ≡ expanded.now.lawful }
{
    expanded.lawful().resolved()
}

// The name of the subject at an index.
fn subject_name(policy: &Resolved, index: usize) -> Name
    requires { index < length policy.now.subjects }
    ensures { result ≡ subject_name (source_of policy.now) index }
{
    policy.subjects()[index].name
}

// That this condition fails for the subject at an index.
fn fails_for(condition: Condition, policy: &Resolved, index: usize) -> Fault
    requires { index < length policy.now.subjects }
    ensures { result ≡ Fails condition (subject_owner (source_of policy.now) index) }
{
    Fault::Fails {
        condition,
        owner: Owner::Named(subject_name(policy, index)),
    }
}

// The device at an index: the policy's, where it has one there, else the image's.
#[tactic(auto, unfolding(policy_lawful::specs::Resolution::source_of))]
fn device_name(policy: &Resolved, image: &Image, index: usize) -> Name
    requires { (index < length policy.now.devices) ⊎ (index < length image.now.devices) }
    ensures { Named result ≡ device_owner (source_of policy.now) image.now index }
{
    match policy.devices().get(index) {
        Some(device) => device.name,
        None => image.devices.items()[index].name,
    }
}

// Whose it is that the plan or the events differ.
fn plan_owner(policy: &Resolved, image: &Image, differs: PlanOwner) -> Owner
    requires { IsPlanFault (source_of policy.now) image.now (Some differs) }
    ensures { result ≡ plan_owner (source_of policy.now) image.now differs }
{
    match differs {
        PlanOwner::Plan => Owner::Plan,
        PlanOwner::Subject(index) => Owner::Named(subject_name(policy, index)),
        PlanOwner::Device(index) => Owner::Named(device_name(policy, image, index)),
    }
}

// The first condition that fails of what the kernel keeps for each subject, and of the plan.
fn kept_fault(alloc: Global, expanded: &Expanded, image: &Parts) -> Result<Option<Fault>, NoMemory>
    ensures { IfOk result (FirstOf (source_of expanded.now.lawful) image.now (λ o. o ≡ None) in_order) }
{
    let policy = policy_of(expanded);
    if let Some(k) = first_by_bitmaps(alloc, expanded, image)? {
        return Ok(Some(fails_for(Condition::Bitmaps, policy, k)));
    }
    if let Some(k) = first_by_area(alloc, expanded, image)? {
        return Ok(Some(fails_for(Condition::Areas, policy, k)));
    }
    if let Some(k) = first_by_state(alloc, expanded, image)? {
        return Ok(Some(fails_for(Condition::States, policy, k)));
    }
    if let Some(k) = first_by_own_pages(expanded, image) {
        return Ok(Some(fails_for(Condition::OwnPages, policy, k)));
    }
    match plan_fault(alloc, expanded, image)? {
        None => Ok(None),
        Some(differs) => Ok(Some(Fault::Fails {
            condition: Condition::Plan,
            owner: plan_owner(policy, image.image(), differs),
        })),
    }
}

// A fault of tables, with the subject's name.
fn of_tables(policy: &Resolved, fault: TableFault) -> Fault
    requires { fault.subject < length policy.now.subjects }
    ensures { result ≡ named (source_of policy.now) fault }
{
    let subject = subject_name(policy, fault.subject);
    let addr = fault.addr;
    match fault.kind {
        FaultKind::Outside => Fault::Fails {
            condition: Condition::Tables,
            owner: Owner::Named(subject),
        },
        FaultKind::Twice => Fault::Twice { subject, addr },
        FaultKind::Leak => Fault::Leak { subject, addr },
        FaultKind::Lacks => Fault::Lacks { subject, addr },
    }
}

// The first fault of the tables of an image that has the contents of the policy and its subjects.
fn tables_fault(alloc: Global, expanded: &Expanded, image: Parts) -> Result<Option<Fault>, NoMemory>
    requires { IsReadyFor (source_of expanded.now.lawful) image }
    ensures { IfOk result (IsTableFault (source_of expanded.now.lawful) image) }
{
    let pages = table_pages(alloc, &image)?;
    let tables = subject_tables(alloc, expanded, &image)?;
    let memory = memory_of(alloc, image)?;
    let mut entries = MemoryEntries::of(&memory);
    let found = check(alloc, &mut entries, &pages, &tables)?;
    match found {
        None => Ok(None),
        Some(fault) => Ok(Some(of_tables(policy_of(expanded), fault))),
    }
}

/// The verdict on an image, whoever made it, for a lawful policy whose regions hold these bytes at the
/// start, by number: the first condition of a sound image that fails, and whose it is; `None` where none
/// does. First the contents are asked, then for each subject its bitmaps, its area of MSRs, its state and
/// that it has these for itself, then the plan and the events, and then the tables. What regions hold is let
/// go before the image's memory is made.
///
/// # Errors
/// Memory is refused.
pub fn verify(
    alloc: Global,
    expanded: &Expanded,
    things: Seq<Seq<u8>>,
    image: Parts,
) -> Result<Option<Fault>, NoMemory>
    requires { AreOfFiles expanded.now.lawful things }
    ensures verdict { IfOk result (λ o. (files : Held) → things ≡ thing_bytes files expanded.now.lawful → IsVerdict (source_of expanded.now.lawful) files image o) }
{
    let owner = contents_fault(alloc, expanded, things.items(), &image)?;
    drop(things);
    if let Some(owner) = owner {
        return Ok(Some(Fault::Fails {
            condition: Condition::Contents,
            owner: Owner::Named(owner),
        }));
    }
    if let Some(fault) = kept_fault(alloc, expanded, &image)? {
        return Ok(Some(fault));
    }
    tables_fault(alloc, expanded, image)
}

/// What a verdict tells.
pub fn verdicts_tell()
    // Without a fault the image is sound, where the files of contents are held.
    ensures sound { (p : Source) (files : Held) (i : Image) → IsLawful p → IsParts i → AreFilesHeld p files → IsVerdict p files i None → IsSound p files i }
    // Any fault but that a table is read on two paths tells that it isn't.
    ensures unsound { (p : Source) (files : Held) (i : Image) (f : Fault) → IsVerdict p files i (Some f) → IsSound p files i → IsTwice f }
    // A sound image no table of which is read on two paths has no fault.
    ensures complete { (p : Source) (files : Held) (i : Image) (o : Option Fault) → IsVerdict p files i o → IsSound p files i → HasOnePathPerTable i → o ≡ None }
    // There is one verdict.
    ensures one { (p : Source) (files : Held) (i : Image) (a b : Option Fault) → IsVerdict p files i a → IsVerdict p files i b → a ≡ b }
{}
