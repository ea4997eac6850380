//! What an image's plan and events first differ in from a policy's.
ghost use Rattle.std.specs.Prelude.{◌≡◌, IfOk, Option};
ghost use Rattle.image_checks.specs.PlanFault.{HasAsMany, HasSubjects, IsPlanFault};
ghost use Rattle.image_checks.specs.declared.plan_owner.PlanOwner.{PlanOwner};
ghost use Rattle.image_pack.specs.declared.parts.Image.{Image};
ghost use Rattle.image_soundness.specs.Sound.{HasPlanAndEvents};
ghost use Rattle.policy_lawful.specs.Resolution.{source_of};
ghost use Rattle.policy_lawful.specs.source.Source.{Source};

use crate::devices::device_fault;
use crate::events::subject_fault;
use crate::plan::has_plan;
use expand_kernel::Expanded;
use image_pack::Parts;
use muen_num::NoMemory;
use std::alloc::Global;

/// What an image's plan and events first differ in from a policy's.
#[derive(Clone, Copy, Debug)]
pub enum PlanOwner {
    /// There are not as many subjects, or the CPUs, the plan or the region of the scheduler differ.
    Plan,
    /// The subject at this index: its name, CPU or group, or what it raises.
    Subject(usize),
    /// The device at this index, in the image or in the policy.
    Device(usize),
}

// What differs where there are as many subjects, and each is the policy's.
fn beside_subjects(
    alloc: Global,
    expanded: &Expanded,
    image: &Parts,
) -> Result<Option<PlanOwner>, NoMemory>
    requires many { HasAsMany (source_of expanded.now.lawful) image.now }
    requires subjects { HasSubjects (source_of expanded.now.lawful) image.now }
    ensures { IfOk result (IsPlanFault (source_of expanded.now.lawful) image.now) }
{
    if !has_plan(alloc, expanded.lawful(), image)? {
        return Ok(Some(PlanOwner::Plan));
    }
    match device_fault(alloc, expanded, image)? {
        None => Ok(None),
        Some(index) => Ok(Some(PlanOwner::Device(index))),
    }
}

/// What an image's plan and events first differ in from the policy's: how many subjects there are,
/// then each subject in order, then the CPUs, the plan and the region of the scheduler, then each
/// device in order. `None` where they are the policy's.
///
/// # Errors
/// Memory is refused.
pub fn plan_fault(
    alloc: Global,
    expanded: &Expanded,
    image: &Parts,
) -> Result<Option<PlanOwner>, NoMemory>
    ensures { IfOk result (IsPlanFault (source_of expanded.now.lawful) image.now) }
{
    let lawful = expanded.lawful();
    if image.image().subjects.len() != lawful.resolved().subjects().len() {
        return Ok(Some(PlanOwner::Plan));
    }
    match subject_fault(alloc, expanded, image)? {
        None => beside_subjects(alloc, expanded, image),
        Some(index) => Ok(Some(PlanOwner::Subject(index))),
    }
}

/// What an answer tells.
#[tactic(auto, using(crate::proofs::PlanFaults::a_plan_fault_is_none_of_a_sound_image, crate::proofs::PlanFaults::one_plan_fault))]
pub fn plan_faults_tell()
    // Where an owner is found, plan and events are not the policy's.
    ensures apart { (p : Source) (i : Image) (owner : PlanOwner) → IsPlanFault p i (Some owner) → HasPlanAndEvents p i → ⊥ }
    // There is one answer for a policy and an image.
    ensures one { (p : Source) (i : Image) (a b : Option PlanOwner) → IsPlanFault p i a → IsPlanFault p i b → a ≡ b }
{}
