//! The plan as a whole.
ghost use Rattle.std.specs.Prelude.{◌≡◌, true, IfOk};
ghost use Rattle.std.specs.List.{list_all};
ghost use Rattle.policy_lawful.specs.Resolution.{source_of};
ghost use Rattle.plan_emit.specs.Emitted.{fits_group, fits_major, plan_of};
ghost use Rattle.image_soundness.specs.PlanOf.{IsPlanOf};

use crate::frames::major_parts;
use crate::groups::group_parts;
use frame_clock::Plan;
use muen_num::NoMemory;
use policy_lawful::Lawful;
use policy_lawful::resolved::{Group, MajorFrame};
use std::alloc::Global;

// The plan of these groups and major frames for so many CPUs.
fn plan_of(
    alloc: Global,
    count: u64,
    groups: &[Group],
    majors: &[MajorFrame],
) -> Result<Plan, NoMemory>
    requires groups { list_all fits_group groups.now ≡ true }
    requires majors { list_all fits_major majors.now ≡ true }
    ensures { IfOk result (λ plan. plan ≡ plan_of count groups.now majors.now) }
{
    Ok(Plan {
        groups: group_parts(alloc, groups)?,
        majors: major_parts(alloc, count, majors)?,
    })
}

/// The scheduling plan of a lawful policy.
///
/// Each group is on its CPU, and its first listed member is active at the start. Each major frame
/// has the minor frames of each CPU, from CPU 0 on, and as many ticks as they have on any one of
/// the CPUs.
#[tactic(auto, using(crate::proofs::PlanOfPolicy::lawful_groups_fit, crate::proofs::PlanOfPolicy::lawful_majors_fit, crate::proofs::PlanOfPolicy::lawful_plan))]
pub fn plan(alloc: Global, lawful: &Lawful) -> Result<Plan, NoMemory>
    ensures { IfOk result (IsPlanOf (source_of lawful.now)) }
{
    let policy = lawful.resolved();
    let scheduling = policy.scheduling();
    plan_of(
        alloc,
        policy.processor().logical_cpus,
        scheduling.groups.items(),
        scheduling.major_frames.items(),
    )
}
