//! Whether the plan of an image, its CPUs and the region of its scheduler are a policy's.
ghost use Rattle.std.specs.Prelude.{◌≡◌, length, IfOk};
ghost use Rattle.image_checks.specs.Firsts.{Decides};
ghost use Rattle.image_checks.specs.PlanFault.{HasChoice, HasPlan};
ghost use Rattle.policy_lawful.specs.Resolution.{IsResolved, source_of};

use crate::spans::has_tag;
use image_pack::{GroupPart, Image, Major, Parts, Plan};
use muen_num::{NoMemory, Tag, TagPart};
use plan_emit::plan;
use policy_lawful::Lawful;
use std::alloc::Global;

fn same_groups(a: &[GroupPart], b: &[GroupPart]) -> bool
    ensures { Decides (a.now ≡ b.now) result }
{
    a == b
}

fn same_majors(a: &[Major], b: &[Major]) -> bool
    ensures { Decides (a.now ≡ b.now) result }
{
    a == b
}

fn same_plan(a: &Plan, b: &Plan) -> bool
    ensures { Decides (a.now ≡ b.now) result }
{
    same_groups(a.groups.items(), b.groups.items())
        && same_majors(a.majors.items(), b.majors.items())
}

// Whether the region whose first byte chooses the next major frame is the policy's.
fn has_choice(lawful: &Lawful, image: &Image) -> bool
    requires { length image.now.contents ≡ length image.now.spans }
    ensures choice { Decides (HasChoice (source_of lawful.now) image.now) result }
    // Subjects have different names, since the policy's type says so.
    ensures resolved { IsResolved lawful.now }
{
    match (image.header.tau0, &lawful.resolved().scheduling().tau0) {
        (None, None) => true,
        (Some(number), Some(chooser)) => {
            let tag = Tag {
                owner: chooser.region,
                part: TagPart::Whole,
            };
            has_tag(image, number, &tag)
        }
        _ => false,
    }
}

/// Whether the CPUs of an image, its plan and the region of its scheduler are the policy's.
///
/// # Errors
/// Memory is refused.
pub(crate) fn has_plan(alloc: Global, lawful: &Lawful, parts: &Parts) -> Result<bool, NoMemory>
    ensures { IfOk result (Decides (HasPlan (source_of lawful.now) parts.now)) }
{
    let image = parts.image();
    if !has_choice(lawful, image) {
        return Ok(false);
    }
    let cpus = lawful.resolved().processor().logical_cpus;
    if u64::from(image.header.cpus) != cpus {
        return Ok(false);
    }
    // Since subjects have different names, there is one plan.
    let made = plan(alloc, lawful)?;
    Ok(same_plan(&made, &image.plan))
}
