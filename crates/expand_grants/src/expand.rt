//! The grants and routes of a lawful policy.
ghost use Rattle.std.specs.Prelude.{◌≡◌, true, slice_get, Some, IfOk};
ghost use Rattle.std.specs.List.{list_all};
ghost use Rattle.expand_grants.specs.ByIndex.{fits_device, all_routes};
ghost use Rattle.expand_grants.specs.Grants.{AreGrants, AreGrantsOf, AreRoutes};
ghost use Rattle.expand_grants.specs.Kept.{IsKept};
ghost use Rattle.expand_grants.specs.Raising.{all_readers, all_targets};
ghost use Rattle.policy_lawful.specs.Lawful.{IsLawful};
ghost use Rattle.policy_lawful.specs.Resolution.{source_of};

use crate::events::entries_of;
use crate::granted::{Grants, Route};
use crate::interrupts::all_routes;
use crate::msrs::msr_grants;
use crate::ports::port_ranges;
use crate::reached::{Reached, all_readers, all_targets};
use crate::windows::windows_of;
use muen_num::{NoMemory, Seq};
use policy_lawful::resolved::Subject;
use policy_lawful::{Lawful, Resolved};
use std::alloc::Global;

// What is granted to the subject at an index, where this is reached by events and by channels.
fn of_subject(
    alloc: Global,
    policy: &Resolved,
    targets: &[Reached],
    readers: &[Reached],
    index: usize,
    subject: &Subject,
) -> Result<Grants, NoMemory>
    requires at { slice_get policy.now.subjects index ≡ Some subject.now }
    requires kept { IsKept policy.now subject.now }
    requires devices { list_all fits_device policy.now.devices ≡ true }
    requires targets { targets.now ≡ all_targets policy.now.subjects }
    requires readers { readers.now ≡ all_readers policy.now }
    ensures { IfOk result (AreGrantsOf policy.now subject.now) }
{
    Ok(Grants {
        windows: windows_of(alloc, policy, subject.name, policy.views(index))?,
        ports: port_ranges(alloc, policy.devices(), subject.devices.items())?,
        msrs: msr_grants(alloc, subject.msrs.items())?,
        events: entries_of(alloc, policy, targets, readers, index, subject)?,
    })
}

fn of_subjects(
    alloc: Global,
    policy: &Resolved,
    targets: &[Reached],
    readers: &[Reached],
) -> Result<Seq<Grants>, NoMemory>
    requires lawful { IsLawful (source_of policy.now) }
    requires devices { list_all fits_device policy.now.devices ≡ true }
    requires targets { targets.now ≡ all_targets policy.now.subjects }
    requires readers { readers.now ≡ all_readers policy.now }
    ensures { IfOk result (AreGrants policy.now) }
{
    let mut grants = Seq::new(alloc);
    for (index, subject) in policy.subjects().iter().enumerate() {
        grants.push(of_subject(alloc, policy, targets, readers, index, subject)?)?;
    }
    Ok(grants)
}

/// What is granted to each subject, in the order of the subjects.
///
/// Answers `NoMemory` where memory was refused.
#[tactic(auto, using(crate::proofs::LawfulSubjects::targets_fit, crate::proofs::LawfulSubjects::channel_ends_fit, crate::proofs::LawfulSubjects::devices_fit))]
pub fn grants(alloc: Global, policy: &Lawful) -> Result<Seq<Grants>, NoMemory>
    ensures { IfOk result (AreGrants policy.now) }
{
    let resolved = policy.resolved();
    let targets = all_targets(alloc, resolved.subjects())?;
    let readers = all_readers(alloc, resolved)?;
    of_subjects(alloc, resolved, &targets, &readers)
}

/// Where the interrupts of devices go, each granted one once.
///
/// Answers `NoMemory` where memory was refused.
#[tactic(auto, using(crate::proofs::LawfulSubjects::uses_fit, crate::proofs::RoutesByIndex::routes_by_index))]
pub fn routes(alloc: Global, policy: &Lawful) -> Result<Seq<Route>, NoMemory>
    ensures { IfOk result (AreRoutes policy.now) }
{
    all_routes(alloc, policy.resolved().subjects())
}
