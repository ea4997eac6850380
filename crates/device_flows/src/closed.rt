//! For each subject the set of those that can reach it where devices count.
ghost use Rattle.std.specs.Prelude.{◌≡◌, false, map, IfOk};
ghost use Rattle.std.specs.Str.{bytes_eq};
ghost use Rattle.policy_lawful.specs.Resolution.{source_of};
ghost use Rattle.device_flows.specs.ByIndex.{sets_after};
ghost use Rattle.device_flows.specs.DeviceFlows.{AreDeviceFlows, is_subject};
ghost use Rattle.device_flows.specs.Ends.{ends_of};

use crate::rows::{joined, rows};
use flow_report::{FlowSets, marks_after};
use muen_num::{Name, NoMemory, Seq};
use policy_lawful::resolved::Subject;
use policy_lawful::source::Device;
use policy_lawful::{Lawful, Resolved};
use std::alloc::{AllocError, Global};

fn named(alloc: Global, subjects: &[Subject], name: &Name) -> Result<Vec<bool>, AllocError>
    ensures { IfOk result (λ v. v.items ≡ map (λ s. bytes_eq s.name name.now) subjects.now) }
{
    subjects
        .iter()
        .map(|subject| subject.name == *name)
        .collect(alloc)
}

fn unmarked(alloc: Global, devices: &[Device]) -> Result<Vec<bool>, AllocError>
    ensures { IfOk result (λ v. v.items ≡ map (λ _. false) devices.now) }
{
    devices.iter().map(|_| false).collect(alloc)
}

// Among all subjects and devices the subject of this name alone.
fn alone_marked(alloc: Global, policy: &Resolved, name: &Name) -> Result<Vec<bool>, NoMemory>
    ensures { IfOk result (λ v. v.items ≡ map (is_subject name.now) (ends_of (source_of policy.now))) }
{
    let front = named(alloc, policy.subjects(), name)?;
    let back = unmarked(alloc, policy.devices())?;
    let marks = joined(alloc, &front, &back)?;
    Ok(marks)
}

// For each subject the set of those that reach it over so many steps at most.
fn sets_after(
    alloc: Global,
    policy: &Resolved,
    subjects: &[Subject],
    rows: &[Seq<bool>],
    rounds: usize,
) -> Result<Seq<Seq<bool>>, NoMemory>
    ensures { IfOk result (λ s. s ≡ sets_after policy.now subjects.now rows.now rounds) }
{
    let mut sets = Seq::new(alloc);
    for subject in subjects {
        let alone = alone_marked(alloc, policy, &subject.name)?;
        sets.push(Seq::of(marks_after(alloc, rows, alone, rounds)?))?;
    }
    Ok(sets)
}

/// For each subject all subjects that can reach it: itself, and those from which declared flows or flows
/// over devices lead to it, over any others and any devices.
///
/// A flow over devices leads from a subject to a device by the device's ports and memory, whichever
/// access the subject has, and by memory that the subject may write and the device may read by itself;
/// from a device to a subject by its ports, memory and interrupts, and by memory that the device may
/// write by itself and the subject sees; and between the devices of a domain.
///
/// Answers `NoMemory` where memory was refused.
pub fn device_flows(alloc: Global, policy: &Lawful) -> Result<FlowSets, NoMemory>
    ensures { IfOk result (AreDeviceFlows (source_of policy.now)) }
{
    let rows = rows(alloc, policy)?;
    let resolved = policy.resolved();
    let sets = sets_after(alloc, resolved, resolved.subjects(), &rows, rows.len())?;
    Ok(FlowSets::of(sets))
}
