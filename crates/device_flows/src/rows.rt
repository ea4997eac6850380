//! For each subject and each device, to which of these it leads directly.
ghost use Rattle.std.specs.Prelude.{◌≡◌, ◌++◌, map, slice_get, slice_index_or, Some, IfOk};
ghost use Rattle.policy_lawful.specs.Resolution.{source_of, subject_named};
ghost use Rattle.flow_report.specs.Sets.{direct_flows_of};
ghost use Rattle.device_flows.specs.ByIndex.{device_row, row_of, subject_row};
ghost use Rattle.device_flows.specs.Ends.{are_together, ends_of, hears, tells};

use crate::touch::{are_together, hears, tells};
use flow_report::{direct_flows, marks_at};
use muen_num::{NoMemory, Seq};
use policy_lawful::resolved::Subject;
use policy_lawful::source::Device;
use policy_lawful::{Lawful, Resolved};
use std::alloc::{AllocError, Global};

// The devices that the subject at an index tells.
fn told_devices(
    alloc: Global,
    policy: &Resolved,
    index: usize,
    subject: &Subject,
) -> Result<Vec<bool>, NoMemory>
    requires { slice_get policy.now.subjects index ≡ Some subject.now }
    ensures { IfOk result (λ v. v.items ≡ map (tells (source_of policy.now) (subject_named policy.now subject.now)) policy.now.devices) }
{
    let mut told = Vec::new(alloc);
    for (number, device) in policy.devices().iter().enumerate() {
        told.push(tells(policy, index, subject, number, device))?;
    }
    Ok(told)
}

// The subjects that hear the device at an index.
fn hearers(
    alloc: Global,
    policy: &Resolved,
    number: usize,
    device: &Device,
) -> Result<Vec<bool>, NoMemory>
    requires { slice_get policy.now.devices number ≡ Some device.now }
    ensures { IfOk result (λ v. v.items ≡ map (λ s. hears (source_of policy.now) (subject_named policy.now s) device.now) policy.now.subjects) }
{
    let mut hear = Vec::new(alloc);
    for (index, subject) in policy.subjects().iter().enumerate() {
        hear.push(hears(policy, index, subject, number, device))?;
    }
    Ok(hear)
}

// The devices that stand in a domain with this one.
fn companions(alloc: Global, policy: &Resolved, device: &Device) -> Result<Vec<bool>, AllocError>
    ensures { IfOk result (λ v. v.items ≡ map (are_together (source_of policy.now) device.now) policy.now.devices) }
{
    let devices = policy.devices();
    devices
        .iter()
        .map(|other| are_together(policy, device, other))
        .collect(alloc)
}

/// Marks, and others behind them.
pub(crate) fn joined(alloc: Global, front: &[bool], back: &[bool]) -> Result<Vec<bool>, AllocError>
    ensures { IfOk result (λ v. v.items ≡ front.now ++ back.now) }
{
    let mut marks = Vec::new(alloc);
    marks.extend_from_slice(front)?;
    marks.extend_from_slice(back)?;
    Ok(marks)
}

// The subjects and devices to which the subject at an index leads.
fn subject_row(
    alloc: Global,
    policy: &Resolved,
    direct: &[Seq<bool>],
    index: usize,
    subject: &Subject,
) -> Result<Vec<bool>, NoMemory>
    requires subject { slice_get policy.now.subjects index ≡ Some subject.now }
    requires direct { direct.now ≡ direct_flows_of (source_of policy.now) }
    ensures { IfOk result (λ v. v.items ≡ subject_row policy.now subject.now) }
{
    let told = told_devices(alloc, policy, index, subject)?;
    let row = joined(alloc, marks_at(direct, index), &told)?;
    Ok(row)
}

// The subjects and devices to which the device at an index leads.
fn device_row(
    alloc: Global,
    policy: &Resolved,
    number: usize,
    device: &Device,
) -> Result<Vec<bool>, NoMemory>
    requires { slice_get policy.now.devices number ≡ Some device.now }
    ensures { IfOk result (λ v. v.items ≡ device_row policy.now device.now) }
{
    let hear = hearers(alloc, policy, number, device)?;
    let together = companions(alloc, policy, device)?;
    let row = joined(alloc, &hear, &together)?;
    Ok(row)
}

fn subject_rows(
    alloc: Global,
    policy: &Resolved,
    direct: &[Seq<bool>],
) -> Result<Vec<Seq<bool>>, NoMemory>
    requires { direct.now ≡ direct_flows_of (source_of policy.now) }
    ensures { IfOk result (λ v. v.items ≡ map (subject_row policy.now) policy.now.subjects) }
{
    let mut rows = Vec::new(alloc);
    for (index, subject) in policy.subjects().iter().enumerate() {
        rows.push(Seq::of(subject_row(alloc, policy, direct, index, subject)?))?;
    }
    Ok(rows)
}

// These rows, and behind them those of the devices.
fn with_device_rows(
    alloc: Global,
    policy: &Resolved,
    rows: Vec<Seq<bool>>,
) -> Result<Vec<Seq<bool>>, NoMemory>
    ensures { IfOk result (λ v. v.items ≡ rows.items ++ map (device_row policy.now) policy.now.devices) }
{
    let mut rows = rows;
    for (number, device) in policy.devices().iter().enumerate() {
        rows.push(Seq::of(device_row(alloc, policy, number, device)?))?;
    }
    Ok(rows)
}

/// For each subject and then each device the marks of those to which it leads directly.
///
/// Answers `NoMemory` where memory was refused.
pub(crate) fn rows(alloc: Global, policy: &Lawful) -> Result<Vec<Seq<bool>>, NoMemory>
    ensures { IfOk result (λ v. v.items ≡ map (row_of policy.now) (ends_of (source_of policy.now))) }
{
    let direct = direct_flows(alloc, policy)?;
    let rows = subject_rows(alloc, policy.resolved(), &direct)?;
    let rows = with_device_rows(alloc, policy.resolved(), rows)?;
    Ok(rows)
}
