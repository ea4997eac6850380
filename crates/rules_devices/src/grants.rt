//! Rule 9: each range of a device's memory, each of its ranges of ports and each of its interrupt
//! lines is granted once at most.
ghost use Rattle.std.specs.Prelude.{◌≡◌, ◌<◌, [], length, map, replicate, nat_le, slice_index, slice_index_or, IfOk, OnOk};
ghost use Rattle.std.specs.List.{All, enumerate_from, sum_by};
ghost use Rattle.muen_num.specs.Search.{first_in};
ghost use Rattle.policy_lawful.specs.MoreRules.{offence_9};
ghost use Rattle.policy_lawful.specs.Offences.{two};
ghost use Rattle.policy_lawful.specs.Resolution.{source_of};
ghost use Rattle.rules_devices.specs.Grants.{TableAdds, AreGrantCounts, IsOnDevices, part_names, times_by_use, times_by_subject, memory_counted, ports_counted, irqs_counted, device_counted};
ghost use Rattle.rules_devices.specs.declared.resource.Resource.TheVariants.{Memory, IoPorts, Irqs};

use crate::resource::Resource;
use muen_num::{Name, NoMemory, first_numbered};
use policy_lawful::resolved::{DeviceUse, Subject};
use policy_lawful::source::Device;
use policy_lawful::{Counts, Offence};
use policy_views::Linked;
use std::alloc::{AllocError, Global};

// Counts of all devices, none of whose parts was met.
fn zeros(alloc: Global, resource: Resource, devices: &[Device]) -> Result<Vec<Counts>, NoMemory>
    ensures { IfOk result (λ v. v.items ≡ map (λ d. replicate (length (part_names resource d)) 0) devices.now) }
{
    let mut table = Vec::new(alloc);
    for device in devices {
        table.push(Counts::zeros(alloc, resource.count(device))?)?;
    }
    Ok(table)
}

// Counts on what a use grants.
#[tactic(auto, using(crate::proofs::GrantTables::adds_at))]
fn count_use(
    alloc: Global,
    resource: Resource,
    granted: &DeviceUse,
    table: &mut [Counts],
) -> Result<(), AllocError>
    requires { granted.now.device < length table.old }
    ensures { OnOk result (TableAdds table.old table.new (λ k j. times_by_use resource k j granted.now)) }
{
    let indexes = resource.indexes(alloc, granted)?;
    table[granted.device].count(&indexes);
    Ok(())
}

// Counts on what all uses of a subject grant.
#[tactic(auto, using(crate::proofs::GrantTables::uses_none, crate::proofs::GrantTables::adds_use))]
fn count_uses(
    alloc: Global,
    resource: Resource,
    uses: &[DeviceUse],
    table: &mut [Counts],
) -> Result<(), AllocError>
    requires { All (λ u. u.device < length table.old) uses.now }
    ensures { OnOk result (TableAdds table.old table.new (λ k j. sum_by (times_by_use resource k j) uses.now)) }
{
    for granted in uses {
        count_use(alloc, resource, granted, table)?;
    }
    Ok(())
}

// Counts on what all subjects are granted.
#[tactic(auto, using(crate::proofs::GrantTables::subjects_none, crate::proofs::GrantTables::adds_subject))]
fn count_subjects(
    alloc: Global,
    resource: Resource,
    subjects: &[Subject],
    table: &mut [Counts],
) -> Result<(), AllocError>
    requires { All (IsOnDevices (length table.old)) subjects.now }
    ensures { OnOk result (TableAdds table.old table.new (λ k j. sum_by (times_by_subject resource k j) subjects.now)) }
{
    for subject in subjects {
        count_uses(alloc, resource, subject.devices.items(), table)?;
    }
    Ok(())
}

// How often each part of each device is granted.
#[tactic(auto, using(crate::proofs::GrantTables::are_times))]
fn table_of(
    alloc: Global,
    resource: Resource,
    devices: &[Device],
    subjects: &[Subject],
) -> Result<Vec<Counts>, NoMemory>
    requires { All (IsOnDevices (length devices.now)) subjects.now }
    ensures { IfOk result (λ v. AreGrantCounts resource devices.now subjects.now v.items) }
{
    let mut table = zeros(alloc, resource, devices)?;
    count_subjects(alloc, resource, subjects, &mut table)?;
    Ok(table)
}

// Whether a part of a device was met once at most.
fn is_once(table: &[Counts], index: usize, part: usize) -> bool
    ensures { result ≡ nat_le (slice_index (slice_index_or table.now index []) part) 1 }
{
    match table.get(index) {
        None => true,
        Some(counts) => counts.times(part) <= 1,
    }
}

fn of_part(device: Name, part: Name) -> Offence
    ensures { result ≡ two device part }
{
    Offence {
        first: device,
        second: part,
    }
}

// The first range of a device's memory that was met twice.
fn memory_twice(table: &[Counts], index: usize, device: &Device) -> Option<Offence>
    ensures { result ≡ memory_counted table.now index device.now }
{
    first_numbered(
        device.memory.items(),
        |part, memory| of_part(device.name, memory.name).unless(is_once(table, index, part)),
    )
}

// The first range of its ports.
fn ports_twice(table: &[Counts], index: usize, device: &Device) -> Option<Offence>
    ensures { result ≡ ports_counted table.now index device.now }
{
    first_numbered(
        device.io_ports.items(),
        |part, ports| of_part(device.name, ports.name).unless(is_once(table, index, part)),
    )
}

// The first of its interrupt lines.
fn irq_twice(table: &[Counts], index: usize, device: &Device) -> Option<Offence>
    ensures { result ≡ irqs_counted table.now index device.now }
{
    first_numbered(
        device.irqs.items(),
        |part, irq| of_part(device.name, irq.name).unless(is_once(table, index, part)),
    )
}

// The counts of all parts of all devices.
#[derive(Drop)]
struct Grants {
    memory: Vec<Counts>,
    io_ports: Vec<Counts>,
    irqs: Vec<Counts>,
}

impl Grants {
    fn of(alloc: Global, devices: &[Device], subjects: &[Subject]) -> Result<Grants, NoMemory>
        requires { All (IsOnDevices (length devices.now)) subjects.now }
        ensures memory { IfOk result (λ g. AreGrantCounts Memory devices.now subjects.now g.memory.items) }
        ensures io_ports { IfOk result (λ g. AreGrantCounts IoPorts devices.now subjects.now g.io_ports.items) }
        ensures irqs { IfOk result (λ g. AreGrantCounts Irqs devices.now subjects.now g.irqs.items) }
    {
        Ok(Grants {
            memory: table_of(alloc, Resource::Memory, devices, subjects)?,
            io_ports: table_of(alloc, Resource::IoPorts, devices, subjects)?,
            irqs: table_of(alloc, Resource::Irqs, devices, subjects)?,
        })
    }

    // The first part of a device that was met twice.
    fn of_device(&self, index: usize, device: &Device) -> Option<Offence>
        ensures { result ≡ device_counted self.now.memory.items self.now.io_ports.items self.now.irqs.items (index, device.now) }
    {
        if let Some(offence) = memory_twice(&self.memory, index, device) {
            return Some(offence);
        }
        if let Some(offence) = ports_twice(&self.io_ports, index, device) {
            return Some(offence);
        }
        irq_twice(&self.irqs, index, device)
    }

    // The first of all devices.
    fn of_devices(&self, devices: &[Device]) -> Option<Offence>
        ensures { result ≡ first_in (device_counted self.now.memory.items self.now.io_ports.items self.now.irqs.items) (enumerate_from 0 devices.now) }
    {
        first_numbered(devices, |index, device| self.of_device(index, device))
    }
}

/// The first offence against rule 9, if any: a device, and what of it is granted more than once.
///
/// Answers `NoMemory` where memory was refused.
#[tactic(auto, using(crate::proofs::GrantsByIndex::uses_on_devices, crate::proofs::GrantsByIndex::grants_by_index))]
pub fn granted_once(alloc: Global, policy: &Linked) -> Result<Option<Offence>, NoMemory>
    ensures { IfOk result (λ o. o ≡ offence_9 (source_of policy.now)) }
{
    let grants = Grants::of(alloc, policy.devices(), policy.subjects())?;
    Ok(grants.of_devices(policy.devices()))
}
