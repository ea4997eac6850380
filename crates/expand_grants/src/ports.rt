//! The ports that are granted to a subject.
ghost use Rattle.std.specs.Prelude.{◌≡◌, ◌++◌, true, IfOk};
ghost use Rattle.std.specs.List.{flat_map, list_all};
ghost use Rattle.expand_grants.specs.ByIndex.{fits_device, fits_ports, range_at, ranges_at};
ghost use Rattle.expand_grants.specs.Resources.{port_range_of};

use crate::append::push_some;
use muen_num::{NoMemory, Seq};
use policy_lawful::PortRange;
use policy_lawful::resolved::DeviceUse;
use policy_lawful::source::{Device, Ports};
use std::alloc::Global;

fn range(ports: &Ports) -> PortRange
    requires { fits_ports ports.now ≡ true }
    ensures { result ≡ port_range_of ports.now }
{
    PortRange {
        start: ports.start as u16,
        end: ports.end as u16,
    }
}

// The range at an index of the device at an index.
fn range_at(devices: &[Device], device: usize, index: usize) -> Option<PortRange>
    requires { list_all fits_device devices.now ≡ true }
    ensures { result ≡ range_at devices.now device index }
{
    let ports = devices.get(device)?.io_ports.items().get(index)?;
    Some(range(ports))
}

// Appends the ranges that a use of a device names.
fn add_device(
    ranges: &mut Vec<PortRange>,
    devices: &[Device],
    used: &DeviceUse,
) -> Result<(), NoMemory>
    requires { list_all fits_device devices.now ≡ true }
    ensures { IfOk result (λ _. ranges.new.items ≡ ranges.old.items ++ ranges_at devices.now used.now) }
{
    for index in used.io_ports.items() {
        push_some(ranges, range_at(devices, used.device, *index))?;
    }
    Ok(())
}

/// The ranges that these uses of devices name, in order.
///
/// Answers `NoMemory` where memory was refused.
pub(crate) fn port_ranges(
    alloc: Global,
    devices: &[Device],
    uses: &[DeviceUse],
) -> Result<Seq<PortRange>, NoMemory>
    requires { list_all fits_device devices.now ≡ true }
    ensures { IfOk result (λ ranges. ranges ≡ flat_map (ranges_at devices.now) uses.now) }
{
    let mut ranges = Vec::new(alloc);
    for used in uses {
        add_device(&mut ranges, devices, used)?;
    }
    Ok(Seq::of(ranges))
}
