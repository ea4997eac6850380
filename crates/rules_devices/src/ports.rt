//! Rule 10: each range of I/O ports is one, and no two share a port.
ghost use Rattle.std.specs.Prelude.{◌≡◌, ◌++◌, position, ◌==◌, map, IfOk, OnOk};
ghost use Rattle.std.specs.List.{flat_map, position_or_len};
ghost use Rattle.policy_lawful.specs.MoreRules.{offence_10};
ghost use Rattle.policy_lawful.specs.Resolution.{source_of};
ghost use Rattle.rules_devices.specs.Ranges.{port_extent};
ghost use Rattle.policy_lawful.specs.Ranges.{is_port_range};

use muen_num::NoMemory;
use muen_num::limits::LAST_PORT;
use policy_lawful::source::{Device, Ports};
use policy_lawful::{Extent, Offence};
use policy_views::Linked;
use rules_extents::first_fault;
use std::alloc::Global;

// Whether both ends are ports, the first one not behind the last.
fn is_port_range(ports: &Ports) -> bool
    ensures { result ≡ is_port_range ports.now }
{
    ports.start <= ports.end && ports.end <= LAST_PORT
}

// As a range of addresses; empty where it isn't a range of ports.
fn port_extent(ports: &Ports) -> Extent
    ensures { result ≡ port_extent ports.now }
{
    let size = if is_port_range(ports) {
        ports.end - ports.start + 1
    } else {
        0
    };
    Extent {
        name: ports.name,
        address: ports.start,
        size,
    }
}

// Notes these ranges of ports.
fn push_ports(extents: &mut Vec<Extent>, ports: &[Ports]) -> Result<(), NoMemory>
    ensures { OnOk result (extents.new.items ≡ extents.old.items ++ map port_extent ports.now) }
{
    for range in ports {
        extents.push(port_extent(range))?;
    }
    Ok(())
}

// The ranges of ports of all devices.
#[tactic(auto, using(crate::proofs::PortsByExtent::ports_more))]
fn port_extents(alloc: Global, devices: &[Device]) -> Result<Vec<Extent>, NoMemory>
    ensures { IfOk result (λ v. v.items ≡ map port_extent (flat_map (λ d. d.io_ports) devices.now)) }
{
    let mut extents = Vec::new(alloc);
    for device in devices {
        push_ports(&mut extents, device.io_ports.items())?;
    }
    Ok(extents)
}

// The index of the first empty range.
fn first_empty(extents: &[Extent]) -> Option<usize>
    ensures { result ≡ position (λ e. e.size == 0) extents.now }
{
    extents.iter().position(|extent| extent.size == 0)
}

// How many of the first ranges aren't empty, where the next one is.
#[tactic(auto, using(policy_lawful::proofs::Positions::position_found, policy_lawful::proofs::Positions::position_none))]
fn count_sound(extents: &[Extent]) -> usize
    ensures { result ≡ position_or_len (λ e. e.size == 0) extents.now }
{
    match first_empty(extents) {
        Some(index) => index,
        None => extents.len(),
    }
}

/// The first offence against rule 10, if any: a range of ports that isn't one, alone, or two that
/// share a port.
///
/// Answers `NoMemory` where memory was refused.
#[tactic(auto, using(crate::proofs::PortsByExtent::sound_within, crate::proofs::PortsByExtent::ports_by_extent))]
pub fn port_ranges(alloc: Global, policy: &Linked) -> Result<Option<Offence>, NoMemory>
    ensures { IfOk result (λ o. o ≡ offence_10 (source_of policy.now)) }
{
    let extents = port_extents(alloc, policy.devices())?;
    first_fault(alloc, &extents, count_sound(&extents))
}
