//! The windows of the devices that stand in domains.
ghost use Rattle.std.specs.Prelude.{◌≡◌, IfOk, option_map, position};
ghost use Rattle.std.specs.List.{filter_map, flat_map, list_any};
ghost use Rattle.std.specs.List.Sorted.{IsNonDecreasingBy, IsPermutation};
ghost use Rattle.std.specs.Str.{bytes_eq};
ghost use Rattle.dma_map.specs.DmaMapText.{device_windows, windows_shown};
ghost use Rattle.dma_map.specs.Rows.{row};
ghost use Rattle.dma_map.specs.Told.{HaveTextOf};
ghost use Rattle.policy_lawful.specs.Dma.{domain_of};
ghost use Rattle.policy_lawful.specs.Resolution.{source_of};

use crate::window::DeviceWindow;
use muen_num::{Name, NoMemory, Seq, Tag, TagPart};
use policy_lawful::Resolved;
use policy_lawful::source::{Device, Domain, Mapping, Region};
use region_alloc::Placed;
use std::alloc::{AllocError, Global};

// The number of the region of this name.
fn region_number(memory: &[Region], name: &Name) -> Option<usize>
    ensures { result ≡ position (λ r. bytes_eq r.name name.now) memory.now }
{
    memory.iter().position(|region| region.name == *name)
}

// A window of a domain, as the device sees it.
fn row(placed: &Placed, device: Name, mapping: &Mapping) -> Option<DeviceWindow>
    ensures { result ≡ row placed.now device mapping.now }
{
    let memory = placed.expanded().lawful().resolved().memory();
    let number = region_number(memory, &mapping.region)?;
    Some(DeviceWindow {
        device,
        addr: mapping.virtual_address,
        physical: placed.addresses()[number],
        size: memory[number].size,
        rights: mapping.rights,
        region: Tag {
            owner: mapping.region,
            part: TagPart::Whole,
        },
    })
}

// The windows of a domain, as the policy has them.
fn in_turn(
    alloc: Global,
    placed: &Placed,
    device: Name,
    domain: &Domain,
) -> Result<Vec<DeviceWindow>, AllocError>
    ensures { IfOk result (λ v. v.items ≡ filter_map (row placed.now device) domain.now.memory) }
{
    domain
        .memory
        .items()
        .iter()
        .filter_map(|mapping| row(placed, device, mapping))
        .collect(alloc)
}

// These windows, none at a lower address than one before it.
fn rising(windows: Vec<DeviceWindow>) -> Result<Vec<DeviceWindow>, NoMemory>
    ensures moved { IfOk result (λ v. IsPermutation windows.items v.items) }
    ensures rising { IfOk result (λ v. IsNonDecreasingBy (λ w. w.addr) v.items) }
{
    let mut rising = windows;
    rising.sort_by_key(|window| window.addr)?;
    Ok(rising)
}

// Whether a device stands in a domain, by its name.
fn stands_in(domain: &Domain, device: &Name) -> bool
    ensures { result ≡ list_any (λ name. bytes_eq name device.now) domain.now.devices }
{
    domain.devices.items().iter().any(|name| *name == *device)
}

// The domain in which a device stands.
#[tactic(auto, unfolding(policy_lawful::specs::Resolution::source_of))]
fn domain_of<'a>(policy: &'a Resolved, device: &Name) -> Option<&'a Domain>
    ensures { option_map (λ d. d.now) result ≡ domain_of (source_of policy.now) device.now }
{
    policy
        .device_domains()
        .iter()
        .find(|domain| stands_in(domain, device))
}

// The windows of a device by ascending address.
fn windows_shown(
    alloc: Global,
    placed: &Placed,
    device: Name,
) -> Result<Seq<DeviceWindow>, NoMemory>
    ensures { IfOk result (λ windows. windows ≡ windows_shown placed.now device) }
{
    let policy = placed.expanded().lawful().resolved();
    let domain = match domain_of(policy, &device) {
        Some(domain) => domain,
        None => return Ok(Seq::new(alloc)),
    };
    let windows = in_turn(alloc, placed, device, domain)?;
    Ok(Seq::of(rising(windows)?))
}

// The windows of these devices, one after another.
fn windows_of(
    alloc: Global,
    placed: &Placed,
    devices: &[Device],
) -> Result<Seq<DeviceWindow>, NoMemory>
    ensures { IfOk result (λ windows. windows ≡ flat_map (λ d. windows_shown placed.now d.name) devices.now) }
{
    let mut windows = Vec::new(alloc);
    for device in devices {
        let more = windows_shown(alloc, placed, device.name)?;
        windows.extend_from_slice(more.items())?;
    }
    Ok(Seq::of(windows))
}

/// The windows through which a policy's devices reach memory by themselves: device by device in the
/// policy's order, each device's by ascending address. A device that stands in no domain has none.
///
/// # Errors
/// Memory is refused.
#[tactic(auto, unfolding(crate::specs::DmaMapText::device_windows))]
pub fn device_windows(alloc: Global, placed: &Placed) -> Result<Seq<DeviceWindow>, NoMemory>
    ensures are { IfOk result (λ windows. windows ≡ device_windows placed.now) }
    // Their text follows from the policy and the addresses of its regions.
    ensures text { IfOk result (HaveTextOf placed.now) }
{
    let policy = placed.expanded().lawful().resolved();
    windows_of(alloc, placed, policy.devices())
}
