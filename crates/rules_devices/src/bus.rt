//! Bus, device and function numbers of devices on the PCI bus.
ghost use Rattle.std.specs.Prelude.{◌≡◌, ◌+◌, ◌*◌, Some, None, true, not, IfOk};
ghost use Rattle.std.specs.List.{filter_map};
ghost use Rattle.muen_num.specs.Search.{first_in, first_pair, unless};
ghost use Rattle.policy_lawful.specs.Domains.{is_bdf, same_bdf};
ghost use Rattle.policy_lawful.specs.Offences.{alone, two};
ghost use Rattle.rules_devices.specs.Domains.{bus_extent, bus_offence};

use muen_num::limits::{BDF_DEVICES, BDF_FUNCTIONS};
use muen_num::{NoMemory, first};
use policy_lawful::source::{Bdf, Device};
use policy_lawful::{Extent, Offence};
use rules_extents::first_overlap;
use std::alloc::{AllocError, Global};

// Whether there are such a device and function number on a bus.
fn is_possible(bdf: &Bdf) -> bool
    ensures { result ≡ is_bdf (Some bdf.now) }
{
    bdf.device < BDF_DEVICES && bdf.function < BDF_FUNCTIONS
}

// A device that is nowhere, or has numbers that there are.
fn is_bdf(device: &Device) -> bool
    ensures { result ≡ is_bdf device.now.bdf }
{
    match &device.bdf {
        None => true,
        Some(bdf) => is_possible(bdf),
    }
}

// The identifier of what comes from a bus, device and function number (Intel VT-d, source
// identifiers).
fn source_id(bdf: &Bdf) -> u64
    requires { is_bdf (Some bdf.now) ≡ true }
    ensures { result ≡ bdf.now.bus * 256 + bdf.now.device * 8 + bdf.now.function }
{
    u64::from(bdf.bus) * 256 + bdf.device * 8 + bdf.function
}

// A device's bus, device and function number as a range of one identifier, where there is one.
fn bus_extent(device: &Device) -> Option<Extent>
    ensures { result ≡ bus_extent device.now.name device.now.bdf }
{
    let bdf = device.bdf.as_ref()?;
    if !is_possible(bdf) {
        return None;
    }
    Some(Extent {
        name: device.name,
        address: source_id(bdf),
        size: 1,
    })
}

fn bus_extents(alloc: Global, devices: &[Device]) -> Result<Vec<Extent>, AllocError>
    ensures { IfOk result (λ v. v.items ≡ filter_map (λ d. bus_extent d.name d.bdf) devices.now) }
{
    devices.iter().filter_map(bus_extent).collect(alloc)
}

// The first device with a device or function number that there isn't.
fn impossible(devices: &[Device]) -> Option<Offence>
    ensures { result ≡ first_in (λ d. unless (is_bdf d.bdf) (alone d.name)) devices.now }
{
    first(
        devices,
        |device| Offence::alone(device.name).unless(is_bdf(device)),
    )
}

// The first two devices with the same bus, device and function number.
#[tactic(auto, using(crate::proofs::BusByExtent::bus_by_extent))]
fn shared(alloc: Global, devices: &[Device]) -> Result<Option<Offence>, NoMemory>
    requires { first_in (λ d. unless (is_bdf d.bdf) (alone d.name)) devices.now ≡ None }
    ensures { IfOk result (λ o. o ≡ first_pair (λ a b. unless (not (same_bdf a.bdf b.bdf)) (two a.name b.name)) devices.now) }
{
    let extents = bus_extents(alloc, devices)?;
    first_overlap(alloc, &extents)
}

/// The first device with a device or function number that there isn't, else the first two with the
/// same bus, device and function number.
pub(crate) fn bus_offence(alloc: Global, devices: &[Device]) -> Result<Option<Offence>, NoMemory>
    ensures { IfOk result (λ o. o ≡ bus_offence devices.now) }
{
    if let Some(offence) = impossible(devices) {
        return Ok(Some(offence));
    }
    shared(alloc, devices)
}
