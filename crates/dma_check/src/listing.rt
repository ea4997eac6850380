//! The file's list of devices, against the policy's.
ghost use Rattle.std.specs.Prelude.{◌≡◌, ◌<◌, ◌==◌, option_map};
ghost use Rattle.std.specs.List.{find, list_any};
ghost use Rattle.std.specs.Str.{bytes_eq};
ghost use Rattle.dma_check.specs.Sources.{device_of, is_source, source_id};
ghost use Rattle.dma_check.specs.Verdict.{is_listed, is_of_policy, listed_source, listing_fault};
ghost use Rattle.dma_tables.specs.declared.file.DmaDevice.{DmaDevice};
ghost use Rattle.muen_num.specs.Search.{first_in, unless};
ghost use Rattle.policy_lawful.specs.Dma.{domain_of};
ghost use Rattle.policy_lawful.specs.Resolution.{source_of};
ghost use Rattle.policy_lawful.specs.source.Device.{Device};

use dma_tables::{DmaDevice, DmaFile};
use muen_num::limits::BDF_FUNCTIONS;
use muen_num::{Name, first};
use policy_lawful::Resolved;
use policy_lawful::source::{Bdf, Device, Domain};

// The source of a device of the file.
fn listed_source(device: DmaDevice) -> u32
    ensures value { result ≡ listed_source device }
    ensures small { result < 65536 }
{
    256 * u32::from(device.bus) + u32::from(device.devfn)
}

// Whether a place on the bus is this source.
fn is_at(source: u32, bdf: &Bdf) -> bool
    requires { source < 65536 }
    ensures { result ≡ (source_id bdf.now == source) }
{
    bdf.device < 65536
        && bdf.function < 65536
        && 256 * u64::from(bdf.bus) + (BDF_FUNCTIONS * bdf.device + bdf.function)
            == u64::from(source)
}

// Whether a device is this source.
fn is_source(source: u32, device: &Device) -> bool
    requires { source < 65536 }
    ensures { result ≡ is_source source device.now }
{
    match &device.bdf {
        None => false,
        Some(bdf) => is_at(source, bdf),
    }
}

/// The policy's device that is this source.
#[tactic(auto, unfolding(policy_lawful::specs::Resolution::source_of))]
pub(crate) fn device_of(policy: &Resolved, source: u32) -> Option<&Device>
    requires { source < 65536 }
    ensures { option_map (λ d. d.now) result ≡ device_of (source_of policy.now) source }
{
    policy.devices().iter().find(|d| is_source(source, d))
}

// Whether the policy's device that is a source of the list has its name there.
fn is_of_policy(policy: &Resolved, listed: &DmaDevice) -> bool
    ensures { result ≡ is_of_policy (source_of policy.now) listed.now }
{
    match device_of(policy, listed_source(*listed)) {
        None => false,
        Some(device) => device.name == listed.name,
    }
}

// Whether a device stands in a domain, by its name.
fn stands_in(domain: &Domain, device: &Name) -> bool
    ensures { result ≡ list_any (λ name. bytes_eq name device.now) domain.now.devices }
{
    domain.devices.items().iter().any(|name| *name == *device)
}

/// The domain in which a device stands.
#[tactic(auto, unfolding(policy_lawful::specs::Resolution::source_of))]
pub(crate) fn domain_of<'a>(policy: &'a Resolved, device: &Name) -> Option<&'a Domain>
    ensures { option_map (λ d. d.now) result ≡ domain_of (source_of policy.now) device.now }
{
    policy
        .device_domains()
        .iter()
        .find(|domain| stands_in(domain, device))
}

// The device of this name in the list.
fn named<'a>(devices: &'a [DmaDevice], name: &Name) -> Option<&'a DmaDevice>
    ensures { option_map (λ e. e.now) result ≡ find (λ (e : DmaDevice). bytes_eq e.name name.now) devices.now }
{
    devices.iter().find(|device| device.name == *name)
}

// Whether a device that stands in a domain has its name in the list.
fn is_listed(policy: &Resolved, file: &DmaFile, device: &Device) -> bool
    ensures { result ≡ is_listed (source_of policy.now) file.now device.now }
{
    match domain_of(policy, &device.name) {
        None => true,
        Some(_) => match named(file.devices.items(), &device.name) {
            None => false,
            Some(_) => true,
        },
    }
}

// The name of a device of the list, where the policy hasn't it at its source.
fn foreign(policy: &Resolved, device: &DmaDevice) -> Option<Name>
    ensures { result ≡ unless (is_of_policy (source_of policy.now) device.now) device.now.name }
{
    if is_of_policy(policy, device) {
        return None;
    }
    Some(device.name)
}

// The name of a device of the policy, where it stands in a domain and isn't in the list.
fn missing(policy: &Resolved, file: &DmaFile, device: &Device) -> Option<Name>
    ensures { result ≡ unless (is_listed (source_of policy.now) file.now device.now) device.now.name }
{
    if is_listed(policy, file, device) {
        return None;
    }
    Some(device.name)
}

// The first device of the list that the policy hasn't at its source.
fn first_foreign(policy: &Resolved, devices: &[DmaDevice]) -> Option<Name>
    ensures { result ≡ first_in (λ (e : DmaDevice). unless (is_of_policy (source_of policy.now) e) e.name) devices.now }
{
    first(devices, |device| foreign(policy, device))
}

// The first of these devices that stands in a domain and isn't in the list.
fn first_missing(policy: &Resolved, file: &DmaFile, devices: &[Device]) -> Option<Name>
    ensures { result ≡ first_in (λ (d : Device). unless (is_listed (source_of policy.now) file.now d) d.name) devices.now }
{
    first(devices, |device| missing(policy, file, device))
}

/// The first device of the list of a file of tables that the policy doesn't have at that source, or else
/// the policy's first device that stands in a domain and isn't in the list; `None` where there is neither.
#[tactic(auto, unfolding(crate::specs::Verdict::listing_fault, policy_lawful::specs::Resolution::source_of))]
pub fn listing_fault(policy: &Resolved, file: &DmaFile) -> Option<Name>
    ensures { result ≡ listing_fault (source_of policy.now) file.now }
{
    if let Some(foreign) = first_foreign(policy, file.devices.items()) {
        return Some(foreign);
    }
    first_missing(policy, file, policy.devices())
}
