//! The devices that stand in domains.
ghost use Rattle.std.specs.Prelude.{◌≡◌, ◌<◌, true, All, IfOk};
ghost use Rattle.std.specs.List.{filter_map, list_any};
ghost use Rattle.std.specs.Str.{bytes_eq};
ghost use Rattle.dma_emit.specs.Domains.{devfn_of, domain_device, domain_devices, domain_number};
ghost use Rattle.muen_num.specs.declared.limits.TheConstants.{BDF_DEVICES, BDF_FUNCTIONS};
ghost use Rattle.policy_lawful.specs.Domains.{is_bdf};
ghost use Rattle.policy_lawful.specs.Resolution.{source_of};

use dma_tables::DmaDevice;
use muen_num::Name;
use muen_num::limits::BDF_FUNCTIONS;
use policy_lawful::Resolved;
use policy_lawful::source::{Bdf, Device, Domain};
use std::alloc::{AllocError, Global};

/// A device that stands in a domain.
#[derive(Clone, Copy, Debug)]
pub struct DomainDevice {
    pub device: DmaDevice,
    /// The number of its domain among the policy's, from 0 on.
    pub domain: usize,
}

// Whether a device stands in a domain, by its name.
fn stands_in(domain: &Domain, device: &Name) -> bool
    ensures { result ≡ list_any (λ name. bytes_eq name device.now) domain.now.devices }
{
    domain.devices.items().iter().any(|name| *name == *device)
}

// The number of the domain in which a device stands.
#[tactic(auto, unfolding(policy_lawful::specs::Resolution::source_of))]
fn domain_number(policy: &Resolved, device: &Name) -> Option<usize>
    ensures { result ≡ domain_number (source_of policy.now) device.now }
{
    policy
        .device_domains()
        .iter()
        .position(|domain| stands_in(domain, device))
}

// Its devfn.
fn devfn_of(bdf: Bdf) -> u8
    requires device { bdf.device < BDF_DEVICES }
    requires function { bdf.function < BDF_FUNCTIONS }
    ensures { result ≡ devfn_of bdf }
{
    (BDF_FUNCTIONS * bdf.device + bdf.function) as u8
}

// A device with the number of its domain, if it stands in one.
fn domain_device(policy: &Resolved, device: &Device) -> Option<DomainDevice>
    requires { is_bdf device.now.bdf ≡ true }
    ensures { result ≡ domain_device (source_of policy.now) device.now }
{
    let bdf = device.bdf?;
    let domain = domain_number(policy, &device.name)?;
    Some(DomainDevice {
        device: DmaDevice {
            name: device.name,
            bus: bdf.bus,
            devfn: devfn_of(bdf),
        },
        domain,
    })
}

/// The devices that stand in a domain, in the order of the policy's devices.
#[tactic(auto, unfolding(crate::specs::Domains::domain_devices, policy_lawful::specs::Resolution::source_of))]
pub(crate) fn domain_devices(
    alloc: Global,
    policy: &Resolved,
) -> Result<Vec<DomainDevice>, AllocError>
    requires { All (λ d. is_bdf d.bdf ≡ true) policy.now.devices }
    ensures { IfOk result (λ v. v.items ≡ domain_devices (source_of policy.now)) }
{
    policy
        .devices()
        .iter()
        .filter_map(|device| domain_device(policy, device))
        .collect(alloc)
}
