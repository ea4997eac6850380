//! What a subject and a device have to do with each other.
ghost use Rattle.std.specs.Prelude.{◌≡◌, option_map, slice_get, Some};
ghost use Rattle.std.specs.List.{find};
ghost use Rattle.policy_lawful.specs.Resolution.{IsResolved, source_of, subject_named};
ghost use Rattle.device_flows.specs.ByIndex.{domain_meets, has_dma, has_interrupts, has_ports, has_registers, hears_at, is_on_device, meets, shows_region, tells_at};
ghost use Rattle.device_flows.specs.Ends.{are_together, has_device, hears, tells};

use muen_num::{AccessKind, Name};
use policy_lawful::resolved::Subject;
use policy_lawful::source::{Device, Domain, Mapping};
use policy_lawful::{Resolved, Shown, View};

fn has_ports(subject: &Subject, device: usize) -> bool
    ensures { result ≡ has_ports subject.now device }
{
    let granted = subject.devices.items();
    granted
        .iter()
        .any(|one| one.device == device && !one.io_ports.is_empty())
}

fn has_interrupts(subject: &Subject, device: usize) -> bool
    ensures { result ≡ has_interrupts subject.now device }
{
    let granted = subject.devices.items();
    granted
        .iter()
        .any(|one| one.device == device && !one.irqs.is_empty())
}

fn is_on_device(shows: Shown, device: usize) -> bool
    ensures { result ≡ is_on_device device shows }
{
    match shows {
        Shown::Device(owner, _) => owner == device,
        _ => false,
    }
}

// Whether one of the views is on memory of the device.
fn has_registers(views: &[View], device: usize) -> bool
    ensures { result ≡ has_registers views.now device }
{
    views.iter().any(|view| is_on_device(view.shows, device))
}

fn shows_region(view: &View, region: &Name) -> bool
    ensures { result ≡ shows_region region.now view.now.name view.now.shows }
{
    match view.shows {
        Shown::Memory(_) => *region == view.name,
        _ => false,
    }
}

// Whether a view with this right shows the region of the mapping.
fn meets(mapping: &Mapping, other: AccessKind, views: &[View]) -> bool
    ensures { result ≡ meets other views.now mapping.now }
{
    views.iter().any(|view| view.rights.allows(other) && shows_region(view, &mapping.region))
}

fn domain_meets(domain: &Domain, own: AccessKind, other: AccessKind, views: &[View]) -> bool
    ensures { result ≡ domain_meets own other views.now domain.now }
{
    let mappings = domain.memory.items();
    mappings.iter().any(|mapping| mapping.rights.allows(own) && meets(mapping, other, views))
}

fn has_device(domain: &Domain, device: &Name) -> bool
    ensures { result ≡ has_device domain.now device.now }
{
    domain.devices.items().iter().any(|name| *name == *device)
}

// The first domain in which the device of this name stands.
fn domain_with<'a>(domains: &'a [Domain], device: &Name) -> Option<&'a Domain>
    ensures { option_map (λ x. x.now) result ≡ find (λ x. has_device x device.now) domains.now }
{
    domains.iter().find(|domain| has_device(domain, device))
}

// Whether the device may access by itself, in one way, what one of the views may access in the other.
fn has_dma(
    domains: &[Domain],
    device: &Device,
    own: AccessKind,
    other: AccessKind,
    views: &[View],
) -> bool
    ensures { result ≡ has_dma domains.now own other views.now device.now }
{
    match domain_with(domains, &device.name) {
        None => false,
        Some(domain) => domain_meets(domain, own, other, views),
    }
}

fn tells_at(
    domains: &[Domain],
    views: &[View],
    subject: &Subject,
    number: usize,
    device: &Device,
) -> bool
    ensures { result ≡ tells_at domains.now views.now subject.now number device.now }
{
    has_ports(subject, number)
        || has_registers(views, number)
        || has_dma(domains, device, AccessKind::Read, AccessKind::Write, views)
}

fn hears_at(
    domains: &[Domain],
    views: &[View],
    subject: &Subject,
    number: usize,
    device: &Device,
) -> bool
    ensures { result ≡ hears_at domains.now views.now subject.now number device.now }
{
    has_ports(subject, number)
        || has_registers(views, number)
        || has_interrupts(subject, number)
        || has_dma(domains, device, AccessKind::Write, AccessKind::Read, views)
}

/// Whether what the subject at an index does can reach the device at an index: by its ports or its
/// memory, in whatever way it may access these, or by memory that the subject may write and the device
/// may read by itself.
pub(crate) fn tells(
    policy: &Resolved,
    index: usize,
    subject: &Subject,
    number: usize,
    device: &Device,
) -> bool
    requires resolved { IsResolved policy.now }
    requires subject { slice_get policy.now.subjects index ≡ Some subject.now }
    requires device { slice_get policy.now.devices number ≡ Some device.now }
    ensures { result ≡ tells (source_of policy.now) (subject_named policy.now subject.now) device.now }
{
    let (views, domains) = (policy.views(index), policy.device_domains());
    tells_at(domains, views, subject, number, device)
}

/// Whether what the device at an index does can reach the subject at an index: by its ports, its memory
/// or its interrupts, or by memory that the device may write by itself and the subject sees.
pub(crate) fn hears(
    policy: &Resolved,
    index: usize,
    subject: &Subject,
    number: usize,
    device: &Device,
) -> bool
    requires resolved { IsResolved policy.now }
    requires subject { slice_get policy.now.subjects index ≡ Some subject.now }
    requires device { slice_get policy.now.devices number ≡ Some device.now }
    ensures { result ≡ hears (source_of policy.now) (subject_named policy.now subject.now) device.now }
{
    let (views, domains) = (policy.views(index), policy.device_domains());
    hears_at(domains, views, subject, number, device)
}

/// Whether two devices stand in one domain.
#[tactic(auto, unfolding(crate::specs::Ends::are_together, policy_lawful::specs::Resolution::source_of))]
pub(crate) fn are_together(policy: &Resolved, first: &Device, second: &Device) -> bool
    ensures { result ≡ are_together (source_of policy.now) first.now second.now }
{
    let domains = policy.device_domains();
    domains.iter().any(|domain| has_device(domain, &first.name) && has_device(domain, &second.name))
}
